// Demand 3: the calls on a held frame and its ledger against the reference model (document 01: the plain book), as theorems about the definitions of the other crates: no function.
#![tactic(auto)]
