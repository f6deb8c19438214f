// Definitions and laws on lists and numbers that the other crates share: no function.
#![tactic(auto)]
