// Theorems about lists of corrections: no function.
#![tactic(auto)]
