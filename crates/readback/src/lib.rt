// The read-back theorem: proofs/ReadBack.antt. No code.
#![tactic(auto)]
