// No code: the laws of tests and lists that the proofs of every layer share (proofs/).
#![tactic(auto)]
