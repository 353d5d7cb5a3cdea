// No code: the proofs of what the definitions of `drive` promise, and the laws of them that the code's proofs use.
#![tactic(auto)]
