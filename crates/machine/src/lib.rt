// The tagged-token machine is a matter of definitions (specs/) and theorems (proofs/): there is no code here.
#![tactic(auto)]
