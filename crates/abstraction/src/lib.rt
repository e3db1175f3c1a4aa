// What the records of a ledger and of the cells say of the machine's state: definitions (specs/) and laws (proofs/), no code.
#![tactic(auto)]
