// What an instruction does with its operands: document 01, "Firing", without a look at ledger or
// cells. In the order of Memo 205-1: the operation, then the new tags.
#![tactic(auto)]

pub mod operate;
pub mod output;
pub mod tags;
