// Bytes and values: the records of a graph, of a ledger, of the cells, of a log, of a table of arrays and of an expression, the tags of tokens, and the keys that a listing goes by.
#![tactic(auto)]

pub mod array;
pub mod cell;
pub mod codec;
pub mod instruction;
pub mod key;
pub mod log;
pub mod operation;
pub mod pick;
pub mod tag;
pub mod term;
pub mod token;
