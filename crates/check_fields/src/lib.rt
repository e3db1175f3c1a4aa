// The check of one graph record, field by field (01, "The answer and the refusals", 3 to 5): its arcs,
// its constant, its fan-out with the unused fields, and its site. No state but the sites met so far.
#![tactic(auto)]

pub mod arc;
pub mod constant;
pub mod fan_out;
pub mod site;
