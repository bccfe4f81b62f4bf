// The weighed bank: conditions on the total of the weights that a set's decisions have, over any measure.
#![tactic(auto)]

pub mod bank;
pub mod condition;
pub mod end;
mod tables;
mod weighing;
