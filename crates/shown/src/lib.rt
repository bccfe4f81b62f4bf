// Sets and ranks as they are printed.
#![tactic(auto)]

pub mod braces;
pub mod ranked;
