// Rules as the program holds them: a head, and a body of at most eight entries.
#![tactic(auto)]

pub mod entry;
pub mod head;
pub mod rule;
pub mod way;
