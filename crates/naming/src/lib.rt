// What calls name by texts and numbers: ways, heads, entries and rules. A text or number that names nothing is refused.
#![tactic(auto)]

pub mod head;
pub mod rule;
pub mod way;
