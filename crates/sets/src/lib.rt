// Sets of decisions: the vocabulary in which every statement of the repository is written.
#![tactic(auto)]

pub mod coming;
pub mod decision;
pub mod decisions;
pub mod laws;
pub mod set;
pub mod span;
pub mod walk;
