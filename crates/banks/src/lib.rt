// What a bank of conditions means, the four questions that every bank answers, two banks side by side, and the limits of every table.
#![tactic(auto)]

pub mod bank;
pub mod pair;
pub mod standing;
pub mod tables;
pub mod verdict;
