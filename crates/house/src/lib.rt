// The house bank: five conditions in constant tables.
#![tactic(auto)]

pub mod bank;
pub mod tables;
#[cfg(test)]
mod tests;
