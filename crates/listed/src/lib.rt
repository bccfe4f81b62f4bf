// The listed bank: conditions whose families stand as lists of sets in tables that the caller lends.
#![tactic(auto)]

pub mod bank;
pub mod condition;
mod row;
mod tables;
#[cfg(test)]
mod tests;
