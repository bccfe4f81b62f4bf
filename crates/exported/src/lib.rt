// The search for a program that links the library: conditions, rules and the way come as numbers, and the answer goes out as numbers.
#![tactic(auto)]

mod building;
pub mod numbers;
pub mod searching;
