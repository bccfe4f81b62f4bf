// Whether a set keeps rules, whether ranks bear it, and the ranks of the rounds: over any bank.
#![tactic(auto)]

pub mod bearing;
pub mod carrying;
pub mod depth;
pub mod keeping;
pub mod program;
pub mod ranking;
pub mod ranks;
pub mod rounding;
#[cfg(test)]
mod tests;
