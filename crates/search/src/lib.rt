// The search for sets that some ranks bear: the next one, and all of them in turn, over any bank.
#![tactic(auto)]

mod drawing;
mod first;
pub mod gather;
mod heads;
pub mod next;
#[cfg(test)]
mod tests;
