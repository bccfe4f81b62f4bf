// The book: its rules and pages over a bank, and the calls on it.
#![tactic(auto)]

pub mod breach;
pub mod ledger;
pub mod limits;
pub mod open_book;
pub mod page;
pub mod summary;
#[cfg(test)]
mod tests;
