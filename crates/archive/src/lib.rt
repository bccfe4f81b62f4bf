// The text of a book: the frames of its rules and pages, line by line.
#![tactic(auto)]

pub mod laws;
pub mod print;
mod spelling;
#[cfg(test)]
mod tests;
mod writing;
