// The frames of which the text of a book is made: a line's bytes by what they stand for.
#![tactic(auto)]

pub mod frame;
pub mod reading;
#[cfg(test)]
mod tests;
