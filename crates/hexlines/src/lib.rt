// Bytes as text: two hexadecimal digits a byte, and lines of such digits.
#![tactic(auto)]

pub mod digits;
pub mod fault;
pub mod line;
#[cfg(test)]
mod tests;
