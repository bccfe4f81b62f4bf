// The refusals of the whole product, in one enum.
#![tactic(auto)]

pub mod refusal;
pub mod showing;
pub mod telling;
