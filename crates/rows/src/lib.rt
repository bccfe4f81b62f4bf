// Lists of bounded length: in places of their own, or in memory that the caller lends.
#![tactic(auto)]

pub mod lent;
pub mod listing;
pub mod row;
