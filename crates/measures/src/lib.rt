// Measures: weights that add up to totals, and totals that are compared.
#![tactic(auto)]

pub mod grade;
pub mod grades;
pub mod kilo;
pub mod kilos;
pub mod measure;
