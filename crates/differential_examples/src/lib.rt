//! Examples of elementary differentials.
#![tactic(auto)]

mod rows;

pub use rows::rows_law;
