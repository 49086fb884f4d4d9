//! Examples of characters and their sums.
#![tactic(auto)]

mod asked;
mod sums;
mod tables;
mod texts;

pub use sums::answer;
pub use tables::Sum;
