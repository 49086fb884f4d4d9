//! Formal sums with whole numbers as coefficients, beside those of `exact_sums`, whose coefficients
//! are at least 0.
#![tactic(auto)]

mod laws;
mod products;
mod sums;

pub use laws::sorted_sums;
pub use products::product;
pub use sums::{size, sum_of_neighbours};
