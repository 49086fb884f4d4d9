//! What the texts of degrees, right sides, trees and polynomials have in common: numbers, marks and
//! the spaces between them. They stand below all readers, so that these agree.
#![tactic(auto)]

mod reading;

pub use reading::{is_trimmed, mark_of, nonzero_behind, nonzero_of, number_of, skip};
