//! The detail of a tree: all that the workbench computes of it, as a text. Here the coproducts,
//! pairings, antipode and differentials meet.
#![tactic(auto)]

mod coproducts;
mod detail;
mod pairings;
mod polynomials;
mod text;
mod values;

pub use detail::{Detail, Polynomials, print_detail};
pub use text::tree_text;
pub use values::detail_values;
