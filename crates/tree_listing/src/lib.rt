//! The listed trees of a rule: every unplanted tree of negative degree that conforms to it, each
//! once, in order. The bounds by which they are found stand below, in `tree_budgets` and
//! `large_trees`.
#![tactic(auto)]

mod found;
mod growth;
mod level;
mod levels;
mod listing;
mod passes;
mod refusal;
mod roots;
mod stems;
mod wholes;

pub use listing::{Listing, list_trees};
pub use refusal::ListRefusal;
