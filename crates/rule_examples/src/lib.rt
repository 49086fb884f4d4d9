//! Examples of rules: of known equations and at the bounds, their plans, whether they have a too large
//! tree, and their completions.
#![tactic(auto)]

mod completions;
mod known_rules;
mod plans;
mod too_large_trees;

pub use completions::completion_text;
pub use known_rules::{kpz, phi43, square};
pub use plans::plan_of;
pub use too_large_trees::rule_has_too_large_tree;
