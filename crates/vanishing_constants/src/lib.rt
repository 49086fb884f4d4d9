//! Constants of trees that vanish: they are 0, and may be held before any coproduct is made.
#![tactic(auto)]

mod laws;
mod zeros;

pub use laws::constants_of_vanishing_trees;
pub use zeros::hold_zeros;
