//! When no coefficient of the extraction coproduct of a tree can be too large: a bound of their
//! sum, by a recursion down the tree.
#![tactic(auto)]

mod laws;
mod small;
mod sums;

pub use laws::small_coefficients_are_in_range;
pub use small::has_small_coefficients;
