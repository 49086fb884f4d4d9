//! Whether some tree of a degree of at most 0 is too large, without listing it. It stands apart
//! from the listing, since it makes no tree: it goes through tables of least degrees.
#![tactic(auto)]

mod bounded;
mod cells;
mod charges;
mod count;
mod excess;
mod gaps;
mod large;
mod lengths;
mod line;
mod lower_bounds;
mod nodes;
mod roots;
mod rounds;
mod unit;

pub use large::has_too_large_tree;
