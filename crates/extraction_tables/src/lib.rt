//! The table of all cuttings of a tree of a grove, of which all components are extracted: a
//! recursion down the tree.
#![tactic(auto)]

mod bounds;
mod tables;

pub use bounds::bounds_of;
pub use tables::closed_table;
