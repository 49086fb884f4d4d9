//! Equations: the unknowns with their right sides, the edge types of an equation, and what the
//! equation of every accepted file satisfies. It stands apart from the reader of files, so that the
//! mathematics stands on equations alone.
#![tactic(auto)]

mod edge_types;
mod equation;

pub use edge_types::{edge_type_laws, edge_type_order};
pub use equation::{Equation, RightTerm, Unknown};
