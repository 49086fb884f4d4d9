//! Symmetry factors and elementary differentials of trees. They need right sides and trees, and
//! nothing of the coproducts, from which they stand apart.
#![tactic(auto)]

mod answer;
mod denominators;
mod differentials;
mod known_symbols;
mod ordering;
mod products;
mod root_edges;
mod root_factors;
mod sides;
mod symmetry_factors;
mod total_derivatives;
mod weights;

pub use answer::{DiffRefusal, Differential};
pub use differentials::differential;
pub use ordering::ordering_law;
pub use sides::side;
pub use symmetry_factors::{symmetry, symmetry_law};
