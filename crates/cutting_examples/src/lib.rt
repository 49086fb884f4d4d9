//! The term lists of both coproducts, compared with those of a plain program, which takes the
//! cuttings of a tree one by one.
#![tactic(auto)]

mod choices;
mod compared;
mod counts;
mod cutting;
mod flat;
mod listed;
mod numbers;
mod terms;
#[cfg(test)]
mod tests;

pub use compared::{Comparison, compared_extractions, compared_recentrings};
pub use counts::{Count, extraction_terms, recentring_terms};
