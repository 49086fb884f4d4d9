//! Lists with repetitions: their distinct members and how often each stands there. The laws are
//! clauses of functions that do nothing; the lemmas of `proofs` are theirs and other crates' too.
#![tactic(auto)]

mod laws;

pub use laws::{distinct_laws, grouping_laws};
