//! Lists in order: members, insertion, what determines a sorted list, sub-multisets. The laws are
//! clauses of functions that do nothing; the lemmas of `proofs` are theirs and other crates' too.
#![tactic(auto)]

mod laws;

pub use laws::{insertion_laws, members_determine, sub_multiset_laws};
