//! Cuttings of decorated trees read down the tree, and the laws that join them to the definition by
//! numbers. Articles speak of the numbers, programs and proofs of the recursion.
#![tactic(auto)]

mod examples;
mod laws;

pub use examples::{extraction_of_small_trees, recentring_of_small_trees};
pub use laws::{
    flat_form_is_the_tree, greater_shifts_add_no_term, multinomials_entry_by_entry,
    same_sums_by_numbers_and_down_the_tree, split_along_the_edges_of_the_root, sums_by_recursion,
    terms_by_recursion, terms_of_the_coproducts,
};
