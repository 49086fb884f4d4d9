//! How large the components and quotients of cuttings are, as laws. Both coproducts, the antipode
//! and the store stand on these bounds.
#![tactic(auto)]

mod laws;

pub use laws::{
    bounds_of_canonical_trees, cuttings_keep_the_types, cuttings_of_bounded_trees, degrees_add_up,
    entries_add_up, entries_of_one_more_edge, extracted_trees_are_smaller, lows_of_components,
    recentrings_of_fit_trees, shifts_of_bounded_trees, subtrees_are_bounded, sums_of_parts,
    terms_add_up, terms_come_from_cuttings,
};
