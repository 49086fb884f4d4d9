//! The tables of the two coproducts: recursions down a tree over what its cuttings give, in
//! canonical form. What both coproducts need stands here: the laws of the tables, binomials, shifts
//! and lows.
#![tactic(auto)]

mod laws;
mod lows;
mod parts;

pub use laws::{
    closed_tables_are_the_terms, forests_are_canonical, one_more_edge, one_more_right_branch,
    recentring_tables_are_the_terms, sorted_terms_are_collected, tables_list_the_entries,
    tables_list_the_rooted_entries,
};
pub use lows::{Lows, lows_are_within, lows_of};
pub use parts::{choose_of, parts_below, shifts_below};
