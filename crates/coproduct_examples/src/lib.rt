//! Examples of both coproducts.
#![tactic(auto)]

mod extraction;
mod extraction_calls;
mod extraction_texts;
mod recentring;
mod recentring_texts;
mod slices;
mod trees;

pub use extraction::asked_extraction;
pub use extraction_calls::{forest_in_both_orders, work_of_two_calls, work_of_two_trees};
pub use extraction_texts::{extraction_of_file, extraction_text};
pub use recentring::{asked_recentring, terms_of_two_calls};
pub use recentring_texts::{TermCount, recentring_of_file, recentring_text, term_count_of_file};
pub use slices::terms_without_tables;
