//! Examples of trees: by themselves, as texts, by number in pools, and those that vanish.
#![tactic(auto)]

mod beside_a_walk;
mod known_trees;
mod pools;
mod slices;
mod texts;
mod vanishing;
mod walking_pool;

pub use beside_a_walk::sizes_beside_a_walk;
pub use pools::{
    Example, forest_facts, forest_orders, intern_by_edges, intern_by_product, intern_copy,
    intern_example, intern_three_ways, tree_facts, tree_numbers,
};
pub use slices::{edges_without_pool, trees_without_forest_pool};
pub use vanishing::text_vanishes;
