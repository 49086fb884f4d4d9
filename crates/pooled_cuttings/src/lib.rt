//! What cuttings give, by the numbers of a pool: the tables of the two coproducts as lines, and the
//! steps by which they grow edge by edge.
#![tactic(auto)]

mod beside;
mod branches;
mod closing;
mod collecting;
mod grove;
mod inside;
mod keys;
mod laws;
mod left_products;
mod lines;
mod made;
mod made_once;
mod once;
mod outside;
mod raising;
mod right;
mod right_products;
mod right_seeds;
mod right_shifts;
mod seeds;
mod steps;
mod tables;

pub use collecting::{collect_extracted, collect_recentred};
pub use grove::Grove;
pub use keys::{ExtractKey, OpenKey, RightKey};
pub use laws::{equal_keys, growth_laws, right_growth_laws};
pub use right::{right_lines_of_node, with_right_edge};
pub use tables::{NodeTables, TableBounds, closed_lines, tables_of_node, with_edge};
