//! Multiindices, degrees, names and the types of an equation. Trees, rules and files are all
//! written over them, so they stand below.
#![tactic(auto)]

mod degree;
mod degree_text;
mod edge_text;
mod fraction;
mod laws;
mod lowest;
mod multi;
mod multinomials;
mod name;
mod part;
mod print;
mod reading;
mod reduced;
mod refusal;
mod scaled;
mod small_text;
#[cfg(test)]
mod tests;
mod types;
mod units;
mod written;

pub use degree::{Degree, Units};
pub use degree_text::degree_parts;
pub use edge_text::{put_edge_type, put_multi};
pub use laws::{degrees_are_ordered, degrees_are_read_back, multis_are_ordered};
pub use multi::Multi;
pub use multinomials::multinomial;
pub use name::Name;
pub use part::{Fraction, Part, Parts};
pub use print::print_degree;
pub use reading::{first_large, fraction_with, read_degree};
pub use refusal::DegreeRefusal;
pub use small_text::SmallText;
pub use types::{Kind, TypeEntry, TypeId, Types};
pub use units::{common_denominator, in_units, join_units, with_denominator};
pub use written::WrittenDegree;
