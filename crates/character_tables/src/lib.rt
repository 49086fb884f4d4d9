//! Characters as tables: trees with their values, and the texts that they are read from. They stand
//! apart from the sums over coproducts, since a table is read without one.
#![tactic(auto)]

mod error;
mod laws;
mod lines;
mod numbers;
mod reading;
mod rows;
mod table;
mod trees;

pub use error::{CharacterError, CharacterPart};
pub use laws::{growth_laws, table_laws};
pub use reading::read_table;
pub use table::{Character, CharacterRow};
