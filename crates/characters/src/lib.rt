//! Characters and their sums over the terms of the coproducts. Tables and coproducts are made
//! below; here they meet.
#![tactic(auto)]

mod act;
mod asked;
mod lacking;
mod line;
mod lookup;
mod multiply;
mod products;
mod questions;
mod refusal;
mod summing;

pub use act::{act_left, act_right};
pub use character_tables::{
    Character, CharacterError, CharacterPart, CharacterRow, growth_laws, read_table, table_laws,
};
pub use line::Line;
pub use multiply::product;
