//! The grammar of tree texts, and where a text leaves it. No tree is made here: a text is judged
//! byte by byte, before one is.
#![tactic(auto)]

mod name_bytes;
mod places;
mod state;
mod steps;
mod words;

pub use places::{place, place_law};
pub use steps::{name_byte, type_named};
pub use words::{
    decorations_in, edges_in, entry_value, first_unknown, is_name, multi_at, word, word_laws,
};
