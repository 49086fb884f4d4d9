//! What a report says of trees: their constants, symmetry factors and differentials, in range.
#![tactic(auto)]

mod closed;
mod differentials;
mod error;
mod list;
mod quantity;
mod values;

pub use closed::closed_values;
pub use differentials::differentials_of;
pub use error::ValuesError;
pub use list::all_values;
pub use quantity::{Quantity, quantity_text};
pub use values::values_of;
