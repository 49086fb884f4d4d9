//! The extraction coproduct of the trees of a pool.
#![tactic(auto)]

mod error;
mod finish;
mod memo;
mod tables;
mod term;

pub use error::CoproductError;
pub use tables::Tables;
pub use term::{ExtractTerm, Work};
