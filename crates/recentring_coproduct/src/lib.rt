//! The recentring coproduct of the trees of a pool.
#![tactic(auto)]

mod error;
mod finish;
mod memo;
mod recentrer;
mod table;
mod term;

pub use error::CoproductError;
pub use recentrer::{Recentrer, fit_laws};
pub use term::RightTerm;
