//! The twisted antipode, and renormalisation constants.
#![tactic(auto)]

mod antipodes;
mod error;
mod holding;
mod keeping;
mod laws;
mod quotient;
mod recursion;
mod runs;
mod value;

pub use antipodes::{antipode, constant};
pub use error::{AntipodeError, Quantity};
pub use holding::Constants;
pub use laws::{constants_laws, work_laws};
