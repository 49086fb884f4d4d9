//! Constants that are stored as texts: what the rows of a context hold for trees, the rows of what
//! was computed, and whether a row is true.
#![tactic(auto)]

mod audit;
mod check;
mod error;
mod hold;
mod laws;
mod new;
mod texts;
mod value;

pub use audit::{AuditCause, audit_rows};
pub use check::check_rows;
pub use error::{AuditError, HoldError, ReadError};
pub use hold::{HeldRows, hold_rows};
pub use laws::true_rows;
pub use new::new_rows;
