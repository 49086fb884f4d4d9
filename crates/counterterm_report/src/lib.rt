//! The report of an equation, with its renormalised equation, and the text of a stored constant. It
//! prints the values that it is handed; `tree_values`, above it, computes them.
#![tactic(auto)]

mod error;
mod renormalised;
mod report;
mod right_sides;
mod rules;
mod stored;
mod text;
mod trees;
mod values;

pub use error::ReportError;
pub use report::print_report;
pub use stored::{print_value, read_value, value_laws};
pub use text::{degree_text, poly_text, put_line, put_named_line, type_name};
pub use trees::put_differentials;
pub use values::{DiffValue, ReportValues, TreeValues};
