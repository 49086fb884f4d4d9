//! The types of an equation as a text, under which constants are kept: printed, and read back. A
//! store reads it without an equation file, so it stands apart from these.
#![tactic(auto)]

mod build;
mod draft;
mod file_types;
mod form;
mod laws;
mod print;
mod read;
mod reflect;
mod refusal;
mod scaling;
#[cfg(test)]
mod tests;

pub use file_types::are_file_types;
pub use laws::{contexts_determine_types, forms_of_contexts};
pub use print::{context_text, old_context_text};
pub use read::{read_context, read_old_context};
pub use refusal::ContextRefusal;
