//! Equation files: from the bytes of a file to the equation that it writes down. Here the document
//! of a file, the contexts of types and the equations meet, which don't know each other.
#![tactic(auto)]

mod build;
mod collect;
mod context;
mod product;
mod read;
mod refusal;
mod resolve;

pub use context::{context_text, old_context_text};
pub use equation_document::{MOST_BYTES, Reason, Which};
pub use equations::{Equation, RightTerm, Unknown, edge_type_laws, edge_type_order};
pub use read::read_equation;
pub use refusal::FileRefusal;
pub use type_contexts::{
    ContextRefusal, contexts_determine_types, forms_of_contexts, read_context, read_old_context,
};

#[cfg(test)]
mod declarations;
#[cfg(test)]
mod systems;
#[cfg(test)]
mod tests;
