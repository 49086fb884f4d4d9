//! The stages of the completion of a rule, and their laws. It has definitions and laws alone, and
//! no body that could be wrong.
#![tactic(auto)]

mod laws;

pub use laws::{completion_is_closed, next_stage_laws, stages_keep_the_gap};
