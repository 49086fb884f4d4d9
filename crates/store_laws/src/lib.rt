//! What the commands do to sound tables, and what they answer on them. Laws alone: there is no body
//! to turn.
#![tactic(auto)]

mod laws;

pub use laws::{sound_tables_say_what_is_true, soundness_is_kept};
