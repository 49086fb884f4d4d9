//! What the bytes of a connection decide: nothing yet, a refusal, or a command of the workbench
//! with what it takes.
//!
//! A request is a head, as `httparse` takes it, within 16,384 bytes and 64 fields, and a body where
//! its command takes one. Routes go by `matchit`, bodies are read with `serde_json`.
#![tactic(auto)]

mod body;
mod connection;
mod decision;
mod fields;
mod laws;
mod place;
#[cfg(test)]
mod tests;

pub use connection::{decide, decide_at_end, look};
pub use decision::{Ask, Command, Decision, Member, Methods, Progress, Refusal};
pub use fields::BodyLength;
pub use laws::{decided_for_good, places_by_their_paths};
pub use place::{Method, Part, Place, Routes};
