//! The bytes of a response: its status and phrase, its head and body, the list of project names as
//! JSON, and the response that is sent where there is no memory.
#![tactic(auto)]

mod laws;
mod names;
mod response;
mod status;
#[cfg(test)]
mod tests;

pub use laws::names_are_json;
pub use names::put_names;
pub use response::{Content, put_refused, put_response, unavailable};
pub use status::Status;
