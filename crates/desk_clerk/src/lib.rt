//! The workbench as the clerk of the desk over HTTP: what each command of a request does to a store,
//! and with which response; one connection, and connections one after the other.
#![tactic(auto)]

mod replies;
mod serving;
mod workbench;

pub use serving::{answer_connection, serve};
pub use workbench::Workbench;
