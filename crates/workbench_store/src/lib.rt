//! The commands over a store: projects, their reports by the rows that are kept, the audit of all
//! rows, and the migration of an old store.
#![tactic(auto)]

mod auditing;
mod command;
mod computing;
mod migration;
mod project;
mod read;
mod report;
mod request;
mod run;

pub use auditing::audit;
pub use command::{Command, Given};
pub use computing::compute;
pub use migration::migrate;
pub use project::{add, names, remove, show};
pub use read::{act, detail, multiply, trees};
pub use request::Request;
pub use run::run_on;
