//! The store of the workbench: projects by their names, and results, the rows of a context and a
//! tree with their value.
//!
//! The trait says what a keeper tells of its tables, where it tells, and counts its faults: a call
//! answers a fault only where the count rose in it. Beside it stand the keepers in memory.
#![tactic(auto)]

mod error;
mod keeper;
mod laws;
mod memory_keeper;
mod parts;
mod places;
mod project_name;
mod projects;
mod put;
mod quiet_keeper;
mod rows;
mod tables;
#[cfg(test)]
mod tests;

pub use error::KeeperError;
pub use keeper::Keeper;
pub use laws::results_are_rows;
pub use memory_keeper::MemoryKeeper;
pub use parts::{ContextPair, KeptProject, KeptRow, StoredRow};
pub use project_name::ProjectName;
pub use put::Put;
pub use quiet_keeper::QuietKeeper;
