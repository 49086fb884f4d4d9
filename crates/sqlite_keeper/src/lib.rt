//! The store of the workbench in a `sqlite` database: the tables `project`, `result` and `store`.
//!
//! Each call of the keeper is a few statements, whose texts are fixed and take parameters. What
//! changes more than one row runs in one transaction. Where the database refuses a statement for
//! another cause than memory, the keeper's count of faults rises.
#![tactic(auto)]

mod autocommit;
mod failure;
mod keeper;
mod project_table;
mod result_table;
mod schema;
mod steady;
#[cfg(test)]
mod tests;
mod version;

pub use keeper::SqliteKeeper;
pub use steady::Steady;
