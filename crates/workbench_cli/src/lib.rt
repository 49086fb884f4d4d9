//! All that the program does: its words and the call `workbench`, over any files, any store, any door
//! and any places to write to; and `run_command`, which is all of it but serving.
#![tactic(auto)]

mod program;
mod reading;
mod serving;
#[cfg(test)]
mod tests;
mod top;
#[cfg(test)]
mod whole_files;
mod words;

pub use program::workbench;
pub use serving::{LARGEST_PORT, MOST_CONNECTIONS};
pub use top::{Status, run_command};
pub use words::read_number;
