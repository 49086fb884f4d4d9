//! What the workbench asks of the outside: files that are read whole, places to write to, and
//! connections that peers make.
//!
//! Each trait says what an object tells of its content, where it tells, and counts its faults: a
//! call answers a fault only where the count rose in it. Beside the adapters over the host stand
//! objects in memory, for tests.
#![tactic(auto)]

mod book;
mod door;
mod files;
mod host_files;
mod lookup;
mod mark;
mod memory_door;
mod memory_files;
mod memory_sink;
mod named_text;
mod quiet_files;
mod quiet_sink;
mod sink;
mod stream_sink;
mod tcp_door;
#[cfg(test)]
mod tests;

pub use door::Door;
pub use files::{Files, OutsideError};
pub use host_files::HostFiles;
pub use memory_door::MemoryDoor;
pub use memory_files::MemoryFiles;
pub use memory_sink::MemorySink;
pub use named_text::NamedText;
pub use quiet_files::QuietFiles;
pub use quiet_sink::QuietSink;
pub use sink::{Failed, Sink};
pub use stream_sink::StreamSink;
pub use tcp_door::TcpDoor;
