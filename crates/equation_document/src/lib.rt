//! What an equation file holds: from the bytes of a file to its document, or to its first fault.
//! What the document means as an equation is said above it.
#![tactic(auto)]

mod bounds;
mod degree_entry;
mod denominator;
mod document;
mod entries;
mod fault;
mod names;
mod passed_limits;
mod read;
mod rights;
mod tables;
mod terms;
mod versions;

pub use bounds::{LARGEST_DENOMINATOR, MOST_BYTES, MOST_NAMES};
pub use degree_entry::DegreeEntry;
pub use document::{Document, NoiseEntry, UnknownEntry};
pub use fault::{Entry, Fault, Field, ReadError, Reason, Section, Which};
pub use names::{Names, place_of, stands_in};
pub use passed_limits::{denominator_of, units_of};
pub use read::read_document;
