//! Numbers of any size in decimal, without leading zeros: what is written of a number, and the
//! number that digits write. Polynomials, tables and reports share it.
#![tactic(auto)]

mod digits;

pub use digits::{is_numeral, magnitude, put_number};
