//! The right sides of equations, as they are written. A name is a name here: whether it is that of
//! a parameter, a noise or an unknown is asked where the document is read.
#![tactic(auto)]

mod denominator;
mod fault;
mod laws;
mod reading;
mod written;

pub use denominator::Denominator;
pub use fault::ReadError;
pub use laws::written_terms_are_read_back;
pub use reading::read_right_side;
pub use written::{WrittenFactor, WrittenFraction, WrittenTerm};
