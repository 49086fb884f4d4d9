//! Gaussian noises: which trees have expectation 0, and the pairings of the noise edges of a tree.
//! They need a tree and what is declared of its types, and no coproduct.
#![tactic(auto)]

mod laws;
mod noises;
mod pairing;
mod vanishing;

pub use laws::vanishing_law;
pub use pairing::{Pairing, PairingError, pairings};
pub use vanishing::vanishes;
