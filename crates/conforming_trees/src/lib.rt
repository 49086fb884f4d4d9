//! Trees that conform to a rule, the listed trees, and their laws. It has definitions and laws
//! alone, and no body that could be wrong.
#![tactic(auto)]

mod laws;

pub use laws::{conformity_laws, listing_order_laws};
