//! Exact sums of numbers that may be out of range: values, multinomials and formal sums. They know
//! nothing of trees, and the coproducts, constants and polynomials stand on them alike.
#![tactic(auto)]

mod laws;
mod multinomials;
mod saturated;
mod terms;

pub use laws::{
    collected_law, collecting_law, expansion_law, multinomial_laws, product_law, saturated_laws,
};
pub use multinomials::{binomial, multinomial_of};
pub use saturated::Saturated;
pub use terms::{all_in_range, collect_terms, join_equal, join_sorted};
