//! The twisted antipode and the constants, as definitions with their laws. They stand apart from
//! the calls that compute both, so that another way to compute leaves the laws as they are.
#![tactic(auto)]

mod laws;

pub use laws::{
    antipode_masses, constants_are_expectations, constants_may_be_held, masses_bound_coefficients,
    solutions_are_unique, solutions_exist, sums_by_runs, vanishing_trees,
};
