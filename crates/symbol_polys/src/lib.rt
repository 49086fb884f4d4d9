//! Polynomials with whole coefficients over symbols: parameters, derivatives of unknowns, noises,
//! trees and expectations of trees. Each carries a mass, which is at least the sum of its absolute
//! coefficients and bounds those of all that is made of it.
#![tactic(auto)]

mod collecting;
mod derivatives;
mod error;
mod laws;
mod masses;
mod poly;
mod products;
mod reading;
mod reading_powers;
mod reading_symbols;
mod reading_terms;
mod splitting;
mod sums;
mod symbols;
mod term_sums;
#[cfg(test)]
mod tests;
mod text;
mod written;

pub use derivatives::{derive, derive_term};
pub use error::PolyError;
pub use laws::{coefficients_determine, derivative_laws, product_laws};
pub use poly::{Poly, Term, one, scale, symbol, zero};
pub use products::{mul, with_symbol};
pub use reading::{poly_text_laws, read_poly};
pub use sums::add;
pub use symbols::{
    Symbol, copy_symbol, copy_symbols, monomial_order, symbol_order, symbol_order_laws,
};
pub use term_sums::sum_of_terms;
pub use text::print_poly;
