// What is measured of the terms of a right side.
ghost use Rattle.std.specs.Prelude.{◌≡◌, min};
ghost use Rattle.text_parts.specs.Reading.{most};
ghost use Rattle.equation_document.specs.FirstOf.{over, first_of};
ghost use Rattle.equation_document.specs.Terms.{factor_number, term_number, power_of, term_factors, factor_derivative, term_derivative};

use crate::bounds::{LARGEST_ENTRY, LARGEST_NUMBER, MOST, MOST_FACTORS};
use right_side_text::{WrittenFactor, WrittenTerm};

/// A number that passes a limit.
pub fn over(most: u64, number: u64) -> Option<u64>
    ensures { result ≡ over most number }
{
    if number > most { Some(number) } else { None }
}

/// The first number that passes a limit.
pub fn first_over(most: u64, numbers: &[u64]) -> Option<u64>
    ensures { result ≡ first_of (over most) numbers.now }
{
    for number in numbers {
        if let Some(passed) = over(most, *number) {
            return Some(passed);
        }
    }
    None
}

fn factor_number(factor: &WrittenFactor) -> Option<u64>
    ensures { result ≡ factor_number factor.now }
{
    match first_over(LARGEST_NUMBER, factor.entries.as_slice()) {
        Some(passed) => Some(passed),
        None => over(LARGEST_NUMBER, factor.power),
    }
}

fn factors_number(factors: &[WrittenFactor]) -> Option<u64>
    ensures { result ≡ first_of factor_number factors.now }
{
    for factor in factors {
        if let Some(passed) = factor_number(factor) {
            return Some(passed);
        }
    }
    None
}

fn term_number(term: &WrittenTerm) -> Option<u64>
    ensures { result ≡ term_number term.now }
{
    if let Some(passed) = over(LARGEST_NUMBER, term.coefficient.num) {
        return Some(passed);
    }
    if let Some(passed) = over(LARGEST_NUMBER, term.coefficient.den.get()) {
        return Some(passed);
    }
    factors_number(term.factors.as_slice())
}

/// The first written number of a right side past 1,000,000 (`LARGEST_NUMBER`).
pub fn terms_number(terms: &[WrittenTerm]) -> Option<u64>
    ensures { result ≡ first_of term_number terms.now }
{
    for term in terms {
        if let Some(passed) = term_number(term) {
            return Some(passed);
        }
    }
    None
}

/// The number of factors, counted with their powers; it stops at 2^63-1.
fn power_of(term: &WrittenTerm) -> u64
    ensures { result ≡ min (power_of term.now) most }
{
    let mut power = 0u64;
    for factor in term.factors.as_slice() {
        power = power.saturating_add(factor.power).min(MOST);
    }
    power
}

/// The number of factors of the first term that has more than 24, counted with their powers.
pub fn terms_factors(terms: &[WrittenTerm]) -> Option<u64>
    ensures { result ≡ first_of term_factors terms.now }
{
    for term in terms {
        if let Some(passed) = over(MOST_FACTORS, power_of(term)) {
            return Some(passed);
        }
    }
    None
}

fn term_derivative(term: &WrittenTerm) -> Option<u64>
    ensures { result ≡ term_derivative term.now }
{
    for factor in term.factors.as_slice() {
        if let Some(passed) = first_over(LARGEST_ENTRY, factor.entries.as_slice()) {
            return Some(passed);
        }
    }
    None
}

/// The first entry of a derivative past 8 (`LARGEST_ENTRY`).
pub fn terms_derivative(terms: &[WrittenTerm]) -> Option<u64>
    ensures { result ≡ first_of term_derivative terms.now }
{
    for term in terms {
        if let Some(passed) = term_derivative(term) {
            return Some(passed);
        }
    }
    None
}
