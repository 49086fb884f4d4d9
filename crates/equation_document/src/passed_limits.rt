// The limits of a file, in the order in which they are sought.
ghost use Rattle.std.specs.Prelude.{◌≡◌, ◌<◌, IfOk, OnOk, fold, []};
ghost use Rattle.equation_document.specs.FirstOf.{over, first_of};
ghost use Rattle.equation_document.specs.Gives.{Gives};
ghost use Rattle.equation_document.specs.Limits.{limit, noise_number, unknown_number, file_number, noise_size, unknown_size, file_size, with_fractions, noise_fractions, unknown_fractions, degree_fractions, units_of, with_coefficients, coefficients, denominator_of, right_terms, counts_of, numbers_of, rights_of, limits_of};
ghost use Rattle.equation_document.specs.Terms.{term_number, term_factors, term_derivative};

use crate::bounds::{
    LARGEST_DENOMINATOR, LARGEST_SCALING, MOST_DIMENSIONS, MOST_NAMES, MOST_TERMS,
};
use crate::degree_entry::{DegreeEntry, written};
use crate::denominator::least_common_of;
use crate::document::{Document, NoiseEntry, UnknownEntry};
use crate::fault::{Fault, ReadError, Which};
use crate::terms::{first_over, over, terms_derivative, terms_factors, terms_number};
use right_side_text::{WrittenFraction, WrittenTerm};
use sqlite_items::Items;
use std::alloc::{AllocError, Global};

fn limit(which: Which, found: Option<u64>) -> Result<(), ReadError>
    ensures { Gives (λ x. x) result (limit which found) }
{
    match found {
        None => Ok(()),
        Some(count) => Err(ReadError::Wrong(Fault::Limit(which, count))),
    }
}

fn noises_number(noises: &[NoiseEntry]) -> Option<u64>
    ensures { result ≡ first_of noise_number noises.now }
{
    for noise in noises {
        if let Some(passed) = noise.degree.large() {
            return Some(passed);
        }
    }
    None
}

fn unknown_number(unknown: &UnknownEntry) -> Option<u64>
    ensures { result ≡ unknown_number unknown.now }
{
    match unknown.degree.large() {
        Some(passed) => Some(passed),
        None => unknown.regularity.large(),
    }
}

fn unknowns_number(unknowns: &[UnknownEntry]) -> Option<u64>
    ensures { result ≡ first_of unknown_number unknowns.now }
{
    for unknown in unknowns {
        if let Some(passed) = unknown_number(unknown) {
            return Some(passed);
        }
    }
    None
}

fn rights_number(rights: &[Items<WrittenTerm>]) -> Option<u64>
    ensures { result ≡ first_of (first_of term_number) rights.now }
{
    for right in rights {
        if let Some(passed) = terms_number(right.as_slice()) {
            return Some(passed);
        }
    }
    None
}

fn file_number(document: &Document) -> Option<u64>
    ensures { result ≡ file_number document.now }
{
    if let Some(passed) = noises_number(document.noises.as_slice()) {
        return Some(passed);
    }
    if let Some(passed) = unknowns_number(document.unknowns.as_slice()) {
        return Some(passed);
    }
    rights_number(document.rights.as_slice())
}

fn noises_size(noises: &[NoiseEntry]) -> Option<u64>
    ensures { result ≡ first_of noise_size noises.now }
{
    for noise in noises {
        if let Some(passed) = noise.degree.size() {
            return Some(passed);
        }
    }
    None
}

fn unknown_size(unknown: &UnknownEntry) -> Option<u64>
    ensures { result ≡ unknown_size unknown.now }
{
    match unknown.degree.size() {
        Some(passed) => Some(passed),
        None => unknown.regularity.size(),
    }
}

fn unknowns_size(unknowns: &[UnknownEntry]) -> Option<u64>
    ensures { result ≡ first_of unknown_size unknowns.now }
{
    for unknown in unknowns {
        if let Some(passed) = unknown_size(unknown) {
            return Some(passed);
        }
    }
    None
}

fn file_size(document: &Document) -> Option<u64>
    ensures { result ≡ file_size document.now }
{
    match noises_size(document.noises.as_slice()) {
        Some(passed) => Some(passed),
        None => unknowns_size(document.unknowns.as_slice()),
    }
}

fn add_fractions(
    fractions: &mut Items<WrittenFraction>,
    degree: &DegreeEntry,
) -> Result<(), AllocError>
    ensures { OnOk result (fractions.new ≡ with_fractions fractions.old degree.now) }
{
    fractions.push(written(degree.plain()))?;
    fractions.push(written(degree.with_k()))?;
    Ok(())
}

fn add_noises(
    fractions: &mut Items<WrittenFraction>,
    noises: &[NoiseEntry],
) -> Result<(), AllocError>
    ensures { OnOk result (fractions.new ≡ fold noise_fractions fractions.old noises.now) }
{
    for noise in noises {
        add_fractions(fractions, &noise.degree)?;
    }
    Ok(())
}

fn add_unknown(
    fractions: &mut Items<WrittenFraction>,
    unknown: &UnknownEntry,
) -> Result<(), AllocError>
    ensures { OnOk result (fractions.new ≡ unknown_fractions fractions.old unknown.now) }
{
    add_fractions(fractions, &unknown.degree)?;
    add_fractions(fractions, &unknown.regularity)?;
    Ok(())
}

fn add_unknowns(
    fractions: &mut Items<WrittenFraction>,
    unknowns: &[UnknownEntry],
) -> Result<(), AllocError>
    ensures { OnOk result (fractions.new ≡ fold unknown_fractions fractions.old unknowns.now) }
{
    for unknown in unknowns {
        add_unknown(fractions, unknown)?;
    }
    Ok(())
}

/// The least common denominator of all degrees and regularities, which stops at 2^63-1.
#[tactic(auto, unfolding(crate::specs::Limits::units_of))]
pub fn units_of(alloc: Global, document: &Document) -> Result<u64, AllocError>
    ensures value { IfOk result (λ n. n ≡ units_of document.now) }
    ensures above { IfOk result (λ n. 0 < n) }
{
    let mut fractions = Items::new(alloc);
    add_noises(&mut fractions, document.noises.as_slice())?;
    add_unknowns(&mut fractions, document.unknowns.as_slice())?;
    Ok(least_common_of(fractions.as_slice()))
}

fn add_coefficients(
    fractions: &mut Items<WrittenFraction>,
    terms: &[WrittenTerm],
) -> Result<(), AllocError>
    ensures { OnOk result (fractions.new ≡ with_coefficients fractions.old terms.now) }
{
    for term in terms {
        fractions.push(term.coefficient)?;
    }
    Ok(())
}

fn coefficients_of(
    alloc: Global,
    rights: &[Items<WrittenTerm>],
) -> Result<Items<WrittenFraction>, AllocError>
    ensures { IfOk result (λ v. v ≡ fold with_coefficients [] rights.now) }
{
    let mut fractions = Items::new(alloc);
    for right in rights {
        add_coefficients(&mut fractions, right.as_slice())?;
    }
    Ok(fractions)
}

/// The least common denominator of all written coefficients, which stops at 2^63-1.
#[tactic(auto, unfolding(crate::specs::Limits::denominator_of))]
pub fn denominator_of(alloc: Global, document: &Document) -> Result<u64, AllocError>
    ensures value { IfOk result (λ n. n ≡ denominator_of document.now) }
    ensures above { IfOk result (λ n. 0 < n) }
{
    let fractions = coefficients_of(alloc, document.rights.as_slice())?;
    Ok(least_common_of(fractions.as_slice()))
}

fn rights_terms(rights: &[Items<WrittenTerm>]) -> Option<u64>
    ensures { result ≡ first_of right_terms rights.now }
{
    for right in rights {
        if let Some(passed) = over(MOST_TERMS, right.len() as u64) {
            return Some(passed);
        }
    }
    None
}

fn rights_factors(rights: &[Items<WrittenTerm>]) -> Option<u64>
    ensures { result ≡ first_of (first_of term_factors) rights.now }
{
    for right in rights {
        if let Some(passed) = terms_factors(right.as_slice()) {
            return Some(passed);
        }
    }
    None
}

fn rights_derivative(rights: &[Items<WrittenTerm>]) -> Option<u64>
    ensures { result ≡ first_of (first_of term_derivative) rights.now }
{
    for right in rights {
        if let Some(passed) = terms_derivative(right.as_slice()) {
            return Some(passed);
        }
    }
    None
}

// The limits on how much there is.
#[tactic(auto, unfolding(crate::specs::Limits::counts_of))]
fn counts_of(document: &Document) -> Result<(), ReadError>
    ensures { Gives (λ x. x) result (counts_of document.now) }
{
    let scaling = document.scaling.as_slice();
    limit(
        Which::Dimensions,
        over(MOST_DIMENSIONS, scaling.len() as u64),
    )?;
    limit(Which::Scaling, first_over(LARGEST_SCALING, scaling))?;
    limit(
        Which::Parameters,
        over(MOST_NAMES, document.names.first_noise as u64),
    )?;
    limit(
        Which::Noises,
        over(MOST_NAMES, document.noises.len() as u64),
    )?;
    limit(
        Which::Unknowns,
        over(MOST_NAMES, document.unknowns.len() as u64),
    )
}

// The limits on numbers and degrees.
#[tactic(auto, unfolding(crate::specs::Limits::numbers_of))]
fn numbers_of(alloc: Global, document: &Document) -> Result<(), ReadError>
    ensures { Gives (λ x. x) result (numbers_of document.now) }
{
    limit(Which::Number, file_number(document))?;
    limit(Which::Degree, file_size(document))?;
    let units = units_of(alloc, document)?;
    limit(Which::Unit, over(LARGEST_DENOMINATOR, units))
}

// The limits on right sides.
#[tactic(auto, unfolding(crate::specs::Limits::rights_of))]
fn rights_of(alloc: Global, document: &Document) -> Result<(), ReadError>
    ensures { Gives (λ x. x) result (rights_of document.now) }
{
    let rights = document.rights.as_slice();
    limit(Which::Terms, rights_terms(rights))?;
    limit(Which::Factors, rights_factors(rights))?;
    limit(Which::Derivative, rights_derivative(rights))?;
    let denominator = denominator_of(alloc, document)?;
    limit(Which::Denominator, over(LARGEST_DENOMINATOR, denominator))
}

/// The first limit that a file passes.
#[tactic(auto, unfolding(crate::specs::Limits::limits_of))]
pub fn limits_of(alloc: Global, document: &Document) -> Result<(), ReadError>
    ensures { Gives (λ x. x) result (limits_of document.now) }
{
    counts_of(document)?;
    numbers_of(alloc, document)?;
    rights_of(alloc, document)
}
