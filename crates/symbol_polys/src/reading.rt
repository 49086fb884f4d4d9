// Polynomials are read from their texts.
ghost use Rattle.std.specs.Prelude.{◌≡◌, ◌≤◌, ◌<◌, ◌↔◌, ◌⊎◌, ℕ, ℤ, List, IsTrue, true, pos, map, IfOk, IfErr, IsOkUnless};
ghost use Rattle.std.specs.List.{AllByRecursion};
ghost use Rattle.exact_sums.specs.Saturating.{overflow};
ghost use Rattle.degree_numbers.specs.declared.types.Types.{Types};
ghost use Rattle.degree_numbers.specs.Types.{AreTypes};
ghost use Rattle.symbol_polys.specs.Polynomials.{PlainTerm, size_of, IsPolynomial, IsRefused};
ghost use Rattle.symbol_polys.specs.Reading.{IsSymbolOf, IsTextOf, IsTextRefused, IsReadAs};
ghost use Rattle.numerals.specs.Numerals.{is_numeral};
ghost use Rattle.symbol_polys.specs.TermReading.{written_of, IsWritten};
ghost use Rattle.symbol_polys.specs.Text.{AreParameters, poly_text};
ghost use Rattle.symbol_polys.specs.View.{terms_of, IsPoly};

use crate::error::PolyError;
use crate::poly::{Poly, made, zero};
use crate::reading_terms::read_terms;
use crate::text::Names;
use crate::written::{WrittenTerm, are_ascending, poly_terms, total, written_text};
use degree_numbers::{Name, Types};
use std::alloc::Global;

// Why no terms are read: want of memory, or that the text is no polynomial's.
fn text_fault(e: PolyError) -> PolyError
    ensures cases { (result ≡ PolyError.Memory) ⊎ (result ≡ PolyError.PolyText) }
    ensures memory { e ≡ PolyError.Memory → result ≡ PolyError.Memory }
{
    match e {
        PolyError::Memory => PolyError::Memory,
        _ => PolyError::PolyText,
    }
}

fn has_text(
    alloc: Global,
    names: &Names<'_>,
    terms: &[WrittenTerm<'_>],
    text: &[u8],
) -> Result<bool, PolyError>
    requires types { AreTypes names.now.types.now }
    requires written { AllByRecursion (IsWritten names.now.types.now names.now.parameters.now)
        terms.now }
    ensures same { IfOk result (λ same. IsTrue same
        ↔ (poly_text names.now.types.now names.now.parameters.now (map written_of terms.now)
        ≡ text.now)) }
    ensures memory { IsOkUnless result PolyError.Memory }
{
    let printed = written_text(alloc, names, terms)?;
    Ok(printed.as_slice() == text)
}

// The polynomial with these terms, whose mass is the sum of the absolute coefficients.
fn poly_of(alloc: Global, terms: Vec<WrittenTerm<'_>>) -> Result<Poly, PolyError>
    requires { AllByRecursion (λ w. is_numeral w.digits.now ≡ true) terms.items }
    ensures terms { IfOk result (λ p. terms_of p.terms ≡ map written_of terms.entry.items) }
    ensures mass { IfOk result (λ p. p.mass ≡ pos (size_of (map written_of terms.entry.items))) }
    ensures refusal { IfErr result
        (IsRefused (overflow ≤ size_of (map written_of terms.entry.items))) }
{
    let Some(mass) = total(terms.as_slice()).value() else {
        return Err(PolyError::CoefficientTooLarge);
    };
    Ok(made(poly_terms(alloc, terms)?, mass))
}

/// Reads the text of a polynomial, as `print_poly` writes it. The mass is the sum of the absolute
/// coefficients. The refusals:
///
/// - `PolyText`: the text is not the one that is printed for a polynomial over the types and the
///   parameters, whatever the size of its coefficients.
/// - `CoefficientTooLarge`: it is, and the absolute coefficients sum up to more than 2^127-1.
/// - `Memory`: want of memory.
/// The trees in it are canonical and have at most 24 edges (`MOST_EDGES`) and a decoration sum of
/// at most 4,096 (`MOST_DECORATIONS`). `2*u^2*xi-E[xi]` has the mass 3; `xi*u`, `u*u` and `+u` are
/// refused, since `u*xi`, `u^2` and `u` are printed.
pub fn read_poly(
    alloc: Global,
    types: &Types,
    parameters: &[Name],
    text: &[u8],
) -> Result<Poly, PolyError>
    requires types { AreTypes types.now }
    requires parameters { AreParameters types.now parameters.now }
    ensures poly { IfOk result IsPoly }
    ensures text { IfOk result (λ p. IsTextOf types.now parameters.now text.now
        (terms_of p.terms)) }
    ensures mass { IfOk result (λ p. p.mass ≡ pos (size_of (terms_of p.terms))) }
    ensures refusal { IfErr result (IsTextRefused types.now parameters.now text.now) }
    ensures back { (ts : List PlainTerm) → IsTextOf types.now parameters.now text.now ts →
        IsReadAs result ts }
{
    if text == b"0".as_slice() {
        return zero(alloc);
    }
    let names = Names { types, parameters };
    let terms = match read_terms(alloc, &names, text) {
        Ok(terms) => terms,
        Err(e) => return Err(text_fault(e)),
    };
    if !are_ascending(terms.as_slice()) {
        return Err(PolyError::PolyText);
    }
    if !has_text(alloc, &names, terms.as_slice(), text)? {
        return Err(PolyError::PolyText);
    }
    poly_of(alloc, terms)
}

/// A text is that of the terms of one polynomial at most; and the terms of a polynomial over the
/// types and the parameters are those of the text that is printed for them.
pub fn poly_text_laws()
    ensures exact { (ty : Types) (ps : List (List ℕ)) (text : List ℕ) (ts us : List PlainTerm) →
        AreTypes ty → AreParameters ty ps → IsTextOf ty ps text ts → IsTextOf ty ps text us →
        ts ≡ us }
    ensures printed { (ty : Types) (ps : List (List ℕ)) (mass : ℤ) (ts : List PlainTerm) →
        IsPolynomial mass ts →
        AllByRecursion (λ t. AllByRecursion (IsSymbolOf ty ps) t.symbols) ts →
        IsTextOf ty ps (poly_text ty ps ts) ts }
{}
