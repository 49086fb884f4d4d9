// Stored values.
ghost use Rattle.std.specs.Prelude.{◌≡◌, ◌<◌, ◌≤◌, ◌<ℤ◌, ◌≤ℤ◌, ℕ, ℤ, List, [], pos, true, map, option_map, unsigned_abs, Some, IfOk, IfErr, IfSome, IsOkUnless, MatchOption};
ghost use Rattle.std.specs.Char.{is_ascii_digit};
ghost use Rattle.std.specs.List.{AllByRecursion, list_all, prefix_len};
ghost use Rattle.degree_numbers.specs.declared.types.Types.{Types};
ghost use Rattle.degree_numbers.specs.Types.{AreTypes};
ghost use Rattle.exact_sums.specs.Saturating.{overflow};
ghost use Rattle.numerals.specs.Numerals.{numeral};
ghost use Rattle.symbol_polys.specs.Polynomials.{PlainTerm, size_of};
ghost use Rattle.symbol_polys.specs.Text.{IsTermOver, poly_text};
ghost use Rattle.symbol_polys.specs.View.{symbol_of, terms_of};
ghost use Rattle.counterterm_report.specs.Stored.{value_text, value_parts, is_expectation, are_expectations, IsInRange, IsReadValue, IsReadPoly, IsNoValueText};
ghost use Rattle.counterterm_report.specs.Values.{IsValue};

use crate::error::ReportError;
use degree_numbers::Types;
use exact_sums::Saturated;
use numerals::{is_numeral, magnitude, put_number};
use std::alloc::Global;
use symbol_polys::{Poly, PolyError, Symbol, Term, print_poly, read_poly};

/// The text of a constant as it is stored: its mass, a space, and the polynomial: `1 -E[xi*u[xi]]`.
/// Fails only for want of memory.
pub fn print_value(alloc: Global, types: &Types, constant: &Poly) -> Result<Vec<u8>, ReportError>
    requires types { AreTypes types.now }
    requires value { IsValue types.now constant.now.mass (terms_of constant.now.terms) }
    ensures text { IfOk result (λ v. v.items ≡ value_text types.now constant.now.mass
        (terms_of constant.now.terms)) }
    ensures memory { IsOkUnless result ReportError.Memory }
{
    let Ok(text) = print_poly(alloc, types, &[], constant) else {
        return Err(ReportError::Memory);
    };
    let mut out = Vec::new(alloc);
    put_number(&mut out, constant.mass.unsigned_abs())?;
    out.extend_from_slice(b" ")?;
    out.extend_from_slice(text.as_slice())?;
    Ok(out)
}

// How many digits stand at the front.
fn digits_len(text: &[u8]) -> usize
    ensures { result ≡ prefix_len is_ascii_digit text.now }
{
    text.iter().take_while(|b| b.is_ascii_digit()).count()
}

// The digits at the front, and what stands behind the space after them.
fn value_parts(text: &[u8]) -> Option<(&[u8], &[u8])>
    ensures { option_map (λ x. (x.0.now, x.1.now)) result ≡ value_parts text.now }
{
    let (digits, rest) = text.split_at(digits_len(text));
    match rest {
        [b' ', poly @ ..] => Some((digits, poly)),
        _ => None,
    }
}

fn in_range(value: Saturated) -> Option<i128>
    ensures value { MatchOption result (overflow ≤ value) (λ z. z ≡ pos value) }
    ensures fits { IfSome result (λ z. unsigned_abs z < overflow) }
{
    value.value()
}

// The mass with these digits, where it is in range.
fn mass_of(digits: &[u8]) -> Option<i128>
    ensures value { IfSome result (λ z. (z ≡ pos (unsigned_abs z))
        × (numeral (unsigned_abs z) ≡ digits.now)) }
    ensures back { (n : ℕ) → n < overflow → numeral n ≡ digits.now → result ≡ Some (pos n) }
{
    if digits == b"0".as_slice() {
        return Some(0);
    }
    if !is_numeral(digits) {
        return None;
    }
    in_range(magnitude(digits))
}

fn is_expectation(s: &Symbol) -> bool
    ensures { result ≡ is_expectation (symbol_of s.now) }
{
    match s {
        Symbol::Expect(_) => true,
        _ => false,
    }
}

fn all_expectations(symbols: &[Symbol]) -> bool
    ensures { result ≡ list_all is_expectation (map symbol_of symbols.now) }
{
    for s in symbols {
        if !is_expectation(s) {
            return false;
        }
    }
    true
}

fn are_expectations(terms: &[Term]) -> bool
    ensures { result ≡ are_expectations (terms_of terms.now) }
{
    for t in terms {
        if !all_expectations(t.symbols.as_slice()) {
            return false;
        }
    }
    true
}

// Why no polynomial is read: want of memory, or that the text is that of none with a mass in range.
fn text_fault(e: PolyError) -> ReportError
    ensures { e ≡ PolyError.Memory → result ≡ ReportError.Memory }
{
    match e {
        PolyError::Memory => ReportError::Memory,
        _ => ReportError::ValueText,
    }
}

// Reads a polynomial over expectations, with the sum of its absolute coefficients for its mass.
fn read_expectations(alloc: Global, types: &Types, text: &[u8]) -> Result<Poly, ReportError>
    requires types { AreTypes types.now }
    ensures value { IfOk result (λ p. IsValue types.now p.mass (terms_of p.terms)) }
    ensures mass { IfOk result (λ p. p.mass ≡ pos (size_of (terms_of p.terms))) }
    ensures text { IfOk result (λ p. poly_text types.now [] (terms_of p.terms) ≡ text.now) }
    ensures back { (mass : ℤ) (ts : List PlainTerm) → IsValue types.now mass ts → IsInRange mass →
        poly_text types.now [] ts ≡ text.now → IsReadPoly result ts }
{
    let p = match read_poly(alloc, types, &[], text) {
        Ok(p) => p,
        Err(e) => return Err(text_fault(e)),
    };
    if !are_expectations(p.terms.as_slice()) {
        return Err(ReportError::ValueText);
    }
    Ok(p)
}

// The polynomial with this mass, where that is at least its own.
fn with_mass(p: Poly, mass: i128) -> Result<Poly, ReportError>
    ensures value { IfOk result (λ q. (q.mass ≡ mass) × (q.terms ≡ p.terms) × (p.mass ≤ℤ mass)) }
    ensures refusal { IfErr result (λ e. (e ≡ ReportError.ValueText) × (mass <ℤ p.mass)) }
{
    if p.mass > mass {
        return Err(ReportError::ValueText);
    }
    Ok(Poly {
        terms: p.terms,
        mass,
    })
}

/// Reads the text of a stored constant, as `print_value` writes it. Fails with `ValueText` exactly
/// where the text is not the one that is printed for a polynomial over expectations of trees, with
/// a mass of at most 2^127-1 that is at least the sum of its absolute coefficients; and for want of
/// memory. So `1 0` is read, and `00 0`, `1 0 ` and `0 E[]` are refused.
pub fn read_value(alloc: Global, types: &Types, text: &[u8]) -> Result<Poly, ReportError>
    requires types { AreTypes types.now }
    ensures value { IfOk result (λ p. IsValue types.now p.mass (terms_of p.terms)) }
    ensures text { IfOk result (λ p. value_text types.now p.mass (terms_of p.terms) ≡ text.now) }
    ensures refusal { IfErr result (λ e. e ≡ ReportError.ValueText →
        IsNoValueText types.now text.now) }
    ensures back { (mass : ℤ) (ts : List PlainTerm) → IsValue types.now mass ts → IsInRange mass →
        value_text types.now mass ts ≡ text.now → IsReadValue result mass ts }
{
    let Some((digits, rest)) = value_parts(text) else {
        return Err(ReportError::ValueText);
    };
    let Some(mass) = mass_of(digits) else {
        return Err(ReportError::ValueText);
    };
    match read_expectations(alloc, types, rest) {
        Ok(p) => with_mass(p, mass),
        Err(e) => Err(e),
    }
}

/// Every value can be printed beside the parameters of an equation; and a text is that of one value
/// at most.
pub fn value_laws()
    ensures printed { (ty : Types) (ps : List (List ℕ)) (mass : ℤ) (ts : List PlainTerm) →
        IsValue ty mass ts → AllByRecursion (IsTermOver ty ps) ts }
    ensures exact { (ty : Types) (m n : ℤ) (ts us : List PlainTerm) → AreTypes ty →
        IsValue ty m ts → IsValue ty n us → value_text ty m ts ≡ value_text ty n us →
        (m ≡ n) × (ts ≡ us) }
{}
