// Terms are read from their texts.
ghost use Rattle.std.specs.Prelude.{◌≡◌, ◌<◌, [], ◌∷◌, ◌++◌, List, IfOk, OnOk, map, length, not};
ghost use Rattle.std.specs.List.{AllByRecursion};
ghost use Rattle.std.specs.Ordering.{is_lt};
ghost use Rattle.degree_numbers.specs.Types.{AreTypes};
ghost use Rattle.symbol_polys.specs.Neighbours.{neighbours};
ghost use Rattle.symbol_polys.specs.Symbols.{symbol_order, HasBoundedTree};
ghost use Rattle.symbol_polys.specs.View.{symbol_of};
ghost use Rattle.symbol_polys.specs.Polynomials.{PlainTerm};
ghost use Rattle.symbol_polys.specs.Reading.{Answers};
ghost use Rattle.symbol_polys.specs.TermReading.{split_sign, behind_empty, begins_with_digit, coefficient_digits, power_factors, written_of, IsTermOf, IsWritten};
ghost use Rattle.symbol_polys.specs.Text.{AreParameters, is_negative, body_text, poly_text};

use crate::error::PolyError;
use crate::reading_powers::read_powers;
use crate::splitting::pieces;
use crate::symbols::{Symbol, symbol_order};
use crate::text::Names;
use crate::written::WrittenTerm;
use numerals::is_numeral;
use std::alloc::{AllocError, Global};

// Whether `-` stands at the front, and what stands behind the sign.
fn split_sign(text: &[u8]) -> (bool, &[u8])
    ensures sign { result.0 ≡ (split_sign text.now).0 }
    ensures behind { result.1.now ≡ (split_sign text.now).1 }
{
    match text {
        [b'-', body @ ..] => (true, body),
        [b'+', body @ ..] => (false, body),
        _ => (false, text),
    }
}

fn begins_with_digit(text: &[u8]) -> bool
    ensures { result ≡ begins_with_digit text.now }
{
    match text {
        [] => false,
        [c, ..] => c.is_ascii_digit(),
    }
}

// The first of the factors, where it begins with a digit, else `1`.
fn coefficient_digits<'a>(factors: &[&'a [u8]]) -> &'a [u8]
    ensures { result.now ≡ coefficient_digits (map (λ f. f.now) factors.now) }
{
    match factors {
        [first, ..] if begins_with_digit(first) => first,
        _ => b"1",
    }
}

// The factors without the coefficient.
fn power_factors<'a, 'b>(factors: &'b [&'a [u8]]) -> &'b [&'a [u8]]
    ensures { map (λ f. f.now) result.now ≡ power_factors (map (λ f. f.now) factors.now) }
{
    match factors {
        [first, powers @ ..] if begins_with_digit(first) => powers,
        _ => factors,
    }
}

fn behind_empty<'a, 'b>(pieces: &'b [&'a [u8]]) -> &'b [&'a [u8]]
    ensures { map (λ f. f.now) result.now ≡ behind_empty (map (λ f. f.now) pieces.now) }
{
    match pieces {
        [first, further @ ..] if first.is_empty() => further,
        _ => pieces,
    }
}

// Whether no symbol is less than the one before it.
fn is_ascending(symbols: &[Symbol]) -> bool
    requires { AllByRecursion HasBoundedTree (map symbol_of symbols.now) }
    ensures { result ≡ neighbours (λ s t. not (is_lt (symbol_order t s)))
        (map symbol_of symbols.now) }
{
    for i in 1..symbols.len() {
        if symbol_order(&symbols[i], &symbols[i - 1]).is_lt() {
            return false;
        }
    }
    true
}

// The term with this text, behind its sign.
fn read_term<'a>(
    alloc: Global,
    names: &Names<'_>,
    piece: &'a [u8],
) -> Result<WrittenTerm<'a>, PolyError>
    requires types { AreTypes names.now.types.now }
    requires parameters { AreParameters names.now.types.now names.now.parameters.now }
    ensures written { IfOk result (IsWritten names.now.types.now names.now.parameters.now) }
    ensures back { (t : PlainTerm) → IsTermOf names.now.types.now names.now.parameters.now t →
        split_sign piece.now
        ≡ (is_negative t.coefficient, body_text names.now.types.now names.now.parameters.now t) →
        Answers written_of result t }
{
    let (is_negative, body) = split_sign(piece);
    let factors = pieces(alloc, body, b"*")?;
    let digits = coefficient_digits(factors.as_slice());
    if !is_numeral(digits) {
        return Err(PolyError::PolyText);
    }
    let symbols = read_powers(alloc, names, power_factors(factors.as_slice()))?;
    if !is_ascending(symbols.as_slice()) {
        return Err(PolyError::PolyText);
    }
    Ok(WrittenTerm {
        is_negative,
        digits,
        symbols,
    })
}

fn keep<'a>(terms: &mut Vec<WrittenTerm<'a>>, term: WrittenTerm<'a>) -> Result<(), AllocError>
    ensures { OnOk result (terms.new.items ≡ terms.old.items ++ term.entry ∷ []) }
{
    terms.push(term)?;
    Ok(())
}

/// The terms of a text, one or more, in the order in which they stand there.
pub(crate) fn read_terms<'a>(
    alloc: Global,
    names: &Names<'_>,
    text: &'a [u8],
) -> Result<Vec<WrittenTerm<'a>>, PolyError>
    requires types { AreTypes names.now.types.now }
    requires parameters { AreParameters names.now.types.now names.now.parameters.now }
    ensures written { IfOk result
        (λ v. AllByRecursion (IsWritten names.now.types.now names.now.parameters.now) v.items) }
    ensures back { (ts : List PlainTerm) →
        AllByRecursion (IsTermOf names.now.types.now names.now.parameters.now) ts → 0 < length ts →
        poly_text names.now.types.now names.now.parameters.now ts ≡ text.now →
        Answers (λ v. map written_of v.items) result ts }
{
    let parts = pieces(alloc, text, b"+-")?;
    let mut terms = Vec::new(alloc);
    for piece in behind_empty(parts.as_slice()) {
        keep(&mut terms, read_term(alloc, names, piece)?)?;
    }
    Ok(terms)
}
