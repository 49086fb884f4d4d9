// Terms as they are read, and the polynomials that they make.
ghost use Rattle.std.specs.Prelude.{◌≡◌, ◌<◌, ◌++◌, [], true, map, IfOk, OnOk, IsOkUnless};
ghost use Rattle.std.specs.List.{AllByRecursion};
ghost use Rattle.std.specs.Ordering.{is_lt};
ghost use Rattle.std.specs.Str.Parse.{digits_value};
ghost use Rattle.exact_sums.specs.Saturating.{overflow, saturated};
ghost use Rattle.degree_numbers.specs.Types.{AreTypes};
ghost use Rattle.symbol_polys.specs.Neighbours.{neighbours};
ghost use Rattle.symbol_polys.specs.Polynomials.{monomials, size_of};
ghost use Rattle.symbol_polys.specs.Symbols.{monomial_order, HasBoundedTree};
ghost use Rattle.numerals.specs.Numerals.{is_numeral};
ghost use Rattle.symbol_polys.specs.TermReading.{written_of, IsWritten};
ghost use Rattle.symbol_polys.specs.Text.{is_negative, body_text, signed_texts, poly_text};
ghost use Rattle.symbol_polys.specs.View.{symbol_of, term_of, terms_of};

use crate::error::PolyError;
use crate::poly::Term;
use crate::symbols::{Symbol, monomial_order};
use crate::text::{Names, put_body};
use exact_sums::Saturated;
use numerals::magnitude;
use sqlite_items::Items;
use std::alloc::{AllocError, Global};

/// A term as it is read. Its absolute coefficient is kept as its digits, since it may be any
/// number.
#[derive(Drop)]
pub(crate) struct WrittenTerm<'a> {
    pub(crate) is_negative: bool,
    pub(crate) digits: &'a [u8],
    pub(crate) symbols: Items<Symbol>,
}

/// Whether each monomial is less than the next one.
pub(crate) fn are_ascending(terms: &[WrittenTerm<'_>]) -> bool
    requires { AllByRecursion (λ w. AllByRecursion HasBoundedTree (map symbol_of w.symbols))
        terms.now }
    ensures { result ≡ neighbours (λ m n. is_lt (monomial_order m n))
        (monomials (map written_of terms.now)) }
{
    for i in 1..terms.len() {
        let order = monomial_order(terms[i - 1].symbols.as_slice(), terms[i].symbols.as_slice());
        if !order.is_lt() {
            return false;
        }
    }
    true
}

fn is_negative(term: &WrittenTerm<'_>) -> bool
    requires { is_numeral term.now.digits.now ≡ true }
    ensures { result ≡ is_negative (written_of term.now).coefficient }
{
    term.is_negative
}

// A term without its sign.
fn put_written(
    out: &mut Vec<u8>,
    alloc: Global,
    names: &Names<'_>,
    term: &WrittenTerm<'_>,
) -> Result<(), AllocError>
    requires types { AreTypes names.now.types.now }
    requires written { IsWritten names.now.types.now names.now.parameters.now term.now }
    ensures { OnOk result (out.new.items ≡ out.old.items
        ++ body_text names.now.types.now names.now.parameters.now (written_of term.now)) }
{
    put_body(out, alloc, names, term.digits, term.symbols.as_slice())
}

fn put_further(
    out: &mut Vec<u8>,
    alloc: Global,
    names: &Names<'_>,
    terms: &[WrittenTerm<'_>],
) -> Result<(), AllocError>
    requires types { AreTypes names.now.types.now }
    requires written { AllByRecursion (IsWritten names.now.types.now names.now.parameters.now)
        terms.now }
    ensures { OnOk result (out.new.items ≡ out.old.items
        ++ signed_texts names.now.types.now names.now.parameters.now (map written_of terms.now)) }
{
    for term in terms {
        out.push(if is_negative(term) { b'-' } else { b'+' })?;
        put_written(out, alloc, names, term)?;
    }
    Ok(())
}

fn put_all(
    out: &mut Vec<u8>,
    alloc: Global,
    names: &Names<'_>,
    terms: &[WrittenTerm<'_>],
) -> Result<(), AllocError>
    requires types { AreTypes names.now.types.now }
    requires written { AllByRecursion (IsWritten names.now.types.now names.now.parameters.now)
        terms.now }
    ensures { OnOk result (out.new.items ≡ out.old.items
        ++ poly_text names.now.types.now names.now.parameters.now (map written_of terms.now)) }
{
    match terms {
        [] => Ok(out.push(b'0')?),
        [first, further @ ..] => {
            if is_negative(first) {
                out.push(b'-')?;
            }
            put_written(out, alloc, names, first)?;
            put_further(out, alloc, names, further)
        }
    }
}

/// The text of the polynomial with these terms.
pub(crate) fn written_text(
    alloc: Global,
    names: &Names<'_>,
    terms: &[WrittenTerm<'_>],
) -> Result<Vec<u8>, AllocError>
    requires types { AreTypes names.now.types.now }
    requires written { AllByRecursion (IsWritten names.now.types.now names.now.parameters.now)
        terms.now }
    ensures { IfOk result (λ v. v.items ≡ poly_text names.now.types.now names.now.parameters.now
        (map written_of terms.now)) }
{
    let mut out = Vec::new(alloc);
    put_all(&mut out, alloc, names, terms)?;
    Ok(out)
}

/// The sum of the absolute coefficients.
pub(crate) fn total(terms: &[WrittenTerm<'_>]) -> Saturated
    requires { AllByRecursion (λ w. is_numeral w.digits.now ≡ true) terms.now }
    ensures { result ≡ saturated (size_of (map written_of terms.now)) }
{
    let mut sum = Saturated::of(0);
    for term in terms {
        sum = sum.plus(magnitude(term.digits));
    }
    sum
}

// The term, whose coefficient is in range.
fn into_term(term: WrittenTerm<'_>) -> Term
    requires numeral { is_numeral term.digits.now ≡ true }
    requires fits { digits_value 10 term.digits.now < overflow }
    ensures { term_of result ≡ written_of term.entry }
{
    let size = magnitude(term.digits).value().unwrap();
    Term {
        coefficient: if term.is_negative { -size } else { size },
        symbols: term.symbols,
    }
}

/// The terms of a polynomial, whose coefficients are in range.
pub(crate) fn poly_terms(
    alloc: Global,
    terms: Vec<WrittenTerm<'_>>,
) -> Result<Items<Term>, PolyError>
    requires numerals { AllByRecursion (λ w. is_numeral w.digits.now ≡ true) terms.items }
    requires fits { size_of (map written_of terms.items) < overflow }
    ensures terms { IfOk result (λ ts. terms_of ts ≡ map written_of terms.entry.items) }
    ensures memory { IsOkUnless result PolyError.Memory }
{
    let mut made = Items::new(alloc);
    for term in terms {
        made.push(into_term(term))?;
    }
    Ok(made)
}
