// Sums of many terms: they are sorted by their monomials, and those with one monomial are joined.
ghost use Rattle.std.specs.Prelude.{◌≡◌, ◌≢◌, ◌<◌, ◌+◌, ◌+ℤ◌, unsigned_abs, [], ◌∷◌, ◌++◌, map, pos, IfOk, OnOk, IsOkUnless};
ghost use Rattle.std.specs.List.{AllByRecursion};
ghost use Rattle.std.specs.List.Sorted.{IsSorted};
ghost use Rattle.exact_sums.specs.Saturating.{overflow};
ghost use Rattle.symbol_polys.specs.Symbols.{IsMonomial};
ghost use Rattle.symbol_polys.specs.Polynomials.{monomials, size_of, term_order, HaveSameCoefficients, IsPolynomial, IsSumOf};
ghost use Rattle.symbol_polys.specs.View.{symbol_of, term_of, terms_of};

use crate::error::PolyError;
use crate::poly::Term;
use crate::symbols::monomial_order;
use sqlite_items::Items;
use std::alloc::{AllocError, Global};
use std::cmp::Ordering;
use std::marker::Model;

/// A term whose symbols are those of a monomial, so that it can be compared with others.
#[derive(Drop)]
pub(crate) struct OrderedTerm {
    term: Term,
}

impl Model for OrderedTerm {
    ghost use Rattle.std.specs.Prelude.{map};
    ghost use Rattle.symbol_polys.specs.Code.{term_code};
    ghost use Rattle.symbol_polys.specs.Polynomials.{PlainTerm};
    ghost use Rattle.symbol_polys.specs.Symbols.{IsMonomial};
    ghost use Rattle.symbol_polys.specs.View.{symbol_of, term_of};

    ghost Value = { PlainTerm };

    ghost coded = { term_code };

    ghost view = { λ t. term_of t.term };

    ghost invariant = { λ t. IsMonomial (map symbol_of t.term.symbols) };
}

impl OrderedTerm {
    fn order(&self, other: &OrderedTerm) -> Ordering
        ensures { result ≡ term_order self.now other.now }
    {
        monomial_order(self.term.symbols.as_slice(), other.term.symbols.as_slice())
    }

    fn into_term(self) -> Term
        ensures term { term_of result ≡ self }
        ensures monomial { IsMonomial (map symbol_of result.symbols) }
    {
        let OrderedTerm { term } = self;
        term
    }
}

/// Puts a term to those that are to be collected.
pub(crate) fn put(terms: &mut Vec<OrderedTerm>, term: Term) -> Result<(), AllocError>
    requires { IsMonomial (map symbol_of term.symbols) }
    ensures { OnOk result (terms.new.items ≡ terms.old.items ++ term_of term ∷ []) }
{
    terms.push(OrderedTerm { term })?;
    Ok(())
}

// Puts a term to the end, unless its coefficient is 0.
fn close(terms: &mut Vec<OrderedTerm>, term: Term) -> Result<(), AllocError>
    requires { IsMonomial (map symbol_of term.symbols) }
    ensures zero { OnOk result (term.coefficient ≡ pos 0 → terms.new.items ≡ terms.old.items) }
    ensures other { OnOk result (term.coefficient ≢ pos 0 →
        terms.new.items ≡ terms.old.items ++ term_of term ∷ []) }
{
    if term.coefficient != 0 {
        put(terms, term)?;
    }
    Ok(())
}

fn add_to(sum: &mut Term, term: &Term)
    requires { unsigned_abs sum.old.coefficient + unsigned_abs term.now.coefficient < overflow }
    ensures coefficient { sum.new.coefficient ≡ sum.old.coefficient +ℤ term.now.coefficient }
    ensures symbols { sum.new.symbols ≡ sum.old.symbols }
{
    sum.coefficient += term.coefficient;
}

// Joins neighbours with equal monomials, and leaves out what cancels. The first sum that is open is
// 0 times the monomial 1.
fn joined(alloc: Global, sorted: Vec<OrderedTerm>) -> Result<Vec<OrderedTerm>, PolyError>
    requires sorted { IsSorted term_order sorted.items }
    requires size { size_of sorted.items < overflow }
    ensures sum { IfOk result (λ v. IsSumOf sorted.items v.items) }
    ensures memory { IsOkUnless result PolyError.Memory }
{
    let mut terms = Vec::new(alloc);
    let mut open = Term {
        coefficient: 0,
        symbols: Items::new(alloc),
    };
    for next in sorted {
        let next = next.into_term();
        match monomial_order(open.symbols.as_slice(), next.symbols.as_slice()) {
            Ordering::Equal => add_to(&mut open, &next),
            _ => {
                close(&mut terms, open)?;
                open = next;
            }
        }
    }
    close(&mut terms, open)?;
    Ok(terms)
}

/// The sum of many terms. The terms of a polynomial ascend, and so do the products of a term with
/// them: the stable sort merges such runs.
pub(crate) fn simplified(
    alloc: Global,
    terms: Vec<OrderedTerm>,
) -> Result<Vec<OrderedTerm>, PolyError>
    requires { size_of terms.items < overflow }
    ensures sum { IfOk result (λ v. IsSumOf terms.items v.items) }
    ensures memory { IsOkUnless result PolyError.Memory }
{
    let mut sorted = terms;
    sorted.sort_by(|t, u| t.order(u))?;
    joined(alloc, sorted)
}

fn bare_terms(alloc: Global, terms: Vec<OrderedTerm>) -> Result<Items<Term>, PolyError>
    ensures terms { IfOk result (λ ts. terms_of ts ≡ terms.items) }
    ensures each { IfOk result (λ ts. AllByRecursion IsMonomial (monomials (terms_of ts))) }
    ensures memory { IsOkUnless result PolyError.Memory }
{
    let mut bare = Items::new(alloc);
    for term in terms {
        bare.push(term.into_term())?;
    }
    Ok(bare)
}

/// The sum of many terms, as the terms of a polynomial.
pub(crate) fn collected(alloc: Global, terms: Vec<OrderedTerm>) -> Result<Items<Term>, PolyError>
    requires { size_of terms.items < overflow }
    ensures poly { IfOk result (λ ts. IsPolynomial (pos (size_of terms.items)) (terms_of ts)) }
    ensures coefficients { IfOk result (λ ts. HaveSameCoefficients (terms_of ts) terms.items) }
    ensures memory { IsOkUnless result PolyError.Memory }
{
    bare_terms(alloc, simplified(alloc, terms)?)
}
