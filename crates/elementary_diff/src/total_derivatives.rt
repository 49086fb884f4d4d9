// Total derivatives of terms.
ghost use Rattle.std.specs.Prelude.{◌≡◌, ◌<◌, ◌++◌, map, pos, IfOk, OnOk, IsOkUnless};
ghost use Rattle.symbol_polys.specs.Polynomials.{monomials, size_of, HaveSameCoefficients, IsPolynomial};
ghost use Rattle.symbol_polys.specs.Symbols.{HasBoundedTree, IsMonomial};
ghost use Rattle.std.specs.List.{AllByRecursion};
ghost use Rattle.exact_sums.specs.Saturating.{overflow};
ghost use Rattle.symbol_polys.specs.View.{symbol_of, term_of, terms_of};
ghost use Rattle.elementary_diff.specs.Differentials.{one_more, further_symbol, further, total_derivative};
ghost use Rattle.elementary_diff.specs.Low.{most_entry, AreAtMost, IsLow, IsLowMonomial, AreLow};
ghost use Rattle.elementary_diff.specs.Places.{with_coefficient, own_places, times_symbol};

use crate::sides::keep;
use degree_numbers::Multi;
use sqlite_items::Items;
use std::alloc::{AllocError, Global};
use symbol_polys::{Poly, PolyError, Symbol, Term, copy_symbol, sum_of_terms, with_symbol};

// The multiindex with one more in a direction.
fn one_more(direction: usize, m: &Multi) -> Multi
    requires direction { direction < 5 }
    requires small { AreAtMost most_entry m.now.entries }
    ensures { result.entries ≡ one_more direction m.now.entries }
{
    let mut entries = m.entries;
    entries[direction] += 1;
    Multi { entries }
}

// The product of the first symbol with one more derivative, where it is a variable, and the rest,
// with the coefficient of another term.
fn at_first(
    alloc: Global,
    direction: usize,
    like: &Term,
    first: &Symbol,
    rest: &[Symbol],
) -> Result<Vec<Term>, PolyError>
    requires direction { direction < 5 }
    requires first { IsLow most_entry (symbol_of first.now) }
    requires rest { IsMonomial (map symbol_of rest.now) }
    ensures value { IfOk result (λ v. terms_of v.items ≡ with_coefficient like.now.coefficient
        (own_places direction (symbol_of first.now) (map symbol_of rest.now))) }
    ensures memory { IsOkUnless result PolyError.Memory }
{
    let mut terms = Vec::new(alloc);
    if let Symbol::Variable(k, m) = first {
        let moved = Symbol::Variable(*k, one_more(direction, m));
        let symbols = with_symbol(alloc, moved, rest)?;
        let coefficient = like.coefficient;
        keep(
            &mut terms,
            Term {
                coefficient,
                symbols,
            },
        )?;
    }
    Ok(terms)
}

// Puts the terms behind others, each times a symbol.
fn put_with(
    alloc: Global,
    s: &Symbol,
    terms: &[Term],
    products: &mut Vec<Term>,
) -> Result<(), PolyError>
    requires s { HasBoundedTree (symbol_of s.now) }
    requires terms { AllByRecursion IsMonomial (monomials (terms_of terms.now)) }
    ensures items { OnOk result (terms_of products.new.items ≡ terms_of products.old.items
        ++ map (times_symbol (symbol_of s.now)) (terms_of terms.now)) }
    ensures memory { IsOkUnless result PolyError.Memory }
{
    for term in terms {
        let copy = copy_symbol(alloc, s)?;
        let product = Term {
            coefficient: term.coefficient,
            symbols: with_symbol(alloc, copy, term.symbols.as_slice())?,
        };
        keep(products, product)?;
    }
    Ok(())
}

// The terms with the coefficient of another in which one variable has one more derivative, for each
// of the variables.
fn further(
    alloc: Global,
    direction: usize,
    like: &Term,
    symbols: &[Symbol],
) -> Result<Vec<Term>, PolyError>
    requires direction { direction < 5 }
    requires low { IsLowMonomial most_entry (map symbol_of symbols.now) }
    ensures value { IfOk result (λ v. terms_of v.items ≡ with_coefficient like.now.coefficient
        (further direction (map symbol_of symbols.now))) }
    ensures memory { IsOkUnless result PolyError.Memory }
{
    match symbols {
        [] => Ok(Vec::new(alloc)),
        [first, rest @ ..] => {
            let mut terms = at_first(alloc, direction, like, first, rest)?;
            let later = further(alloc, direction, like, rest)?;
            put_with(alloc, first, later.as_slice(), &mut terms)?;
            Ok(terms)
        }
    }
}

fn put_all(terms: &mut Vec<Term>, more: Vec<Term>) -> Result<(), AllocError>
    ensures { OnOk result (terms.new.items ≡ terms.old.items ++ more.items) }
{
    for term in more {
        keep(terms, term)?;
    }
    Ok(())
}

/// The total derivative of terms in a direction.
pub(crate) fn total_derivative(
    alloc: Global,
    direction: usize,
    terms: &[Term],
) -> Result<Vec<Term>, PolyError>
    requires direction { direction < 5 }
    requires low { AreLow most_entry (terms_of terms.now) }
    ensures value { IfOk result (λ v. terms_of v.items ≡ total_derivative direction
        (terms_of terms.now)) }
    ensures memory { IsOkUnless result PolyError.Memory }
{
    let mut derived = Vec::new(alloc);
    for term in terms {
        put_all(
            &mut derived,
            further(alloc, direction, term, term.symbols.as_slice())?,
        )?;
    }
    Ok(derived)
}

/// The same, where each monomial stands once.
pub(crate) fn collected_derivative(
    alloc: Global,
    direction: usize,
    terms: &[Term],
) -> Result<Items<Term>, PolyError>
    requires direction { direction < 5 }
    requires low { AreLow most_entry (terms_of terms.now) }
    requires fits { size_of (total_derivative direction (terms_of terms.now)) < overflow }
    ensures poly { IfOk result
        (λ ts. IsPolynomial (pos (size_of (total_derivative direction (terms_of terms.now))))
        (terms_of ts)) }
    ensures coefficients { IfOk result (λ ts. HaveSameCoefficients (terms_of ts)
        (total_derivative direction (terms_of terms.now))) }
    ensures memory { IsOkUnless result PolyError.Memory }
{
    let derived = total_derivative(alloc, direction, terms)?;
    let Poly { terms, mass: _ } = sum_of_terms(alloc, derived.as_slice())?;
    Ok(terms)
}
