// The derivative of a polynomial by a symbol.
ghost use Rattle.std.specs.Prelude.{◌≡◌, ◌<◌, ◌≤◌, ◌*◌, pos, List, map, IfOk, IfErr, IsOkUnless, unsigned_abs};
ghost use Rattle.std.specs.List.{AllByRecursion};
ghost use Rattle.std.specs.Ordering.{is_eq};
ghost use Rattle.exact_sums.specs.Saturating.{overflow, saturated};
ghost use Rattle.plain_trees.specs.Plain.{edge_count_of};
ghost use Rattle.symbol_polys.specs.Symbols.{PlainSymbol, tree_in, symbol_order, HasBoundedTree, IsMonomial};
ghost use Rattle.symbol_polys.specs.Polynomials.{coefficient_of, monomials, size_of, IsPolynomial, IsRefused};
ghost use Rattle.symbol_polys.specs.Derivatives.{power_of, without, derivative, derivatives};
ghost use Rattle.symbol_polys.specs.View.{symbol_of, term_of, terms_of, IsPoly};

use crate::error::PolyError;
use crate::poly::{Poly, Term, made, multiple};
use crate::symbols::{Symbol, copy_symbol, symbol_order};
use exact_sums::Saturated;
use sqlite_items::Items;
use std::alloc::Global;
use std::cmp::Ordering;

fn are_equal(s: &Symbol, t: &Symbol) -> bool
    requires small_s { edge_count_of (tree_in (symbol_of s.now)) ≤ 24 }
    requires small_t { edge_count_of (tree_in (symbol_of t.now)) ≤ 24 }
    ensures { result ≡ is_eq (symbol_order (symbol_of s.now) (symbol_of t.now)) }
{
    symbol_order(s, t) == Ordering::Equal
}

// The power of a symbol in a monomial.
fn power(by: &Symbol, symbols: &[Symbol]) -> usize
    requires small { edge_count_of (tree_in (symbol_of by.now)) ≤ 24 }
    requires trees { AllByRecursion HasBoundedTree (map symbol_of symbols.now) }
    ensures { result ≡ power_of (symbol_of by.now) (map symbol_of symbols.now) }
{
    let mut power = 0;
    for s in symbols {
        if are_equal(by, s) {
            power += 1;
        }
    }
    power
}

// A copy of a monomial with one of a symbol less.
fn without(alloc: Global, by: &Symbol, symbols: &[Symbol]) -> Result<Items<Symbol>, PolyError>
    requires small { edge_count_of (tree_in (symbol_of by.now)) ≤ 24 }
    requires trees { AllByRecursion HasBoundedTree (map symbol_of symbols.now) }
    ensures value { IfOk result (λ m. map symbol_of m ≡ without (symbol_of by.now)
        (map symbol_of symbols.now)) }
    ensures memory { IsOkUnless result PolyError.Memory }
{
    let mut rest = Items::new(alloc);
    let mut found = false;
    for s in symbols {
        if !found && are_equal(by, s) {
            found = true;
        } else {
            rest.push(copy_symbol(alloc, s)?)?;
        }
    }
    Ok(rest)
}

pub(crate) fn absolute_coefficient(term: &Term) -> Saturated
    ensures { result ≡ saturated (unsigned_abs term.now.coefficient) }
{
    Saturated::of(term.coefficient.unsigned_abs())
}

// The absolute coefficient of the derivative of a term.
fn derived_size(by: &Symbol, term: &Term) -> Saturated
    requires small { edge_count_of (tree_in (symbol_of by.now)) ≤ 24 }
    requires trees { AllByRecursion HasBoundedTree (map symbol_of term.now.symbols) }
    ensures { result ≡ saturated (power_of (symbol_of by.now) (map symbol_of term.now.symbols)
        * unsigned_abs term.now.coefficient) }
{
    let power = Saturated::of(power(by, term.symbols.as_slice()) as u128);
    power.times(absolute_coefficient(term))
}

// The sum of the absolute coefficients of the derivative.
fn derived_mass(by: &Symbol, terms: &[Term]) -> Saturated
    requires small { edge_count_of (tree_in (symbol_of by.now)) ≤ 24 }
    requires each { AllByRecursion IsMonomial (monomials (terms_of terms.now)) }
    ensures { result ≡ saturated (size_of (derivatives (symbol_of by.now) (terms_of terms.now))) }
{
    let mut mass = Saturated::of(0);
    for term in terms {
        mass = mass.plus(derived_size(by, term));
    }
    mass
}

// The derivative of a term in which the symbol has this power.
fn derived_term(alloc: Global, by: &Symbol, power: usize, term: &Term) -> Result<Term, PolyError>
    requires small { edge_count_of (tree_in (symbol_of by.now)) ≤ 24 }
    requires trees { AllByRecursion HasBoundedTree (map symbol_of term.now.symbols) }
    requires power { power ≡ power_of (symbol_of by.now) (map symbol_of term.now.symbols) }
    requires fits { power * unsigned_abs term.now.coefficient < overflow }
    ensures value { IfOk result (λ t. term_of t ≡ derivative (symbol_of by.now)
        (term_of term.now)) }
    ensures memory { IsOkUnless result PolyError.Memory }
{
    Ok(Term {
        coefficient: multiple(power as i128, term.coefficient),
        symbols: without(alloc, by, term.symbols.as_slice())?,
    })
}

/// The derivative of a term by a symbol: the coefficient times the power of the symbol, which is 0
/// where the symbol does not stand in the term, and the monomial with one of it less. Fails only
/// for want of memory.
pub fn derive_term(alloc: Global, by: &Symbol, term: &Term) -> Result<Term, PolyError>
    requires small { edge_count_of (tree_in (symbol_of by.now)) ≤ 24 }
    requires trees { AllByRecursion HasBoundedTree (map symbol_of term.now.symbols) }
    requires fits { power_of (symbol_of by.now) (map symbol_of term.now.symbols)
        * unsigned_abs term.now.coefficient < overflow }
    ensures value { IfOk result (λ t. term_of t ≡ derivative (symbol_of by.now)
        (term_of term.now)) }
    ensures memory { IsOkUnless result PolyError.Memory }
{
    derived_term(alloc, by, power(by, term.symbols.as_slice()), term)
}

// The derivatives of the terms in which the symbol stands. They keep their order, and no two are of
// one monomial.
fn derived_terms(alloc: Global, by: &Symbol, f: &Poly) -> Result<Items<Term>, PolyError>
    requires small { edge_count_of (tree_in (symbol_of by.now)) ≤ 24 }
    requires poly { IsPoly f.now }
    requires fits { size_of (derivatives (symbol_of by.now) (terms_of f.now.terms)) < overflow }
    ensures poly { IfOk result (λ ts. IsPolynomial (pos (size_of (terms_of ts))) (terms_of ts)) }
    ensures size { IfOk result (λ ts. size_of (terms_of ts)
        ≡ size_of (derivatives (symbol_of by.now) (terms_of f.now.terms))) }
    ensures coefficients { IfOk result (λ ts. (m : List PlainSymbol) →
        coefficient_of m (terms_of ts) ≡ coefficient_of m (derivatives (symbol_of by.now)
        (terms_of f.now.terms))) }
    ensures memory { IsOkUnless result PolyError.Memory }
{
    let mut derived = Items::new(alloc);
    for term in f.terms.as_slice() {
        let power = power(by, term.symbols.as_slice());
        if power > 0 {
            derived.push(derived_term(alloc, by, power, term)?)?;
        }
    }
    Ok(derived)
}

/// The derivative of a polynomial by a symbol: a term `c*s^k*m` without `s` in `m` becomes
/// `(c*k)*s^(k-1)*m`. The new mass is the sum of the absolute coefficients of the derivative. Fails
/// with `CoefficientTooLarge` exactly where that passes 2^127-1, and for want of memory.
pub fn derive(alloc: Global, f: &Poly, by: &Symbol) -> Result<Poly, PolyError>
    requires poly { IsPoly f.now }
    requires small { edge_count_of (tree_in (symbol_of by.now)) ≤ 24 }
    ensures poly { IfOk result IsPoly }
    ensures coefficients { IfOk result (λ p. (m : List PlainSymbol) →
        coefficient_of m (terms_of p.terms) ≡ coefficient_of m (derivatives (symbol_of by.now)
        (terms_of f.now.terms))) }
    ensures mass { IfOk result (λ p. p.mass ≡ pos (size_of (terms_of p.terms))) }
    ensures size { IfOk result (λ p. size_of (terms_of p.terms)
        ≡ size_of (derivatives (symbol_of by.now) (terms_of f.now.terms))) }
    ensures fits { IfOk result (λ p. size_of (derivatives (symbol_of by.now) (terms_of f.now.terms))
        < overflow) }
    ensures refusal { IfErr result
        (IsRefused (overflow ≤ size_of (derivatives (symbol_of by.now) (terms_of f.now.terms)))) }
{
    let Some(mass) = derived_mass(by, f.terms.as_slice()).value() else {
        return Err(PolyError::CoefficientTooLarge);
    };
    Ok(made(derived_terms(alloc, by, f)?, mass))
}
