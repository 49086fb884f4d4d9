// Polynomials, and those that the calls make.
ghost use Rattle.std.specs.Prelude.{◌≡◌, ◌<◌, ◌≤◌, ◌*◌, ◌*ℤ◌, pos, [], ◌∷◌, List, map, IfOk, IfErr, IsOkUnless, unsigned_abs};
ghost use Rattle.std.specs.List.{AllByRecursion};
ghost use Rattle.exact_sums.specs.Saturating.{overflow};
ghost use Rattle.symbol_polys.specs.Symbols.{PlainSymbol, HasBoundedTree, IsMonomial};
ghost use Rattle.symbol_polys.specs.Polynomials.{monomials, coefficient_of, size_of, times, times_all, IsRefused};
ghost use Rattle.symbol_polys.specs.View.{symbol_of, term_of, terms_of, IsPoly};

use crate::error::PolyError;
use crate::masses::scaled_mass;
use crate::symbols::{Symbol, copy_symbols};
use sqlite_items::Items;
use std::alloc::Global;

/// A term: its coefficient, and its monomial as an ascending list of symbols.
#[derive(Drop)]
pub struct Term {
    pub coefficient: i128,
    pub symbols: Items<Symbol>,
}

/// A polynomial with whole coefficients over symbols, with its mass.
///
/// **Order.** Terms stand by the number of symbols of their monomials, then lexicographically. The
/// symbols of a monomial ascend: parameters, variables, noises, trees, expectations, each by
/// number, multiindex and tree order. So equal polynomials have equal lists of terms.
///
/// **Units.** Coefficients are whole numbers from -(2^127-1) to 2^127-1 (`GREATEST`).
/// **Invariants.** Calls ask for them, and polynomials that calls answer meet them (`IsPoly` in
/// contracts): each monomial stands once, no coefficient is 0, and the sum of the absolute
/// coefficients is at most the mass. The trees in its symbols are canonical and have at most 24
/// edges (`MOST_EDGES`) and a decoration sum of at most 4,096 (`MOST_DECORATIONS`).
///
/// **Example.** `2-3*u+xi-u^2` has four terms, in this order, and a mass of at least 7. The
/// difference `u-u` is 0, without a term, and has the mass 2.
#[derive(Drop)]
pub struct Poly {
    pub terms: Items<Term>,
    pub mass: i128,
}

// The polynomial with these terms and this mass.
pub(crate) fn made(terms: Items<Term>, mass: i128) -> Poly
    ensures { result ≡ record { terms = terms; mass = mass } }
{
    Poly { terms, mass }
}

/// The polynomial 0, with the mass 0. Fails only for want of memory.
pub fn zero(alloc: Global) -> Result<Poly, PolyError>
    ensures poly { IfOk result IsPoly }
    ensures terms { IfOk result (λ p. terms_of p.terms ≡ []) }
    ensures mass { IfOk result (λ p. p.mass ≡ pos 0) }
    ensures memory { IsOkUnless result PolyError.Memory }
{
    Ok(made(Items::new(alloc), 0))
}

// The monomial with the coefficient 1 and the mass 1.
fn single(alloc: Global, symbols: Items<Symbol>) -> Result<Poly, PolyError>
    requires { IsMonomial (map symbol_of symbols) }
    ensures poly { IfOk result IsPoly }
    ensures terms { IfOk result (λ p. terms_of p.terms
        ≡ record { coefficient = pos 1; symbols = map symbol_of symbols } ∷ []) }
    ensures mass { IfOk result (λ p. p.mass ≡ pos 1) }
    ensures memory { IsOkUnless result PolyError.Memory }
{
    let mut terms = Items::new(alloc);
    terms.push(Term {
        coefficient: 1,
        symbols,
    })?;
    Ok(made(terms, 1))
}

/// The polynomial 1, with the mass 1. Fails only for want of memory.
pub fn one(alloc: Global) -> Result<Poly, PolyError>
    ensures poly { IfOk result IsPoly }
    ensures terms { IfOk result (λ p. terms_of p.terms
        ≡ record { coefficient = pos 1; symbols = [] } ∷ []) }
    ensures mass { IfOk result (λ p. p.mass ≡ pos 1) }
    ensures memory { IsOkUnless result PolyError.Memory }
{
    single(alloc, Items::new(alloc))
}

/// The polynomial that is a symbol, with the mass 1. Fails only for want of memory.
pub fn symbol(alloc: Global, s: Symbol) -> Result<Poly, PolyError>
    requires { HasBoundedTree (symbol_of s) }
    ensures poly { IfOk result IsPoly }
    ensures terms { IfOk result (λ p. terms_of p.terms
        ≡ record { coefficient = pos 1; symbols = symbol_of s ∷ [] } ∷ []) }
    ensures mass { IfOk result (λ p. p.mass ≡ pos 1) }
    ensures memory { IsOkUnless result PolyError.Memory }
{
    let mut symbols = Items::new(alloc);
    symbols.push(s)?;
    single(alloc, symbols)
}

pub(crate) fn multiple(by: i128, z: i128) -> i128
    requires { unsigned_abs by * unsigned_abs z < overflow }
    ensures { result ≡ by *ℤ z }
{
    by * z
}

fn times(alloc: Global, by: i128, term: &Term) -> Result<Term, PolyError>
    requires trees { AllByRecursion HasBoundedTree (map symbol_of term.now.symbols) }
    requires fits { unsigned_abs by * unsigned_abs term.now.coefficient < overflow }
    ensures value { IfOk result (λ t. term_of t ≡ times by (term_of term.now)) }
    ensures memory { IsOkUnless result PolyError.Memory }
{
    Ok(Term {
        coefficient: multiple(by, term.coefficient),
        symbols: copy_symbols(alloc, term.symbols.as_slice())?,
    })
}

// Each term times a number.
fn times_all(alloc: Global, by: i128, terms: &[Term]) -> Result<Items<Term>, PolyError>
    requires each { AllByRecursion IsMonomial (monomials (terms_of terms.now)) }
    requires fits { unsigned_abs by * size_of (terms_of terms.now) < overflow }
    ensures value { IfOk result (λ ts. terms_of ts ≡ times_all by (terms_of terms.now)) }
    ensures memory { IsOkUnless result PolyError.Memory }
{
    let mut scaled = Items::new(alloc);
    for term in terms {
        scaled.push(times(alloc, by, term)?)?;
    }
    Ok(scaled)
}

/// A polynomial times a number. The new mass is the absolute multiple of the old one. Fails with
/// `CoefficientTooLarge` exactly where the new mass passes 2^127-1, and for want of memory.
pub fn scale(alloc: Global, f: &Poly, by: i128) -> Result<Poly, PolyError>
    requires { IsPoly f.now }
    ensures poly { IfOk result IsPoly }
    ensures coefficients { IfOk result (λ p. (m : List PlainSymbol) →
        coefficient_of m (terms_of p.terms) ≡ by *ℤ coefficient_of m (terms_of f.now.terms)) }
    ensures mass { IfOk result (λ p. p.mass ≡ pos (unsigned_abs by * unsigned_abs f.now.mass)) }
    ensures fits { IfOk result (λ p. unsigned_abs by * unsigned_abs f.now.mass < overflow) }
    ensures refusal { IfErr result
        (IsRefused (overflow ≤ unsigned_abs by * unsigned_abs f.now.mass)) }
{
    let Some(mass) = scaled_mass(f, by) else {
        return Err(PolyError::CoefficientTooLarge);
    };
    if by == 0 {
        return Ok(made(Items::new(alloc), mass));
    }
    Ok(made(times_all(alloc, by, f.terms.as_slice())?, mass))
}
