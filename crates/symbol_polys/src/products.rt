// The product of two polynomials: all products of their terms, collected.
ghost use Rattle.std.specs.Prelude.{◌≡◌, ◌<◌, ◌≤◌, ◌*◌, pos, ◌++◌, List, map, IfOk, IfErr, OnOk, IsOkUnless, unsigned_abs};
ghost use Rattle.std.specs.List.{AllByRecursion};
ghost use Rattle.exact_sums.specs.Saturating.{overflow};
ghost use Rattle.symbol_polys.specs.Symbols.{PlainSymbol, HasBoundedTree, IsMonomial};
ghost use Rattle.symbol_polys.specs.Polynomials.{coefficient_of, monomials, size_of, HaveSameCoefficients, IsRefused};
ghost use Rattle.symbol_polys.specs.Products.{with_symbol, monomial_product, term_product, products_with, products};
ghost use Rattle.symbol_polys.specs.View.{symbol_of, term_of, terms_of, IsPoly};

use crate::collecting::{OrderedTerm, collected, put, simplified};
use crate::error::PolyError;
use crate::masses::mass_product;
use crate::poly::{Poly, Term, made, multiple};
use crate::symbols::{Symbol, copy_symbol, copy_symbols, symbol_order};
use sqlite_items::Items;
use std::alloc::Global;
use std::cmp::Ordering;

// The symbols of two monomials in order.
fn monomial_product(alloc: Global, a: &[Symbol], b: &[Symbol]) -> Result<Items<Symbol>, PolyError>
    requires a { IsMonomial (map symbol_of a.now) }
    requires b { IsMonomial (map symbol_of b.now) }
    ensures value { IfOk result (λ m. map symbol_of m ≡ monomial_product (map symbol_of a.now)
        (map symbol_of b.now)) }
    ensures memory { IsOkUnless result PolyError.Memory }
{
    let mut product = Items::new(alloc);
    let mut i = 0;
    let mut j = 0;
    while i < a.len() && j < b.len() {
        let s = &a[i];
        let t = &b[j];
        match symbol_order(s, t) {
            Ordering::Greater => {
                product.push(copy_symbol(alloc, t)?)?;
                j += 1;
            }
            _ => {
                product.push(copy_symbol(alloc, s)?)?;
                i += 1;
            }
        }
    }
    product.append(copy_symbols(alloc, &a[i..])?)?;
    product.append(copy_symbols(alloc, &b[j..])?)?;
    Ok(product)
}

/// The product of a symbol and a monomial, as a new monomial. Fails only for want of memory.
pub fn with_symbol(alloc: Global, s: Symbol, symbols: &[Symbol]) -> Result<Items<Symbol>, PolyError>
    requires s { HasBoundedTree (symbol_of s) }
    requires symbols { IsMonomial (map symbol_of symbols.now) }
    ensures value { IfOk result (λ m. map symbol_of m ≡ with_symbol (symbol_of s)
        (map symbol_of symbols.now)) }
    ensures memory { IsOkUnless result PolyError.Memory }
{
    let mut single = Items::new(alloc);
    single.push(s)?;
    monomial_product(alloc, single.as_slice(), symbols)
}

fn term_product(alloc: Global, t: &Term, u: &Term) -> Result<Term, PolyError>
    requires t { IsMonomial (map symbol_of t.now.symbols) }
    requires u { IsMonomial (map symbol_of u.now.symbols) }
    requires fits { unsigned_abs t.now.coefficient * unsigned_abs u.now.coefficient < overflow }
    ensures value { IfOk result (λ p. term_of p ≡ term_product (term_of t.now) (term_of u.now)) }
    ensures memory { IsOkUnless result PolyError.Memory }
{
    Ok(Term {
        coefficient: multiple(t.coefficient, u.coefficient),
        symbols: monomial_product(alloc, t.symbols.as_slice(), u.symbols.as_slice())?,
    })
}

fn push_products(
    alloc: Global,
    terms: &mut Vec<OrderedTerm>,
    t: &Term,
    us: &[Term],
) -> Result<(), PolyError>
    requires t { IsMonomial (map symbol_of t.now.symbols) }
    requires us { AllByRecursion IsMonomial (monomials (terms_of us.now)) }
    requires fits { unsigned_abs t.now.coefficient * size_of (terms_of us.now) < overflow }
    ensures items { OnOk result (terms.new.items ≡ terms.old.items
        ++ products_with (term_of t.now) (terms_of us.now)) }
    ensures memory { IsOkUnless result PolyError.Memory }
{
    for u in us {
        put(terms, term_product(alloc, t, u)?)?;
    }
    Ok(())
}

// So many products are kept before they are simplified for the first time.
const FEW: usize = 4096;

// Terms with the sum of all products of a term of the first list with one of the second. They are
// simplified whenever they have become twice as many as they were then, so that they are at most a
// few times as many as the terms that are left.
fn all_products(alloc: Global, ts: &[Term], us: &[Term]) -> Result<Vec<OrderedTerm>, PolyError>
    requires ts { AllByRecursion IsMonomial (monomials (terms_of ts.now)) }
    requires us { AllByRecursion IsMonomial (monomials (terms_of us.now)) }
    requires fits { size_of (terms_of ts.now) * size_of (terms_of us.now) < overflow }
    ensures size { IfOk result (λ v. size_of v.items ≤ size_of (terms_of ts.now)
        * size_of (terms_of us.now)) }
    ensures coefficients { IfOk result (λ v. HaveSameCoefficients v.items
        (products (terms_of ts.now) (terms_of us.now))) }
    ensures memory { IsOkUnless result PolyError.Memory }
{
    let mut terms = Vec::new(alloc);
    let mut most = FEW;
    for t in ts {
        push_products(alloc, &mut terms, t, us)?;
        if terms.len() > most {
            terms = simplified(alloc, terms)?;
            most = most.max(terms.len().saturating_mul(2));
        }
    }
    Ok(terms)
}

/// The product of two polynomials. The new mass is the product of the masses, also where terms
/// cancel. Fails with `CoefficientTooLarge` exactly where the new mass passes 2^127-1, and for want
/// of memory. Takes memory for a few times as many terms as the product has, or the sum of its
/// parts on the way.
pub fn mul(alloc: Global, f: &Poly, g: &Poly) -> Result<Poly, PolyError>
    requires f { IsPoly f.now }
    requires g { IsPoly g.now }
    ensures poly { IfOk result IsPoly }
    ensures coefficients { IfOk result (λ p. (m : List PlainSymbol) →
        coefficient_of m (terms_of p.terms) ≡ coefficient_of m (products (terms_of f.now.terms)
        (terms_of g.now.terms))) }
    ensures mass { IfOk result (λ p. p.mass
        ≡ pos (unsigned_abs f.now.mass * unsigned_abs g.now.mass)) }
    ensures fits { IfOk result (λ p. unsigned_abs f.now.mass * unsigned_abs g.now.mass < overflow) }
    ensures refusal { IfErr result (IsRefused (overflow ≤ unsigned_abs f.now.mass
        * unsigned_abs g.now.mass)) }
{
    let Some(mass) = mass_product(f, g) else {
        return Err(PolyError::CoefficientTooLarge);
    };
    let terms = all_products(alloc, f.terms.as_slice(), g.terms.as_slice())?;
    Ok(made(collected(alloc, terms)?, mass))
}
