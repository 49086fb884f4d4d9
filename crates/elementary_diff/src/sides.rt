// Right sides of an equation as lists of terms.
ghost use Rattle.std.specs.Prelude.{◌≡◌, [], ◌∷◌, ◌++◌, map, IfOk, OnOk, IsOkUnless};
ghost use Rattle.symbol_polys.specs.Products.{monomial_product};
ghost use Rattle.symbol_polys.specs.Symbols.{parameter};
ghost use Rattle.symbol_polys.specs.View.{symbol_of, term_of, terms_of};
ghost use Rattle.elementary_diff.specs.Differentials.{factor_symbol, right_term, right_terms};

use degree_numbers::{Kind, Multi, TypeId, Types};
use equations::{Equation, RightTerm};
use sqlite_items::Items;
use std::alloc::{AllocError, Global};
use symbol_polys::{PolyError, Symbol, Term, with_symbol};

fn factor_symbol(types: &Types, factor: &(TypeId, Multi)) -> Symbol
    ensures { symbol_of result ≡ factor_symbol types.now factor.now }
{
    match types.list.get(factor.0.0 as usize) {
        Some(entry) if entry.kind == Kind::Noise => Symbol::Noise(factor.0),
        _ => Symbol::Variable(factor.0, factor.1),
    }
}

// The product of the factors.
fn factor_product(
    alloc: Global,
    types: &Types,
    factors: &[(TypeId, Multi)],
) -> Result<Items<Symbol>, PolyError>
    ensures value { IfOk result (λ m. map symbol_of m
        ≡ monomial_product (map (factor_symbol types.now) factors.now) []) }
    ensures memory { IsOkUnless result PolyError.Memory }
{
    match factors {
        [] => Ok(Items::new(alloc)),
        [first, rest @ ..] => {
            let product = factor_product(alloc, types, rest)?;
            with_symbol(alloc, factor_symbol(types, first), product.as_slice())
        }
    }
}

// The product of the parameters and the factors.
fn monomial(
    alloc: Global,
    types: &Types,
    parameters: &[u8],
    factors: &[(TypeId, Multi)],
) -> Result<Items<Symbol>, PolyError>
    ensures value { IfOk result (λ m. map symbol_of m
        ≡ monomial_product (map parameter parameters.now)
        (monomial_product (map (factor_symbol types.now) factors.now) [])) }
    ensures memory { IsOkUnless result PolyError.Memory }
{
    match parameters {
        [] => factor_product(alloc, types, factors),
        [first, rest @ ..] => {
            let product = monomial(alloc, types, rest, factors)?;
            with_symbol(alloc, Symbol::Parameter(*first), product.as_slice())
        }
    }
}

fn right_term(alloc: Global, types: &Types, t: &RightTerm) -> Result<Term, PolyError>
    ensures value { IfOk result (λ u. term_of u ≡ right_term types.now t.now) }
    ensures memory { IsOkUnless result PolyError.Memory }
{
    Ok(Term {
        coefficient: t.coefficient,
        symbols: monomial(alloc, types, t.parameters.as_slice(), t.factors.as_slice())?,
    })
}

/// Puts a term behind others.
pub(crate) fn keep(terms: &mut Vec<Term>, term: Term) -> Result<(), AllocError>
    ensures { OnOk result (terms.new.items ≡ terms.old.items ++ term ∷ []) }
{
    terms.push(term)?;
    Ok(())
}

fn right_terms(alloc: Global, types: &Types, right: &[RightTerm]) -> Result<Vec<Term>, PolyError>
    ensures value { IfOk result (λ v. terms_of v.items ≡ map (right_term types.now) right.now) }
    ensures memory { IsOkUnless result PolyError.Memory }
{
    let mut terms = Vec::new(alloc);
    for t in right {
        keep(&mut terms, right_term(alloc, types, t)?)?;
    }
    Ok(terms)
}

/// The terms of the right side of a kernel, cleared by the common denominator.
pub fn side(alloc: Global, eq: &Equation, kernel: TypeId) -> Result<Vec<Term>, PolyError>
    ensures value { IfOk result (λ v. terms_of v.items ≡ right_terms eq.now kernel.0) }
    ensures memory { IsOkUnless result PolyError.Memory }
{
    for u in eq.unknowns.as_slice() {
        if u.kernel == kernel {
            return right_terms(alloc, &eq.types, u.right.as_slice());
        }
    }
    Ok(Vec::new(alloc))
}
