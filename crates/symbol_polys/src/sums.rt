// The sum of two polynomials.
ghost use Rattle.std.specs.Prelude.{◌≡◌, ◌<◌, ◌≤◌, ◌+◌, ◌+ℤ◌, pos, ◌++◌, List, IfOk, IfErr, OnOk, IsOkUnless, unsigned_abs};
ghost use Rattle.std.specs.List.{AllByRecursion};
ghost use Rattle.exact_sums.specs.Saturating.{overflow};
ghost use Rattle.symbol_polys.specs.Symbols.{PlainSymbol, IsMonomial};
ghost use Rattle.symbol_polys.specs.Polynomials.{coefficient_of, monomials, IsRefused};
ghost use Rattle.symbol_polys.specs.View.{terms_of, IsPoly};

use crate::collecting::{OrderedTerm, collected, put};
use crate::error::PolyError;
use crate::masses::mass_sum;
use crate::poly::{Poly, Term, made};
use crate::symbols::copy_symbols;
use std::alloc::Global;

/// Puts copies of terms to those that are to be collected.
pub(crate) fn push_copies(
    alloc: Global,
    terms: &mut Vec<OrderedTerm>,
    from: &[Term],
) -> Result<(), PolyError>
    requires { AllByRecursion IsMonomial (monomials (terms_of from.now)) }
    ensures items { OnOk result (terms.new.items ≡ terms.old.items ++ terms_of from.now) }
    ensures memory { IsOkUnless result PolyError.Memory }
{
    for term in from {
        let copy = Term {
            coefficient: term.coefficient,
            symbols: copy_symbols(alloc, term.symbols.as_slice())?,
        };
        put(terms, copy)?;
    }
    Ok(())
}

/// The sum of two polynomials. The new mass is the sum of the masses, also where terms cancel.
/// Fails with `CoefficientTooLarge` exactly where the new mass passes 2^127-1, and for want of
/// memory.
pub fn add(alloc: Global, f: &Poly, g: &Poly) -> Result<Poly, PolyError>
    requires f { IsPoly f.now }
    requires g { IsPoly g.now }
    ensures poly { IfOk result IsPoly }
    ensures coefficients { IfOk result (λ p. (m : List PlainSymbol) →
        coefficient_of m (terms_of p.terms) ≡ coefficient_of m (terms_of f.now.terms)
        +ℤ coefficient_of m (terms_of g.now.terms)) }
    ensures mass { IfOk result (λ p. p.mass
        ≡ pos (unsigned_abs f.now.mass + unsigned_abs g.now.mass)) }
    ensures fits { IfOk result (λ p. unsigned_abs f.now.mass + unsigned_abs g.now.mass < overflow) }
    ensures refusal { IfErr result (IsRefused (overflow ≤ unsigned_abs f.now.mass
        + unsigned_abs g.now.mass)) }
{
    let Some(mass) = mass_sum(f, g) else {
        return Err(PolyError::CoefficientTooLarge);
    };
    let mut terms = Vec::new(alloc);
    push_copies(alloc, &mut terms, f.terms.as_slice())?;
    push_copies(alloc, &mut terms, g.terms.as_slice())?;
    Ok(made(collected(alloc, terms)?, mass))
}
