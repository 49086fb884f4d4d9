// The sum of a list of terms.
ghost use Rattle.std.specs.Prelude.{◌≡◌, ◌<◌, ◌≤◌, pos, List, map, IfOk, IfErr, IsOkUnless, unsigned_abs};
ghost use Rattle.std.specs.List.{AllByRecursion};
ghost use Rattle.exact_sums.specs.Saturating.{overflow, saturated};
ghost use Rattle.symbol_polys.specs.Symbols.{IsMonomial};
ghost use Rattle.symbol_polys.specs.Polynomials.{monomials, size_of, HaveSameCoefficients, IsRefused};
ghost use Rattle.symbol_polys.specs.View.{terms_of, IsPoly};

use crate::collecting::collected;
use crate::derivatives::absolute_coefficient;
use crate::error::PolyError;
use crate::poly::{Poly, Term, made};
use crate::sums::push_copies;
use exact_sums::Saturated;
use std::alloc::Global;

// The sum of the absolute coefficients.
fn size(terms: &[Term]) -> Saturated
    ensures { result ≡ saturated (size_of (terms_of terms.now)) }
{
    let mut sum = Saturated::of(0);
    for term in terms {
        sum = sum.plus(absolute_coefficient(term));
    }
    sum
}

/// The sum of terms, in any order, of which several may have one monomial. The mass is the sum of
/// the absolute coefficients, also where terms cancel. Fails with `CoefficientTooLarge` exactly
/// where that passes 2^127-1, and for want of memory.
pub fn sum_of_terms(alloc: Global, terms: &[Term]) -> Result<Poly, PolyError>
    requires { AllByRecursion IsMonomial (monomials (terms_of terms.now)) }
    ensures poly { IfOk result IsPoly }
    ensures coefficients { IfOk result (λ p. HaveSameCoefficients (terms_of p.terms)
        (terms_of terms.now)) }
    ensures mass { IfOk result (λ p. p.mass ≡ pos (size_of (terms_of terms.now))) }
    ensures fits { IfOk result (λ p. size_of (terms_of terms.now) < overflow) }
    ensures refusal { IfErr result (IsRefused (overflow ≤ size_of (terms_of terms.now))) }
{
    let Some(mass) = size(terms).value() else {
        return Err(PolyError::CoefficientTooLarge);
    };
    let mut copies = Vec::new(alloc);
    push_copies(alloc, &mut copies, terms)?;
    Ok(made(collected(alloc, copies)?, mass))
}
