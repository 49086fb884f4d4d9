// Elementary differentials.
ghost use Rattle.std.specs.Prelude.{◌≡◌, ◌<◌, ◌≤◌, ◌≤ℤ◌, pos, [], length, IfSome, IfOk, IfErr, MatchOption};
ghost use Rattle.std.specs.List.{AllByRecursion};
ghost use Rattle.equations.specs.Accepted.{IsEquation};
ghost use Rattle.exact_sums.specs.Saturating.{overflow};
ghost use Rattle.tree_pool.specs.Content.{tree_at};
ghost use Rattle.symbol_polys.specs.Polynomials.{HaveSameCoefficients};
ghost use Rattle.symbol_polys.specs.Text.{IsTermOver};
ghost use Rattle.symbol_polys.specs.View.{terms_of, IsPoly};
ghost use Rattle.elementary_diff.specs.Differentials.{differential_terms, differential_mass};
ghost use Rattle.elementary_diff.specs.Refusals.{given_denominator, IsRefused};

use crate::answer::{DiffRefusal, Differential};
use crate::denominators::denominator;
use crate::known_symbols::symbols_are_known;
use crate::products::product;
use crate::weights::mass;
use degree_numbers::TypeId;
use equations::Equation;
use exact_sums::Saturated;
use std::alloc::Global;
use symbol_polys::zero;
use tree_pool::{Pool, TreeId};

// A value, where it is in range.
fn in_range(value: Saturated) -> Option<u128>
    ensures value { MatchOption result (overflow ≤ value) (λ n. n ≡ value) }
    ensures fits { IfSome result (λ n. n < overflow) }
{
    Some(value.value()?.unsigned_abs())
}

/// The elementary differential of a tree at a kernel (Bruned, Chandra, Chevyrev, Hairer), of right
/// sides that are cleared by the common denominator Q of the equation. The right side of the kernel
/// is differentiated by the edge types of the root's edges; the terms that still have a noise are
/// dropped; then the total derivatives of the root's decoration are taken; the result is multiplied
/// by the differentials of the trees above the root's kernel edges, each at its kernel. The
/// denominator is the symmetry factor times Q to the power of 1 and the number of kernel edges. For
/// the KPZ equation, `u'(0,1)^2+xi`, and the tree `[u'(0,1)[xi]*u'(0,1)[xi]]` it is `2` over 2. Its
/// symbols are parameters and variables of the equation, so that `print_poly` writes it.
///
/// The differential mass is the sum of the coefficients of the same expression with the absolute
/// values of the coefficients of the right sides; one factor that is 0 makes it 0. Fails with
/// `CoefficientTooLarge` exactly where it passes 2^127-1; with `DenominatorTooLarge` exactly where
/// it is neither 0 nor too large and the denominator passes 2^127-1; and for want of memory. Where
/// the mass is 0, the polynomial is 0 and the denominator is given as 1.
pub fn differential(
    alloc: Global,
    eq: &Equation,
    kernel: TypeId,
    pool: &Pool<'_>,
    id: TreeId,
) -> Result<Differential, DiffRefusal>
    requires equation { IsEquation eq.now }
    requires known { id.0 < length pool.now.trees }
    requires types { pool.now.types ≡ eq.now.types }
    ensures poly { IfOk result (λ d. IsPoly d.poly) }
    ensures coefficients { IfOk result (λ d. HaveSameCoefficients (terms_of d.poly.terms)
        (differential_terms eq.now kernel.0 (tree_at pool.now id.0))) }
    ensures over { IfOk result (λ d. AllByRecursion (IsTermOver eq.now.types eq.now.parameters)
        (terms_of d.poly.terms)) }
    ensures mass { IfOk result (λ d. d.poly.mass
        ≤ℤ pos (differential_mass eq.now kernel.0 (tree_at pool.now id.0))) }
    ensures zero { IfOk result (λ d. differential_mass eq.now kernel.0 (tree_at pool.now id.0) ≡ 0 →
        terms_of d.poly.terms ≡ []) }
    ensures denominator { IfOk result (λ d. d.denominator ≡ given_denominator eq.now kernel.0
        (tree_at pool.now id.0)) }
    ensures fits { IfOk result (λ d. (differential_mass eq.now kernel.0 (tree_at pool.now id.0)
        < overflow) × (given_denominator eq.now kernel.0 (tree_at pool.now id.0) < overflow)) }
    ensures refusal { IfErr result (IsRefused eq.now kernel.0 (tree_at pool.now id.0)) }
{
    let Some(mass) = in_range(mass(alloc, eq, kernel, pool, id)?) else {
        return Err(DiffRefusal::CoefficientTooLarge);
    };
    if mass == 0 {
        return Ok(Differential {
            poly: zero(alloc)?,
            denominator: 1,
        });
    }
    let Some(denominator) = in_range(denominator(eq, pool, id)) else {
        return Err(DiffRefusal::DenominatorTooLarge);
    };
    let poly = product(alloc, eq, kernel, pool, id)?;
    symbols_are_known(eq, kernel, pool, id, &poly);
    Ok(Differential { poly, denominator })
}
