// The polynomial at the root of a tree.
ghost use Rattle.std.specs.Prelude.{◌≡◌, ◌<◌, ◌≤◌, ◌≤ℤ◌, pos, sum, map, length, IfOk, IsOkUnless};
ghost use Rattle.std.specs.List.{AllByRecursion};
ghost use Rattle.limits.specs.declared.TheConstants.{MOST_DECORATIONS, LARGEST_DERIVATIVE};
ghost use Rattle.equations.specs.Accepted.{IsEquation};
ghost use Rattle.exact_sums.specs.Saturating.{overflow};
ghost use Rattle.tree_pool.specs.Content.{tree_at};
ghost use Rattle.symbol_polys.specs.Symbols.{IsMonomial};
ghost use Rattle.symbol_polys.specs.Polynomials.{monomials, size_of, HaveSameCoefficients};
ghost use Rattle.symbol_polys.specs.View.{terms_of, IsPoly};
ghost use Rattle.elementary_diff.specs.Differentials.{right_terms, root_factor, total_derivatives};
ghost use Rattle.elementary_diff.specs.Low.{AreLow};
ghost use Rattle.elementary_diff.specs.Masses.{weight, root_mass};

use crate::root_edges::left_at_root;
use crate::total_derivatives::collected_derivative;
use degree_numbers::{Multi, TypeId};
use equations::Equation;
use sqlite_items::Items;
use std::alloc::Global;
use symbol_polys::{Poly, PolyError, Term, sum_of_terms};
use tree_pool::{Pool, TreeId};

// The total derivative in each direction, as often as the multiindex says. Like terms are collected
// after each.
fn total_derivatives(alloc: Global, n: &Multi, left: Items<Term>) -> Result<Items<Term>, PolyError>
    requires few { sum n.now.entries ≤ MOST_DECORATIONS }
    requires low { AreLow LARGEST_DERIVATIVE (terms_of left) }
    requires fits { weight (sum n.now.entries) (terms_of left) < overflow }
    ensures monomials { IfOk result (λ ts. AllByRecursion IsMonomial (monomials (terms_of ts))) }
    ensures coefficients { IfOk result (λ ts. HaveSameCoefficients (terms_of ts)
        (total_derivatives 0 n.now.entries (terms_of left))) }
    ensures size { IfOk result (λ ts. size_of (terms_of ts) ≤ weight (sum n.now.entries)
        (terms_of left)) }
    ensures memory { IsOkUnless result PolyError.Memory }
{
    let mut terms = left;
    for direction in 0..5 {
        for _ in 0..n.entries[direction] {
            terms = collected_derivative(alloc, direction, terms.as_slice())?;
        }
    }
    Ok(terms)
}

/// The polynomial at the root of a tree: the derivatives of the right side of a kernel by the edge
/// types of the root's edges, without the terms that still have a noise, and of these the total
/// derivatives by the root's decoration. Its mass is at most that of the root.
pub(crate) fn root_polynomial(
    alloc: Global,
    eq: &Equation,
    kernel: TypeId,
    pool: &Pool<'_>,
    id: TreeId,
) -> Result<Poly, PolyError>
    requires equation { IsEquation eq.now }
    requires known { id.0 < length pool.now.trees }
    requires fits { root_mass eq.now.types (right_terms eq.now kernel.0) (tree_at pool.now id.0)
        < overflow }
    ensures poly { IfOk result IsPoly }
    ensures coefficients { IfOk result (λ p. HaveSameCoefficients (terms_of p.terms)
        (root_factor eq.now.types (right_terms eq.now kernel.0) (tree_at pool.now id.0))) }
    ensures mass { IfOk result (λ p. p.mass
        ≤ℤ pos (root_mass eq.now.types (right_terms eq.now kernel.0) (tree_at pool.now id.0))) }
    ensures memory { IsOkUnless result PolyError.Memory }
{
    let (n, _) = pool.node(id);
    let left = Items::from_vec(left_at_root(alloc, eq, kernel, pool, id)?);
    let terms = total_derivatives(alloc, &n, left)?;
    sum_of_terms(alloc, terms.as_slice())
}
