// The elementary differential of a tree as a polynomial.
ghost use Rattle.std.specs.Prelude.{◌≡◌, ◌<◌, ◌+◌, IsTrue, length, slice_index_or, IfOk, IsOkUnless};
ghost use Rattle.equations.specs.Accepted.{IsEquation};
ghost use Rattle.exact_sums.specs.Saturating.{overflow};
ghost use Rattle.tree_pool.specs.Content.{tree_at};
ghost use Rattle.elementary_diff.specs.Differentials.{right_terms, differential_terms};
ghost use Rattle.elementary_diff.specs.Masses.{mass_of};
ghost use Rattle.elementary_diff.specs.Siblings.{IsRepeated};
ghost use Rattle.elementary_diff.specs.Within.{IsSumWithin};

use crate::root_factors::root_polynomial;
use crate::weights::is_kernel;
use degree_numbers::TypeId;
use equations::Equation;
use std::alloc::Global;
use symbol_polys::{Poly, PolyError, mul, one};
use tree_pool::{EdgeTo, Pool, TreeId};

// Whether the next edge is of the same kernel and has the same tree above it.
fn is_repeated(edges: &[EdgeTo], i: usize) -> bool
    requires { i < length edges.now }
    ensures { IsTrue result → IsRepeated edges.now i }
{
    match edges.get(i + 1) {
        Some(next) => next.kind == edges[i].kind && next.child == edges[i].child,
        None => false,
    }
}

/// The elementary differential of a tree at a kernel: the product of what the root makes of the
/// right side and of the differentials above its kernel edges. That of equal edges is made once.
pub(crate) fn product(
    alloc: Global,
    eq: &Equation,
    kernel: TypeId,
    pool: &Pool<'_>,
    id: TreeId,
) -> Result<Poly, PolyError>
    requires equation { IsEquation eq.now }
    requires known { id.0 < length pool.now.trees }
    requires some { 0 < mass_of eq.now.types (right_terms eq.now) kernel.0 (tree_at pool.now id.0) }
    requires fits { mass_of eq.now.types (right_terms eq.now) kernel.0 (tree_at pool.now id.0)
        < overflow }
    ensures value { IfOk result
        (IsSumWithin (differential_terms eq.now kernel.0 (tree_at pool.now id.0))
        (mass_of eq.now.types (right_terms eq.now) kernel.0 (tree_at pool.now id.0))) }
    ensures memory { IsOkUnless result PolyError.Memory }
{
    let (_, edges) = pool.node(id);
    let mut factor = one(alloc)?;
    let mut above = one(alloc)?;
    let mut left = edges.len();
    while left > 0 {
        left -= 1;
        let e = edges[left];
        if is_kernel(&eq.types, e.kind) {
            if !is_repeated(edges, left) {
                factor = product(alloc, eq, e.kind, pool, e.child)?;
            }
            above = mul(alloc, &factor, &above)?;
        }
    }
    let root = root_polynomial(alloc, eq, kernel, pool, id)?;
    mul(alloc, &root, &above)
}
