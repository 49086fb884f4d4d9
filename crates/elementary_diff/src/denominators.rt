// The denominator of an elementary differential.
ghost use Rattle.std.specs.Prelude.{◌≡◌, ◌<◌, ◌≤◌, length};
ghost use Rattle.limits.specs.declared.TheConstants.{MOST_EDGES};
ghost use Rattle.equations.specs.Accepted.{IsEquation};
ghost use Rattle.exact_sums.specs.Saturating.{saturated};
ghost use Rattle.tree_pool.specs.Content.{tree_at};
ghost use Rattle.elementary_diff.specs.Differentials.{kernel_edges, denominator_of};

use crate::symmetry_factors::symmetry;
use crate::weights::{is_kernel, power};
use degree_numbers::Types;
use equations::Equation;
use exact_sums::Saturated;
use tree_pool::{Pool, TreeId};

// The number of kernel edges of a tree.
fn kernel_edges(types: &Types, pool: &Pool<'_>, id: TreeId) -> u32
    requires { id.0 < length pool.now.trees }
    ensures value { result ≡ kernel_edges types.now (tree_at pool.now id.0) }
    ensures most { result ≤ MOST_EDGES }
{
    let (_, edges) = pool.node(id);
    let mut count = 0;
    for e in edges {
        if is_kernel(types, e.kind) {
            count += 1;
        }
        count += kernel_edges(types, pool, e.child);
    }
    count
}

/// The symmetry factor of a tree times the common denominator to the power of 1 and the number of
/// its kernel edges.
pub(crate) fn denominator(eq: &Equation, pool: &Pool<'_>, id: TreeId) -> Saturated
    requires equation { IsEquation eq.now }
    requires known { id.0 < length pool.now.trees }
    ensures { result ≡ saturated (denominator_of eq.now (tree_at pool.now id.0)) }
{
    let common = Saturated::of(u128::from(eq.denominator.unsigned_abs()));
    Saturated::of(symmetry(pool, id)).times(power(common, 1 + kernel_edges(&eq.types, pool, id)))
}
