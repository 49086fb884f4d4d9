// The bound of the coefficients of the trees of a pool.
ghost use Rattle.std.specs.Prelude.{◌≡◌, ◌<◌, length};
ghost use Rattle.tree_pool.specs.Content.{tree_at};
ghost use Rattle.coefficient_bounds.specs.Bounds.{has_small_coefficients};
ghost use Rattle.coefficient_bounds.specs.PoolSums.{AreTreeSums, AreModest};

use crate::sums::TreeSums;
use cutting_tables::lows_of;
use tree_pool::{Pool, TreeId};

/// The bounds of a tree of a pool, for components with an excess of at most `most` units.
fn sums_of(pool: &Pool<'_>, most: u64, id: TreeId) -> TreeSums
    requires { id.0 < length pool.now.trees }
    ensures sums { AreTreeSums pool.now.types most (tree_at pool.now id.0) result }
    ensures modest { AreModest result }
{
    pool.laws();
    let (n, edges) = pool.node(id);
    let mut sums = TreeSums::of_node(&n);
    let mut i = edges.len();
    while i > 0 {
        i -= 1;
        let e = edges[i];
        let above = sums_of(pool, most, e.child);
        sums = sums.with_edge(pool.types(), most, e.kind, &e.p, &above);
    }
    sums
}

/// Whether the bound of the coefficients of a tree's extraction coproduct is at most 2^127-1: then
/// no coefficient passes that. Takes no memory.
pub fn has_small_coefficients(pool: &Pool<'_>, id: TreeId) -> bool
    requires { id.0 < length pool.now.trees }
    ensures { result ≡ has_small_coefficients pool.now.types (tree_at pool.now id.0) }
{
    let most = lows_of(pool, id).lowest.unsigned_abs();
    let all = sums_of(pool, most, id).all();
    all.value().is_some()
}
