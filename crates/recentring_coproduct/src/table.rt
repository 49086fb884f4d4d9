// The recursion down a tree.
ghost use Rattle.std.specs.Prelude.{◌<◌, length, IfOk};
ghost use Rattle.tree_pool.specs.Content.{tree_at, IsGrown};
ghost use Rattle.cutting_sizes.specs.Bounds.{IsFit};
ghost use Rattle.pooled_cuttings.specs.NodeTables.{IsRightTable};

use exact_sums::Saturated;
use pooled_cuttings::{RightKey, right_growth_laws, right_lines_of_node, with_right_edge};
use std::alloc::Global;
use tree_pool::{Pool, PoolError, TreeId};

/// The table of recentring of a tree that is not too large: from its last edge to its first, that
/// of the tree above the edge is joined to that of the edges behind it. Fails only for want of
/// memory; the pool may then have more trees.
pub(crate) fn table_over(
    pool: &mut Pool<'_>,
    alloc: Global,
    id: TreeId,
) -> Result<Vec<(RightKey, Saturated)>, PoolError>
    requires known { id.0 < length pool.old.trees }
    requires fit { IsFit (tree_at pool.old id.0) }
    ensures table { IfOk result (λ ls. IsRightTable pool.new (tree_at pool.old id.0) ls.items) }
    ensures grown { IsGrown pool.old pool.new }
{
    right_growth_laws();
    let (n, edges) = pool.node(id);
    let mut table = right_lines_of_node(pool, alloc, &n)?;
    let mut i = edges.len();
    while i > 0 {
        i -= 1;
        let edge = edges[i];
        let above = table_over(pool, alloc, edge.child)?;
        table = with_right_edge(
            pool,
            alloc,
            &edge,
            &n,
            &edges[i + 1..],
            above.as_slice(),
            table.as_slice(),
        )?;
    }
    Ok(table)
}
