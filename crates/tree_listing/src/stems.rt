// Stems and wholes as trees of the pool.
ghost use Rattle.std.specs.Prelude.{◌≡◌, ◌<◌, ◌∷◌, length, map, IfOk};
ghost use Rattle.std.specs.List.{All};
ghost use Rattle.conforming_trees.specs.Budgets.{with_root};
ghost use Rattle.tree_pool.specs.Content.{Holds, IsGrown, IsKept, tree_at};
ghost use Rattle.tree_listing.specs.Levels.{IsGrowthIn, tree_of_growth, sprout_of_growth, sprouts};

use crate::level::{Growth, Stem};
use degree_numbers::Multi;
use sqlite_items::Items;
use std::alloc::{AllocError, Global};
use tree_pool::{EdgeTo, Pool, PoolError, TreeId};

/// The edges with one more in front.
fn edges_with(alloc: Global, first: EdgeTo, rest: &[EdgeTo]) -> Result<Vec<EdgeTo>, AllocError>
    ensures { IfOk result (λ edges. edges.items ≡ first ∷ rest.now) }
{
    let mut edges = Vec::new(alloc);
    edges.push(first)?;
    edges.extend_from_slice(rest)?;
    Ok(edges)
}

/// The number of the stem that is to be made.
fn grow(alloc: Global, pool: &mut Pool<'_>, growth: &Growth) -> Result<TreeId, PoolError>
    requires { IsGrowthIn pool.old growth.now }
    ensures tree { IfOk result (λ id. Holds pool.new id.0 (tree_of_growth pool.old growth.now)) }
    ensures grown { IsGrown pool.old pool.new }
{
    let (n, rest) = pool.node(growth.rest);
    let edges = edges_with(alloc, growth.edge, rest)?;
    pool.intern_node(alloc, n, edges.as_slice())
}

/// The number of a stem with this decoration at its root.
pub fn decorate(
    alloc: Global,
    pool: &mut Pool<'_>,
    n: &Multi,
    stem: TreeId,
) -> Result<TreeId, PoolError>
    requires known { stem.0 < length pool.old.trees }
    requires kept { IsKept pool.old.types (with_root n.now.entries (tree_at pool.old stem.0)) }
    ensures tree { IfOk result (λ id. Holds pool.new id.0
        (with_root n.now.entries (tree_at pool.old stem.0))) }
    ensures grown { IsGrown pool.old pool.new }
{
    let (_, edges) = pool.node(stem);
    pool.intern_node(alloc, *n, edges)
}

/// The stems that are to be made, in the pool.
pub fn stems_of(
    alloc: Global,
    pool: &mut Pool<'_>,
    growths: &[Growth],
) -> Result<Items<Stem>, PoolError>
    requires { All (IsGrowthIn pool.old) growths.now }
    ensures trees { IfOk result (λ stems. sprouts pool.new stems ≡ map (sprout_of_growth pool.old)
        growths.now) }
    ensures known { IfOk result (λ stems. All (λ s. s.id.0 < length pool.new.trees) stems) }
    ensures grown { IsGrown pool.old pool.new }
{
    let mut stems = Items::new(alloc);
    for growth in growths {
        let id = grow(alloc, pool, growth)?;
        stems.push(Stem {
            id,
            node: growth.node,
        })?;
    }
    Ok(stems)
}
