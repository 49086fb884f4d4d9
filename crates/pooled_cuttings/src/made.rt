// Trees of a pool that are made of others.
ghost use Rattle.std.specs.Prelude.{◌≡◌, ◌<◌, ◌∷◌, length, IfOk};
ghost use Rattle.plain_trees.specs.Plain.{graft};
ghost use Rattle.plain_trees.specs.Canon.{canon};
ghost use Rattle.plain_trees.specs.Joined.{raised};
ghost use Rattle.tree_pool.specs.Content.{Holds, tree_at, IsGrown};
ghost use Rattle.pooled_cuttings.specs.Products.{CanHold};

use degree_numbers::{Multi, TypeId};
use std::alloc::{AllocError, Global};
use tree_pool::{EdgeTo, Pool, PoolError, TreeId};

/// An edge in front of others.
fn with_first(alloc: Global, first: EdgeTo, rest: &[EdgeTo]) -> Result<Vec<EdgeTo>, AllocError>
    ensures { IfOk result (λ all. all.items ≡ first ∷ rest.now) }
{
    let mut all = Vec::new(alloc);
    all.push(first)?;
    all.extend_from_slice(rest)?;
    Ok(all)
}

/// The number of the tree `rest` with one more edge at its root, of this type and derivative
/// decoration, and with the tree `child` above it.
pub(crate) fn grafted(
    pool: &mut Pool<'_>,
    alloc: Global,
    kind: TypeId,
    p: Multi,
    child: TreeId,
    rest: TreeId,
) -> Result<TreeId, PoolError>
    requires child { child.0 < length pool.old.trees }
    requires rest { rest.0 < length pool.old.trees }
    requires fits { CanHold pool.old.types (graft kind.0 p.entries (tree_at pool.old child.0)
        (tree_at pool.old rest.0)) }
    ensures tree { IfOk result (λ id. Holds pool.new id.0
        (canon (graft kind.0 p.entries (tree_at pool.old child.0) (tree_at pool.old rest.0)))) }
    ensures grown { IsGrown pool.old pool.new }
{
    let (n, edges) = pool.node(rest);
    let all = with_first(alloc, EdgeTo { kind, p, child }, edges)?;
    pool.intern_node(alloc, n, all.as_slice())
}

/// The number of a tree with `s` added to the decoration of its root.
pub(crate) fn raised(
    pool: &mut Pool<'_>,
    alloc: Global,
    s: &Multi,
    id: TreeId,
) -> Result<TreeId, PoolError>
    requires known { id.0 < length pool.old.trees }
    requires fits { CanHold pool.old.types (raised s.now.entries (tree_at pool.old id.0)) }
    ensures tree { IfOk result (λ r. Holds pool.new r.0
        (raised s.now.entries (tree_at pool.old id.0))) }
    ensures grown { IsGrown pool.old pool.new }
{
    let (n, edges) = pool.node(id);
    pool.intern_node(alloc, s.plus(&n), edges)
}
