// Trees of a pool as trees of their own.
ghost use Rattle.std.specs.Prelude.{◌≡◌, ◌<◌, ◌++◌, ◌∷◌, [], length, map, IfOk, OnOk};
ghost use Rattle.plain_trees.specs.View.{plain, labelled};
ghost use Rattle.tree_pool.specs.Content.{tree_at, labelled_by};

use crate::error::PoolError;
use crate::node::TreeId;
use crate::pool::Pool;
use degree_numbers::{Multi, TypeId};
use plain_trees::{Edge, Tree, tree_of};
use std::alloc::{AllocError, Global};

/// Puts an edge behind others.
fn push_edge(edges: &mut Vec<Edge>, kind: TypeId, p: Multi, child: Tree) -> Result<(), AllocError>
    ensures { OnOk result (map labelled edges.new.items ≡ map labelled edges.old.items
        ++ labelled_by kind p (plain child) ∷ []) }
{
    edges.push(Edge { kind, p, child })?;
    Ok(())
}

impl<'a> Pool<'a> {
    /// A tree by its number, in canonical form. Fails only for want of memory.
    pub fn plain(&self, alloc: Global, id: TreeId) -> Result<Tree, PoolError>
        requires { id.0 < length self.now.trees }
        ensures { IfOk result (λ t. plain t ≡ tree_at self.now id.0) }
    {
        let (n, edges) = self.node(id);
        let mut copies = Vec::new(alloc);
        for e in edges {
            let child = self.plain(alloc, e.child)?;
            push_edge(&mut copies, e.kind, e.p, child)?;
        }
        Ok(tree_of(n, copies))
    }
}
