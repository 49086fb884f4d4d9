// Edges of a node in edge order.
ghost use Rattle.std.specs.Prelude.{◌≡◌, ◌<◌, ℕ, List, length, map, IfOk, OnOk};
ghost use Rattle.std.specs.List.{prefix_len};
ghost use Rattle.std.specs.Ordering.{is_gt};
ghost use Rattle.plain_trees.specs.View.{edge_order_of};
ghost use Rattle.plain_trees.specs.Canon.{planted_of, with_edge, canon};
ghost use Rattle.tree_pool.specs.Content.{edge_over, tree_over, AreBelow};

use crate::node::EdgeTo;
use crate::pool::Pool;
use std::alloc::{AllocError, Global};

/// The number of edges that are less than this one, from the first on.
fn place(pool: &Pool<'_>, edges: &[EdgeTo], e: &EdgeTo) -> usize
    requires known { AreBelow (length pool.now.trees) edges.now }
    requires known_edge { e.now.child.0 < length pool.now.trees }
    ensures { result ≡ prefix_len (λ f. is_gt (edge_order_of (edge_over pool.now.trees e.now) f))
        (map (edge_over pool.now.trees) edges.now) }
{
    for i in 0..edges.len() {
        if !pool.edge_order(e, &edges[i]).is_gt() {
            return i;
        }
    }
    edges.len()
}

/// Puts an edge into a list in edge order.
fn insert_edge(pool: &Pool<'_>, edges: &mut Vec<EdgeTo>, e: EdgeTo) -> Result<(), AllocError>
    requires known { AreBelow (length pool.now.trees) edges.old.items }
    requires known_edge { e.child.0 < length pool.now.trees }
    ensures tree { OnOk result ((n : List ℕ) →
        tree_over pool.now.trees n edges.new.items
        ≡ with_edge (planted_of (edge_over pool.now.trees e))
        (tree_over pool.now.trees n edges.old.items)) }
    ensures known { OnOk result (AreBelow (length pool.now.trees) edges.new.items) }
{
    let at = place(pool, edges.as_slice(), &e);
    edges.insert(at, e)?;
    Ok(())
}

/// The edges in edge order: those of the canonical form of a tree with these edges at its root.
pub fn sorted_edges(
    alloc: Global,
    pool: &Pool<'_>,
    edges: &[EdgeTo],
) -> Result<Vec<EdgeTo>, AllocError>
    requires known { AreBelow (length pool.now.trees) edges.now }
    ensures tree { IfOk result (λ sorted. (n : List ℕ) →
        tree_over pool.now.trees n sorted.items ≡ canon (tree_over pool.now.trees n edges.now)) }
    ensures known { IfOk result (λ sorted. AreBelow (length pool.now.trees) sorted.items) }
{
    pool.laws();
    let mut sorted = Vec::new(alloc);
    let mut i = edges.len();
    while i > 0 {
        i -= 1;
        insert_edge(pool, &mut sorted, edges[i])?;
    }
    Ok(sorted)
}
