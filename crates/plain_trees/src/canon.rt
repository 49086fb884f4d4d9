// Canonical form.
ghost use Rattle.std.specs.Prelude.{◌≡◌, ◌≤◌, ◌<◌, ◌↔◌, ℕ, List, [], map, drop, length, IfOk, OnOk, IsOkUnless, IsTrue};
ghost use Rattle.std.specs.List.{prefix_len};
ghost use Rattle.std.specs.Ordering.{is_gt};
ghost use Rattle.std.specs.declared.cmp.Ordering.TheVariants.{Equal};
ghost use Rattle.limits.specs.declared.TheConstants.{MOST_EDGES};
ghost use Rattle.plain_trees.specs.Plain.{Plain, edge_count_of, decoration_sum_of, tree_order};
ghost use Rattle.plain_trees.specs.View.{plain, labelled, grafted, edge_order_of};
ghost use Rattle.plain_trees.specs.Canon.{canon, with_edge, planted_of, canon_above, IsAtMostNext, IsCanonical, IsSame};

use crate::error::TreeError;
use crate::tree::{Edge, Tree, edge_order};
use degree_numbers::Multi;
use sqlite_items::Items;
use std::alloc::{AllocError, Global};

/// The number of edges that are less than this one, from the first on.
fn place(edges: &[Edge], e: &Edge) -> usize
    requires small { edge_count_of (grafted [] (map labelled edges.now)) ≤ MOST_EDGES }
    requires small_edge { edge_count_of (labelled e.now).child ≤ MOST_EDGES }
    ensures { result ≡ prefix_len (λ f. is_gt (edge_order_of (labelled e.now) f))
        (map labelled edges.now) }
{
    for i in 0..edges.len() {
        if !edge_order(e, &edges[i]).is_gt() {
            return i;
        }
    }
    edges.len()
}

/// Puts an edge into a list in edge order.
pub fn insert_edge(edges: &mut Vec<Edge>, e: Edge) -> Result<(), AllocError>
    requires small { edge_count_of (grafted [] (map labelled edges.old.items)) ≤ MOST_EDGES }
    requires small_edge { edge_count_of (labelled e).child ≤ MOST_EDGES }
    ensures { OnOk result ((n : List ℕ) →
        grafted n (map labelled edges.new.items) ≡ with_edge (planted_of (labelled e))
        (grafted n (map labelled edges.old.items))) }
{
    let at = place(edges.as_slice(), &e);
    edges.insert(at, e)?;
    Ok(())
}

/// The tree with this decoration at its root and these edges.
pub fn tree_of(n: Multi, edges: Vec<Edge>) -> Tree
    ensures { plain result ≡ grafted n.entries (map labelled edges.items) }
{
    Tree {
        n,
        edges: Items::from_vec(edges),
    }
}

/// The edge with the canonical form of its subtree.
#[cycle(canonical)]
fn canonical_edge(alloc: Global, e: &Edge) -> Result<Edge, TreeError>
    requires { edge_count_of (labelled e.now).child ≤ MOST_EDGES }
    ensures edge { IfOk result (λ f. planted_of (labelled f)
        ≡ canon_above (planted_of (labelled e.now))) }
    ensures memory { IsOkUnless result TreeError.Memory }
{
    let child = canonical(alloc, &e.child)?;
    Ok(Edge {
        kind: e.kind,
        p: e.p,
        child,
    })
}

/// The canonical form of a tree: the same tree with the edges of each node in edge order. Fails
/// only for want of memory.
#[cycle(canonical)]
pub fn canonical(alloc: Global, t: &Tree) -> Result<Tree, TreeError>
    requires { edge_count_of (plain t.now) ≤ MOST_EDGES }
    ensures tree { IfOk result (λ u. plain u ≡ canon (plain t.now)) }
    ensures memory { IsOkUnless result TreeError.Memory }
{
    let items = t.edges.as_slice();
    let mut edges = Vec::new(alloc);
    let mut i = items.len();
    while i > 0 {
        i -= 1;
        let e = canonical_edge(alloc, &items[i])?;
        insert_edge(&mut edges, e)?;
    }
    Ok(tree_of(t.n, edges))
}

/// Whether this edge is at most the next one, where there is one.
fn is_at_most_next(edges: &[Edge], i: usize) -> bool
    requires within { i < length edges.now }
    requires small { edge_count_of (grafted [] (map labelled (drop i edges.now))) ≤ MOST_EDGES }
    ensures { IsTrue result ↔ IsAtMostNext (map labelled (drop i edges.now)) }
{
    match edges.get(i + 1) {
        Some(next) => !edge_order(&edges[i], next).is_gt(),
        None => true,
    }
}

/// Whether at each node the edges are in edge order.
pub fn is_canonical(t: &Tree) -> bool
    requires { edge_count_of (plain t.now) ≤ MOST_EDGES }
    ensures { IsTrue result ↔ IsCanonical (plain t.now) }
{
    let edges = t.edges.as_slice();
    for i in 0..edges.len() {
        if !is_canonical(&edges[i].child) {
            return false;
        }
        if !is_at_most_next(edges, i) {
            return false;
        }
    }
    true
}

/// The laws of canonical form: it is canonical; it is the same tree; exactly the canonical trees
/// keep their form; trees are the same exactly where their forms are equal; of two canonical trees
/// that is so exactly where tree order says so. It has as many edges and the same sum of
/// decorations.
pub fn canon_laws()
    ensures canonical { (t : Plain) → IsCanonical (canon t) }
    ensures same { (t : Plain) → IsSame t (canon t) }
    ensures fixed { (t : Plain) → IsCanonical t ↔ (canon t ≡ t) }
    ensures equal { (s t : Plain) → IsSame s t ↔ (canon s ≡ canon t) }
    ensures order { (s t : Plain) → IsCanonical s → IsCanonical t →
        (IsSame s t ↔ (tree_order s t ≡ Equal)) }
    ensures edges { (t : Plain) → edge_count_of (canon t) ≡ edge_count_of t }
    ensures decorations { (t : Plain) → decoration_sum_of (canon t) ≡ decoration_sum_of t }
{}
