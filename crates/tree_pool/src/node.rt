// The nodes of a pool, in a hashed set whose positions are their numbers, and the list of their
// measures. Both are looked up and added to here alone.
ghost use Rattle.std.specs.Prelude.{◌≡◌, ◌++◌, ◌∷◌, [], OnOk, OnErr, MatchOption};
ghost use Rattle.tree_pool.specs.Nodes.{shapes, LacksShape, IsShapeAt, GainsShape};

use bumpalo::Bump;
use degree_numbers::{Degree, Multi, TypeId};
use indexmap::IndexSet;
use std::alloc::AllocError;

/// The number of a tree: its position in its pool. The order of numbers is that in which their
/// trees came into the pool, and not tree order.
#[derive(Clone, Copy, Debug, PartialEq, Eq, PartialOrd, Ord, Hash)]
pub struct TreeId(pub usize);

/// An edge of a node of a pool: its type, its derivative decoration and the number of the tree
/// above it.
#[derive(Clone, Copy, Debug, PartialEq, Eq, Hash)]
pub struct EdgeTo {
    pub kind: TypeId,
    pub p: Multi,
    pub child: TreeId,
}

/// What is kept of a tree, so that no call has to walk it: its degree, its number of edges and its decoration sum.
#[derive(Clone, Copy, Debug, PartialEq, Eq)]
pub struct Measures {
    pub degree: Degree,
    pub edges: u32,
    pub decorations: u32,
}

/// The root of a tree: its decoration, and its edges in edge order. Two are equal where both are
/// the same, wherever the edges stand in memory.
#[derive(Clone, Copy, PartialEq, Eq, Hash)]
pub struct Node<'a> {
    pub n: Multi,
    pub edges: &'a [EdgeTo],
}

/// The place of the node with this decoration and these edges.
pub fn position(nodes: &IndexSet<Node<'_>>, n: &Multi, edges: &[EdgeTo]) -> Option<usize>
    ensures { MatchOption result (LacksShape (shapes nodes.now.keys) n.now.entries edges.now)
        (λ i. IsShapeAt (shapes nodes.now.keys) i n.now.entries edges.now) }
{
    nodes.get_index_of(&Node { n: *n, edges })
}

/// Puts a node that is not there behind the others, its edges in the arena, and its measures behind
/// theirs. All memory is taken before anything is added.
pub fn push_node<'a>(
    nodes: &mut IndexSet<Node<'a>>,
    measures: &mut Vec<Measures>,
    arena: &'a Bump,
    n: Multi,
    edges: &[EdgeTo],
    measure: Measures,
) -> Result<(), AllocError>
    requires { LacksShape (shapes nodes.old.keys) n.entries edges.now }
    ensures nodes { OnOk result (GainsShape (shapes nodes.old.keys) (shapes nodes.new.keys)
        n.entries edges.now) }
    ensures measures { OnOk result (measures.new.items ≡ measures.old.items ++ measure ∷ []) }
    ensures unchanged { OnErr result ((nodes.new.keys ≡ nodes.old.keys)
        × (measures.new.items ≡ measures.old.items)) }
{
    let edges = &*arena.try_alloc_slice_copy(edges)?;
    measures.reserve(1)?;
    nodes.insert(Node { n, edges })?;
    measures.push_reserved(measure);
    Ok(())
}
