// The plain program that a pool is compared with: a list of nodes that is walked, with edges in the order in which they came.
use bumpalo::Bump;
use degree_numbers::Multi;
use plain_trees::Tree;
use std::alloc::{AllocError, Global};
use tree_pool::{EdgeTo, TreeId};

/// The root of a tree: its decoration, and its edges in the order in which they came.
#[derive(Clone, Copy)]
struct Node<'a> {
    n: Multi,
    edges: &'a [EdgeTo],
}

/// Trees by number, each once. No edges are sorted and nothing is hashed: two roots are the same where each edge leaves both as often.
#[derive(Drop)]
pub struct WalkingPool<'a> {
    arena: &'a Bump,
    nodes: Vec<Node<'a>>,
}

/// How often an edge stands in a list.
fn repeats(edges: &[EdgeTo], e: &EdgeTo) -> usize {
    edges.iter().filter(|f| *f == e).count()
}

/// Whether a node has this decoration and these edges, in any order.
fn is_node(node: &Node<'_>, n: &Multi, edges: &[EdgeTo]) -> bool {
    node.n == *n
        && node.edges.len() == edges.len()
        && edges
            .iter()
            .all(|e| repeats(node.edges, e) == repeats(edges, e))
}

impl<'a> WalkingPool<'a> {
    /// A pool with no tree.
    pub fn new(alloc: Global, arena: &'a Bump) -> WalkingPool<'a> {
        WalkingPool {
            arena,
            nodes: Vec::new(alloc),
        }
    }

    /// The number of trees.
    pub fn len(&self) -> usize {
        self.nodes.len()
    }

    /// The number of the tree with this decoration and these edges at its root, which is added where it is not there yet.
    fn number(&mut self, n: Multi, edges: &[EdgeTo]) -> Result<TreeId, AllocError> {
        for i in 0..self.nodes.len() {
            if is_node(&self.nodes[i], &n, edges) {
                return Ok(TreeId(i));
            }
        }
        let id = TreeId(self.nodes.len());
        let edges = &*self.arena.try_alloc_slice_copy(edges)?;
        self.nodes.push(Node { n, edges })?;
        Ok(id)
    }

    /// The number of a tree, after those of the trees above the edges of its root.
    pub fn number_of(&mut self, alloc: Global, t: &Tree) -> Result<TreeId, AllocError> {
        let mut edges = Vec::new(alloc);
        for e in t.edges.as_slice() {
            let child = self.number_of(alloc, &e.child)?;
            edges.push(EdgeTo {
                kind: e.kind,
                p: e.p,
                child,
            })?;
        }
        self.number(t.n, edges.as_slice())
    }
}
