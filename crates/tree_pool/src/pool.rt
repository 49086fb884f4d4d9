// The pool.
ghost use Rattle.std.specs.Prelude.{◌≡◌, ◌<◌, [], length, IfOk, OnOk, OnErr};
ghost use Rattle.degree_numbers.specs.Types.{AreTypes};
ghost use Rattle.tree_pool.specs.Content.{Content, Holds, tree_over, AreBelow, IsKept, IsPooled, IsGrownBy};
ghost use Rattle.plain_trees.specs.Canon.{canon};
ghost use Rattle.plain_trees.specs.Degree.{HasTypes};
ghost use Rattle.plain_trees.specs.Plain.{IsSmall};

use crate::error::PoolError;
use crate::node::{EdgeTo, Measures, Node, TreeId, position, push_node};
use crate::sort::sorted_edges;
use bumpalo::Bump;
use degree_numbers::{Multi, Types};
use indexmap::IndexSet;
use sqlite_items::Items;
use std::alloc::{AllocError, Global};
use std::marker::Model;

/// Trees by number, each once. Contracts see the types that the pool was made with and the list of
/// its trees.
///
/// **Order.** Numbers are given from 0 on as trees come in, and stay while the pool grows, so a
/// number is also an index into tables beside the pool. Numbers are equal exactly where trees are.
/// They are not in tree order: `order` is.
///
/// **Units.** Degrees are in units of one over the common denominator of the types; decorations are
/// multiindices by direction.
/// **Invariants.** Each tree is canonical, so the edges of each node are in edge order; it is of
/// the pool's types, with at most 24 edges (`MOST_EDGES`) and a decoration sum of at most 4096
/// (`MOST_DECORATIONS`). The trees above the edges of a root have smaller numbers than the root's.
/// The degree, number of edges and decoration sum that are kept are right.
///
/// **Example.** Where `[]`, `[xi]` and `[u'(0,1)[xi]]` have the numbers 0, 1 and 2 and no other
/// tree is there, `product` of 2 and 1 answers 3, the number of `[xi*u'(0,1)[xi]]`, and so does
/// from then on `intern_node` with its two edges in either order.
#[derive(Drop)]
pub struct Pool<'a> {
    types: Types,
    arena: &'a Bump,
    nodes: IndexSet<Node<'a>>,
    pub(crate) measures: Vec<Measures>,
}

impl<'a> Model for Pool<'a> {
    ghost use Rattle.tree_pool.specs.Content.{Content, content_code};
    ghost use Rattle.tree_pool.specs.Nodes.{made_trees, shapes, AreMeasuredNodes};

    ghost Value = { Content };

    ghost coded = { content_code };

    ghost view = { λ p. record { types = p.types; trees = made_trees (shapes p.nodes.keys) } };

    ghost invariant = { λ p. AreMeasuredNodes p.types p.nodes.keys p.measures.items };
}

/// A copy of types. Fails only for want of memory.
fn copy_types(alloc: Global, types: &Types) -> Result<Types, AllocError>
    ensures { IfOk result (λ u. u ≡ types.now) }
{
    Ok(Types {
        dims: types.dims,
        scaling: types.scaling,
        units: types.units,
        list: Items::from_slice(alloc, types.list.as_slice())?,
        groups: Items::from_slice(alloc, types.groups.as_slice())?,
        reflect: Items::from_slice(alloc, types.reflect.as_slice())?,
    })
}

impl<'a> Pool<'a> {
    /// A pool of trees of these types, with no tree. Its edges will stand in the arena. Fails only
    /// for want of memory.
    pub fn new(alloc: Global, arena: &'a Bump, types: &Types) -> Result<Pool<'a>, PoolError>
        requires { AreTypes types.now }
        ensures types { IfOk result (λ pool. pool.types ≡ types.now) }
        ensures trees { IfOk result (λ pool. pool.trees ≡ []) }
    {
        let types = copy_types(alloc, types)?;
        Ok(Pool {
            types,
            arena,
            nodes: IndexSet::new(alloc),
            measures: Vec::new(alloc),
        })
    }

    /// The types that the pool was made with. Takes no memory.
    pub fn types(&self) -> &Types
        ensures types { result.now ≡ self.now.types }
        ensures accepted { AreTypes result.now }
    {
        &self.types
    }

    /// The number of trees. Takes no memory.
    #[tactic(auto, using(crate::proofs::Trees::trees_facts))]
    pub fn len(&self) -> usize
        ensures { result ≡ length self.now.trees }
    {
        self.nodes.len()
    }

    /// The decoration of the root of a tree, and the edges that leave it, in edge order. Takes no
    /// memory. The edges stay readable as long as the arena, also while the pool grows.
    #[tactic(auto, using(crate::proofs::Trees::trees_facts))]
    pub fn node(&self, id: TreeId) -> (Multi, &'a [EdgeTo])
        requires { id.0 < length self.now.trees }
        ensures tree { Holds self.now id.0 (tree_over self.now.trees result.0.entries
            result.1.now) }
        ensures below { AreBelow id.0 result.1.now }
        ensures kept { IsKept self.now.types (tree_over self.now.trees result.0.entries
            result.1.now) }
    {
        let node = self.nodes[id.0];
        (node.n, node.edges)
    }

    /// What every pool meets: its trees are of its types, canonical, small and each there once, and
    /// the trees above the edges of a root stand before it.
    pub fn laws(&self)
        ensures { IsPooled self.now }
    {
        let _ = &self.nodes;
    }

    /// The number of the tree whose root has this decoration and these edges, in any order: that of
    /// its canonical form, which is added where it is not there yet. Fails only for want of memory,
    /// and the pool is then as it was.
    pub fn intern_node(
        &mut self,
        alloc: Global,
        n: Multi,
        edges: &[EdgeTo],
    ) -> Result<TreeId, PoolError>
        requires known { AreBelow (length self.old.trees) edges.now }
        requires types { HasTypes self.old.types (tree_over self.old.trees n.entries edges.now) }
        requires small { IsSmall (tree_over self.old.trees n.entries edges.now) }
        ensures tree { IfOk result (λ id. Holds self.new id.0
            (canon (tree_over self.old.trees n.entries edges.now))) }
        ensures grown { OnOk result (IsGrownBy self.old self.new
            (canon (tree_over self.old.trees n.entries edges.now))) }
        ensures unchanged { OnErr result (self.new ≡ self.old) }
    {
        let sorted = sorted_edges(alloc, self, edges)?;
        Ok(self.intern_sorted(n, sorted.as_slice())?)
    }

    /// The same of edges in edge order.
    #[tactic(auto, using(crate::proofs::Trees::trees_facts))]
    fn intern_sorted(&mut self, n: Multi, edges: &[EdgeTo]) -> Result<TreeId, AllocError>
        requires known { AreBelow (length self.old.trees) edges.now }
        requires kept { IsKept self.old.types (tree_over self.old.trees n.entries edges.now) }
        ensures tree { IfOk result (λ id. Holds self.new id.0 (tree_over self.old.trees n.entries
            edges.now)) }
        ensures grown { OnOk result (IsGrownBy self.old self.new (tree_over self.old.trees n.entries
            edges.now)) }
        ensures unchanged { OnErr result (self.new ≡ self.old) }
    {
        if let Some(i) = position(&self.nodes, &n, edges) {
            return Ok(TreeId(i));
        }
        let measures = self.measures_over(&n, edges);
        let id = self.nodes.len();
        push_node(
            &mut self.nodes,
            &mut self.measures,
            self.arena,
            n,
            edges,
            measures,
        )?;
        Ok(TreeId(id))
    }
}
