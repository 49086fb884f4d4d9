// Trees that are made of others.
ghost use Rattle.std.specs.Prelude.{◌≡◌, ◌<◌, ◌++◌, ◌∷◌, [], length, IfOk, OnOk, OnErr};
ghost use Rattle.plain_trees.specs.Plain.{IsSmall};
ghost use Rattle.plain_trees.specs.View.{plain};
ghost use Rattle.plain_trees.specs.Canon.{canon};
ghost use Rattle.plain_trees.specs.Degree.{HasTypes, IsEdge};
ghost use Rattle.tree_pool.specs.Content.{Holds, tree_at, IsGrown, IsGrownBy};
ghost use Rattle.plain_trees.specs.Joined.{joined, planted_by};

use crate::error::PoolError;
use crate::lists::appended;
use crate::node::{EdgeTo, TreeId};
use crate::pool::Pool;
use degree_numbers::{Multi, TypeId};
use plain_trees::Tree;
use std::alloc::{AllocError, Global};

/// Puts an edge behind others.
fn push_edge(edges: &mut Vec<EdgeTo>, e: EdgeTo) -> Result<(), AllocError>
    ensures { OnOk result (edges.new.items ≡ edges.old.items ++ e ∷ []) }
{
    edges.push(e)?;
    Ok(())
}

impl<'a> Pool<'a> {
    /// The number of the product of two trees: their roots joined, with the sum of their
    /// decorations. Fails only for want of memory, and the pool is then as it was.
    pub fn product(&mut self, alloc: Global, a: TreeId, b: TreeId) -> Result<TreeId, PoolError>
        requires known_a { a.0 < length self.old.trees }
        requires known_b { b.0 < length self.old.trees }
        requires small { IsSmall (joined (tree_at self.old a.0) (tree_at self.old b.0)) }
        ensures tree { IfOk result (λ id. Holds self.new id.0
            (canon (joined (tree_at self.old a.0) (tree_at self.old b.0)))) }
        ensures grown { OnOk result (IsGrownBy self.old self.new
            (canon (joined (tree_at self.old a.0) (tree_at self.old b.0)))) }
        ensures unchanged { OnErr result (self.new ≡ self.old) }
    {
        let (n, xs) = self.node(a);
        let (m, ys) = self.node(b);
        let edges = appended(alloc, xs, ys)?;
        self.intern_node(alloc, n.plus(&m), edges.as_slice())
    }

    /// The number of the tree with one edge at its root, of this type and derivative decoration,
    /// and the tree `t` above it. Fails only for want of memory, and the pool is then as it was.
    pub fn plant(
        &mut self,
        alloc: Global,
        kind: TypeId,
        p: Multi,
        t: TreeId,
    ) -> Result<TreeId, PoolError>
        requires known { t.0 < length self.old.trees }
        requires edge { IsEdge self.old.types kind.0 p.entries (tree_at self.old t.0) }
        requires small { IsSmall (planted_by kind.0 p.entries (tree_at self.old t.0)) }
        ensures tree { IfOk result (λ id. Holds self.new id.0 (planted_by kind.0 p.entries
            (tree_at self.old t.0))) }
        ensures grown { OnOk result (IsGrownBy self.old self.new (planted_by kind.0 p.entries
            (tree_at self.old t.0))) }
        ensures unchanged { OnErr result (self.new ≡ self.old) }
    {
        self.laws();
        let edge = EdgeTo { kind, p, child: t };
        self.intern_node(alloc, Multi::zero(), &[edge])
    }

    /// The number of the canonical form of a tree. Fails only for want of memory; the pool may then
    /// hold some of its subtrees.
    pub fn intern_tree(&mut self, alloc: Global, t: &Tree) -> Result<TreeId, PoolError>
        requires types { HasTypes self.old.types (plain t.now) }
        requires small { IsSmall (plain t.now) }
        ensures tree { IfOk result (λ id. Holds self.new id.0 (canon (plain t.now))) }
        ensures grown { IsGrown self.old self.new }
    {
        let mut edges = Vec::new(alloc);
        for e in t.edges.as_slice() {
            let child = self.intern_tree(alloc, &e.child)?;
            let edge = EdgeTo {
                kind: e.kind,
                p: e.p,
                child,
            };
            push_edge(&mut edges, edge)?;
        }
        self.intern_node(alloc, t.n, edges.as_slice())
    }
}
