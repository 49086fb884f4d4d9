// Forests of trees of a pool, in a hashed set whose positions are their numbers.
ghost use Rattle.std.specs.Prelude.{◌≡◌, ◌<◌, ◌++◌, ◌∷◌, [], ℕ, List, length, slice_get, Some, IfOk, OnOk, OnErr, MatchOption};
ghost use Rattle.tree_pool.specs.Forests.{numbers, forests_of, forest_at, AreKnown, IsSorting, Fits, LacksForest, AreDistinct, IsGrownWith};

use crate::error::PoolError;
use crate::lists::appended;
use crate::node::TreeId;
use crate::pool::Pool;
use bumpalo::Bump;
use indexmap::IndexSet;
use std::alloc::{AllocError, Global};
use std::marker::Model;

/// The number of a forest: its position in its forest pool. The order of numbers is that in which
/// their forests came into the forest pool.
#[derive(Clone, Copy, Debug, PartialEq, Eq, PartialOrd, Ord, Hash)]
pub struct ForestId(pub usize);

/// The trees of a forest, in tree order. Two are equal where they have the same numbers, wherever
/// these stand in memory.
#[derive(Clone, Copy, Debug, PartialEq, Eq, Hash)]
struct Forest<'a> {
    trees: &'a [TreeId],
}

/// Forests by number, each once. Contracts see the list of the forests, each as the list of the
/// numbers of its trees.
///
/// **Order.** Numbers are given from 0 on as forests come in, and stay while the forest pool grows.
/// They are equal exactly where the forests are; `order` compares the forests themselves. The trees
/// of a forest are in tree order, each as often as it stands in the forest.
///
/// **Invariant.** No forest stands at two places. That the forests are those of one pool is a
/// condition of each call that takes both.
///
/// **Example.** The forest of the trees 2 and 1 of the example of `Pool` is the list 1, 2; its join
/// with itself is 1, 1, 2, 2.
#[derive(Drop)]
pub struct ForestPool<'a> {
    arena: &'a Bump,
    forests: IndexSet<Forest<'a>>,
}

impl<'a> Model for ForestPool<'a> {
    ghost use Rattle.std.specs.Prelude.{ℕ, List};
    ghost use Rattle.tree_pool.specs.Forests.{forests_of, AreDistinct};

    ghost Value = { List (List ℕ) };

    ghost view = { λ p. forests_of p.forests.keys };

    ghost invariant = { λ p. AreDistinct (forests_of p.forests.keys) };
}

/// The place of the forest with these trees.
fn forest_position(forests: &IndexSet<Forest<'_>>, trees: &[TreeId]) -> Option<usize>
    ensures { MatchOption result (LacksForest (forests_of forests.now.keys) (numbers trees.now))
        (λ i. slice_get (forests_of forests.now.keys) i ≡ Some (numbers trees.now)) }
{
    forests.get_index_of(&Forest { trees })
}

/// Puts a forest that is not there behind the others, its trees in the arena.
fn push_forest<'a>(
    forests: &mut IndexSet<Forest<'a>>,
    arena: &'a Bump,
    trees: &[TreeId],
) -> Result<(), AllocError>
    requires { LacksForest (forests_of forests.old.keys) (numbers trees.now) }
    ensures forests { OnOk result (forests_of forests.new.keys ≡ forests_of forests.old.keys
        ++ numbers trees.now ∷ []) }
    ensures unchanged { OnErr result (forests.new.keys ≡ forests.old.keys) }
{
    let trees = &*arena.try_alloc_slice_copy(trees)?;
    forests.insert(Forest { trees })?;
    Ok(())
}

/// The numbers in tree order of their trees.
fn sorted_ids(alloc: Global, pool: &Pool<'_>, ids: &[TreeId]) -> Result<Vec<TreeId>, AllocError>
    ensures { IfOk result (λ sorted. IsSorting pool.now (numbers ids.now) (numbers sorted.items)) }
{
    let mut sorted = Vec::new(alloc);
    sorted.extend_from_slice(ids)?;
    sorted.sort_unstable_by(|a, b| pool.order(*a, *b));
    Ok(sorted)
}

impl<'a> ForestPool<'a> {
    /// A forest pool with no forest. Its forests will stand in the arena.
    pub fn new(alloc: Global, arena: &'a Bump) -> Result<ForestPool<'a>, PoolError>
        ensures { IfOk result (λ forests. forests ≡ []) }
    {
        Ok(ForestPool {
            arena,
            forests: IndexSet::new(alloc),
        })
    }

    /// The number of forests. Takes no memory.
    pub fn len(&self) -> usize
        ensures { result ≡ length self.now }
    {
        self.forests.len()
    }

    /// The trees of a forest, in tree order. Takes no memory. The list stays readable as long as
    /// the arena, also while the forest pool grows.
    pub fn trees(&self, f: ForestId) -> &'a [TreeId]
        requires { f.0 < length self.now }
        ensures { numbers result.now ≡ forest_at self.now f.0 }
    {
        let forest = self.forests[f.0];
        forest.trees
    }

    /// The number of the forest of these trees, in any order, each as often as it is given: that of
    /// the list in tree order, which is added where it is not there yet. Fails only for want of
    /// memory, and the forest pool is then as it was.
    pub fn intern(
        &mut self,
        alloc: Global,
        pool: &Pool<'a>,
        ids: &[TreeId],
    ) -> Result<ForestId, PoolError>
        requires fits { Fits self.old pool.now }
        requires known { AreKnown pool.now (numbers ids.now) }
        ensures known { IfOk result (λ f. f.0 < length self.new) }
        ensures forest { IfOk result (λ f. IsSorting pool.now (numbers ids.now)
            (forest_at self.new f.0)) }
        ensures grown { IfOk result (λ f. IsGrownWith self.old self.new (forest_at self.new f.0)) }
        ensures unchanged { OnErr result (self.new ≡ self.old) }
        ensures fits { Fits self.new pool.now }
    {
        let sorted = sorted_ids(alloc, pool, ids)?;
        Ok(self.intern_sorted(sorted.as_slice())?)
    }

    /// The same of a list in tree order.
    fn intern_sorted(&mut self, trees: &[TreeId]) -> Result<ForestId, AllocError>
        ensures there { IfOk result (λ f. slice_get self.new f.0 ≡ Some (numbers trees.now)) }
        ensures grown { OnOk result (IsGrownWith self.old self.new (numbers trees.now)) }
        ensures unchanged { OnErr result (self.new ≡ self.old) }
    {
        if let Some(i) = forest_position(&self.forests, trees) {
            return Ok(ForestId(i));
        }
        let id = self.forests.len();
        push_forest(&mut self.forests, self.arena, trees)?;
        Ok(ForestId(id))
    }

    /// The number of the forest that has the trees of two forests, each as often as in both
    /// together. Fails only for want of memory, and the forest pool is then as it was.
    pub fn join(
        &mut self,
        alloc: Global,
        pool: &Pool<'a>,
        f: ForestId,
        g: ForestId,
    ) -> Result<ForestId, PoolError>
        requires fits { Fits self.old pool.now }
        requires known_f { f.0 < length self.old }
        requires known_g { g.0 < length self.old }
        ensures known { IfOk result (λ h. h.0 < length self.new) }
        ensures forest { IfOk result (λ h. IsSorting pool.now (forest_at self.old f.0
            ++ forest_at self.old g.0) (forest_at self.new h.0)) }
        ensures grown { IfOk result (λ h. IsGrownWith self.old self.new (forest_at self.new h.0)) }
        ensures unchanged { OnErr result (self.new ≡ self.old) }
        ensures fits { Fits self.new pool.now }
    {
        let ids = appended(alloc, self.trees(f), self.trees(g))?;
        self.intern(alloc, pool, ids.as_slice())
    }

    /// What every forest pool meets: each forest is there once.
    pub fn laws(&self)
        ensures { AreDistinct self.now }
    {
        let _ = &self.forests;
    }
}
