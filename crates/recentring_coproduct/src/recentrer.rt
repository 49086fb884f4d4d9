// The recentring coproduct of the trees of a pool.
ghost use Rattle.std.specs.Prelude.{◌≡◌, ◌<◌, ℕ, List, [], length, IfOk, IfErr, OnOk};
ghost use Rattle.tree_pool.specs.Content.{Content, tree_at, IsGrown};
ghost use Rattle.cutting_sizes.specs.Bounds.{IsFit};
ghost use Rattle.recentring_coproduct.specs.declared.error.CoproductError.TheVariants.{CoefficientTooLarge};
ghost use Rattle.recentring_coproduct.specs.declared.term.RightTerm.{RightTerm};
ghost use Rattle.recentring_coproduct.specs.Held.{recentring_of, FitsPool, HasGrown};
ghost use Rattle.recentring_coproduct.specs.Terms.{right_terms_in, whole_terms, AreKnownTerms, AreInRange};

use crate::error::CoproductError;
use crate::finish::{recentring_lines, terms_of};
use crate::memo::Memo;
use crate::term::RightTerm;
use bumpalo::Bump;
use std::alloc::Global;
use std::marker::Model;
use tree_pool::{Pool, TreeId};

/// The recentring coproducts that are finished, beside a pool. Contracts see the numbers of their
/// trees with their terms, in the order in which they were finished.
///
/// **Fit.** It is used with one pool: it fits a pool where what it holds are the recentring terms of
/// that pool's trees. A new one fits every pool, and it goes on fitting while the pool grows.
#[derive(Drop)]
pub struct Recentrer<'a> {
    arena: &'a Bump,
    memo: Memo<'a>,
}

impl<'a> Model for Recentrer<'a> {
    ghost use Rattle.std.specs.Prelude.{ℕ, List};
    ghost use Rattle.recentring_coproduct.specs.declared.term.RightTerm.{RightTerm};

    ghost Value = { List (ℕ × List RightTerm) };

    ghost view = { λ r. r.memo };
}

/// A new recentrer fits every pool, and what fits a pool goes on fitting while it grows.
pub fn fit_laws()
    ensures new { (c : Content) → FitsPool [] c }
    ensures growth { (held : List (ℕ × List RightTerm)) (c d : Content) → FitsPool held c →
        IsGrown c d → FitsPool held d }
{}

impl<'a> Recentrer<'a> {
    /// A recentrer with nothing finished. Its terms will stand in the arena. Fails only for want of
    /// memory.
    pub fn new(alloc: Global, arena: &'a Bump) -> Result<Recentrer<'a>, CoproductError>
        ensures { IfOk result (λ r. r ≡ []) }
    {
        let memo = Memo::new(alloc);
        Ok(Recentrer { arena, memo })
    }

    /// The terms of the recentring coproduct of a tree (after Bruned, Hairer and Zambotti), each
    /// once, ordered by left tree, then right tree, in tree order. Refused exactly where a
    /// coefficient passes 2^127 - 1, or for want of memory; what was finished stays so. The terms
    /// stay readable as long as the arena, also while the pool grows.
    pub fn recentre(
        &mut self,
        alloc: Global,
        pool: &mut Pool<'a>,
        id: TreeId,
    ) -> Result<&'a [RightTerm], CoproductError>
        requires known { id.0 < length pool.old.trees }
        requires fit { IsFit (tree_at pool.old id.0) }
        requires fits { FitsPool self.old pool.old }
        ensures terms { IfOk result (λ ts. right_terms_in pool.new ts.now
            ≡ whole_terms (recentring_of pool.old id.0)) }
        ensures known { IfOk result (λ ts. AreKnownTerms pool.new ts.now) }
        ensures range { OnOk result (AreInRange (recentring_of pool.old id.0)) }
        ensures refusal { IfErr result (λ e. e ≡ CoefficientTooLarge →
            AreInRange (recentring_of pool.old id.0) → ⊥) }
        ensures grown { IsGrown pool.old pool.new }
        ensures fits { FitsPool self.new pool.new }
        ensures held { HasGrown self.old self.new }
    {
        if let Some(terms) = self.memo.get(id) {
            return Ok(terms);
        }
        let lines = recentring_lines(pool, alloc, id)?;
        let terms = terms_of(alloc, lines.as_slice())?;
        let terms = self.memo.push(self.arena, id, terms.as_slice())?;
        Ok(terms)
    }
}
