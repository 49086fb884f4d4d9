// From the lines of a table to the terms of the coproduct.
ghost use Rattle.std.specs.Prelude.{◌≡◌, ◌<◌, ◌≤◌, ◌++◌, ◌∷◌, [], length, map, IfOk, IfErr, OnOk, MatchOption};
ghost use Rattle.exact_sums.specs.Saturating.{overflow};
ghost use Rattle.std.specs.List.Sorted.{IsSorted, IsPermutation};
ghost use Rattle.exact_sums.specs.Keyed.{keys, saturated_terms, IsCollected};
ghost use Rattle.plain_trees.specs.Coproducts.{recentred_order};
ghost use Rattle.tree_pool.specs.Content.{tree_at, IsGrown};
ghost use Rattle.cutting_sizes.specs.Bounds.{IsFit};
ghost use Rattle.cutting_tables.specs.Live.{AreSameRecentred};
ghost use Rattle.pooled_cuttings.specs.Lines.{recentred_terms_in, AreRightLines};
ghost use Rattle.recentring_coproduct.specs.declared.error.CoproductError.TheVariants.{CoefficientTooLarge};
ghost use Rattle.recentring_coproduct.specs.Held.{recentring_of};
ghost use Rattle.recentring_coproduct.specs.Terms.{key_order, term_of, AreInRange};

use crate::error::CoproductError;
use crate::table::table_over;
use crate::term::RightTerm;
use exact_sums::{Saturated, join_equal};
use pooled_cuttings::RightKey;
use std::alloc::{AllocError, Global};
use std::cmp::Ordering;
use tree_pool::{Pool, PoolError, TreeId};

/// The order of what two keys mean: by left tree, then right tree.
fn order(pool: &Pool<'_>, k: &RightKey, l: &RightKey) -> Ordering
    ensures { result ≡ key_order pool.now k.now l.now }
{
    pool.order(k.left, l.left)
        .then(pool.order(k.right, l.right))
}

/// Sorts lines by what their keys mean.
fn sort_lines(pool: &Pool<'_>, lines: &mut Vec<(RightKey, Saturated)>)
    ensures sorted { IsSorted (key_order pool.now) (keys lines.new.items) }
    ensures same { IsPermutation lines.old.items lines.new.items }
{
    lines.sort_unstable_by(|k, l| order(pool, &k.0, &l.0));
}

/// Collects lines: sorted by what their keys mean, each key once, with the sum of its coefficients.
fn collect_lines(pool: &Pool<'_>, lines: &mut Vec<(RightKey, Saturated)>)
    requires { AreRightLines pool.now lines.old.items }
    ensures lines { AreRightLines pool.now lines.new.items }
    ensures sums { AreSameRecentred (recentred_terms_in pool.now lines.new.items)
        (recentred_terms_in pool.now lines.old.items) }
    ensures collected { IsCollected recentred_order (recentred_terms_in pool.now lines.new.items) }
{
    pool.laws();
    sort_lines(pool, lines);
    join_equal(lines);
}

/// The terms of the recentring coproduct of a tree, as lines, with the values of their
/// coefficients. Fails only for want of memory.
pub(crate) fn recentring_lines(
    pool: &mut Pool<'_>,
    alloc: Global,
    id: TreeId,
) -> Result<Vec<(RightKey, Saturated)>, PoolError>
    requires known { id.0 < length pool.old.trees }
    requires fit { IsFit (tree_at pool.old id.0) }
    ensures lines { IfOk result (λ ls. AreRightLines pool.new ls.items) }
    ensures terms { IfOk result (λ ls. recentred_terms_in pool.new ls.items
        ≡ saturated_terms (recentring_of pool.old id.0)) }
    ensures grown { IsGrown pool.old pool.new }
{
    pool.laws();
    let mut lines = table_over(pool, alloc, id)?;
    collect_lines(pool, &mut lines);
    Ok(lines)
}

/// The term of a line, where its coefficient is in range.
fn term_of(line: &(RightKey, Saturated)) -> Option<RightTerm>
    ensures { MatchOption result (overflow ≤ line.now.1)
        (λ t. (t ≡ term_of line.now) × (line.now.1 < overflow)) }
{
    Some(RightTerm {
        coefficient: line.1.value()?,
        left: line.0.left,
        right: line.0.right,
    })
}

/// Puts a term behind others.
fn push_term(terms: &mut Vec<RightTerm>, term: RightTerm) -> Result<(), AllocError>
    ensures { OnOk result (terms.new.items ≡ terms.old.items ++ term ∷ []) }
{
    terms.push(term)?;
    Ok(())
}

/// The terms of these lines; or the refusal, where a coefficient is out of range.
pub(crate) fn terms_of(
    alloc: Global,
    lines: &[(RightKey, Saturated)],
) -> Result<Vec<RightTerm>, CoproductError>
    ensures terms { IfOk result (λ ts. ts.items ≡ map term_of lines.now) }
    ensures range { OnOk result (AreInRange lines.now) }
    ensures refusal { IfErr result (λ e. e ≡ CoefficientTooLarge → AreInRange lines.now → ⊥) }
{
    let mut terms = Vec::new(alloc);
    for line in lines {
        let Some(term) = term_of(line) else {
            return Err(CoproductError::CoefficientTooLarge);
        };
        push_term(&mut terms, term)?;
    }
    Ok(terms)
}
