// The table of recentring of a tree, as lines of a pool.
ghost use Rattle.std.specs.Prelude.{◌≡◌, ◌≤◌, ◌++◌, sum, map, IfOk};
ghost use Rattle.std.specs.List.{AllByRecursion};
ghost use Rattle.exact_sums.specs.Keyed.{saturated_terms};
ghost use Rattle.degree_numbers.specs.Multi.{IsMultiIndex};
ghost use Rattle.plain_trees.specs.Plain.{bare};
ghost use Rattle.tree_pool.specs.Content.{tree_at, tree_over, IsGrown};
ghost use Rattle.cutting_sizes.specs.Bounds.{IsFit};
ghost use Rattle.cutting_tables.specs.Live.{AreSameRecentred};
ghost use Rattle.pooled_cuttings.specs.Lines.{recentred_terms_in, AreRightLines};
ghost use Rattle.pooled_cuttings.specs.RightProducts.{IsRightEdge, left_terms, right_terms, AreLeftFit, AreRightFit};
ghost use Rattle.pooled_cuttings.specs.NodeTables.{tree_with, IsOneMoreFit, IsRightTable};

use crate::collecting::collect_recentred;
use crate::keys::RightKey;
use crate::left_products::push_left_rows;
use crate::right_products::push_right_rows;
use crate::right_seeds::push_right_seeds;
use crate::right_shifts::right_shifts;
use cutting_tables::parts_below;
use degree_numbers::Multi;
use exact_sums::Saturated;
use std::alloc::Global;
use tree_pool::{EdgeTo, Pool, PoolError};

/// The table of recentring of the tree with one node. Fails only for want of memory.
pub fn right_lines_of_node(
    pool: &mut Pool<'_>,
    alloc: Global,
    n: &Multi,
) -> Result<Vec<(RightKey, Saturated)>, PoolError>
    requires types { IsMultiIndex pool.old.types.dims n.now.entries }
    requires fit { IsFit (bare n.now.entries) }
    ensures table { IfOk result (λ ls. IsRightTable pool.new (bare n.now.entries) ls.items) }
    ensures grown { IsGrown pool.old pool.new }
{
    pool.laws();
    let parts = parts_below(alloc, n)?;
    let mut lines = Vec::new(alloc);
    push_right_seeds(pool, alloc, n, parts.as_slice(), &mut lines)?;
    Ok(lines)
}

/// All products over an edge, of the left tree or as a branch of the right tree with each of some
/// shifts.
fn right_rows(
    pool: &mut Pool<'_>,
    alloc: Global,
    edge: &EdgeTo,
    shifts: &[Multi],
    above: &[(RightKey, Saturated)],
    others: &[(RightKey, Saturated)],
) -> Result<Vec<(RightKey, Saturated)>, PoolError>
    requires edge { IsRightEdge pool.old edge.now }
    requires shifts { AllByRecursion (λ s. sum s.entries ≤ 8192) shifts.now }
    requires above { AreRightLines pool.old above.now }
    requires others { AreRightLines pool.old others.now }
    requires left { AreLeftFit pool.old edge.now above.now others.now }
    requires right { AllByRecursion (λ s. AreRightFit pool.old edge.now s.entries others.now)
        shifts.now }
    ensures lines { IfOk result (λ ls. AreRightLines pool.new ls.items) }
    ensures terms { IfOk result (λ ls. recentred_terms_in pool.new ls.items
        ≡ saturated_terms (left_terms edge.now (recentred_terms_in pool.old above.now)
        (recentred_terms_in pool.old others.now)
        ++ right_terms edge.now (tree_at pool.old edge.now.child.0)
        (map (λ m. m.entries) shifts.now) (recentred_terms_in pool.old others.now))) }
    ensures grown { IsGrown pool.old pool.new }
{
    let mut lines = Vec::new(alloc);
    push_left_rows(pool, alloc, edge, above, others, &mut lines)?;
    push_right_rows(pool, alloc, edge, shifts, others, &mut lines)?;
    Ok(lines)
}

/// The same with equal keys joined.
fn right_lines(
    pool: &mut Pool<'_>,
    alloc: Global,
    edge: &EdgeTo,
    shifts: &[Multi],
    above: &[(RightKey, Saturated)],
    others: &[(RightKey, Saturated)],
) -> Result<Vec<(RightKey, Saturated)>, PoolError>
    requires edge { IsRightEdge pool.old edge.now }
    requires shifts { AllByRecursion (λ s. sum s.entries ≤ 8192) shifts.now }
    requires above { AreRightLines pool.old above.now }
    requires others { AreRightLines pool.old others.now }
    requires left { AreLeftFit pool.old edge.now above.now others.now }
    requires right { AllByRecursion (λ s. AreRightFit pool.old edge.now s.entries others.now)
        shifts.now }
    ensures lines { IfOk result (λ ls. AreRightLines pool.new ls.items) }
    ensures sums { IfOk result (λ ls. AreSameRecentred (recentred_terms_in pool.new ls.items)
        (left_terms edge.now (recentred_terms_in pool.old above.now)
        (recentred_terms_in pool.old others.now)
        ++ right_terms edge.now (tree_at pool.old edge.now.child.0)
        (map (λ m. m.entries) shifts.now) (recentred_terms_in pool.old others.now))) }
    ensures grown { IsGrown pool.old pool.new }
{
    let mut lines = right_rows(pool, alloc, edge, shifts, above, others)?;
    collect_recentred(pool, &mut lines);
    Ok(lines)
}

/// The table of recentring of the tree with root decoration `n` and the edges `edge` and then
/// `rest`, from those of the tree above `edge` and of the tree without `edge`. Fails only for want
/// of memory.
pub fn with_right_edge(
    pool: &mut Pool<'_>,
    alloc: Global,
    edge: &EdgeTo,
    n: &Multi,
    rest: &[EdgeTo],
    above: &[(RightKey, Saturated)],
    others: &[(RightKey, Saturated)],
) -> Result<Vec<(RightKey, Saturated)>, PoolError>
    requires tree { IsOneMoreFit pool.old edge.now n.now rest.now }
    requires above { IsRightTable pool.old (tree_at pool.old edge.now.child.0) above.now }
    requires others { IsRightTable pool.old (tree_over pool.old.trees n.now.entries rest.now)
        others.now }
    ensures table { IfOk result (λ ls. IsRightTable pool.new
        (tree_with pool.old edge.now n.now rest.now) ls.items) }
    ensures grown { IsGrown pool.old pool.new }
{
    pool.laws();
    let shifts = right_shifts(pool, alloc, edge)?;
    right_lines(pool, alloc, edge, shifts.as_slice(), above, others)
}
