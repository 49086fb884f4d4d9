// Products of lines of recentring with one more branch at the root of the right tree.
ghost use Rattle.std.specs.Prelude.{◌≡◌, ◌*◌, ◌≤◌, ◌∷◌, ◌++◌, [], sum, map, IfOk, OnOk};
ghost use Rattle.std.specs.List.{AllByRecursion};
ghost use Rattle.exact_sums.specs.Saturating.{saturated};
ghost use Rattle.exact_sums.specs.Keyed.{products_with, saturated_terms};
ghost use Rattle.degree_numbers.specs.Multi.{plus_of};
ghost use Rattle.plain_trees.specs.Plain.{IsSmall, root_of};
ghost use Rattle.plain_trees.specs.Joined.{raised};
ghost use Rattle.plain_trees.specs.Multinomials.{choose};
ghost use Rattle.tree_pool.specs.Content.{tree_at, IsGrown};
ghost use Rattle.cutting_tables.specs.Keys.{right_outside, right_factor};
ghost use Rattle.pooled_cuttings.specs.Lines.{recentred_in, recentred_terms_in, IsRightKey, IsRightLine, AreRightLines};
ghost use Rattle.pooled_cuttings.specs.RightProducts.{IsRightFit, IsRightEdge, right_product, right_terms, AreRightFit};

use crate::keys::RightKey;
use crate::lines::push_line;
use crate::made::{grafted, raised};
use cutting_tables::choose_of;
use degree_numbers::Multi;
use exact_sums::Saturated;
use std::alloc::Global;
use tree_pool::{EdgeTo, Pool, PoolError};

/// What a key gives with one more branch: the edge raised by `s`, with the whole tree above it.
fn right_key(
    pool: &mut Pool<'_>,
    alloc: Global,
    edge: &EdgeTo,
    s: &Multi,
    y: &RightKey,
) -> Result<RightKey, PoolError>
    requires edge { IsRightEdge pool.old edge.now }
    requires shift { sum s.now.entries ≤ 8192 }
    requires y { IsRightKey pool.old y.now }
    requires fits { IsRightFit pool.old.types (right_product edge.now
        (tree_at pool.old edge.now.child.0) s.now.entries (recentred_in pool.old y.now)) }
    ensures known { IfOk result (λ k. IsRightKey pool.new k) }
    ensures means { IfOk result (λ k. recentred_in pool.new k
        ≡ right_product edge.now (tree_at pool.old edge.now.child.0) s.now.entries
        (recentred_in pool.old y.now)) }
    ensures grown { IsGrown pool.old pool.new }
{
    let p = edge.p.plus(s);
    let left = raised(pool, alloc, s, y.left)?;
    let right = grafted(pool, alloc, edge.kind, p, edge.child, y.right)?;
    Ok(RightKey { left, right })
}

/// The coefficient of what a line gives: its own, times the binomial of the shift and of the
/// decoration of the left tree's root.
fn right_coefficient(pool: &Pool<'_>, s: &Multi, y: &(RightKey, Saturated)) -> Saturated
    requires y { IsRightKey pool.now y.now.0 }
    requires small { IsSmall (raised s.now.entries (tree_at pool.now y.now.0.left.0)) }
    ensures { result ≡ saturated (choose (plus_of s.now.entries
        (root_of (tree_at pool.now y.now.0.left.0))) s.now.entries * y.now.1) }
{
    let (n, _) = pool.node(y.0.left);
    choose_of(s, &n).times(y.1)
}

/// What a line gives, behind others.
fn push_right(
    pool: &mut Pool<'_>,
    alloc: Global,
    edge: &EdgeTo,
    s: &Multi,
    y: &(RightKey, Saturated),
    lines: &mut Vec<(RightKey, Saturated)>,
) -> Result<(), PoolError>
    requires edge { IsRightEdge pool.old edge.now }
    requires shift { sum s.now.entries ≤ 8192 }
    requires y { IsRightLine pool.old y.now }
    requires lines { AreRightLines pool.old lines.old.items }
    requires fits { IsRightFit pool.old.types (right_product edge.now
        (tree_at pool.old edge.now.child.0) s.now.entries (recentred_in pool.old y.now.0)) }
    ensures lines { OnOk result (AreRightLines pool.new lines.new.items) }
    ensures terms { OnOk result (recentred_terms_in pool.new lines.new.items
        ≡ recentred_terms_in pool.old lines.old.items
        ++ saturated_terms ((
          right_product edge.now (tree_at pool.old edge.now.child.0)
              s.now.entries (recentred_in pool.old y.now.0),
          right_factor s.now.entries
              (tree_at pool.old edge.now.child.0) (recentred_in pool.old y.now.0) * y.now.1,
        ) ∷ [])) }
    ensures grown { IsGrown pool.old pool.new }
{
    let coefficient = right_coefficient(pool, s, y);
    let key = right_key(pool, alloc, edge, s, &y.0)?;
    push_line(lines, (key, coefficient))?;
    Ok(())
}

/// What each of some lines gives with one shift, behind others.
fn push_right_row(
    pool: &mut Pool<'_>,
    alloc: Global,
    edge: &EdgeTo,
    s: &Multi,
    ys: &[(RightKey, Saturated)],
    lines: &mut Vec<(RightKey, Saturated)>,
) -> Result<(), PoolError>
    requires edge { IsRightEdge pool.old edge.now }
    requires shift { sum s.now.entries ≤ 8192 }
    requires ys { AreRightLines pool.old ys.now }
    requires lines { AreRightLines pool.old lines.old.items }
    requires fits { AreRightFit pool.old edge.now s.now.entries ys.now }
    ensures lines { OnOk result (AreRightLines pool.new lines.new.items) }
    ensures terms { OnOk result (recentred_terms_in pool.new lines.new.items
        ≡ recentred_terms_in pool.old lines.old.items
        ++ saturated_terms (products_with (right_factor s.now.entries)
        (right_outside s.now.entries edge.now.kind.0 edge.now.p.entries)
        (tree_at pool.old edge.now.child.0) (recentred_terms_in pool.old ys.now))) }
    ensures grown { IsGrown pool.old pool.new }
{
    for y in ys {
        push_right(pool, alloc, edge, s, y, lines)?;
    }
    Ok(())
}

/// What each of some lines gives with each of some shifts, behind others.
pub(crate) fn push_right_rows(
    pool: &mut Pool<'_>,
    alloc: Global,
    edge: &EdgeTo,
    shifts: &[Multi],
    ys: &[(RightKey, Saturated)],
    lines: &mut Vec<(RightKey, Saturated)>,
) -> Result<(), PoolError>
    requires edge { IsRightEdge pool.old edge.now }
    requires shifts { AllByRecursion (λ s. sum s.entries ≤ 8192) shifts.now }
    requires ys { AreRightLines pool.old ys.now }
    requires lines { AreRightLines pool.old lines.old.items }
    requires fits { AllByRecursion (λ s. AreRightFit pool.old edge.now s.entries ys.now)
        shifts.now }
    ensures lines { OnOk result (AreRightLines pool.new lines.new.items) }
    ensures terms { OnOk result (recentred_terms_in pool.new lines.new.items
        ≡ recentred_terms_in pool.old lines.old.items
        ++ saturated_terms (right_terms edge.now (tree_at pool.old edge.now.child.0)
        (map (λ m. m.entries) shifts.now) (recentred_terms_in pool.old ys.now))) }
    ensures grown { IsGrown pool.old pool.new }
{
    for s in shifts {
        push_right_row(pool, alloc, edge, s, ys, lines)?;
    }
    Ok(())
}
