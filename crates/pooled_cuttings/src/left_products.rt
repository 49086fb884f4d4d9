// Products of lines of recentring over an edge of the left tree.
ghost use Rattle.std.specs.Prelude.{◌≡◌, ◌*◌, ◌∷◌, ◌++◌, [], IfOk, OnOk};
ghost use Rattle.std.specs.List.{AllByRecursion};
ghost use Rattle.exact_sums.specs.Saturating.{saturated};
ghost use Rattle.exact_sums.specs.Keyed.{products_with, scaled, saturated_terms};
ghost use Rattle.plain_trees.specs.Plain.{IsSmall};
ghost use Rattle.plain_trees.specs.Joined.{joined};
ghost use Rattle.tree_pool.specs.Content.{tree_at, IsGrown};
ghost use Rattle.cutting_tables.specs.Keys.{left_inside, left_factor};
ghost use Rattle.pooled_cuttings.specs.Lines.{recentred_in, recentred_terms_in, IsRightKey, IsRightLine, AreRightLines};
ghost use Rattle.pooled_cuttings.specs.RightProducts.{IsRightFit, left_product, left_terms, AreLeftFit};

use crate::keys::RightKey;
use crate::lines::push_line;
use crate::made::grafted;
use cutting_tables::choose_of;
use exact_sums::Saturated;
use std::alloc::Global;
use tree_pool::{EdgeTo, Pool, PoolError};

/// What two keys give together over an edge of the left tree.
fn left_key(
    pool: &mut Pool<'_>,
    alloc: Global,
    edge: &EdgeTo,
    x: &RightKey,
    y: &RightKey,
) -> Result<RightKey, PoolError>
    requires x { IsRightKey pool.old x.now }
    requires y { IsRightKey pool.old y.now }
    requires fits { IsRightFit pool.old.types (left_product edge.now (recentred_in pool.old x.now)
        (recentred_in pool.old y.now)) }
    ensures known { IfOk result (λ k. IsRightKey pool.new k) }
    ensures means { IfOk result (λ k. recentred_in pool.new k
        ≡ left_product edge.now (recentred_in pool.old x.now) (recentred_in pool.old y.now)) }
    ensures grown { IsGrown pool.old pool.new }
{
    let left = grafted(pool, alloc, edge.kind, edge.p, x.left, y.left)?;
    let right = pool.product(alloc, x.right, y.right)?;
    Ok(RightKey { left, right })
}

/// The coefficient of what two lines give together: their product, times the binomial of the
/// decorations of the roots of the right trees.
fn left_coefficient(
    pool: &Pool<'_>,
    x: &(RightKey, Saturated),
    y: &(RightKey, Saturated),
) -> Saturated
    requires x { IsRightKey pool.now x.now.0 }
    requires y { IsRightKey pool.now y.now.0 }
    requires small { IsSmall (joined (tree_at pool.now x.now.0.right.0)
        (tree_at pool.now y.now.0.right.0)) }
    ensures { result ≡ saturated (x.now.1 * (left_factor (recentred_in pool.now x.now.0)
        (recentred_in pool.now y.now.0) * y.now.1)) }
{
    let (m, _) = pool.node(x.0.right);
    let (n, _) = pool.node(y.0.right);
    x.1.times(choose_of(&m, &n)).times(y.1)
}

/// What two lines give together, behind others.
fn push_left(
    pool: &mut Pool<'_>,
    alloc: Global,
    edge: &EdgeTo,
    x: &(RightKey, Saturated),
    y: &(RightKey, Saturated),
    lines: &mut Vec<(RightKey, Saturated)>,
) -> Result<(), PoolError>
    requires x { IsRightLine pool.old x.now }
    requires y { IsRightLine pool.old y.now }
    requires lines { AreRightLines pool.old lines.old.items }
    requires fits { IsRightFit pool.old.types (left_product edge.now
        (recentred_in pool.old x.now.0) (recentred_in pool.old y.now.0)) }
    ensures lines { OnOk result (AreRightLines pool.new lines.new.items) }
    ensures terms { OnOk result (recentred_terms_in pool.new lines.new.items
        ≡ recentred_terms_in pool.old lines.old.items
        ++ saturated_terms ((
          left_product edge.now (recentred_in pool.old x.now.0)
              (recentred_in pool.old y.now.0),
          x.now.1 * (left_factor (recentred_in pool.old x.now.0)
              (recentred_in pool.old y.now.0) * y.now.1),
        ) ∷ [])) }
    ensures grown { IsGrown pool.old pool.new }
{
    let coefficient = left_coefficient(pool, x, y);
    let key = left_key(pool, alloc, edge, &x.0, &y.0)?;
    push_line(lines, (key, coefficient))?;
    Ok(())
}

/// What one line gives with each of others, behind others.
fn push_left_row(
    pool: &mut Pool<'_>,
    alloc: Global,
    edge: &EdgeTo,
    x: &(RightKey, Saturated),
    ys: &[(RightKey, Saturated)],
    lines: &mut Vec<(RightKey, Saturated)>,
) -> Result<(), PoolError>
    requires x { IsRightLine pool.old x.now }
    requires ys { AreRightLines pool.old ys.now }
    requires lines { AreRightLines pool.old lines.old.items }
    requires fits { AllByRecursion (λ y. IsRightFit pool.old.types (left_product edge.now
        (recentred_in pool.old x.now.0) (recentred_in pool.old y.0))) ys.now }
    ensures lines { OnOk result (AreRightLines pool.new lines.new.items) }
    ensures terms { OnOk result (recentred_terms_in pool.new lines.new.items
        ≡ recentred_terms_in pool.old lines.old.items
        ++ saturated_terms (scaled x.now.1 (products_with left_factor
        (left_inside edge.now.kind.0 edge.now.p.entries) (recentred_in pool.old x.now.0)
        (recentred_terms_in pool.old ys.now)))) }
    ensures grown { IsGrown pool.old pool.new }
{
    for y in ys {
        push_left(pool, alloc, edge, x, y, lines)?;
    }
    Ok(())
}

/// What each of some lines gives with each of others over an edge of the left tree, behind others.
pub(crate) fn push_left_rows(
    pool: &mut Pool<'_>,
    alloc: Global,
    edge: &EdgeTo,
    xs: &[(RightKey, Saturated)],
    ys: &[(RightKey, Saturated)],
    lines: &mut Vec<(RightKey, Saturated)>,
) -> Result<(), PoolError>
    requires xs { AreRightLines pool.old xs.now }
    requires ys { AreRightLines pool.old ys.now }
    requires lines { AreRightLines pool.old lines.old.items }
    requires fits { AreLeftFit pool.old edge.now xs.now ys.now }
    ensures lines { OnOk result (AreRightLines pool.new lines.new.items) }
    ensures terms { OnOk result (recentred_terms_in pool.new lines.new.items
        ≡ recentred_terms_in pool.old lines.old.items
        ++ saturated_terms (left_terms edge.now (recentred_terms_in pool.old xs.now)
        (recentred_terms_in pool.old ys.now))) }
    ensures grown { IsGrown pool.old pool.new }
{
    for x in xs {
        push_left_row(pool, alloc, edge, x, ys, lines)?;
    }
    Ok(())
}
