// Products over an edge of the set.
ghost use Rattle.std.specs.Prelude.{◌≡◌, ◌<◌, ◌*◌, ◌∷◌, ◌++◌, [], length, IfOk, OnOk};
ghost use Rattle.std.specs.List.{AllByRecursion};
ghost use Rattle.exact_sums.specs.Saturating.{saturated};
ghost use Rattle.exact_sums.specs.Keyed.{products, products_with, scaled};
ghost use Rattle.plain_trees.specs.Plain.{IsSmall};
ghost use Rattle.plain_trees.specs.Joined.{joined};
ghost use Rattle.cutting_tables.specs.Keys.{inside, inside_factor};
ghost use Rattle.pooled_cuttings.specs.Groves.{IsGrownGrove};
ghost use Rattle.pooled_cuttings.specs.Lines.{opened_in, opened_terms_in, IsOpenKey, IsOpenLine, AreOpenLines};
ghost use Rattle.pooled_cuttings.specs.Products.{kept_terms, inside_term, IsOpenFit, IsEdgeStep, IsInsideFit, AreInsideFit};

use crate::grove::Grove;
use crate::lines::push_line;
use crate::keys::OpenKey;
use crate::steps::{EdgeStep, is_low_over};
use cutting_tables::choose_of;
use exact_sums::Saturated;
use std::alloc::Global;
use tree_pool::PoolError;

/// What two open keys give together over an edge of the set.
fn inside_key(
    grove: &mut Grove<'_>,
    alloc: Global,
    step: &EdgeStep,
    x: &OpenKey,
    y: &OpenKey,
) -> Result<OpenKey, PoolError>
    requires x { IsOpenKey grove.old x.now }
    requires y { IsOpenKey grove.old y.now }
    requires fits { IsOpenFit grove.old.pool.types (inside step.now.kind.0 step.now.p.entries
        (opened_in grove.old x.now) (opened_in grove.old y.now)) }
    ensures known { IfOk result (λ k. IsOpenKey grove.new k) }
    ensures means { IfOk result (λ k. opened_in grove.new k
        ≡ inside step.now.kind.0 step.now.p.entries (opened_in grove.old x.now)
        (opened_in grove.old y.now)) }
    ensures grown { IsGrownGrove grove.old grove.new }
{
    grove.laws();
    let part = grove.grafted(alloc, step.kind, step.p, x.part, y.part)?;
    let quotient = grove.joined(alloc, x.quotient, y.quotient)?;
    let above = grove.united(alloc, x.above, y.above)?;
    Ok(OpenKey {
        above,
        part,
        quotient,
    })
}

/// The coefficient of what two lines give together: their product, times the binomial of what is
/// left at the two roots.
fn inside_coefficient(
    grove: &Grove<'_>,
    x: &(OpenKey, Saturated),
    y: &(OpenKey, Saturated),
) -> Saturated
    requires x { IsOpenKey grove.now x.now.0 }
    requires y { IsOpenKey grove.now y.now.0 }
    requires small { IsSmall (joined (opened_in grove.now x.now.0).quotient
        (opened_in grove.now y.now.0).quotient) }
    ensures { result ≡ saturated (x.now.1 *
        (inside_factor (opened_in grove.now x.now.0) (opened_in grove.now y.now.0) * y.now.1)) }
{
    let (m, _) = grove.pool().node(x.0.quotient);
    let (n, _) = grove.pool().node(y.0.quotient);
    x.1.times(choose_of(&m, &n)).times(y.1)
}

/// What two lines give together, behind others, where its part is low.
fn push_inside(
    grove: &mut Grove<'_>,
    alloc: Global,
    step: &EdgeStep,
    x: &(OpenKey, Saturated),
    y: &(OpenKey, Saturated),
    lines: &mut Vec<(OpenKey, Saturated)>,
) -> Result<(), PoolError>
    requires step { IsEdgeStep grove.old.pool.types step.now }
    requires x { IsOpenLine grove.old x.now }
    requires y { IsOpenLine grove.old y.now }
    requires lines { AreOpenLines grove.old lines.old.items }
    requires fits { IsInsideFit grove.old.pool.types step.now (opened_in grove.old x.now.0)
        (opened_in grove.old y.now.0) }
    ensures lines { OnOk result (AreOpenLines grove.new lines.new.items) }
    ensures terms { OnOk result (opened_terms_in grove.new lines.new.items
        ≡ opened_terms_in grove.old lines.old.items
        ++ kept_terms grove.old.pool.types step.now.most
        (inside_term step.now (opened_in grove.old x.now.0, x.now.1)
        (opened_in grove.old y.now.0, y.now.1) ∷ [])) }
    ensures grown { IsGrownGrove grove.old grove.new }
{
    grove.laws();
    if is_low_over(grove.pool(), step, x.0.part, y.0.part) {
        let coefficient = inside_coefficient(grove, x, y);
        let key = inside_key(grove, alloc, step, &x.0, &y.0)?;
        push_line(lines, (key, coefficient))?;
    }
    Ok(())
}

/// What one line gives with each of others, behind others.
fn push_inside_row(
    grove: &mut Grove<'_>,
    alloc: Global,
    step: &EdgeStep,
    x: &(OpenKey, Saturated),
    ys: &[(OpenKey, Saturated)],
    lines: &mut Vec<(OpenKey, Saturated)>,
) -> Result<(), PoolError>
    requires step { IsEdgeStep grove.old.pool.types step.now }
    requires x { IsOpenLine grove.old x.now }
    requires ys { AreOpenLines grove.old ys.now }
    requires lines { AreOpenLines grove.old lines.old.items }
    requires fits { AllByRecursion (λ y. IsInsideFit grove.old.pool.types step.now
        (opened_in grove.old x.now.0) (opened_in grove.old y.0)) ys.now }
    ensures lines { OnOk result (AreOpenLines grove.new lines.new.items) }
    ensures terms { OnOk result (opened_terms_in grove.new lines.new.items
        ≡ opened_terms_in grove.old lines.old.items
        ++ kept_terms grove.old.pool.types step.now.most
        (scaled x.now.1 (products_with inside_factor
        (inside step.now.kind.0 step.now.p.entries) (opened_in grove.old x.now.0)
        (opened_terms_in grove.old ys.now)))) }
    ensures grown { IsGrownGrove grove.old grove.new }
{
    grove.laws();
    for y in ys {
        push_inside(grove, alloc, step, x, y, lines)?;
    }
    Ok(())
}

/// What each of some lines gives with each of others over an edge of the set, behind others, as far
/// as parts are low.
pub(crate) fn push_inside_rows(
    grove: &mut Grove<'_>,
    alloc: Global,
    step: &EdgeStep,
    xs: &[(OpenKey, Saturated)],
    ys: &[(OpenKey, Saturated)],
    lines: &mut Vec<(OpenKey, Saturated)>,
) -> Result<(), PoolError>
    requires step { IsEdgeStep grove.old.pool.types step.now }
    requires xs { AreOpenLines grove.old xs.now }
    requires ys { AreOpenLines grove.old ys.now }
    requires lines { AreOpenLines grove.old lines.old.items }
    requires fits { AreInsideFit grove.old step.now xs.now ys.now }
    ensures lines { OnOk result (AreOpenLines grove.new lines.new.items) }
    ensures terms { OnOk result (opened_terms_in grove.new lines.new.items
        ≡ opened_terms_in grove.old lines.old.items
        ++ kept_terms grove.old.pool.types step.now.most
        (products inside_factor (inside step.now.kind.0 step.now.p.entries)
        (opened_terms_in grove.old xs.now) (opened_terms_in grove.old ys.now))) }
    ensures grown { IsGrownGrove grove.old grove.new }
{
    grove.laws();
    for x in xs {
        push_inside_row(grove, alloc, step, x, ys, lines)?;
    }
    Ok(())
}
