// Lines whose parts are raised by a shift.
ghost use Rattle.std.specs.Prelude.{◌≡◌, ◌<◌, ◌≤◌, ◌*◌, ◌∷◌, ◌++◌, [], sum, map, IfOk, OnOk};
ghost use Rattle.std.specs.List.{AllByRecursion};
ghost use Rattle.exact_sums.specs.Saturating.{saturated};
ghost use Rattle.plain_trees.specs.Plain.{IsSmall};
ghost use Rattle.plain_trees.specs.Joined.{raised};
ghost use Rattle.pooled_cuttings.specs.Groves.{IsGrownGrove};
ghost use Rattle.pooled_cuttings.specs.Lines.{opened_in, opened_terms_in, IsOpenKey, IsOpenLine, AreOpenLines};
ghost use Rattle.pooled_cuttings.specs.Products.{kept_terms, raised_open, raised_term, CanHold, IsRaisedFit};

use crate::grove::Grove;
use crate::keys::OpenKey;
use crate::lines::push_line;
use crate::steps::{EdgeStep, is_low_raised};
use cutting_tables::choose_of;
use degree_numbers::Multi;
use exact_sums::Saturated;
use std::alloc::Global;
use tree_pool::PoolError;

/// The key with its part raised by `s`.
fn raised_key(
    grove: &mut Grove<'_>,
    alloc: Global,
    s: &Multi,
    y: &OpenKey,
) -> Result<OpenKey, PoolError>
    requires y { IsOpenKey grove.old y.now }
    requires fits { CanHold grove.old.pool.types
        (raised s.now.entries (opened_in grove.old y.now).part) }
    ensures known { IfOk result (λ k. IsOpenKey grove.new k) }
    ensures means { IfOk result (λ k. opened_in grove.new k
        ≡ raised_open s.now.entries (opened_in grove.old y.now)) }
    ensures grown { IsGrownGrove grove.old grove.new }
{
    grove.laws();
    let part = grove.raised(alloc, s, y.part)?;
    Ok(OpenKey {
        above: y.above,
        part,
        quotient: y.quotient,
    })
}

/// The coefficient of the line with its part raised by `s`: it takes the binomial of the shift and
/// of what is taken at the root so far.
fn raised_coefficient(grove: &Grove<'_>, s: &Multi, y: &(OpenKey, Saturated)) -> Saturated
    requires y { IsOpenKey grove.now y.now.0 }
    requires small { IsSmall (raised s.now.entries (opened_in grove.now y.now.0).part) }
    ensures { result
        ≡ saturated (raised_term s.now.entries (opened_in grove.now y.now.0, y.now.1)).1 }
{
    let (n, _) = grove.pool().node(y.0.part);
    choose_of(s, &n).times(y.1)
}

/// A line with its part raised by `s`, behind others, where that part is low.
fn push_raised(
    grove: &mut Grove<'_>,
    alloc: Global,
    step: &EdgeStep,
    s: &Multi,
    y: &(OpenKey, Saturated),
    lines: &mut Vec<(OpenKey, Saturated)>,
) -> Result<(), PoolError>
    requires shift { sum s.now.entries ≤ 8192 }
    requires y { IsOpenLine grove.old y.now }
    requires lines { AreOpenLines grove.old lines.old.items }
    requires fits { IsRaisedFit grove.old.pool.types step.now s.now.entries
        (opened_in grove.old y.now.0) }
    ensures lines { OnOk result (AreOpenLines grove.new lines.new.items) }
    ensures terms { OnOk result (opened_terms_in grove.new lines.new.items
        ≡ opened_terms_in grove.old lines.old.items
        ++ kept_terms grove.old.pool.types step.now.most
        (raised_term s.now.entries (opened_in grove.old y.now.0, y.now.1) ∷ [])) }
    ensures grown { IsGrownGrove grove.old grove.new }
{
    grove.laws();
    if is_low_raised(grove.pool(), step, s, y.0.part) {
        let coefficient = raised_coefficient(grove, s, y);
        let key = raised_key(grove, alloc, s, &y.0)?;
        push_line(lines, (key, coefficient))?;
    }
    Ok(())
}

/// Lines with their parts raised by `s`, as far as these are low, behind others.
fn push_all_raised(
    grove: &mut Grove<'_>,
    alloc: Global,
    step: &EdgeStep,
    s: &Multi,
    ys: &[(OpenKey, Saturated)],
    lines: &mut Vec<(OpenKey, Saturated)>,
) -> Result<(), PoolError>
    requires shift { sum s.now.entries ≤ 8192 }
    requires ys { AreOpenLines grove.old ys.now }
    requires lines { AreOpenLines grove.old lines.old.items }
    requires fits { AllByRecursion (λ y. IsRaisedFit grove.old.pool.types step.now s.now.entries
        (opened_in grove.old y.0)) ys.now }
    ensures lines { OnOk result (AreOpenLines grove.new lines.new.items) }
    ensures terms { OnOk result (opened_terms_in grove.new lines.new.items
        ≡ opened_terms_in grove.old lines.old.items
        ++ kept_terms grove.old.pool.types step.now.most
        (map (raised_term s.now.entries) (opened_terms_in grove.old ys.now))) }
    ensures grown { IsGrownGrove grove.old grove.new }
{
    grove.laws();
    for y in ys {
        push_raised(grove, alloc, step, s, y, lines)?;
    }
    Ok(())
}

/// Lines with their parts raised by `s`, as far as these are low.
pub(crate) fn raised_lines(
    grove: &mut Grove<'_>,
    alloc: Global,
    step: &EdgeStep,
    s: &Multi,
    ys: &[(OpenKey, Saturated)],
) -> Result<Vec<(OpenKey, Saturated)>, PoolError>
    requires shift { sum s.now.entries ≤ 8192 }
    requires ys { AreOpenLines grove.old ys.now }
    requires fits { AllByRecursion (λ y. IsRaisedFit grove.old.pool.types step.now s.now.entries
        (opened_in grove.old y.0)) ys.now }
    ensures lines { IfOk result (λ ls. AreOpenLines grove.new ls.items) }
    ensures terms { IfOk result (λ ls. opened_terms_in grove.new ls.items
        ≡ kept_terms grove.old.pool.types step.now.most
        (map (raised_term s.now.entries) (opened_terms_in grove.old ys.now))) }
    ensures grown { IsGrownGrove grove.old grove.new }
{
    let mut lines = Vec::new(alloc);
    push_all_raised(grove, alloc, step, s, ys, &mut lines)?;
    Ok(lines)
}
