// Products over an edge outside the set, which is raised by a shift.
ghost use Rattle.std.specs.Prelude.{◌≡◌, ◌≤◌, ◌∷◌, ◌++◌, [], sum, map, flat_map, IfOk, OnOk};
ghost use Rattle.std.specs.List.{AllByRecursion};
ghost use Rattle.exact_sums.specs.Keyed.{products, products_with, scaled, saturated_terms};
ghost use Rattle.cutting_tables.specs.Keys.{outside, outside_factor};
ghost use Rattle.pooled_cuttings.specs.Groves.{IsGrownGrove};
ghost use Rattle.pooled_cuttings.specs.Lines.{opened_in, extracted_in, opened_terms_in, extracted_terms_in, IsOpenKey, IsExtractKey, IsOpenLine, IsExtractLine, AreOpenLines, AreExtractLines};
ghost use Rattle.pooled_cuttings.specs.MadeOver.{AreUnions, IsMadeOver};
ghost use Rattle.pooled_cuttings.specs.Products.{kept_terms, over, over_term, IsEdgeStep, IsOverFit, AreOverFit, AreOutsideFit};

use crate::grove::Grove;
use crate::keys::{ExtractKey, OpenKey};
use crate::lines::push_line;
use crate::once::{MadeOver, grafted_once, united_once};
use crate::raising::raised_lines;
use crate::steps::EdgeStep;
use degree_numbers::{Multi, TypeId};
use exact_sums::Saturated;
use std::alloc::Global;
use tree_pool::PoolError;

/// What a key gives together with an open one over an edge outside the set, where the part of the
/// open one and the edge are raised already.
fn outside_key(
    grove: &mut Grove<'_>,
    alloc: Global,
    kind: TypeId,
    p: &Multi,
    x: &ExtractKey,
    y: &OpenKey,
    made: &mut MadeOver,
) -> Result<OpenKey, PoolError>
    requires x { IsExtractKey grove.old x.now }
    requires y { IsOpenKey grove.old y.now }
    requires fits { IsOverFit grove.old.pool.types kind.0 p.now.entries
        (extracted_in grove.old x.now) (opened_in grove.old y.now) }
    requires made { IsMadeOver grove.old kind.0 p.now.entries made.old }
    ensures known { IfOk result (λ k. IsOpenKey grove.new k) }
    ensures means { IfOk result (λ k. opened_in grove.new k
        ≡ over kind.0 p.now.entries (extracted_in grove.old x.now) (opened_in grove.old y.now)) }
    ensures made { OnOk result (IsMadeOver grove.new kind.0 p.now.entries made.new) }
    ensures grown { IsGrownGrove grove.old grove.new }
{
    grove.laws();
    let grafts = &mut made.grafts;
    let quotient = grafted_once(grove, alloc, kind, *p, x.quotient, y.quotient, grafts)?;
    let above = united_once(grove, alloc, x.forest, y.above, &mut made.unions)?;
    Ok(OpenKey {
        above,
        part: y.part,
        quotient,
    })
}

/// What two lines give together, behind others.
fn push_outside(
    grove: &mut Grove<'_>,
    alloc: Global,
    kind: TypeId,
    p: &Multi,
    x: &(ExtractKey, Saturated),
    y: &(OpenKey, Saturated),
    made: &mut MadeOver,
    lines: &mut Vec<(OpenKey, Saturated)>,
) -> Result<(), PoolError>
    requires x { IsExtractLine grove.old x.now }
    requires y { IsOpenLine grove.old y.now }
    requires lines { AreOpenLines grove.old lines.old.items }
    requires made { IsMadeOver grove.old kind.0 p.now.entries made.old }
    requires fits { IsOverFit grove.old.pool.types kind.0 p.now.entries
        (extracted_in grove.old x.now.0) (opened_in grove.old y.now.0) }
    ensures lines { OnOk result (AreOpenLines grove.new lines.new.items) }
    ensures terms { OnOk result (opened_terms_in grove.new lines.new.items
        ≡ opened_terms_in grove.old lines.old.items
        ++ saturated_terms (over_term kind.0 p.now.entries
        (extracted_in grove.old x.now.0, x.now.1) (opened_in grove.old y.now.0, y.now.1) ∷ [])) }
    ensures made { OnOk result (IsMadeOver grove.new kind.0 p.now.entries made.new) }
    ensures grown { IsGrownGrove grove.old grove.new }
{
    grove.laws();
    let key = outside_key(grove, alloc, kind, p, &x.0, &y.0, made)?;
    push_line(lines, (key, x.1.times(y.1)))?;
    Ok(())
}

/// What one line gives with each of others, behind others.
fn push_outside_row(
    grove: &mut Grove<'_>,
    alloc: Global,
    kind: TypeId,
    p: &Multi,
    x: &(ExtractKey, Saturated),
    ys: &[(OpenKey, Saturated)],
    made: &mut MadeOver,
    lines: &mut Vec<(OpenKey, Saturated)>,
) -> Result<(), PoolError>
    requires x { IsExtractLine grove.old x.now }
    requires ys { AreOpenLines grove.old ys.now }
    requires lines { AreOpenLines grove.old lines.old.items }
    requires made { IsMadeOver grove.old kind.0 p.now.entries made.old }
    requires fits { AllByRecursion (λ y. IsOverFit grove.old.pool.types kind.0 p.now.entries
        (extracted_in grove.old x.now.0) (opened_in grove.old y.0)) ys.now }
    ensures lines { OnOk result (AreOpenLines grove.new lines.new.items) }
    ensures terms { OnOk result (opened_terms_in grove.new lines.new.items
        ≡ opened_terms_in grove.old lines.old.items
        ++ saturated_terms (scaled x.now.1 (products_with (λ x y. 1) (over kind.0 p.now.entries)
        (extracted_in grove.old x.now.0) (opened_terms_in grove.old ys.now)))) }
    ensures made { OnOk result (IsMadeOver grove.new kind.0 p.now.entries made.new) }
    ensures grown { IsGrownGrove grove.old grove.new }
{
    grove.laws();
    for y in ys {
        push_outside(grove, alloc, kind, p, x, y, made, lines)?;
    }
    Ok(())
}

/// What each of some lines gives with each of others, behind others.
fn push_outside_rows(
    grove: &mut Grove<'_>,
    alloc: Global,
    kind: TypeId,
    p: &Multi,
    xs: &[(ExtractKey, Saturated)],
    ys: &[(OpenKey, Saturated)],
    made: &mut MadeOver,
    lines: &mut Vec<(OpenKey, Saturated)>,
) -> Result<(), PoolError>
    requires xs { AreExtractLines grove.old xs.now }
    requires ys { AreOpenLines grove.old ys.now }
    requires lines { AreOpenLines grove.old lines.old.items }
    requires made { IsMadeOver grove.old kind.0 p.now.entries made.old }
    requires fits { AreOverFit grove.old kind.0 p.now.entries xs.now ys.now }
    ensures lines { OnOk result (AreOpenLines grove.new lines.new.items) }
    ensures terms { OnOk result (opened_terms_in grove.new lines.new.items
        ≡ opened_terms_in grove.old lines.old.items
        ++ saturated_terms (products (λ x y. 1) (over kind.0 p.now.entries)
        (extracted_terms_in grove.old xs.now) (opened_terms_in grove.old ys.now))) }
    ensures made { OnOk result (IsMadeOver grove.new kind.0 p.now.entries made.new) }
    ensures grown { IsGrownGrove grove.old grove.new }
{
    grove.laws();
    for x in xs {
        push_outside_row(grove, alloc, kind, p, x, ys, made, lines)?;
    }
    Ok(())
}

/// What each of some lines gives with each of others over an edge outside the set that is raised by
/// `s`, behind others, as far as parts are low. The others are raised, and tested, once; so is each tree and forest made once.
fn push_outside_shift(
    grove: &mut Grove<'_>,
    alloc: Global,
    step: &EdgeStep,
    s: &Multi,
    xs: &[(ExtractKey, Saturated)],
    ys: &[(OpenKey, Saturated)],
    made: &mut MadeOver,
    lines: &mut Vec<(OpenKey, Saturated)>,
) -> Result<(), PoolError>
    requires step { IsEdgeStep grove.old.pool.types step.now }
    requires shift { sum s.now.entries ≤ 8192 }
    requires xs { AreExtractLines grove.old xs.now }
    requires ys { AreOpenLines grove.old ys.now }
    requires lines { AreOpenLines grove.old lines.old.items }
    requires made { AreUnions grove.old made.old.unions }
    requires fits { AreOutsideFit grove.old step.now s.now.entries xs.now ys.now }
    ensures lines { OnOk result (AreOpenLines grove.new lines.new.items) }
    ensures terms { OnOk result (opened_terms_in grove.new lines.new.items
        ≡ opened_terms_in grove.old lines.old.items
        ++ kept_terms grove.old.pool.types step.now.most
        (products (outside_factor s.now.entries)
        (outside s.now.entries step.now.kind.0 step.now.p.entries)
        (extracted_terms_in grove.old xs.now) (opened_terms_in grove.old ys.now))) }
    ensures made { OnOk result (AreUnions grove.new made.new.unions) }
    ensures grown { IsGrownGrove grove.old grove.new }
{
    grove.laws();
    if xs.is_empty() {
        return Ok(());
    }
    let raised = raised_lines(grove, alloc, step, s, ys)?;
    let p = step.p.plus(s);
    made.grafts.clear();
    push_outside_rows(
        grove,
        alloc,
        step.kind,
        &p,
        xs,
        raised.as_slice(),
        made,
        lines,
    )
}

/// What each of some lines gives with each of others over an edge outside the set that is raised by
/// each of some shifts, behind others, as far as parts are low.
pub(crate) fn push_outside_shifts(
    grove: &mut Grove<'_>,
    alloc: Global,
    step: &EdgeStep,
    shifts: &[Multi],
    xs: &[(ExtractKey, Saturated)],
    ys: &[(OpenKey, Saturated)],
    lines: &mut Vec<(OpenKey, Saturated)>,
) -> Result<(), PoolError>
    requires step { IsEdgeStep grove.old.pool.types step.now }
    requires shifts { AllByRecursion (λ s. sum s.entries ≤ 8192) shifts.now }
    requires xs { AreExtractLines grove.old xs.now }
    requires ys { AreOpenLines grove.old ys.now }
    requires lines { AreOpenLines grove.old lines.old.items }
    requires fits { AllByRecursion (λ s. AreOutsideFit grove.old step.now s.entries xs.now ys.now)
        shifts.now }
    ensures lines { OnOk result (AreOpenLines grove.new lines.new.items) }
    ensures terms { OnOk result (opened_terms_in grove.new lines.new.items
        ≡ opened_terms_in grove.old lines.old.items
        ++ kept_terms grove.old.pool.types step.now.most
        (flat_map (λ s. products (outside_factor s)
        (outside s step.now.kind.0 step.now.p.entries)
        (extracted_terms_in grove.old xs.now) (opened_terms_in grove.old ys.now))
        (map (λ m. m.entries) shifts.now))) }
    ensures grown { IsGrownGrove grove.old grove.new }
{
    grove.laws();
    let mut made = MadeOver::new(alloc);
    for s in shifts {
        push_outside_shift(grove, alloc, step, s, xs, ys, &mut made, lines)?;
    }
    Ok(())
}
