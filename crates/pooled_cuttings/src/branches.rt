// The lines of a tree with one more edge at its root.
ghost use Rattle.std.specs.Prelude.{◌≡◌, ◌≤◌, List, length, sum, map, IfOk};
ghost use Rattle.std.specs.List.{AllByRecursion};
ghost use Rattle.degree_numbers.specs.declared.multi.Multi.{Multi};
ghost use Rattle.plain_trees.specs.Cutting.{shifts};
ghost use Rattle.plain_trees.specs.Coproducts.{each_direction};
ghost use Rattle.cutting_sizes.specs.Bounds.{most_shift};
ghost use Rattle.cutting_tables.specs.Tables.{idle_branch, touched_branch};
ghost use Rattle.cutting_tables.specs.Live.{AreSameOpened, AreSameExtracted};
ghost use Rattle.pooled_cuttings.specs.Groves.{IsGrownGrove};
ghost use Rattle.pooled_cuttings.specs.Lines.{opened_terms_in, extracted_terms_in, AreOpenLines, AreExtractLines};
ghost use Rattle.pooled_cuttings.specs.Products.{kept_terms, low_terms, touched_products, IsEdgeStep, AreInsideFit, AreOutsideFit, AreBesideFit};

use crate::beside::push_beside_rows;
use crate::collecting::{collect_extracted, collect_opened};
use crate::grove::Grove;
use crate::inside::push_inside_rows;
use crate::keys::{ExtractKey, OpenKey};
use crate::outside::push_outside_shifts;
use crate::steps::EdgeStep;
use cutting_tables::shifts_below;
use degree_numbers::Multi;
use exact_sums::Saturated;
use std::alloc::Global;
use tree_pool::PoolError;

/// The idle lines, from the closed lines above the edge and the idle ones of the other edges.
pub(crate) fn idle_lines(
    grove: &mut Grove<'_>,
    alloc: Global,
    step: &EdgeStep,
    closed: &[(ExtractKey, Saturated)],
    idle: &[(ExtractKey, Saturated)],
) -> Result<Vec<(ExtractKey, Saturated)>, PoolError>
    requires closed { AreExtractLines grove.old closed.now }
    requires idle { AreExtractLines grove.old idle.now }
    requires fits { AreBesideFit grove.old step.now closed.now idle.now }
    ensures lines { IfOk result (λ ls. AreExtractLines grove.new ls.items) }
    ensures sums { IfOk result (λ ls. AreSameExtracted (extracted_terms_in grove.new ls.items)
        (idle_branch step.now.kind.0 step.now.p.entries (extracted_terms_in grove.old closed.now)
        (extracted_terms_in grove.old idle.now))) }
    ensures grown { IsGrownGrove grove.old grove.new }
{
    let mut lines = Vec::new(alloc);
    push_beside_rows(grove, alloc, step, closed, idle, &mut lines)?;
    collect_extracted(grove, &mut lines);
    Ok(lines)
}

/// All products in which the root is touched, as far as their parts are low.
fn touched_rows(
    grove: &mut Grove<'_>,
    alloc: Global,
    step: &EdgeStep,
    shifts: &[Multi],
    above: &[(OpenKey, Saturated)],
    closed: &[(ExtractKey, Saturated)],
    touched: &[(OpenKey, Saturated)],
) -> Result<Vec<(OpenKey, Saturated)>, PoolError>
    requires step { IsEdgeStep grove.old.pool.types step.now }
    requires shifts { AllByRecursion (λ s. sum s.entries ≤ 8192) shifts.now }
    requires above { AreOpenLines grove.old above.now }
    requires closed { AreExtractLines grove.old closed.now }
    requires touched { AreOpenLines grove.old touched.now }
    requires inside { AreInsideFit grove.old step.now above.now touched.now }
    requires outside { AllByRecursion (λ s. AreOutsideFit grove.old step.now s.entries closed.now
        touched.now) shifts.now }
    ensures lines { IfOk result (λ ls. AreOpenLines grove.new ls.items) }
    ensures terms { IfOk result (λ ls. opened_terms_in grove.new ls.items
        ≡ kept_terms grove.old.pool.types step.now.most
        (touched_products step.now (map (λ m. m.entries) shifts.now)
        (opened_terms_in grove.old above.now) (extracted_terms_in grove.old closed.now)
        (opened_terms_in grove.old touched.now))) }
    ensures grown { IsGrownGrove grove.old grove.new }
{
    grove.laws();
    let mut lines = Vec::new(alloc);
    push_inside_rows(grove, alloc, step, above, touched, &mut lines)?;
    push_outside_shifts(grove, alloc, step, shifts, closed, touched, &mut lines)?;
    Ok(lines)
}

/// The lines in which the root is touched, from the open and closed lines above the edge and the
/// open ones of the other edges.
pub(crate) fn touched_lines(
    grove: &mut Grove<'_>,
    alloc: Global,
    step: &EdgeStep,
    shifts: &[Multi],
    above: &[(OpenKey, Saturated)],
    closed: &[(ExtractKey, Saturated)],
    touched: &[(OpenKey, Saturated)],
) -> Result<Vec<(OpenKey, Saturated)>, PoolError>
    requires step { IsEdgeStep grove.old.pool.types step.now }
    requires shifts { AllByRecursion (λ s. sum s.entries ≤ 8192) shifts.now }
    requires above { AreOpenLines grove.old above.now }
    requires closed { AreExtractLines grove.old closed.now }
    requires touched { AreOpenLines grove.old touched.now }
    requires inside { AreInsideFit grove.old step.now above.now touched.now }
    requires outside { AllByRecursion (λ s. AreOutsideFit grove.old step.now s.entries closed.now
        touched.now) shifts.now }
    ensures lines { IfOk result (λ ls. AreOpenLines grove.new ls.items) }
    ensures sums { IfOk result (λ ls. AreSameOpened (opened_terms_in grove.new ls.items)
        (low_terms grove.old.pool.types step.now.most
        (touched_products step.now (map (λ m. m.entries) shifts.now)
        (opened_terms_in grove.old above.now) (extracted_terms_in grove.old closed.now)
        (opened_terms_in grove.old touched.now)))) }
    ensures grown { IsGrownGrove grove.old grove.new }
{
    let mut lines = touched_rows(grove, alloc, step, shifts, above, closed, touched)?;
    collect_opened(grove, &mut lines);
    Ok(lines)
}

/// The same with all shifts that are at most `most` in each direction.
pub(crate) fn touched_over(
    grove: &mut Grove<'_>,
    alloc: Global,
    step: &EdgeStep,
    most: u32,
    above: &[(OpenKey, Saturated)],
    closed: &[(ExtractKey, Saturated)],
    touched: &[(OpenKey, Saturated)],
) -> Result<Vec<(OpenKey, Saturated)>, PoolError>
    requires step { IsEdgeStep grove.old.pool.types step.now }
    requires decoration { length step.now.p.entries ≡ 5 }
    requires most { most ≤ most_shift }
    requires above { AreOpenLines grove.old above.now }
    requires closed { AreExtractLines grove.old closed.now }
    requires touched { AreOpenLines grove.old touched.now }
    requires inside { AreInsideFit grove.old step.now above.now touched.now }
    requires outside { (ss : List Multi) →
        map (λ m. m.entries) ss
        ≡ shifts (each_direction grove.old.pool.types.dims most) step.now.p.entries →
        AllByRecursion (λ s. AreOutsideFit grove.old step.now s.entries closed.now touched.now)
        ss }
    ensures lines { IfOk result (λ ls. AreOpenLines grove.new ls.items) }
    ensures sums { IfOk result (λ ls. AreSameOpened (opened_terms_in grove.new ls.items)
        (low_terms grove.old.pool.types step.now.most
        (touched_branch (each_direction grove.old.pool.types.dims most) step.now.kind.0
        step.now.p.entries (opened_terms_in grove.old above.now)
        (extracted_terms_in grove.old closed.now) (opened_terms_in grove.old touched.now)))) }
    ensures grown { IsGrownGrove grove.old grove.new }
{
    let shifts = shifts_below(alloc, grove.pool().types(), most)?;
    touched_lines(
        grove,
        alloc,
        step,
        shifts.as_slice(),
        above,
        closed,
        touched,
    )
}
