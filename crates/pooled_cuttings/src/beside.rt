// Products over an edge whose lower node is not touched.
ghost use Rattle.std.specs.Prelude.{◌≡◌, ◌∷◌, ◌++◌, [], IfOk, OnOk};
ghost use Rattle.std.specs.List.{AllByRecursion};
ghost use Rattle.exact_sums.specs.Keyed.{products, products_with, scaled, saturated_terms};
ghost use Rattle.cutting_tables.specs.Keys.{beside};
ghost use Rattle.pooled_cuttings.specs.Groves.{IsGrownGrove};
ghost use Rattle.pooled_cuttings.specs.Lines.{extracted_in, extracted_terms_in, IsExtractKey, IsExtractLine, AreExtractLines};
ghost use Rattle.pooled_cuttings.specs.Products.{beside_term, IsBesideFit, AreBesideFit};

use crate::grove::Grove;
use crate::lines::push_line;
use crate::keys::ExtractKey;
use crate::steps::EdgeStep;
use exact_sums::Saturated;
use std::alloc::Global;
use tree_pool::PoolError;

/// What two keys give together over an edge that is not raised.
fn beside_key(
    grove: &mut Grove<'_>,
    alloc: Global,
    step: &EdgeStep,
    x: &ExtractKey,
    y: &ExtractKey,
) -> Result<ExtractKey, PoolError>
    requires x { IsExtractKey grove.old x.now }
    requires y { IsExtractKey grove.old y.now }
    requires fits { IsBesideFit grove.old.pool.types step.now (extracted_in grove.old x.now)
        (extracted_in grove.old y.now) }
    ensures known { IfOk result (λ k. IsExtractKey grove.new k) }
    ensures means { IfOk result (λ k. extracted_in grove.new k
        ≡ beside step.now.kind.0 step.now.p.entries (extracted_in grove.old x.now)
        (extracted_in grove.old y.now)) }
    ensures grown { IsGrownGrove grove.old grove.new }
{
    grove.laws();
    let quotient = grove.grafted(alloc, step.kind, step.p, x.quotient, y.quotient)?;
    let forest = grove.united(alloc, x.forest, y.forest)?;
    Ok(ExtractKey { forest, quotient })
}

/// What two lines give together, behind others.
fn push_beside(
    grove: &mut Grove<'_>,
    alloc: Global,
    step: &EdgeStep,
    x: &(ExtractKey, Saturated),
    y: &(ExtractKey, Saturated),
    lines: &mut Vec<(ExtractKey, Saturated)>,
) -> Result<(), PoolError>
    requires x { IsExtractLine grove.old x.now }
    requires y { IsExtractLine grove.old y.now }
    requires lines { AreExtractLines grove.old lines.old.items }
    requires fits { IsBesideFit grove.old.pool.types step.now (extracted_in grove.old x.now.0)
        (extracted_in grove.old y.now.0) }
    ensures lines { OnOk result (AreExtractLines grove.new lines.new.items) }
    ensures terms { OnOk result (extracted_terms_in grove.new lines.new.items
        ≡ extracted_terms_in grove.old lines.old.items
        ++ saturated_terms (beside_term step.now (extracted_in grove.old x.now.0, x.now.1)
        (extracted_in grove.old y.now.0, y.now.1) ∷ [])) }
    ensures grown { IsGrownGrove grove.old grove.new }
{
    grove.laws();
    let key = beside_key(grove, alloc, step, &x.0, &y.0)?;
    push_line(lines, (key, x.1.times(y.1)))?;
    Ok(())
}

/// What one line gives with each of others, behind others.
fn push_beside_row(
    grove: &mut Grove<'_>,
    alloc: Global,
    step: &EdgeStep,
    x: &(ExtractKey, Saturated),
    ys: &[(ExtractKey, Saturated)],
    lines: &mut Vec<(ExtractKey, Saturated)>,
) -> Result<(), PoolError>
    requires x { IsExtractLine grove.old x.now }
    requires ys { AreExtractLines grove.old ys.now }
    requires lines { AreExtractLines grove.old lines.old.items }
    requires fits { AllByRecursion (λ y. IsBesideFit grove.old.pool.types step.now
        (extracted_in grove.old x.now.0) (extracted_in grove.old y.0)) ys.now }
    ensures lines { OnOk result (AreExtractLines grove.new lines.new.items) }
    ensures terms { OnOk result (extracted_terms_in grove.new lines.new.items
        ≡ extracted_terms_in grove.old lines.old.items
        ++ saturated_terms (scaled x.now.1 (products_with (λ x y. 1)
        (beside step.now.kind.0 step.now.p.entries) (extracted_in grove.old x.now.0)
        (extracted_terms_in grove.old ys.now)))) }
    ensures grown { IsGrownGrove grove.old grove.new }
{
    grove.laws();
    for y in ys {
        push_beside(grove, alloc, step, x, y, lines)?;
    }
    Ok(())
}

/// What each of some lines gives with each of others over an edge that is not raised, behind
/// others.
pub(crate) fn push_beside_rows(
    grove: &mut Grove<'_>,
    alloc: Global,
    step: &EdgeStep,
    xs: &[(ExtractKey, Saturated)],
    ys: &[(ExtractKey, Saturated)],
    lines: &mut Vec<(ExtractKey, Saturated)>,
) -> Result<(), PoolError>
    requires xs { AreExtractLines grove.old xs.now }
    requires ys { AreExtractLines grove.old ys.now }
    requires lines { AreExtractLines grove.old lines.old.items }
    requires fits { AreBesideFit grove.old step.now xs.now ys.now }
    ensures lines { OnOk result (AreExtractLines grove.new lines.new.items) }
    ensures terms { OnOk result (extracted_terms_in grove.new lines.new.items
        ≡ extracted_terms_in grove.old lines.old.items
        ++ saturated_terms (products (λ x y. 1) (beside step.now.kind.0 step.now.p.entries)
        (extracted_terms_in grove.old xs.now) (extracted_terms_in grove.old ys.now))) }
    ensures grown { IsGrownGrove grove.old grove.new }
{
    grove.laws();
    for x in xs {
        push_beside_row(grove, alloc, step, x, ys, lines)?;
    }
    Ok(())
}
