// The lines of the tree with one node.
ghost use Rattle.std.specs.Prelude.{◌≡◌, ◌≤◌, ◌∷◌, ◌++◌, [], sum, map, pos, IfOk, OnOk};
ghost use Rattle.std.specs.List.{AllByRecursion};
ghost use Rattle.degree_numbers.specs.Multi.{IsAtMost, IsMultiIndex, minus_of};
ghost use Rattle.degree_numbers.specs.Types.{AreTypes};
ghost use Rattle.plain_trees.specs.Plain.{bare};
ghost use Rattle.cutting_tables.specs.Tables.{seeds};
ghost use Rattle.pooled_cuttings.specs.Groves.{IsGrownGrove};
ghost use Rattle.pooled_cuttings.specs.Lines.{opened_in, opened_terms_in, extracted_terms_in, IsOpenKey, AreOpenLines, AreExtractLines};
ghost use Rattle.pooled_cuttings.specs.Products.{is_low, kept_terms, seed, IsPart, HoldsForest};

use crate::grove::Grove;
use crate::keys::{ExtractKey, OpenKey};
use crate::lines::push_line;
use crate::tables::TableBounds;
use cutting_tables::parts_below;
use degree_numbers::{Multi, Types};
use exact_sums::Saturated;
use plain_trees::node_degree;
use std::alloc::Global;
use tree_pool::{ForestId, PoolError};

/// The idle line of the tree with one node: no component, and the tree itself.
pub(crate) fn idle_seed(
    grove: &mut Grove<'_>,
    alloc: Global,
    n: &Multi,
) -> Result<Vec<(ExtractKey, Saturated)>, PoolError>
    requires types { IsMultiIndex grove.old.pool.types.dims n.now.entries }
    requires small { sum n.now.entries ≤ 4096 }
    ensures lines { IfOk result (λ ls. AreExtractLines grove.new ls.items) }
    ensures terms { IfOk result (λ ls. extracted_terms_in grove.new ls.items
        ≡ (([], bare n.now.entries), 1) ∷ []) }
    ensures grown { IsGrownGrove grove.old grove.new }
{
    grove.laws();
    let forest = grove.no_tree(alloc)?;
    grove.laws();
    let quotient = grove.node(alloc, *n)?;
    let mut lines = Vec::new(alloc);
    push_line(
        &mut lines,
        (ExtractKey { forest, quotient }, Saturated::of(1)),
    )?;
    Ok(lines)
}

/// The key of the part `a` of a decoration, of which `rest` is left, with the forest `none` of no
/// tree.
fn seed_key(
    grove: &mut Grove<'_>,
    alloc: Global,
    none: ForestId,
    a: &Multi,
    rest: &Multi,
) -> Result<OpenKey, PoolError>
    requires none { HoldsForest grove.old none.0 [] }
    requires part { IsMultiIndex grove.old.pool.types.dims a.now.entries }
    requires part_small { sum a.now.entries ≤ 4096 }
    requires rest { IsMultiIndex grove.old.pool.types.dims rest.now.entries }
    requires rest_small { sum rest.now.entries ≤ 4096 }
    ensures known { IfOk result (λ k. IsOpenKey grove.new k) }
    ensures means { IfOk result (λ k. opened_in grove.new k
        ≡ record { above = []; part = bare a.now.entries; quotient = bare rest.now.entries }) }
    ensures grown { IsGrownGrove grove.old grove.new }
{
    grove.laws();
    let part = grove.node(alloc, *a)?;
    let quotient = grove.node(alloc, *rest)?;
    Ok(OpenKey {
        above: none,
        part,
        quotient,
    })
}

/// What is left of a decoration when a part is taken.
pub(crate) fn left_of(n: &Multi, a: &Multi) -> Multi
    requires { IsAtMost a.now.entries n.now.entries }
    ensures { result.entries ≡ minus_of n.now.entries a.now.entries }
{
    n.minus(a).unwrap()
}

/// Whether the component with one node of this decoration is followed.
fn is_low_node(types: &Types, bounds: &TableBounds, a: &Multi) -> bool
    requires types { AreTypes types.now }
    requires small { sum a.now.entries ≤ 4096 }
    requires excess { bounds.now.excess ≤ 1120000000 }
    ensures { result ≡ is_low types.now (pos bounds.now.excess) (bare a.now.entries) }
{
    let most = bounds.excess as i64;
    !node_degree(types, a).a.cmp(&most).is_gt()
}

/// The line of a part of a decoration behind others, where the part is low.
fn push_seed(
    grove: &mut Grove<'_>,
    alloc: Global,
    bounds: &TableBounds,
    none: ForestId,
    n: &Multi,
    a: &Multi,
    lines: &mut Vec<(OpenKey, Saturated)>,
) -> Result<(), PoolError>
    requires none { HoldsForest grove.old none.0 [] }
    requires excess { bounds.now.excess ≤ 1120000000 }
    requires part { IsPart grove.old.pool.types n.now.entries a.now.entries }
    requires lines { AreOpenLines grove.old lines.old.items }
    ensures lines { OnOk result (AreOpenLines grove.new lines.new.items) }
    ensures terms { OnOk result (opened_terms_in grove.new lines.new.items
        ≡ opened_terms_in grove.old lines.old.items
        ++ kept_terms grove.old.pool.types (pos bounds.now.excess) (seed n.now.entries a.now.entries ∷ [])) }
    ensures grown { IsGrownGrove grove.old grove.new }
{
    grove.laws();
    if is_low_node(grove.pool().types(), bounds, a) {
        let key = seed_key(grove, alloc, none, a, &left_of(n, a))?;
        push_line(lines, (key, Saturated::of(1)))?;
    }
    Ok(())
}

/// The open lines of the tree with one node: one for each part of its decoration that is low.
pub(crate) fn seed_lines(
    grove: &mut Grove<'_>,
    alloc: Global,
    bounds: &TableBounds,
    n: &Multi,
) -> Result<Vec<(OpenKey, Saturated)>, PoolError>
    requires excess { bounds.now.excess ≤ 1120000000 }
    requires types { IsMultiIndex grove.old.pool.types.dims n.now.entries }
    requires small { sum n.now.entries ≤ 4096 }
    ensures lines { IfOk result (λ ls. AreOpenLines grove.new ls.items) }
    ensures terms { IfOk result (λ ls. opened_terms_in grove.new ls.items
        ≡ kept_terms grove.old.pool.types (pos bounds.now.excess) (seeds n.now.entries)) }
    ensures grown { IsGrownGrove grove.old grove.new }
{
    let none = grove.no_tree(alloc)?;
    let parts = parts_below(alloc, n)?;
    let mut lines = Vec::new(alloc);
    push_seeds(grove, alloc, bounds, none, n, parts.as_slice(), &mut lines)?;
    Ok(lines)
}

/// The lines of some parts of a decoration behind others, as far as they are low.
fn push_seeds(
    grove: &mut Grove<'_>,
    alloc: Global,
    bounds: &TableBounds,
    none: ForestId,
    n: &Multi,
    parts: &[Multi],
    lines: &mut Vec<(OpenKey, Saturated)>,
) -> Result<(), PoolError>
    requires none { HoldsForest grove.old none.0 [] }
    requires excess { bounds.now.excess ≤ 1120000000 }
    requires parts { AllByRecursion (λ a. IsPart grove.old.pool.types n.now.entries a.entries)
        parts.now }
    requires lines { AreOpenLines grove.old lines.old.items }
    ensures lines { OnOk result (AreOpenLines grove.new lines.new.items) }
    ensures terms { OnOk result (opened_terms_in grove.new lines.new.items
        ≡ opened_terms_in grove.old lines.old.items
        ++ kept_terms grove.old.pool.types (pos bounds.now.excess)
        (map (seed n.now.entries) (map (λ a. a.entries) parts.now))) }
    ensures grown { IsGrownGrove grove.old grove.new }
{
    grove.laws();
    for a in parts {
        push_seed(grove, alloc, bounds, none, n, a, lines)?;
    }
    Ok(())
}
