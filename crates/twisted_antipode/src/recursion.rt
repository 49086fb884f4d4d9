// The recursion for the values of trees. Its depth is bounded: trees of forests are smaller.
ghost use Rattle.std.specs.Prelude.{◌≡◌, ◌<◌, ◌≤◌, ◌∷◌, [], length, None, IfOk, IsOkUnless};
ghost use Rattle.std.specs.List.{AllByRecursion};
ghost use Rattle.plain_trees.specs.Plain.{Plain};
ghost use Rattle.exact_sums.specs.Saturating.{overflow};
ghost use Rattle.tree_pool.specs.Content.{tree_at, trees_of};
ghost use Rattle.tree_pool.specs.Forests.{numbers};
ghost use Rattle.cutting_sizes.specs.Bounds.{IsBounded};
ghost use Rattle.extraction_coproduct.specs.Finished.{coproduct_of, grove_of, AreGrown};
ghost use Rattle.extraction_coproduct.specs.Terms.{AreKnownTerms};
ghost use Rattle.antipode_laws.specs.Weighed.{Weighed};
ghost use Rattle.antipode_laws.specs.Antipode.{from_smaller};
ghost use Rattle.twisted_antipode.specs.RunTerms.{IsCoefficient};
ghost use Rattle.twisted_antipode.specs.Quotients.{quotient_terms};
ghost use Rattle.twisted_antipode.specs.Values.{IsKept, IsValueOf, sum_of, forest_weighed};
ghost use Rattle.twisted_antipode.specs.Counts.{IsCountOf, AreFinishedOver};
ghost use Rattle.twisted_antipode.specs.Known.{first_held, AreWellHeld, IsGood, IsValueIn, IsKnownMore, IsRunOf, AreParts, pairs_in, other_pairs, part_value};

use crate::error::AntipodeError;
use crate::holding::Constants;
use crate::keeping::{held_value, keep};
use crate::quotient::{Reading, is_empty, nothing};
use crate::runs::{is_alone, quotients, run_length, with_product};
use crate::value::{Value, is_nothing, product, unit};
use extraction_coproduct::{CoproductError, ExtractTerm, Tables, Work};
use std::alloc::Global;
use tree_pool::TreeId;

/// The value of a tree: the one that is held, or 1 for the empty tree, or that of the recursion,
/// which is held from then on.
#[cycle(values)]
pub(crate) fn value_at<'a>(
    alloc: Global,
    reading: Reading,
    tables: &mut Tables<'a>,
    memo: &mut Constants,
    id: TreeId,
    work: &mut Work,
) -> Result<Value, AntipodeError>
    requires known { id.0 < length tables.old.pool.trees }
    requires bounded { IsBounded (tree_at tables.old.pool id.0) }
    requires held { AreWellHeld tables.old.pool memo.old }
    ensures kept { IfOk result IsKept }
    ensures value { IfOk result (IsValueIn reading tables.old.pool memo.old
        (tree_at tables.old.pool id.0)) }
    ensures more { IsKnownMore reading tables.old.pool tables.new.pool memo.old memo.new }
    ensures grown { AreGrown tables.old tables.new }
    ensures counted { IsCountOf tables.old tables.new work.old.tables work.new.tables }
    ensures finished { AreFinishedOver tables.old tables.new memo.old
        (tree_at tables.old.pool id.0 ∷ []) }
    ensures memory { IsOkUnless result AntipodeError.Memory }
{
    tables.laws();
    if let Some(value) = held_value(alloc, tables.pool(), memo, id)? {
        return Ok(value);
    }
    if is_empty(tables.pool(), id) {
        return Ok(unit(alloc)?);
    }
    let value = new_value(alloc, reading, tables, memo, id, work)?;
    tables.laws();
    keep(alloc, memo, id, &value)?;
    Ok(value)
}

/// The value that the recursion gives a tree.
#[cycle(values)]
fn new_value<'a>(
    alloc: Global,
    reading: Reading,
    tables: &mut Tables<'a>,
    memo: &mut Constants,
    id: TreeId,
    work: &mut Work,
) -> Result<Value, AntipodeError>
    requires known { id.0 < length tables.old.pool.trees }
    requires bounded { IsBounded (tree_at tables.old.pool id.0) }
    requires held { AreWellHeld tables.old.pool memo.old }
    requires lacking { first_held memo.old id.0 ≡ None }
    ensures kept { IfOk result IsKept }
    ensures value { IfOk result (λ v. (a : Plain → Weighed) →
        IsGood reading tables.old.pool memo.old a →
        IsValueOf (from_smaller tables.old.pool.types
        (quotient_terms reading tables.old.pool.types) a (tree_at tables.old.pool id.0)) v) }
    ensures more { IsKnownMore reading tables.old.pool tables.new.pool memo.old memo.new }
    ensures grown { AreGrown tables.old tables.new }
    ensures counted { IsCountOf tables.old tables.new work.old.tables work.new.tables }
    ensures finished { AreFinishedOver tables.old tables.new memo.old
        (tree_at tables.old.pool id.0 ∷ []) }
    ensures memory { IsOkUnless result AntipodeError.Memory }
{
    tables.laws();
    match tables.coproduct(alloc, id, work) {
        Ok(terms) => sum_of_runs(alloc, reading, tables, memo, id, terms, work),
        Err(CoproductError::CoefficientTooLarge) => Ok(Value::TooLarge),
        Err(CoproductError::Memory) => Err(AntipodeError::Memory),
    }
}

/// The sum over the terms of the coproduct of a tree, other than that of the whole tree, forest by
/// forest.
#[cycle(values)]
fn sum_of_runs<'a>(
    alloc: Global,
    reading: Reading,
    tables: &mut Tables<'a>,
    memo: &mut Constants,
    id: TreeId,
    terms: &[ExtractTerm],
    work: &mut Work,
) -> Result<Value, AntipodeError>
    requires known { id.0 < length tables.old.pool.trees }
    requires bounded { IsBounded (tree_at tables.old.pool id.0) }
    requires held { AreWellHeld tables.old.pool memo.old }
    requires terms { pairs_in (grove_of tables.old) terms.now ≡ coproduct_of tables.old.pool id.0 }
    requires listed { AreKnownTerms (grove_of tables.old) terms.now }
    requires numbers { AllByRecursion (λ e. IsCoefficient e.coefficient) terms.now }
    ensures kept { IfOk result IsKept }
    ensures value { IfOk result (λ v. (a : Plain → Weighed) →
        IsGood reading tables.old.pool memo.old a →
        IsValueOf (part_value reading tables.old.pool.types a
        (other_pairs (tree_at tables.old.pool id.0) (coproduct_of tables.old.pool id.0))) v) }
    ensures more { IsKnownMore reading tables.old.pool tables.new.pool memo.old memo.new }
    ensures grown { AreGrown tables.old tables.new }
    ensures counted { IsCountOf tables.old tables.new work.old.tables work.new.tables }
    ensures finished { AreFinishedOver tables.old tables.new memo.old
        (tree_at tables.old.pool id.0 ∷ []) }
    ensures memory { IsOkUnless result AntipodeError.Memory }
{
    let mut total = nothing(alloc)?;
    let mut left = terms;
    while !left.is_empty() {
        tables.laws();
        let (run, later) = left.split_at(run_length(left));
        total = with_run(alloc, reading, tables, memo, id, run, total, work)?;
        left = later;
    }
    Ok(total)
}

/// A sum with the terms of one forest, unless that is the whole tree.
#[cycle(values)]
fn with_run<'a>(
    alloc: Global,
    reading: Reading,
    tables: &mut Tables<'a>,
    memo: &mut Constants,
    id: TreeId,
    run: &[ExtractTerm],
    total: Value,
    work: &mut Work,
) -> Result<Value, AntipodeError>
    requires known { id.0 < length tables.old.pool.trees }
    requires bounded { IsBounded (tree_at tables.old.pool id.0) }
    requires held { AreWellHeld tables.old.pool memo.old }
    requires run { IsRunOf (grove_of tables.old) (coproduct_of tables.old.pool id.0) run.now }
    requires total { IsKept total }
    ensures kept { IfOk result IsKept }
    ensures value { IfOk result (λ v. (a : Plain → Weighed) (w : Weighed) →
        IsGood reading tables.old.pool memo.old a → w.mass ≤ overflow → IsValueOf w total →
        IsValueOf (sum_of w (part_value reading tables.old.pool.types a
        (other_pairs (tree_at tables.old.pool id.0) (pairs_in (grove_of tables.old) run.now)))) v) }
    ensures more { IsKnownMore reading tables.old.pool tables.new.pool memo.old memo.new }
    ensures grown { AreGrown tables.old tables.new }
    ensures counted { IsCountOf tables.old tables.new work.old.tables work.new.tables }
    ensures finished { AreFinishedOver tables.old tables.new memo.old
        (tree_at tables.old.pool id.0 ∷ []) }
    ensures memory { IsOkUnless result AntipodeError.Memory }
{
    tables.laws();
    let trees = tables.forests().trees(run[0].forest);
    if is_alone(trees, id) {
        return Ok(total);
    }
    let quotients = quotients(alloc, reading, tables.pool(), run)?;
    if is_nothing(&quotients) {
        return Ok(total);
    }
    let forest = forest_value(alloc, reading, tables, memo, id, trees, work)?;
    with_product(alloc, total, &quotients, &forest)
}

/// The product of the values of the trees of a forest, which are smaller than the tree `id`.
#[cycle(values)]
fn forest_value<'a>(
    alloc: Global,
    reading: Reading,
    tables: &mut Tables<'a>,
    memo: &mut Constants,
    id: TreeId,
    trees: &[TreeId],
    work: &mut Work,
) -> Result<Value, AntipodeError>
    requires known { id.0 < length tables.old.pool.trees }
    requires parts { AreParts tables.old.pool (tree_at tables.old.pool id.0) (numbers trees.now) }
    requires held { AreWellHeld tables.old.pool memo.old }
    ensures kept { IfOk result IsKept }
    ensures value { IfOk result (λ v. (a : Plain → Weighed) →
        IsGood reading tables.old.pool memo.old a →
        IsValueOf (forest_weighed a (trees_of tables.old.pool trees.now)) v) }
    ensures more { IsKnownMore reading tables.old.pool tables.new.pool memo.old memo.new }
    ensures grown { AreGrown tables.old tables.new }
    ensures counted { IsCountOf tables.old tables.new work.old.tables work.new.tables }
    ensures finished { AreFinishedOver tables.old tables.new memo.old
        (trees_of tables.old.pool trees.now) }
    ensures memory { IsOkUnless result AntipodeError.Memory }
{
    let mut all = unit(alloc)?;
    let mut i = trees.len();
    while i > 0 {
        i -= 1;
        let value = value_at(alloc, reading, tables, memo, trees[i], work)?;
        all = product(alloc, &value, &all)?;
    }
    Ok(all)
}
