// The levels.
ghost use Rattle.std.specs.Prelude.{◌≡◌, ◌⊎◌, ◌<◌, ◌≤◌, ◌++◌, ◌∷◌, [], length, slice_get, Some, IfOk, IfErr, OnOk};
ghost use Rattle.std.specs.List.{All};
ghost use Rattle.normal_rule.specs.declared.RuleRow.{RuleRow};
ghost use Rattle.tree_pool.specs.Content.{IsGrown};
ghost use Rattle.tree_listing.specs.declared.refusal.ListRefusal.TheVariants.{TooManyTrees, TreeTooLarge};
ghost use Rattle.ordered_lists.specs.Members.{IsIn};
ghost use Rattle.plain_trees.specs.Plain.{Plain};
ghost use Rattle.equations.specs.Accepted.{IsEquation};
ghost use Rattle.conforming_trees.specs.Conforming.{IsRule};
ghost use Rattle.conforming_trees.specs.Budgets.{IsNotAbove, IsWhole};
ghost use Rattle.tree_budgets.specs.Plan.{IsPlan};
ghost use Rattle.conforming_trees.specs.Listed.{HasTooManyTrees};
ghost use Rattle.tree_listing.specs.Made.{one_if, is_not_above, node_at, AreIds, IsLeast};
ghost use Rattle.tree_listing.specs.Gathered.{gathered, IsGood, Covers, AreCovered, IsMore};
ghost use Rattle.tree_listing.specs.Levels.{trees, sprouts, IsSetting, AreLevels, AreSprouts, IsRowLevel, IsLevel};

use crate::found::Found;
use crate::growth::growths;
use crate::level::{Level, RowLevel, Stem};
use crate::passes::is_not_above;
use crate::refusal::ListRefusal;
use crate::stems::stems_of;
use crate::wholes::wholes_of;
use degree_numbers::{Degree, Multi};
use equations::Equation;
use normal_rule::Rule;
use sqlite_items::Items;
use std::alloc::{AllocError, Global};
use tree_budgets::{RowPlan, RulePlan};
use tree_pool::{Pool, PoolError, TreeId};

// The greatest number of edges of a listed tree.
const MOST_EDGES: usize = 24;

// No tree that is not too large has a greater degree.
const MOST_DEGREE: i64 = 100_000_000_000;

/// What stays the same while levels are made: the equation, its rule with the plan of it, and the
/// number of the empty tree.
#[derive(Clone, Copy)]
pub struct Setting<'r> {
    pub eq: &'r Equation,
    pub rule: &'r Rule,
    pub plan: &'r RulePlan,
    pub empty: TreeId,
}

/// The stems of a row with as many edges as there are levels.
fn grown_stems(
    alloc: Global,
    setting: &Setting<'_>,
    pool: &mut Pool<'_>,
    levels: &[Level],
    row: usize,
) -> Result<Items<Stem>, PoolError>
    requires setting { IsSetting setting.now.eq.now setting.now.rule.now setting.now.plan.now
        pool.old setting.now.empty }
    requires levels { AreLevels setting.now.eq.now setting.now.rule.now setting.now.plan.now
        pool.old levels.now }
    requires row { row < length setting.now.plan.now.rows }
    requires some { 0 < length levels.now }
    requires few { length levels.now ≤ 24 }
    ensures grown { IsGrown pool.old pool.new }
    ensures known { IfOk result (λ stems. All (λ s. s.id.0 < length pool.new.trees) stems) }
    ensures stems { IfOk result (λ stems. (r : RuleRow) →
        slice_get setting.now.rule.now.rows row ≡ Some r →
        AreSprouts setting.now.eq.now setting.now.rule.now setting.now.plan.now r
        (length levels.now) (sprouts pool.new stems)) }
{
    let plan = &setting.plan.rows.as_slice()[row];
    let growths = growths(alloc, pool, setting.empty, plan, levels, row)?;
    stems_of(alloc, pool, growths.as_slice())
}

/// The stem without an edge, on a row: the empty tree, where its reserve lets it be one.
fn base_stems(alloc: Global, plan: &RowPlan, empty: TreeId) -> Result<Items<Stem>, AllocError>
    requires { 0 < length plan.now.nodes }
    ensures { IfOk result (λ stems. stems
        ≡ one_if (is_not_above (node_at plan.now 0).reserve plan.now.most)
        record { id = empty; node = 0 }) }
{
    let mut stems = Items::new(alloc);
    if is_not_above(&plan.nodes.as_slice()[0].reserve, &plan.most) {
        stems.push(Stem { id: empty, node: 0 })?;
    }
    Ok(stems)
}

/// The stems of a row with as many edges as there are levels.
fn row_stems(
    alloc: Global,
    setting: &Setting<'_>,
    pool: &mut Pool<'_>,
    levels: &[Level],
    row: usize,
) -> Result<Items<Stem>, PoolError>
    requires setting { IsSetting setting.now.eq.now setting.now.rule.now setting.now.plan.now
        pool.old setting.now.empty }
    requires levels { AreLevels setting.now.eq.now setting.now.rule.now setting.now.plan.now
        pool.old levels.now }
    requires row { row < length setting.now.plan.now.rows }
    requires few { length levels.now ≤ 24 }
    ensures grown { IsGrown pool.old pool.new }
    ensures known { IfOk result (λ stems. All (λ s. s.id.0 < length pool.new.trees) stems) }
    ensures stems { IfOk result (λ stems. (r : RuleRow) →
        slice_get setting.now.rule.now.rows row ≡ Some r →
        AreSprouts setting.now.eq.now setting.now.rule.now setting.now.plan.now r
        (length levels.now) (sprouts pool.new stems)) }
{
    if levels.is_empty() {
        let plan = &setting.plan.rows.as_slice()[row];
        return Ok(base_stems(alloc, plan, setting.empty)?);
    }
    grown_stems(alloc, setting, pool, levels, row)
}

// The lesser of two degrees.
fn lesser(d: &Degree, e: &Degree) -> Degree
    ensures is { (result ≡ d.now) ⊎ (result ≡ e.now) }
    ensures d { IsNotAbove result d.now }
    ensures e { IsNotAbove result e.now }
{
    if is_not_above(d, e) { *d } else { *e }
}

/// A degree that is at most that of each of these trees: the least of them, or where there are none
/// the greatest of a tree that is not too large.
fn least_degree(pool: &Pool<'_>, wholes: &[TreeId]) -> Degree
    requires { AreIds pool.now wholes.now }
    ensures { IsLeast pool.now wholes.now result }
{
    pool.laws();
    let mut least = Degree {
        a: MOST_DEGREE,
        b: 0,
    };
    for id in wholes {
        least = lesser(&least, &pool.degree(*id));
    }
    least
}

/// The stems and the wholes of a row with as many edges as there are levels.
fn row_level(
    alloc: Global,
    setting: &Setting<'_>,
    pool: &mut Pool<'_>,
    found: &mut Found,
    levels: &[Level],
    row: usize,
) -> Result<RowLevel, ListRefusal>
    requires setting { IsSetting setting.now.eq.now setting.now.rule.now setting.now.plan.now
        pool.old setting.now.empty }
    requires levels { AreLevels setting.now.eq.now setting.now.rule.now setting.now.plan.now
        pool.old levels.now }
    requires row { row < length setting.now.plan.now.rows }
    requires few { length levels.now ≤ 24 }
    requires found { IsGood setting.now.eq.now setting.now.rule.now pool.old found.old }
    ensures grown { IsGrown pool.old pool.new }
    ensures level { IfOk result (λ level. (r : RuleRow) →
        slice_get setting.now.rule.now.rows row ≡ Some r →
        IsRowLevel setting.now.eq.now setting.now.rule.now setting.now.plan.now pool.new r
        (length levels.now) level) }
    ensures found { OnOk result (IsGood setting.now.eq.now setting.now.rule.now pool.new
        found.new) }
    ensures covered { OnOk result ((r : RuleRow) →
        slice_get setting.now.rule.now.rows row ≡ Some r →
        AreCovered setting.now.eq.now setting.now.rule.now setting.now.plan.now r
        (length levels.now) (gathered pool.new found.new)) }
    ensures more { OnOk result (IsMore setting.now.eq.now setting.now.rule.now
        (gathered pool.old found.old) (gathered pool.new found.new)) }
    ensures many { IfErr result (λ e. e ≡ TooManyTrees →
        HasTooManyTrees setting.now.eq.now setting.now.rule.now) }
    ensures large { IfErr result (λ e. e ≡ TreeTooLarge → ⊥) }
{
    let plan = &setting.plan.rows.as_slice()[row];
    let stems = row_stems(alloc, setting, pool, levels, row)?;
    let wholes = wholes_of(alloc, pool, found, &plan.most, stems.as_slice())?;
    let least = least_degree(pool, wholes.as_slice());
    Ok(RowLevel {
        kernel: plan.kernel,
        stems,
        wholes: Items::from_vec(wholes),
        least,
    })
}

/// Puts a level behind others.
fn push_level(levels: &mut Vec<Level>, level: Level) -> Result<(), AllocError>
    ensures { OnOk result (levels.new.items ≡ levels.old.items ++ level ∷ []) }
{
    levels.push(level)?;
    Ok(())
}

/// The stems and the wholes of all rows with as many edges as there are levels.
fn next_level(
    alloc: Global,
    setting: &Setting<'_>,
    pool: &mut Pool<'_>,
    found: &mut Found,
    levels: &[Level],
) -> Result<Level, ListRefusal>
    requires setting { IsSetting setting.now.eq.now setting.now.rule.now setting.now.plan.now
        pool.old setting.now.empty }
    requires levels { AreLevels setting.now.eq.now setting.now.rule.now setting.now.plan.now
        pool.old levels.now }
    requires few { length levels.now ≤ 24 }
    requires found { IsGood setting.now.eq.now setting.now.rule.now pool.old found.old }
    ensures grown { IsGrown pool.old pool.new }
    ensures level { IfOk result (λ level. IsLevel setting.now.eq.now setting.now.rule.now
        setting.now.plan.now pool.new (length levels.now) level) }
    ensures found { OnOk result (IsGood setting.now.eq.now setting.now.rule.now pool.new
        found.new) }
    ensures covered { OnOk result ((r : RuleRow) → IsIn r setting.now.rule.now.rows →
        AreCovered setting.now.eq.now setting.now.rule.now setting.now.plan.now r
        (length levels.now) (gathered pool.new found.new)) }
    ensures more { OnOk result (IsMore setting.now.eq.now setting.now.rule.now
        (gathered pool.old found.old) (gathered pool.new found.new)) }
    ensures many { IfErr result (λ e. e ≡ TooManyTrees →
        HasTooManyTrees setting.now.eq.now setting.now.rule.now) }
    ensures large { IfErr result (λ e. e ≡ TreeTooLarge → ⊥) }
{
    let mut rows = Items::new(alloc);
    for row in 0..setting.plan.rows.len() {
        rows.push(row_level(alloc, setting, pool, found, levels, row)?)?;
    }
    Ok(Level { rows })
}

/// All levels.
fn all_levels(
    alloc: Global,
    setting: &Setting<'_>,
    pool: &mut Pool<'_>,
    found: &mut Found,
) -> Result<(), ListRefusal>
    requires setting { IsSetting setting.now.eq.now setting.now.rule.now setting.now.plan.now
        pool.old setting.now.empty }
    requires found { IsGood setting.now.eq.now setting.now.rule.now pool.old found.old }
    ensures grown { IsGrown pool.old pool.new }
    ensures found { OnOk result (IsGood setting.now.eq.now setting.now.rule.now pool.new
        found.new) }
    ensures covered { OnOk result ((r : RuleRow) (t : Plain) → IsIn r setting.now.rule.now.rows →
        IsWhole setting.now.eq.now setting.now.rule.now setting.now.plan.now.mosts r t →
        Covers setting.now.eq.now setting.now.rule.now (gathered pool.new found.new) t) }
    ensures many { IfErr result (λ e. e ≡ TooManyTrees →
        HasTooManyTrees setting.now.eq.now setting.now.rule.now) }
    ensures large { IfErr result (λ e. e ≡ TreeTooLarge → ⊥) }
{
    let mut levels = Vec::new(alloc);
    while levels.as_slice().len() <= MOST_EDGES {
        let level = next_level(alloc, setting, pool, found, levels.as_slice())?;
        push_level(&mut levels, level)?;
    }
    Ok(())
}

/// What is found of the listing when all levels are made.
pub fn gather(
    alloc: Global,
    eq: &Equation,
    rule: &Rule,
    plan: &RulePlan,
    pool: &mut Pool<'_>,
) -> Result<Found, ListRefusal>
    requires equation { IsEquation eq.now }
    requires normal { IsRule eq.now rule.now }
    requires planned { IsPlan eq.now rule.now plan.now }
    requires types { pool.old.types ≡ eq.now.types }
    ensures grown { IsGrown pool.old pool.new }
    ensures found { IfOk result (λ found. IsGood eq.now rule.now pool.new found) }
    ensures covered { IfOk result (λ found. (r : RuleRow) (t : Plain) → IsIn r rule.now.rows →
        IsWhole eq.now rule.now plan.now.mosts r t →
        Covers eq.now rule.now (gathered pool.new found) t) }
    ensures many { IfErr result (λ e. e ≡ TooManyTrees → HasTooManyTrees eq.now rule.now) }
    ensures large { IfErr result (λ e. e ≡ TreeTooLarge → ⊥) }
{
    let empty = pool.intern_node(alloc, Multi::zero(), &[])?;
    let setting = Setting {
        eq,
        rule,
        plan,
        empty,
    };
    let mut found = Found::new(alloc);
    all_levels(alloc, &setting, pool, &mut found)?;
    Ok(found)
}
