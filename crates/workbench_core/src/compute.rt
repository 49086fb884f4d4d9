// The report of an equation file, where the constants of some trees may be held.
ghost use Rattle.std.specs.Prelude.{◌≡◌, ◌≢◌, ◌⊎◌, ◌+◌, ◌<◌, ◌≤◌, length, Option, Ok, Err, IfOk, IfErr, []};
ghost use Rattle.std.specs.List.{All};
ghost use Rattle.limits.specs.declared.TheConstants.{MOST_LISTED_TREES};
ghost use Rattle.equations.specs.Accepted.{IsEquation};
ghost use Rattle.plain_trees.specs.Plain.{Plain};
ghost use Rattle.tree_pool.specs.Content.{tree_at};
ghost use Rattle.rule_steps.specs.Steps.{trees_of};
ghost use Rattle.symbol_polys.specs.View.{terms_of};
ghost use Rattle.cutting_sizes.specs.Bounds.{IsBounded};
ghost use Rattle.antipode_laws.specs.Weighed.{Weighed};
ghost use Rattle.antipode_laws.specs.Antipode.{nothing};
ghost use Rattle.antipode_laws.specs.Constants.{IsConstants};
ghost use Rattle.twisted_antipode.specs.Counts.{HasAllComponents};
ghost use Rattle.twisted_antipode.specs.Held.{held_over, AreHeldOver};
ghost use Rattle.twisted_antipode.specs.Kinds.{AreHeldTyped};
ghost use Rattle.counterterm_report.specs.Report.{IsReportText};
ghost use Rattle.counterterm_report.specs.Values.{IsValue, IsTreeValues, AreReportValues};
ghost use Rattle.tree_values.specs.Values.{AreValuesOf, IsKnownRefusal};
ghost use Rattle.workbench_core.specs.Completed.{CompletedRule, completed_rule, HasFacts, IsForCompleted};
ghost use Rattle.workbench_core.specs.Compute.{computing, of_tree, of_values, held_among, unheld_among, ForConstants, HasValues, IsPastIn, GivesValues, IsReport, IsComputed};

use crate::completed::{Completed, complete_file};
use crate::refusal::Refusal;
use crate::tree_list::tree_text;
use bumpalo::Bump;
use counterterm_report::{ReportValues, TreeValues, print_report};
use degree_numbers::Types;
use equations::Equation;
use extraction_coproduct::{Tables, Work};
use normal_rule::Rule;
use sqlite_items::Items;
use std::alloc::Global;
use tree_pool::{Pool, TreeId};
use tree_values::{Quantity, ValuesError, closed_values, quantity_text};
use twisted_antipode::Constants;

/// What `compute` answers: the report, and the numbers of listed trees whose constants were held
/// already, and were computed.
#[derive(Debug, Drop)]
pub struct Computed {
    pub report: Vec<u8>,
    pub reused: u32,
    pub computed: u32,
}

/// An equation with what is reported of it.
#[derive(Drop)]
pub struct Reported {
    pub eq: Equation,
    pub values: ReportValues,
}

/// The report of a file: the rules of its equation, the trees of negative degree of the completed
/// rule with their values, and the renormalised equation; or why there is no completed rule, or
/// else the first tree with a quantity that passes 2^127-1, and its first such quantity. No
/// constant is held at the start, so all are computed.
pub fn compute_of(alloc: Global, file: &[u8], work: &mut Work) -> Result<Computed, Refusal>
    ensures report { IfOk result (λ c. IsComputed file.now (Ok (computing c))) }
    ensures refused { IfErr result (λ e. (e ≡ Refusal.Memory) ⊎ IsComputed file.now (Err e)) }
    ensures no_fault { result ≢ Err Refusal.FileFault }
    ensures work { IfOk result (λ c. work.new.tables ≤ work.old.tables + c.computed) }
{
    let reported = report_of(alloc, file, work)?;
    print_computed(alloc, &reported, 0)
}

/// What the report of a file says, before it is printed, where no constant is held.
pub fn report_of(alloc: Global, file: &[u8], work: &mut Work) -> Result<Reported, Refusal>
    ensures values { IfOk result (λ r. IsForCompleted (GivesValues nothing) file.now (Ok r)) }
    ensures equation { IfOk result (λ r. IsEquation r.eq) }
    ensures printed { IfOk result (λ r. AreReportValues r.eq r.values) }
    ensures few { IfOk result (λ r. length r.values.trees ≤ MOST_LISTED_TREES) }
    ensures refused { IfErr result (λ e. (e ≡ Refusal.Memory)
        ⊎ IsForCompleted (GivesValues nothing) file.now (Err e)) }
    ensures no_fault { result ≢ Err Refusal.FileFault }
    ensures work { IfOk result (λ r.
        work.new.tables ≤ work.old.tables + length r.values.trees) }
{
    let arena = Bump::new(alloc);
    let completed = complete_file(alloc, &arena, file)?;
    let mut constants = no_constants(alloc)?;
    report_over(alloc, &arena, completed, &mut constants, work)
}

/// What the report of a completed rule says, with the constants over those that are held at the
/// start of the call; or the first listed tree with a quantity that passes 2^127-1, and its first
/// such quantity. A tree whose constant is held is not asked for coefficients and constant, and no
/// extraction coproduct is finished for it. Constants that are found on the way are held
/// afterwards.
pub fn report_over<'a>(
    alloc: Global,
    arena: &'a Bump,
    completed: Completed<'a>,
    constants: &mut Constants,
    work: &mut Work,
) -> Result<Reported, Refusal>
    requires facts { HasFacts completed }
    requires held { AreHeldOver completed.pool constants.old }
    requires typed { AreHeldTyped completed.eq.types constants.old }
    ensures values { IfOk result (λ r.
        GivesValues (held_over completed.entry.pool constants.old)
        (completed_rule completed.entry) (Ok r)) }
    ensures equation { IfOk result (λ r. IsEquation r.eq) }
    ensures printed { IfOk result (λ r. AreReportValues r.eq r.values) }
    ensures stored { IfOk result (λ r.
        All (λ v. IsValue r.eq.types v.constant.mass (terms_of v.constant.terms))
        r.values.trees) }
    ensures few { IfOk result (λ r. length r.values.trees ≤ MOST_LISTED_TREES) }
    ensures refused { IfErr result (λ e. (e ≡ Refusal.Memory)
        ⊎ GivesValues (held_over completed.entry.pool constants.old)
        (completed_rule completed.entry) (Err e)) }
    ensures no_fault { result ≢ Err Refusal.FileFault }
    ensures work { IfOk result (λ r. work.new.tables ≤ work.old.tables
        + length (unheld_among (held_over completed.entry.pool constants.old)
        (completed_rule completed.entry).trees)) }
{
    let Completed {
        eq,
        base,
        rule,
        trees,
        pool,
    } = completed;
    let mut tables = tables_over(alloc, arena, &eq.types, pool)?;
    let values = values_over(alloc, &eq, &mut tables, constants, trees.as_slice(), work)?;
    Ok(with_values(eq, base, rule, values))
}

// The values of these trees, which have all components of theirs, with the constants over those that
// are held. At most one extraction coproduct is finished for each tree that is not held.
fn values_over(
    alloc: Global,
    eq: &Equation,
    tables: &mut Tables<'_>,
    constants: &mut Constants,
    ids: &[TreeId],
    work: &mut Work,
) -> Result<Items<TreeValues>, Refusal>
    requires equation { IsEquation eq.now }
    requires types { tables.old.pool.types ≡ eq.now.types }
    requires known { All (λ id. id.0 < length tables.old.pool.trees) ids.now }
    requires bounded { All (λ id. IsBounded (tree_at tables.old.pool id.0)) ids.now }
    requires closed { HasAllComponents eq.now.types (trees_of tables.old.pool ids.now) }
    requires held { AreHeldOver tables.old.pool constants.old }
    requires typed { AreHeldTyped eq.now.types constants.old }
    ensures values { IfOk result (λ vs. (k : Plain → Weighed) →
        IsConstants eq.now.types (held_over tables.old.pool constants.old) k →
        AreValuesOf eq.now (held_over tables.old.pool constants.old) k
        (trees_of tables.old.pool ids.now) vs) }
    ensures printed { IfOk result (All (IsTreeValues eq.now)) }
    ensures stored { IfOk result
        (All (λ v. IsValue eq.now.types v.constant.mass (terms_of v.constant.terms))) }
    ensures refused { IfErr result (λ e. (e ≡ Refusal.Memory)
        ⊎ ForConstants eq.now.types (held_over tables.old.pool constants.old)
        (λ k. IsPastIn eq.now (held_over tables.old.pool constants.old)
        (trees_of tables.old.pool ids.now) k e)) }
    ensures no_fault { result ≢ Err Refusal.FileFault }
    ensures work { work.new.tables ≤ work.old.tables
        + length (unheld_among (held_over tables.old.pool constants.old)
        (trees_of tables.old.pool ids.now)) }
{
    tables.laws();
    let values = closed_values(alloc, eq, tables, constants, ids, work);
    tables.laws();
    match values {
        Ok(values) => Ok(values),
        Err(e) => Err(values_refusal(alloc, tables.pool(), e)),
    }
}

// An equation with its rules and the values of its trees.
fn with_values(eq: Equation, base: Rule, completed: Rule, trees: Items<TreeValues>) -> Reported
    ensures equation { result.eq ≡ eq }
    ensures base { result.values.base ≡ base }
    ensures completed { result.values.completed ≡ completed }
    ensures trees { result.values.trees ≡ trees }
{
    Reported {
        eq,
        values: ReportValues {
            base,
            completed,
            trees,
        },
    }
}

/// Tables that take the pool over. Refused only for want of memory.
pub(crate) fn tables_over<'a>(
    alloc: Global,
    arena: &'a Bump,
    types: &Types,
    pool: Pool<'a>,
) -> Result<Tables<'a>, Refusal>
    requires { pool.types ≡ types.now }
    ensures pool { IfOk result (λ t. t.pool ≡ pool.entry) }
    ensures memory { IfErr result (λ e. e ≡ Refusal.Memory) }
{
    match Tables::new(alloc, arena, types, pool) {
        Ok(tables) => Ok(tables),
        Err(_) => Err(Refusal::Memory),
    }
}

// Nothing is held.
fn no_constants(alloc: Global) -> Result<Constants, Refusal>
    ensures nothing { IfOk result (λ c. c ≡ []) }
    ensures memory { IfErr result (λ e. e ≡ Refusal.Memory) }
{
    match Constants::new(alloc) {
        Ok(constants) => Ok(constants),
        Err(_) => Err(Refusal::Memory),
    }
}

// The refusal of values, in texts.
fn values_refusal(alloc: Global, pool: &Pool<'_>, e: ValuesError) -> Refusal
    requires { IsKnownRefusal pool.now e }
    ensures refusal { (result ≡ Refusal.Memory) ⊎ (result ≡ of_values pool.now e) }
    ensures no_fault { result ≢ Refusal.FileFault }
{
    match e {
        ValuesError::TooLarge { tree, quantity } => too_large(alloc, pool, tree, quantity),
        ValuesError::Memory => Refusal::Memory,
    }
}

/// The refusal that names a tree and its quantity that is too large; or want of memory.
pub(crate) fn too_large(alloc: Global, pool: &Pool<'_>, id: TreeId, quantity: Quantity) -> Refusal
    requires { id.0 < length pool.now.trees }
    ensures refusal { (result ≡ Refusal.Memory)
        ⊎ (result ≡ of_tree pool.now.types (tree_at pool.now id.0) quantity) }
    ensures no_fault { result ≢ Refusal.FileFault }
{
    let Ok(tree) = tree_text(alloc, pool, id) else {
        return Refusal::Memory;
    };
    let Ok(words) = quantity_text(alloc, pool.types(), quantity) else {
        return Refusal::Memory;
    };
    Refusal::CoefficientTooLarge {
        tree: Items::from_vec(tree),
        quantity: Items::from_vec(words),
    }
}

/// The report, printed, where this many of its trees were held.
pub fn print_computed(alloc: Global, r: &Reported, reused: u32) -> Result<Computed, Refusal>
    requires equation { IsEquation r.now.eq }
    requires values { AreReportValues r.now.eq r.now.values }
    requires few { length r.now.values.trees ≤ MOST_LISTED_TREES }
    requires held { reused ≤ length r.now.values.trees }
    ensures text { IfOk result (λ g. IsReportText r.now.eq r.now.values g.report.items) }
    ensures reused { IfOk result (λ g. g.reused ≡ reused) }
    ensures computed { IfOk result (λ g. g.computed + reused ≡ length r.now.values.trees) }
    ensures report { IfOk result (λ g. (c : CompletedRule) (held : Plain → Option Weighed)
        (k : Plain → Weighed) → r.now.eq ≡ c.eq → HasValues c held k r.now.values →
        reused ≡ length (held_among held c.trees) → IsReport c held k (computing g)) }
    ensures memory { IfErr result (λ e. e ≡ Refusal.Memory) }
{
    let Ok(report) = print_report(alloc, &r.eq, &r.values) else {
        return Err(Refusal::Memory);
    };
    Ok(Computed {
        report,
        reused,
        computed: r.values.trees.len() as u32 - reused,
    })
}
