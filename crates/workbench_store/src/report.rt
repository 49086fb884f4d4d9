// The report of a completed rule over rows, with the rows of what is computed for it.
ghost use Rattle.std.specs.Prelude.{◌≡◌, ◌≢◌, ◌≤◌, ◌<◌, ◌⊎◌, ◌+◌, List, map, length, Option, Ok, Err, IfOk, IfErr};
ghost use Rattle.std.specs.List.{All};
ghost use Rattle.limits.specs.declared.TheConstants.{MOST_LISTED_TREES};
ghost use Rattle.equations.specs.declared.equation.Equation.{Equation};
ghost use Rattle.equations.specs.Accepted.{IsEquation};
ghost use Rattle.plain_trees.specs.Plain.{Plain};
ghost use Rattle.plain_trees.specs.Text.{tree_text};
ghost use Rattle.tree_pool.specs.Content.{tree_at, trees_of};
ghost use Rattle.symbol_polys.specs.View.{terms_of};
ghost use Rattle.antipode_laws.specs.Weighed.{Weighed};
ghost use Rattle.twisted_antipode.specs.Held.{held_over, AreHeldOver};
ghost use Rattle.twisted_antipode.specs.Kinds.{AreHeldTyped};
ghost use Rattle.counterterm_report.specs.Values.{IsValue, AreReportValues};
ghost use Rattle.tree_values.specs.Values.{AreValuesOf};
ghost use Rattle.result_keeper.specs.Entries.{pair_of};
ghost use Rattle.stored_constants.specs.Rows.{AreHeldRows, AreNewRows, IsFirstNoValue};
ghost use Rattle.workbench_core.specs.declared.refusal.Refusal.TheVariants.{StoreFault, Memory};
ghost use Rattle.workbench_core.specs.Completed.{CompletedRule, completed_rule, HasFacts};
ghost use Rattle.workbench_core.specs.Compute.{computing, held_among, HasValues, IsReport};
ghost use Rattle.workbench_store.specs.Computing.{IsForRows};
ghost use Rattle.workbench_store.specs.NewReports.{stored};

use bumpalo::Bump;
use extraction_coproduct::Work;
use result_keeper::StoredRow;
use sqlite_items::Items;
use std::alloc::Global;
use stored_constants::{HeldRows, HoldError, hold_rows, new_rows};
use tree_details::tree_text;
use tree_pool::{Pool, TreeId};
use workbench_core::{Completed, Computed, Refusal, Reported, print_computed, report_over};

/// A report with the rows of the constants that were computed for it.
#[derive(Drop)]
pub struct NewReport {
    pub computed: Computed,
    pub rows: Vec<StoredRow>,
}

/// The report of a completed rule, where these rows of its context are held, and the rows of the
/// listed trees that have none; or the first listed tree whose row is not in the grammar, or else
/// the first quantity that passes 2^127-1.
pub fn report_by<'a>(
    alloc: Global,
    arena: &'a Bump,
    completed: Completed<'a>,
    context: &[u8],
    rows: &[StoredRow],
    work: &mut Work,
) -> Result<NewReport, Refusal>
    requires facts { HasFacts completed }
    ensures report { IfOk result (λ n. IsForRows (map pair_of rows.now) context.now
        (completed_rule completed.entry) (Ok (stored context.now n))) }
    ensures refused { IfErr result (λ e. (e ≡ Memory) ⊎ IsForRows
        (map pair_of rows.now) context.now (completed_rule completed.entry) (Err e)) }
    ensures no_fault { IfErr result (λ e. e ≢ StoreFault) }
    ensures work { IfOk result (λ n. work.new.tables ≤ work.old.tables + n.computed.computed) }
    ensures no_file_fault { result ≢ Err Refusal.FileFault }
{
    let HeldRows {
        mut constants,
        reused,
    } = held_rows(
        alloc,
        &completed.pool,
        completed.trees.as_slice(),
        context,
        rows,
    )?;
    let reported = report_over(alloc, arena, completed, &mut constants, work)?;
    with_rows(alloc, &reported, reused, rows)
}

// What the rows hold for the listed trees.
fn held_rows(
    alloc: Global,
    pool: &Pool<'_>,
    ids: &[TreeId],
    context: &[u8],
    rows: &[StoredRow],
) -> Result<HeldRows, Refusal>
    requires known { All (λ id. id.0 < length pool.now.trees) ids.now }
    requires few { length ids.now ≤ MOST_LISTED_TREES }
    ensures rows { IfOk result (λ h. AreHeldRows pool.now.types (map pair_of rows.now)
        (trees_of pool.now ids.now) (held_over pool.now h.constants)) }
    ensures held { IfOk result (λ h. AreHeldOver pool.now h.constants) }
    ensures typed { IfOk result (λ h. AreHeldTyped pool.now.types h.constants) }
    ensures reused { IfOk result (λ h. h.reused ≡ length (held_among
        (held_over pool.now h.constants) (trees_of pool.now ids.now))) }
    ensures refused { IfErr result (λ e. (e ≡ Memory) ⊎ ((t : Plain)
        × IsFirstNoValue pool.now.types (map pair_of rows.now) (trees_of pool.now ids.now) t × (e
        ≡ Refusal.StoredRow context.now (tree_text pool.now.types t)))) }
    ensures no_file_fault { result ≢ Err Refusal.FileFault }
{
    match hold_rows(alloc, pool, ids, rows) {
        Ok(held) => Ok(held),
        Err(HoldError::NoValue(id)) => Err(unreadable(alloc, pool, id, context)),
        Err(HoldError::Memory) => Err(Refusal::Memory),
    }
}

// The refusal of the row of this tree; or want of memory.
fn unreadable(alloc: Global, pool: &Pool<'_>, id: TreeId, context: &[u8]) -> Refusal
    requires { id.0 < length pool.now.trees }
    ensures { (result ≡ Memory) ⊎ (result
        ≡ Refusal.StoredRow context.now (tree_text pool.now.types (tree_at pool.now id.0))) }
{
    let Ok(tree) = tree_text(alloc, pool, id) else {
        return Refusal::Memory;
    };
    let Ok(context) = Vec::from_slice(alloc, context) else {
        return Refusal::Memory;
    };
    Refusal::StoredRow {
        context: Items::from_vec(context),
        tree: Items::from_vec(tree),
    }
}

// The report, printed, with its rows.
fn with_rows(
    alloc: Global,
    reported: &Reported,
    reused: u32,
    rows: &[StoredRow],
) -> Result<NewReport, Refusal>
    requires equation { IsEquation reported.now.eq }
    requires values { AreReportValues reported.now.eq reported.now.values }
    requires stored { All (λ v. IsValue
        reported.now.eq.types v.constant.mass (terms_of v.constant.terms))
        reported.now.values.trees }
    requires few { length reported.now.values.trees ≤ MOST_LISTED_TREES }
    requires held { reused ≤ length reported.now.values.trees }
    ensures report { IfOk result (λ n. (c : CompletedRule) (held : Plain
        → Option Weighed) (k : Plain → Weighed) → reported.now.eq ≡ c.eq → HasValues c held k
        reported.now.values → reused ≡ length (held_among held c.trees) → IsReport
        c held k (computing n.computed)) }
    ensures rows { IfOk result (λ n. (eq : Equation) (held : Plain → Option Weighed) (k : Plain
        → Weighed) (ts : List Plain) → eq.types ≡ reported.now.eq.types → AreHeldRows
        reported.now.eq.types (map pair_of rows.now) ts held → AreValuesOf eq held k ts
        reported.now.values.trees → AreNewRows reported.now.eq.types (map pair_of rows.now) k ts
        (map pair_of n.rows.items)) }
    ensures computed { IfOk result (λ n. n.computed.computed + reused ≡ length
        reported.now.values.trees) }
    ensures memory { IfErr result (λ e. e ≡ Memory) }
{
    let computed = print_computed(alloc, reported, reused)?;
    match new_rows(
        alloc,
        &reported.eq.types,
        reported.values.trees.as_slice(),
        rows,
    ) {
        Ok(rows) => Ok(NewReport { computed, rows }),
        Err(_) => Err(Refusal::Memory),
    }
}
