// The report of a project, by the rows that are kept.
ghost use Rattle.std.specs.Prelude.{◌≡◌, ◌≢◌, ◌≤◌, ◌⊎◌, ◌+◌, map, length, Ok, Err, IfOk, IfErr, IfSome, OnOk, OnErr};
ghost use Rattle.wb_outside.specs.Causes.{Rose};
ghost use Rattle.degree_numbers.specs.Types.{AreTypes};
ghost use Rattle.type_contexts.specs.Context.{IsContextText};
ghost use Rattle.result_keeper.specs.Told.{Becomes, Stays};
ghost use Rattle.result_keeper.specs.Kept.{results_of, with_rows};
ghost use Rattle.result_keeper.specs.Entries.{pair_of};
ghost use Rattle.workbench_core.specs.declared.refusal.Refusal.TheVariants.{StoreFault, Memory};
ghost use Rattle.workbench_core.specs.Completed.{completed_rule, HasFacts};
ghost use Rattle.workbench_core.specs.Compute.{computing};
ghost use Rattle.workbench_store.specs.Computing.{used_rows, StoresReport, Stores, StoresFile, Computes};
ghost use Rattle.workbench_store.specs.Stepped.{IsHalt, IsDone};

use crate::project::{refused_by, show};
use crate::report::{NewReport, report_by};
use bumpalo::Bump;
use extraction_coproduct::Work;
use result_keeper::{Keeper, ProjectName, StoredRow};
use std::alloc::Global;
use type_contexts::context_text;
use workbench_core::{Completed, Computed, Refusal, complete_file};

/// The report of a project. Constants of listed trees that have a row in the context of the file
/// are taken from the rows, be they true or not; the others are computed, and their rows are put in
/// one call, after every quantity of every tree is known. `fresh`: rows are not used, and all are
/// put.
pub fn compute<K: Keeper>(
    alloc: Global,
    keeper: &mut K,
    name: &ProjectName,
    fresh: bool,
    work: &mut Work,
) -> Result<Computed, Refusal>
    ensures done { IsDone (Computes name.now fresh) computing (K.told keeper.old)
        (K.told keeper.new) result }
    ensures fault { IfErr result (λ e. e ≡ StoreFault → Rose (K.faults keeper.old)
        (K.faults keeper.new)) }
    ensures later { K.faults keeper.old ≤ K.faults keeper.new }
    ensures version { K.version keeper.new ≡ K.version keeper.old }
    ensures work { IfOk result (λ c. work.new.tables ≤ work.old.tables + c.computed) }
    ensures no_file_fault { result ≢ Err Refusal.FileFault }
{
    let file = show(alloc, keeper, name)?;
    if keeper.version() == 1 {
        return Err(Refusal::OldStore);
    }
    compute_file(alloc, keeper, &file, fresh, work)
}

// The report of a file.
fn compute_file<K: Keeper>(
    alloc: Global,
    keeper: &mut K,
    file: &[u8],
    fresh: bool,
    work: &mut Work,
) -> Result<Computed, Refusal>
    ensures done { IsDone (StoresFile fresh file.now) computing (K.told keeper.old)
        (K.told keeper.new) result }
    ensures fault { IfErr result (λ e. e ≡ StoreFault → Rose (K.faults keeper.old)
        (K.faults keeper.new)) }
    ensures later { K.faults keeper.old ≤ K.faults keeper.new }
    ensures version { K.version keeper.new ≡ K.version keeper.old }
    ensures work { IfOk result (λ c. work.new.tables ≤ work.old.tables + c.computed) }
    ensures no_file_fault { result ≢ Err Refusal.FileFault }
{
    let arena = Bump::new(alloc);
    let completed = complete_file(alloc, &arena, file)?;
    let context = context_text(alloc, &completed.eq.types)?;
    compute_completed(alloc, keeper, &arena, completed, &context, fresh, work)
}

// The report of a completed rule.
fn compute_completed<'a, K: Keeper>(
    alloc: Global,
    keeper: &mut K,
    arena: &'a Bump,
    completed: Completed<'a>,
    context: &[u8],
    fresh: bool,
    work: &mut Work,
) -> Result<Computed, Refusal>
    requires facts { HasFacts completed }
    requires context { IsContextText completed.eq.types context.now }
    ensures done { IsDone (Stores (λ k. StoresReport fresh k
        (completed_rule completed.entry))) computing (K.told keeper.old) (K.told keeper.new)
        result }
    ensures fault { IfErr result (λ e. e ≡ StoreFault → Rose (K.faults keeper.old)
        (K.faults keeper.new)) }
    ensures later { K.faults keeper.old ≤ K.faults keeper.new }
    ensures version { K.version keeper.new ≡ K.version keeper.old }
    ensures work { IfOk result (λ c. work.new.tables ≤ work.old.tables + c.computed) }
    ensures no_file_fault { result ≢ Err Refusal.FileFault }
{
    let rows = rows_to_use(alloc, keeper, context, fresh)?;
    let NewReport {
        computed,
        rows: new,
    } = report_by(alloc, arena, completed, context, &rows, work)?;
    put_rows(alloc, keeper, context, &new)?;
    Ok(computed)
}

// The rows of a context, or none where they are made anew.
fn rows_to_use<K: Keeper>(
    alloc: Global,
    keeper: &mut K,
    context: &[u8],
    fresh: bool,
) -> Result<Vec<StoredRow>, Refusal>
    ensures rows { IfOk result (λ v. IfSome (K.told keeper.old) (λ k. map pair_of v.items
        ≡ used_rows fresh k context.now)) }
    ensures halt { IfErr result IsHalt }
    ensures fault { IfErr result (λ e. e ≡ StoreFault → Rose (K.faults keeper.old)
        (K.faults keeper.new)) }
    ensures stays { Stays (K.told keeper.old) (K.told keeper.new) }
    ensures later { K.faults keeper.old ≤ K.faults keeper.new }
    ensures version { K.version keeper.new ≡ K.version keeper.old }
{
    if fresh {
        return Ok(Vec::new(alloc));
    }
    stored_rows(alloc, keeper, context)
}

/// The rows of a context, in the order of the bytes of their trees.
pub(crate) fn stored_rows<K: Keeper>(
    alloc: Global,
    keeper: &mut K,
    context: &[u8],
) -> Result<Vec<StoredRow>, Refusal>
    ensures rows { IfOk result (λ v. IfSome (K.told keeper.old) (λ k. map pair_of v.items ≡
        results_of k context.now)) }
    ensures halt { IfErr result IsHalt }
    ensures fault { IfErr result (λ e. e ≡ StoreFault → Rose (K.faults keeper.old)
        (K.faults keeper.new)) }
    ensures stays { Stays (K.told keeper.old) (K.told keeper.new) }
    ensures later { K.faults keeper.old ≤ K.faults keeper.new }
    ensures version { K.version keeper.new ≡ K.version keeper.old }
{
    match keeper.results(alloc, context) {
        Ok(rows) => Ok(rows),
        Err(error) => Err(refused_by(error)),
    }
}

// Puts rows, where there are any.
fn put_rows<K: Keeper>(
    alloc: Global,
    keeper: &mut K,
    context: &[u8],
    rows: &[StoredRow],
) -> Result<(), Refusal>
    ensures put { OnOk result (Becomes (with_rows context.now (map pair_of rows.now))
        (K.told keeper.old) (K.told keeper.new)) }
    ensures err { OnErr result (Stays (K.told keeper.old) (K.told keeper.new)) }
    ensures halt { IfErr result IsHalt }
    ensures fault { IfErr result (λ e. e ≡ StoreFault → Rose (K.faults keeper.old)
        (K.faults keeper.new)) }
    ensures later { K.faults keeper.old ≤ K.faults keeper.new }
    ensures version { K.version keeper.new ≡ K.version keeper.old }
{
    if rows.is_empty() {
        return Ok(());
    }
    match keeper.put_results(alloc, context, rows) {
        Ok(()) => Ok(()),
        Err(error) => Err(refused_by(error)),
    }
}
