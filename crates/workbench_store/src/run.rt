// Commands over a store.
ghost use Rattle.std.specs.Prelude.{◌≡◌, ◌≢◌, ◌≤◌, ◌⊎◌, is_ok, Option, Ok, Err, IfOk, IfErr};
ghost use Rattle.result_keeper.specs.Kept.{Kept};
ghost use Rattle.wb_outside.specs.Causes.{Rose};
ghost use Rattle.workbench_core.specs.declared.refusal.Refusal.TheVariants.{StoreFault, Memory};
ghost use Rattle.workbench_core.specs.Answers.{of_output, of_refusal, of_result, of_computing, note_text};
ghost use Rattle.workbench_core.specs.Compute.{computing};
ghost use Rattle.workbench_store.specs.declared.command.Command.TheVariants.{Check, Add, Show, Remove, Names, Compute, Trees, Detail, Act, Multiply, Sample, Audit, Migrate};
ghost use Rattle.workbench_store.specs.Projects.{of_put};
ghost use Rattle.workbench_store.specs.Stepped.{IsAnswered};
ghost use Rattle.workbench_store.specs.Steps.{IsStep, IsCountedIn};

use crate::auditing::audit;
use crate::command::{Command, Given};
use crate::computing::compute;
use crate::migration::migrate;
use crate::project::{add, named_line, names, remove, show};
use crate::read::{act, detail, multiply, trees};
use extraction_coproduct::Work;
use itoa::Buffer;
use result_keeper::{Keeper, ProjectName, Put};
use std::alloc::{AllocError, Global};
use workbench_core::{Computed, Output, Refusal, check, sample};

/// What a command answers over a store, and what it does to its tables. What `compute` finishes is
/// counted.
pub fn run_on<K: Keeper>(
    alloc: Global,
    command: &Command<'_>,
    keeper: &mut K,
    work: &mut Work,
) -> Result<Output, Refusal>
    ensures done { IsAnswered (IsStep command.now) (K.told keeper.old) (K.told keeper.new) result }
    ensures fault { IfErr result (λ e. e ≡ StoreFault → Rose (K.faults keeper.old)
        (K.faults keeper.new)) }
    ensures later { K.faults keeper.old ≤ K.faults keeper.new }
    ensures version { (K.version keeper.new ≡ K.version keeper.old) ⊎ (K.version keeper.new ≡ 2) }
    ensures work { IfOk result
        (λ o. IsCountedIn command.now (of_output o) work.old.tables work.new.tables) }
    ensures no_file_fault { result ≢ Err Refusal.FileFault }
{
    match command {
        Command::Check { file } => check_output(alloc, file),
        Command::Add { name, file } => add_output(alloc, keeper, name, file),
        Command::Show { name } => show_output(alloc, keeper, name),
        Command::Remove { name } => remove_output(alloc, keeper, name),
        Command::Names => names_output(alloc, keeper),
        Command::Compute { name, fresh } => report_output(alloc, keeper, name, *fresh, work),
        Command::Trees { name } => trees_output(alloc, keeper, name),
        Command::Detail { name, tree } => detail_output(alloc, keeper, name, tree),
        Command::Act {
            name,
            tree,
            table,
            recentre,
        } => act_output(alloc, keeper, name, tree, table, *recentre),
        Command::Multiply {
            name,
            tree,
            first,
            second,
        } => multiply_output(alloc, keeper, name, tree, first, second),
        Command::Sample { number } => sample_output(alloc, *number),
        Command::Audit => audit_output(alloc, keeper),
        Command::Migrate => migrate_output(alloc, keeper),
    }
}

// What `show` writes.
fn show_output<K: Keeper>(
    alloc: Global,
    keeper: &mut K,
    name: &ProjectName,
) -> Result<Output, Refusal>
    ensures done { IsAnswered (IsStep (Show name.now)) (K.told keeper.old) (K.told keeper.new)
        result }
    ensures fault { IfErr result (λ e. e ≡ StoreFault → Rose (K.faults keeper.old)
        (K.faults keeper.new)) }
    ensures later { K.faults keeper.old ≤ K.faults keeper.new }
    ensures version { K.version keeper.new ≡ K.version keeper.old }
    ensures no_file_fault { result ≢ Err Refusal.FileFault }
{
    output_of(alloc, show(alloc, keeper, name))
}

// What `remove` writes.
fn remove_output<K: Keeper>(
    alloc: Global,
    keeper: &mut K,
    name: &ProjectName,
) -> Result<Output, Refusal>
    ensures done { IsAnswered (IsStep (Remove name.now)) (K.told keeper.old) (K.told keeper.new)
        result }
    ensures fault { IfErr result (λ e. e ≡ StoreFault → Rose (K.faults keeper.old)
        (K.faults keeper.new)) }
    ensures later { K.faults keeper.old ≤ K.faults keeper.new }
    ensures version { K.version keeper.new ≡ K.version keeper.old }
    ensures no_file_fault { result ≢ Err Refusal.FileFault }
{
    output_of(alloc, remove(alloc, keeper, name))
}

// What `names` writes.
fn names_output<K: Keeper>(alloc: Global, keeper: &mut K) -> Result<Output, Refusal>
    ensures done { IsAnswered (IsStep (Names)) (K.told keeper.old) (K.told keeper.new) result }
    ensures fault { IfErr result (λ e. e ≡ StoreFault → Rose (K.faults keeper.old)
        (K.faults keeper.new)) }
    ensures later { K.faults keeper.old ≤ K.faults keeper.new }
    ensures version { K.version keeper.new ≡ K.version keeper.old }
    ensures no_file_fault { result ≢ Err Refusal.FileFault }
{
    output_of(alloc, names(alloc, keeper))
}

// What `trees` writes.
fn trees_output<K: Keeper>(
    alloc: Global,
    keeper: &mut K,
    name: &ProjectName,
) -> Result<Output, Refusal>
    ensures done { IsAnswered (IsStep (Trees name.now)) (K.told keeper.old) (K.told keeper.new)
        result }
    ensures fault { IfErr result (λ e. e ≡ StoreFault → Rose (K.faults keeper.old)
        (K.faults keeper.new)) }
    ensures later { K.faults keeper.old ≤ K.faults keeper.new }
    ensures version { K.version keeper.new ≡ K.version keeper.old }
    ensures no_file_fault { result ≢ Err Refusal.FileFault }
{
    output_of(alloc, trees(alloc, keeper, name))
}

// What `detail` writes.
fn detail_output<K: Keeper>(
    alloc: Global,
    keeper: &mut K,
    name: &ProjectName,
    tree: &Given<'_>,
) -> Result<Output, Refusal>
    ensures done { IsAnswered (IsStep (Detail name.now tree.now)) (K.told keeper.old)
        (K.told keeper.new) result }
    ensures fault { IfErr result (λ e. e ≡ StoreFault → Rose (K.faults keeper.old)
        (K.faults keeper.new)) }
    ensures later { K.faults keeper.old ≤ K.faults keeper.new }
    ensures version { K.version keeper.new ≡ K.version keeper.old }
    ensures no_file_fault { result ≢ Err Refusal.FileFault }
{
    output_of(alloc, detail(alloc, keeper, name, tree.bytes()))
}

// What `act` writes.
fn act_output<K: Keeper>(
    alloc: Global,
    keeper: &mut K,
    name: &ProjectName,
    tree: &Given<'_>,
    table: &Given<'_>,
    recentre: bool,
) -> Result<Output, Refusal>
    ensures done { IsAnswered (IsStep (Act name.now tree.now table.now recentre))
        (K.told keeper.old) (K.told keeper.new) result }
    ensures fault { IfErr result (λ e. e ≡ StoreFault → Rose (K.faults keeper.old)
        (K.faults keeper.new)) }
    ensures later { K.faults keeper.old ≤ K.faults keeper.new }
    ensures version { K.version keeper.new ≡ K.version keeper.old }
    ensures no_file_fault { result ≢ Err Refusal.FileFault }
{
    output_of(
        alloc,
        act(alloc, keeper, name, tree.bytes(), table.bytes(), recentre),
    )
}

// What `multiply` writes.
fn multiply_output<K: Keeper>(
    alloc: Global,
    keeper: &mut K,
    name: &ProjectName,
    tree: &Given<'_>,
    first: &Given<'_>,
    second: &Given<'_>,
) -> Result<Output, Refusal>
    ensures done { IsAnswered (IsStep (Multiply name.now tree.now first.now second.now))
        (K.told keeper.old) (K.told keeper.new) result }
    ensures fault { IfErr result (λ e. e ≡ StoreFault → Rose (K.faults keeper.old)
        (K.faults keeper.new)) }
    ensures later { K.faults keeper.old ≤ K.faults keeper.new }
    ensures version { K.version keeper.new ≡ K.version keeper.old }
    ensures no_file_fault { result ≢ Err Refusal.FileFault }
{
    output_of(
        alloc,
        multiply(
            alloc,
            keeper,
            name,
            tree.bytes(),
            first.bytes(),
            second.bytes(),
        ),
    )
}

// What `audit` writes.
fn audit_output<K: Keeper>(alloc: Global, keeper: &mut K) -> Result<Output, Refusal>
    ensures done { IsAnswered (IsStep (Audit)) (K.told keeper.old) (K.told keeper.new) result }
    ensures fault { IfErr result (λ e. e ≡ StoreFault → Rose (K.faults keeper.old)
        (K.faults keeper.new)) }
    ensures later { K.faults keeper.old ≤ K.faults keeper.new }
    ensures version { K.version keeper.new ≡ K.version keeper.old }
    ensures no_file_fault { result ≢ Err Refusal.FileFault }
{
    output_of(alloc, audit(alloc, keeper))
}

// What `migrate` writes.
fn migrate_output<K: Keeper>(alloc: Global, keeper: &mut K) -> Result<Output, Refusal>
    ensures done { IsAnswered (IsStep (Migrate)) (K.told keeper.old) (K.told keeper.new) result }
    ensures fault { IfErr result (λ e. e ≡ StoreFault → Rose (K.faults keeper.old)
        (K.faults keeper.new)) }
    ensures later { K.faults keeper.old ≤ K.faults keeper.new }
    ensures version { (K.version keeper.new ≡ K.version keeper.old) ⊎ (K.version keeper.new ≡ 2) }
    ensures no_file_fault { result ≢ Err Refusal.FileFault }
{
    output_of(alloc, migrate(alloc, keeper))
}

// What `add` writes.
fn add_output<K: Keeper>(
    alloc: Global,
    keeper: &mut K,
    name: &ProjectName,
    file: &Given<'_>,
) -> Result<Output, Refusal>
    ensures done { IsAnswered (IsStep (Add name.now file.now)) (K.told keeper.old)
        (K.told keeper.new) result }
    ensures fault { IfErr result (λ e. e ≡ StoreFault → Rose (K.faults keeper.old)
        (K.faults keeper.new)) }
    ensures later { K.faults keeper.old ≤ K.faults keeper.new }
    ensures version { K.version keeper.new ≡ K.version keeper.old }
    ensures no_file_fault { result ≢ Err Refusal.FileFault }
{
    let put = add(alloc, keeper, name, file.bytes())?;
    put_output(alloc, put, name)
}

// What `compute` writes.
fn report_output<K: Keeper>(
    alloc: Global,
    keeper: &mut K,
    name: &ProjectName,
    fresh: bool,
    work: &mut Work,
) -> Result<Output, Refusal>
    ensures done { IsAnswered (IsStep (Compute name.now fresh)) (K.told keeper.old)
        (K.told keeper.new) result }
    ensures fault { IfErr result (λ e. e ≡ StoreFault → Rose (K.faults keeper.old)
        (K.faults keeper.new)) }
    ensures later { K.faults keeper.old ≤ K.faults keeper.new }
    ensures version { K.version keeper.new ≡ K.version keeper.old }
    ensures work { IfOk result
        (λ o. IsCountedIn (Compute name.now fresh) (of_output o) work.old.tables work.new.tables) }
    ensures no_file_fault { result ≢ Err Refusal.FileFault }
{
    let computed = compute(alloc, keeper, name, fresh, work)?;
    Ok(printed(alloc, computed)?)
}

// What `check` writes. No table is asked for.
fn check_output(alloc: Global, file: &Given<'_>) -> Result<Output, Refusal>
    ensures done { (told : Option Kept) → IsAnswered (IsStep (Check file.now)) told told result }
    ensures no_fault { IfErr result (λ e. e ≢ StoreFault) }
    ensures no_file_fault { result ≢ Err Refusal.FileFault }
{
    output_of(alloc, check(alloc, file.bytes()))
}

// What `sample` writes.
fn sample_output(alloc: Global, number: u32) -> Result<Output, Refusal>
    ensures done { (told : Option Kept) → IsAnswered (IsStep (Sample number)) told told result }
    ensures no_fault { IfErr result (λ e. e ≢ StoreFault) }
    ensures no_file_fault { result ≢ Err Refusal.FileFault }
{
    output_of(alloc, sample(alloc, number))
}

// What a command that gives a text writes.
fn output_of(alloc: Global, text: Result<Vec<u8>, Refusal>) -> Result<Output, Refusal>
    ensures text { IfOk result (λ o. IfOk text (λ v. of_output o ≡ of_result (Ok v.items))) }
    ensures given { is_ok result ≡ is_ok text }
    ensures refused { IfErr result (λ e. text ≡ Err e) }
{
    match text {
        Ok(text) => Ok(Output::of_text(alloc, text)),
        Err(refusal) => Err(refusal),
    }
}

// What is written where a file was put.
fn put_output(alloc: Global, put: Put, name: &ProjectName) -> Result<Output, Refusal>
    ensures given { IfOk result (λ o. of_output o ≡ of_put name.now (Ok put)) }
    ensures refused { IfErr result (λ e. (e ≡ Memory) ⊎ (of_refusal e ≡ of_put name.now (Ok put))) }
    ensures no_fault { IfErr result (λ e. e ≢ StoreFault) }
    ensures no_file_fault { result ≢ Err Refusal.FileFault }
{
    let word: &[u8] = match put {
        Put::Added => b"added ",
        Put::Replaced => b"replaced ",
        Put::Full => return Err(Refusal::Full),
    };
    Ok(Output::of_text(alloc, named_line(alloc, word, name)?))
}

// A report with how many values were reused, and computed.
fn printed(alloc: Global, computed: Computed) -> Result<Output, AllocError>
    ensures { IfOk result (λ o. of_output o ≡ of_computing (Ok (computing computed))) }
{
    let note = note(alloc, computed.reused, computed.computed)?;
    Ok(Output {
        out: computed.report,
        err: note,
    })
}

// How many values were reused, and how many were computed.
fn note(alloc: Global, reused: u32, computed: u32) -> Result<Vec<u8>, AllocError>
    ensures { IfOk result (λ v. v.items ≡ note_text reused computed) }
{
    let mut text = Vec::from_slice(alloc, b"reused ")?;
    text.extend_from_slice(Buffer::new().format(reused).as_bytes())?;
    text.extend_from_slice(b" computed ")?;
    text.extend_from_slice(Buffer::new().format(computed).as_bytes())?;
    text.extend_from_slice(b"\n")?;
    Ok(text)
}
