// The projects of a store.
ghost use Rattle.std.specs.Prelude.{◌≡◌, ◌≤◌, ◌⊎◌, ◌++◌, IfOk, IfErr, Err, codes, flat_map, ◌≢◌};
ghost use Rattle.wb_outside.specs.Causes.{Rose};
ghost use Rattle.workbench_core.specs.declared.refusal.Refusal.TheVariants.{NoProject, StoreFault, Memory};
ghost use Rattle.workbench_core.specs.Check.{IsChecked};
ghost use Rattle.workbench_store.specs.Projects.{IsItself, IsForProject, Reads, GivesNames, said, Removes, Adds};
ghost use Rattle.workbench_store.specs.Stepped.{IsHalt, IsDone};

use result_keeper::{Keeper, KeeperError, ProjectName, Put};
use sqlite_items::Items;
use std::alloc::{AllocError, Global};
use workbench_core::{Refusal, check};

/// The file of a project, or that no project of that name is kept.
pub fn show<K: Keeper>(
    alloc: Global,
    keeper: &mut K,
    name: &ProjectName,
) -> Result<Vec<u8>, Refusal>
    ensures done { IsDone (Reads (IsForProject IsItself name.now)) (λ v. v.items)
        (K.told keeper.old) (K.told keeper.new) result }
    ensures fault { IfErr result (λ e. e ≡ StoreFault → Rose (K.faults keeper.old)
        (K.faults keeper.new)) }
    ensures later { K.faults keeper.old ≤ K.faults keeper.new }
    ensures version { K.version keeper.new ≡ K.version keeper.old }
    ensures no_file_fault { result ≢ Err Refusal.FileFault }
{
    match keeper.project(alloc, name) {
        Ok(Some(file)) => Ok(file),
        Ok(None) => Err(no_project(alloc, name)),
        Err(error) => Err(refused_by(error)),
    }
}

/// The names of the projects, one to a line, in the order of their bytes.
pub fn names<K: Keeper>(alloc: Global, keeper: &mut K) -> Result<Vec<u8>, Refusal>
    ensures done { IsDone (Reads GivesNames) (λ v. v.items) (K.told keeper.old) (K.told keeper.new)
        result }
    ensures fault { IfErr result (λ e. e ≡ StoreFault → Rose (K.faults keeper.old)
        (K.faults keeper.new)) }
    ensures later { K.faults keeper.old ≤ K.faults keeper.new }
    ensures version { K.version keeper.new ≡ K.version keeper.old }
    ensures no_file_fault { result ≢ Err Refusal.FileFault }
{
    match keeper.names(alloc) {
        Ok(names) => Ok(name_lines(alloc, &names)?),
        Err(error) => Err(refused_by(error)),
    }
}

/// Gives up a project, and says so; or that no project of that name is kept. Rows stay.
pub fn remove<K: Keeper>(
    alloc: Global,
    keeper: &mut K,
    name: &ProjectName,
) -> Result<Vec<u8>, Refusal>
    ensures done { IsDone (Removes name.now) (λ v. v.items) (K.told keeper.old) (K.told keeper.new)
        result }
    ensures fault { IfErr result (λ e. e ≡ StoreFault → Rose (K.faults keeper.old)
        (K.faults keeper.new)) }
    ensures later { K.faults keeper.old ≤ K.faults keeper.new }
    ensures version { K.version keeper.new ≡ K.version keeper.old }
    ensures no_file_fault { result ≢ Err Refusal.FileFault }
{
    let text = named_line(alloc, b"removed ", name)?;
    match keeper.remove_project(alloc, name) {
        Ok(true) => Ok(text),
        Ok(false) => Err(no_project(alloc, name)),
        Err(error) => Err(refused_by(error)),
    }
}

/// Keeps a file that passes the check under a name: `Replaced` exactly where a project of that
/// name is kept, `Full` exactly where the name is new and at least 10,000 projects are kept,
/// `Added` else. A file that does not pass is refused as the check refuses it.
pub fn add<K: Keeper>(
    alloc: Global,
    keeper: &mut K,
    name: &ProjectName,
    file: &[u8],
) -> Result<Put, Refusal>
    ensures done { IsDone (Adds name.now file.now) (λ put. put) (K.told keeper.old)
        (K.told keeper.new) result }
    ensures checked { IfErr result (λ e. IsHalt e ⊎ IsChecked file.now (Err e)) }
    ensures fault { IfErr result (λ e. e ≡ StoreFault → Rose (K.faults keeper.old)
        (K.faults keeper.new)) }
    ensures later { K.faults keeper.old ≤ K.faults keeper.new }
    ensures version { K.version keeper.new ≡ K.version keeper.old }
    ensures no_file_fault { result ≢ Err Refusal.FileFault }
{
    check(alloc, file)?;
    match keeper.put_project(alloc, name, file) {
        Ok(put) => Ok(put),
        Err(error) => Err(refused_by(error)),
    }
}

/// The refusal where a call of the keeper gave no answer.
pub(crate) fn refused_by(error: KeeperError) -> Refusal
    ensures halt { IsHalt result }
    ensures fault { result ≡ StoreFault → error ≡ KeeperError.Failed }
{
    match error {
        KeeperError::Failed => Refusal::StoreFault,
        KeeperError::Memory => Refusal::Memory,
    }
}

// The refusal that says that no project of that name is kept; or want of memory.
fn no_project(alloc: Global, name: &ProjectName) -> Refusal
    ensures { (result ≡ Memory) ⊎ (result ≡ NoProject name.now) }
{
    match Vec::from_slice(alloc, name.bytes()) {
        Ok(name) => Refusal::NoProject {
            name: Items::from_vec(name),
        },
        Err(_) => Refusal::Memory,
    }
}

/// The line of a word and the name of a project.
pub(crate) fn named_line(
    alloc: Global,
    word: &[u8],
    name: &ProjectName,
) -> Result<Vec<u8>, AllocError>
    ensures { IfOk result (λ v. v.items ≡ said word.now name.now) }
{
    let mut line = Vec::from_slice(alloc, word)?;
    line.extend_from_slice(name.bytes())?;
    line.extend_from_slice(b"\n")?;
    Ok(line)
}

// Names, one to a line.
fn name_lines(alloc: Global, names: &[ProjectName]) -> Result<Vec<u8>, AllocError>
    ensures { IfOk result (λ v. v.items ≡ flat_map (λ name. name ++ codes "\n") names.now) }
{
    let mut text = Vec::new(alloc);
    for name in names {
        text.extend_from_slice(name.bytes())?;
        text.extend_from_slice(b"\n")?;
    }
    Ok(text)
}
