// The commands that read a project's file, and leave the store as it is.
ghost use Rattle.std.specs.Prelude.{◌≡◌, ◌≤◌, IfErr, ◌≢◌, Err};
ghost use Rattle.wb_outside.specs.Causes.{Rose};
ghost use Rattle.workbench_core.specs.declared.refusal.Refusal.TheVariants.{StoreFault};
ghost use Rattle.workbench_core.specs.Characters.{IsActOf, IsMultiplyOf};
ghost use Rattle.workbench_core.specs.Detail.{IsDetailOf};
ghost use Rattle.workbench_core.specs.Trees.{IsTreesOf};
ghost use Rattle.workbench_store.specs.Projects.{IsForProject, Reads};
ghost use Rattle.workbench_store.specs.Stepped.{IsDone};

use crate::project::show;
use result_keeper::{Keeper, ProjectName};
use std::alloc::Global;
use workbench_core::{Refusal, act_of, detail_of, multiply_of, trees_of};

/// The tree list of a project.
pub fn trees<K: Keeper>(
    alloc: Global,
    keeper: &mut K,
    name: &ProjectName,
) -> Result<Vec<u8>, Refusal>
    ensures done { IsDone (Reads (IsForProject IsTreesOf name.now)) (λ v. v.items)
        (K.told keeper.old) (K.told keeper.new) result }
    ensures fault { IfErr result (λ e. e ≡ StoreFault → Rose (K.faults keeper.old)
        (K.faults keeper.new)) }
    ensures later { K.faults keeper.old ≤ K.faults keeper.new }
    ensures version { K.version keeper.new ≡ K.version keeper.old }
    ensures no_file_fault { result ≢ Err Refusal.FileFault }
{
    let file = show(alloc, keeper, name)?;
    trees_of(alloc, &file)
}

/// All that is known of one tree of a project's types.
pub fn detail<K: Keeper>(
    alloc: Global,
    keeper: &mut K,
    name: &ProjectName,
    tree: &[u8],
) -> Result<Vec<u8>, Refusal>
    ensures done { IsDone (Reads (IsForProject (λ file. IsDetailOf file tree.now) name.now))
        (λ v. v.items) (K.told keeper.old) (K.told keeper.new) result }
    ensures fault { IfErr result (λ e. e ≡ StoreFault → Rose (K.faults keeper.old)
        (K.faults keeper.new)) }
    ensures later { K.faults keeper.old ≤ K.faults keeper.new }
    ensures version { K.version keeper.new ≡ K.version keeper.old }
    ensures no_file_fault { result ≢ Err Refusal.FileFault }
{
    let file = show(alloc, keeper, name)?;
    detail_of(alloc, &file, tree)
}

/// The action of the character of a table on a tree, for the types of a project: from the left
/// through the extraction coproduct, or, where `recentre` is set, from the right through the
/// recentring coproduct. The table is judged after the project's file and the tree.
pub fn act<K: Keeper>(
    alloc: Global,
    keeper: &mut K,
    name: &ProjectName,
    tree: &[u8],
    table: &[u8],
    recentre: bool,
) -> Result<Vec<u8>, Refusal>
    ensures done { IsDone (Reads (IsForProject
        (λ file. IsActOf file tree.now table.now recentre) name.now))
        (λ v. v.items) (K.told keeper.old) (K.told keeper.new) result }
    ensures fault { IfErr result (λ e. e ≡ StoreFault → Rose (K.faults keeper.old)
        (K.faults keeper.new)) }
    ensures later { K.faults keeper.old ≤ K.faults keeper.new }
    ensures version { K.version keeper.new ≡ K.version keeper.old }
    ensures no_file_fault { result ≢ Err Refusal.FileFault }
{
    let file = show(alloc, keeper, name)?;
    act_of(alloc, &file, tree, table, recentre)
}

/// The value on a tree of the product of the characters of two tables, for the types of a project.
/// The tables are judged after the project's file and the tree, in their order.
pub fn multiply<K: Keeper>(
    alloc: Global,
    keeper: &mut K,
    name: &ProjectName,
    tree: &[u8],
    first: &[u8],
    second: &[u8],
) -> Result<Vec<u8>, Refusal>
    ensures done { IsDone (Reads (IsForProject
        (λ file. IsMultiplyOf file tree.now first.now second.now) name.now))
        (λ v. v.items) (K.told keeper.old) (K.told keeper.new) result }
    ensures fault { IfErr result (λ e. e ≡ StoreFault → Rose (K.faults keeper.old)
        (K.faults keeper.new)) }
    ensures later { K.faults keeper.old ≤ K.faults keeper.new }
    ensures version { K.version keeper.new ≡ K.version keeper.old }
    ensures no_file_fault { result ≢ Err Refusal.FileFault }
{
    let file = show(alloc, keeper, name)?;
    multiply_of(alloc, &file, tree, first, second)
}
