// The listed trees of the completed rule of an equation file.
ghost use Rattle.std.specs.Prelude.{◌≡◌, ◌≢◌, ◌⊎◌, Ok, Err, IfOk, IfErr};
ghost use Rattle.workbench_core.specs.Trees.{IsTreesOf};

use crate::completed::complete_file;
use crate::refusal::Refusal;
use crate::tree_list::tree_list;
use bumpalo::Bump;
use std::alloc::Global;

/// The tree list of a file: the trees of negative degree of the completed rule of its equation, in
/// order, each with its degree; or why there is no completed rule.
pub fn trees_of(alloc: Global, file: &[u8]) -> Result<Vec<u8>, Refusal>
    ensures text { IfOk result (λ v. IsTreesOf file.now (Ok v.items)) }
    ensures refused { IfErr result (λ e. (e ≡ Refusal.Memory) ⊎ IsTreesOf file.now (Err e)) }
    ensures no_fault { result ≢ Err Refusal.FileFault }
{
    let arena = Bump::new(alloc);
    let completed = complete_file(alloc, &arena, file)?;
    tree_list(alloc, &completed.pool, completed.trees.as_slice())
}
