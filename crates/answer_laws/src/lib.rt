//! A request has at most one answer for the bytes of its files. The law stands apart, since it
//! reads the definitions of all commands, and no program needs it.
#![tactic(auto)]

ghost use Rattle.std.specs.Prelude.{◌≡◌, ℕ, Bool, List, Result};
ghost use Rattle.workbench_core.specs.declared.refusal.Refusal.{Refusal};
ghost use Rattle.workbench_core.specs.declared.request.Request.{Request};
ghost use Rattle.workbench_core.specs.Answers.{Answer, IsGiven};
ghost use Rattle.workbench_core.specs.Characters.{IsActOf, IsMultiplyOf};
ghost use Rattle.workbench_core.specs.Check.{IsChecked};
ghost use Rattle.workbench_core.specs.Compute.{Computing, IsComputed};
ghost use Rattle.workbench_core.specs.Detail.{IsDetailOf};
ghost use Rattle.workbench_core.specs.Sample.{IsSampled};
ghost use Rattle.workbench_core.specs.Trees.{IsTreesOf};

use rule_completion::completion_laws;

/// The definitions of what the commands answer leave no choice: the texts of files, of trees and of
/// tables have at most one answer for each command, a text or a refusal; and a request has at most
/// one for the bytes of its files.
pub fn files_have_one_answer()
    ensures check { (file : List ℕ) (r s : Result (List ℕ) Refusal) →
        IsChecked file r → IsChecked file s → r ≡ s }
    ensures trees { (file : List ℕ) (r s : Result (List ℕ) Refusal) →
        IsTreesOf file r → IsTreesOf file s → r ≡ s }
    ensures compute { (file : List ℕ) (r s : Result Computing Refusal) →
        IsComputed file r → IsComputed file s → r ≡ s }
    ensures detail { (file tree : List ℕ) (r s : Result (List ℕ) Refusal) →
        IsDetailOf file tree r → IsDetailOf file tree s → r ≡ s }
    ensures act { (file tree table : List ℕ) (recentre : Bool) (r s : Result (List ℕ) Refusal) →
        IsActOf file tree table recentre r → IsActOf file tree table recentre s → r ≡ s }
    ensures multiply { (file tree first second : List ℕ) (r s : Result (List ℕ) Refusal) →
        IsMultiplyOf file tree first second r → IsMultiplyOf file tree first second s → r ≡ s }
    ensures sample { (number : ℕ) (r s : Result (List ℕ) Refusal) →
        IsSampled number r → IsSampled number s → r ≡ s }
    ensures given { (r : Request) (files : List (List ℕ)) (a b : Answer) →
        IsGiven r files a → IsGiven r files b → a ≡ b }
{
    completion_laws();
}
