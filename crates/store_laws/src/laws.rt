// Laws of sound tables: each is a clause of a function that does nothing.

ghost use Rattle.std.specs.Prelude.{◌≡◌, ◌≢◌, ℕ, Bool, true, false, List, Option, Ok};
ghost use Rattle.result_keeper.specs.Kept.{Kept, nothing_kept};
ghost use Rattle.workbench_core.specs.Answers.{Answer, IsPrinted, of_computing, of_result};
ghost use Rattle.workbench_core.specs.Compute.{IsComputed};
ghost use Rattle.workbench_store.specs.declared.command.Command.{Command};
ghost use Rattle.workbench_store.specs.declared.command.Command.TheVariants.{Compute, Audit, Migrate};
ghost use Rattle.workbench_store.specs.Audit.{audit_text, pages_of, row_count};
ghost use Rattle.workbench_store.specs.Projects.{IsForProject};
ghost use Rattle.workbench_store.specs.Sound.{IsSound, IsOldSound, Goes};
ghost use Rattle.workbench_store.specs.Stepped.{IsWhole};
ghost use Rattle.workbench_store.specs.Steps.{IsStep};
ghost use Rattle.store_laws.specs.SoundAnswers.{AnswersReport};
ghost use Rattle.store_laws.specs.SoundKept.{IsSoundKept};

/// Each command leaves sound tables sound. Those of version 1 stay what they are, and `migrate`
/// makes them sound. So tables are sound after every list of commands from empty ones, and over a
/// store that may fail in any call, where the tables are the old ones or those of the command.
pub fn soundness_is_kept()
    ensures empty { IsSound nothing_kept }
    ensures step { (c : Command) (a : Answer) (k next : Kept) → IsStep c k a next → IsSound k →
        IsSound next }
    ensures old { (c : Command) (a : Answer) (k next : Kept) → IsStep c k a next → c ≢ Migrate →
        IsOldSound k → IsOldSound next }
    ensures migrated { (a : Answer) (k next : Kept) → IsStep Migrate k a next → IsOldSound k →
        IsSound next }
    ensures all { (cs : List Command) (k next : Kept) → Goes cs k next → IsSound k →
        IsSound next }
    ensures from_none { (cs : List Command) (next : Kept) → Goes cs nothing_kept next →
        IsSound next }
    ensures whole { (c : Command) (old new : Option Kept) → IsWhole (IsStep c) old new →
        IsSoundKept old new }
{}

/// On sound tables `compute` answers the report of the definitions, which know of no store: the
/// rows change nothing but how many values are told as reused, and none is where all are computed
/// anew. `audit` finds each row true.
pub fn sound_tables_say_what_is_true()
    ensures report { (name : List ℕ) (fresh : Bool) (a : Answer) (k next : Kept) → IsSound k →
        IsStep (Compute name fresh) k a next → AnswersReport name k a }
    ensures fresh { (name : List ℕ) (a : Answer) (k next : Kept) → IsSound k →
        IsStep (Compute name true) k a next →
        IsPrinted of_computing (IsForProject IsComputed name k) a }
    ensures audit { (a : Answer) (k next : Kept) → IsSound k → IsStep Audit k a next →
        a ≡ of_result (Ok (audit_text (row_count (pages_of k)))) }
{}
