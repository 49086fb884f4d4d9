// Laws of the tables of a keeper.
ghost use Rattle.std.specs.Prelude.{◌≡◌, ℕ, List, true};
ghost use Rattle.std.specs.List.{list_any};
ghost use Rattle.std.specs.Str.{bytes_eq};
ghost use Rattle.std.specs.FinMap.{find, get, contains_key};
ghost use Rattle.result_keeper.specs.Kept.{Kept, bytes_cmp, results_of, contexts_of};

/// The results of a context are its rows: a tree has a value among them exactly where the row of
/// that context and tree has it. The context of each row is among the contexts.
pub fn results_are_rows()
    ensures values { (k : Kept) (context tree : List ℕ) →
        find bytes_cmp tree (results_of k context) ≡ get k.rows (context, tree) }
    ensures contexts { (k : Kept) (context tree : List ℕ) →
        contains_key k.rows (context, tree) ≡ true →
        list_any (bytes_eq context) (contexts_of k) ≡ true }
{}
