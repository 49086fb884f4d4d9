// Laws of tables: each is a clause of a function that does nothing.
ghost use Rattle.std.specs.Prelude.{◌≡◌, ℕ, List};
ghost use Rattle.degree_numbers.specs.declared.Types.{Types};
ghost use Rattle.degree_numbers.specs.Types.{AreTypes};
ghost use Rattle.tree_pool.specs.Content.{Content, IsGrown};
ghost use Rattle.character_tables.specs.declared.table.CharacterRow.{CharacterRow};
ghost use Rattle.character_tables.specs.Rows.{Row, rows_over, IsCharacter};
ghost use Rattle.character_tables.specs.Texts.{IsTableText};

/// A character of a pool is one of each pool that has grown from it, with the same rows.
pub fn growth_laws()
    ensures character { (c d : Content) (rs : List CharacterRow) → IsGrown c d → IsCharacter c rs →
        IsCharacter d rs }
    ensures rows { (c d : Content) (rs : List CharacterRow) → IsGrown c d → IsCharacter c rs →
        rows_over d rs ≡ rows_over c rs }
{}

/// A text is that of one table at most.
pub fn table_laws()
    ensures { (ty : Types) (text : List ℕ) (rs ss : List Row) → AreTypes ty →
        IsTableText ty text rs → IsTableText ty text ss → rs ≡ ss }
{}
