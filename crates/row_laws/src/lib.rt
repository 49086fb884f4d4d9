//! A row is true in every common denominator of the degrees, or in none. A law alone: there is no
//! body to turn.
#![tactic(auto)]

ghost use Rattle.std.specs.Prelude.{ℕ, List};
ghost use Rattle.degree_numbers.specs.declared.types.Types.{Types};
ghost use Rattle.degree_numbers.specs.Types.{AreTypes};
ghost use Rattle.type_contexts.specs.Same.{AreSameTypes};
ghost use Rattle.stored_constants.specs.Sound.{IsTrueRow};

/// A context fixes types only up to the common denominator of their degrees. What a row says does
/// not depend on it: a row that is true over types is true over the same types in other units.
pub fn true_rows_in_all_units()
    ensures { (s t : Types) (row : List ℕ × List ℕ) → AreTypes s → AreTypes t →
        AreSameTypes s t → IsTrueRow s row → IsTrueRow t row }
{}
