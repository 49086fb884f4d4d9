// What the bound says of the coefficients, as a clause of a function that does nothing.

ghost use Rattle.std.specs.Prelude.{◌≡◌, ◌<◌, ◌≤◌, ℕ, true};
ghost use Rattle.std.specs.List.{AllByRecursion};
ghost use Rattle.exact_sums.specs.Saturating.{overflow};
ghost use Rattle.exact_sums.specs.Sums.{total};
ghost use Rattle.degree_numbers.specs.declared.types.Types.{Types};
ghost use Rattle.degree_numbers.specs.Types.{AreTypes};
ghost use Rattle.plain_trees.specs.Plain.{Plain};
ghost use Rattle.plain_trees.specs.Degree.{HasTypes};
ghost use Rattle.plain_trees.specs.Coproducts.{Extracted, extraction_terms};
ghost use Rattle.coefficient_bounds.specs.Bounds.{coefficient_bound, has_small_coefficients};

/// The coefficients of the extraction coproduct of a tree sum up to at most the bound; so none
/// passes 2^127-1 where the bound does not.
pub fn small_coefficients_are_in_range()
    ensures bound { (ty : Types) (t : Plain) → AreTypes ty → HasTypes ty t →
        total (λ e. e.1) (extraction_terms ty t) ≤ coefficient_bound ty t }
    ensures range { (ty : Types) (t : Plain) → AreTypes ty → HasTypes ty t →
        has_small_coefficients ty t ≡ true →
        AllByRecursion (λ (e : Extracted × ℕ). e.1 < overflow) (extraction_terms ty t) }
{}
