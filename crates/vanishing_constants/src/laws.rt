// What the constants of trees that vanish are, as a clause of a function that does nothing.
ghost use Rattle.std.specs.Prelude.{◌≡◌, true, List, Option};
ghost use Rattle.std.specs.List.{AllByRecursion};
ghost use Rattle.ordered_lists.specs.Members.{IsIn};
ghost use Rattle.degree_numbers.specs.declared.types.Types.{Types};
ghost use Rattle.plain_trees.specs.Plain.{Plain};
ghost use Rattle.plain_trees.specs.Degree.{HasTypes};
ghost use Rattle.gaussian_pairings.specs.Vanishing.{vanishes};
ghost use Rattle.antipode_laws.specs.Weighed.{Weighed};
ghost use Rattle.antipode_laws.specs.Constants.{IsConstants};
ghost use Rattle.twisted_antipode.specs.Counts.{HasAllComponents};
ghost use Rattle.twisted_antipode.specs.Values.{nothing_value};
ghost use Rattle.vanishing_constants.specs.Zeros.{IsZeroIn};

/// In a list that has all components of its trees the constant of each tree that vanishes is 0, with
/// the mass 0: where no coefficient of the extraction coproduct of such a tree is out of range, and
/// nothing but 0 is held for one.
pub fn constants_of_vanishing_trees()
    ensures { (ty : Types) (held : Plain → Option Weighed) (c : Plain → Weighed)
        (ts : List Plain) → IsConstants ty held c → AllByRecursion (HasTypes ty) ts →
        HasAllComponents ty ts → AllByRecursion (IsZeroIn ty held) ts → (t : Plain) → IsIn t ts →
        vanishes ty t ≡ true → c t ≡ nothing_value }
{}
