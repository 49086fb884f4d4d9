// Laws of rows that are true: each is a clause of a function that does nothing.
ghost use Rattle.std.specs.Prelude.{ℕ, List, Option};
ghost use Rattle.std.specs.List.{AllByRecursion};
ghost use Rattle.degree_numbers.specs.declared.types.Types.{Types};
ghost use Rattle.degree_numbers.specs.Types.{AreTypes};
ghost use Rattle.equations.specs.declared.equation.Equation.{Equation};
ghost use Rattle.plain_trees.specs.Plain.{Plain};
ghost use Rattle.plain_trees.specs.Degree.{HasTypes};
ghost use Rattle.antipode_laws.specs.Weighed.{Weighed};
ghost use Rattle.antipode_laws.specs.Antipode.{nothing};
ghost use Rattle.antipode_laws.specs.Constants.{IsConstants};
ghost use Rattle.antipode_laws.specs.Sameness.{AreSameValues};
ghost use Rattle.counterterm_report.specs.declared.values.TreeValues.{TreeValues};
ghost use Rattle.tree_values.specs.Values.{AreValuesOf};
ghost use Rattle.stored_constants.specs.Rows.{AreHeldRows, AreNewRows};
ghost use Rattle.stored_constants.specs.Sound.{IsTrueRow, AreFitTrees};

/// Where all rows are true, the constants over what they hold are those over nothing, as
/// polynomials with their masses: what is computed does not depend on what was stored. And the new
/// rows of what is computed over them are true.
pub fn true_rows()
    ensures constants { (ty : Types) (rows : List (List ℕ × List ℕ)) (ts : List Plain)
        (held : Plain → Option Weighed) (c k : Plain → Weighed) → AreTypes ty →
        AllByRecursion (IsTrueRow ty) rows → AreFitTrees ty ts → AreHeldRows ty rows ts held →
        IsConstants ty nothing c → IsConstants ty held k → (t : Plain) → HasTypes ty t →
        AreSameValues (c t) (k t) }
    ensures new { (eq : Equation) (rows new : List (List ℕ × List ℕ)) (ts : List Plain)
        (held : Plain → Option Weighed) (k : Plain → Weighed) (vs : List TreeValues) →
        AreTypes eq.types → AllByRecursion (IsTrueRow eq.types) rows → AreFitTrees eq.types ts →
        AreHeldRows eq.types rows ts held → IsConstants eq.types held k →
        AreValuesOf eq held k ts vs → AreNewRows eq.types rows k ts new →
        AllByRecursion (IsTrueRow eq.types) new }
{}
