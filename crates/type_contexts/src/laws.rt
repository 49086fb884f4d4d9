// Laws of contexts.
ghost use Rattle.std.specs.Prelude.{◌≡◌, ◌≢◌, ℕ, List};
ghost use Rattle.degree_numbers.specs.declared.types.Types.{Types};
ghost use Rattle.degree_numbers.specs.Types.{AreTypes};
ghost use Rattle.type_contexts.specs.declared.form.Form.{Form};
ghost use Rattle.type_contexts.specs.Context.{IsTextIn, IsContextText, IsOldContextText};
ghost use Rattle.type_contexts.specs.Same.{AreSameTypes, AreInLeastUnits};

/// The types of a file have, in both forms, one context, which is the same in every common
/// denominator of their degrees. It determines the types but for their units, and in units of one
/// over the least common denominator it determines them.
pub fn contexts_determine_types()
    ensures some { (form : Form) (ty : Types) → AreTypes ty →
        (text : List ℕ) × IsTextIn form ty text }
    ensures one { (form : Form) (ty : Types) (text other : List ℕ) → AreTypes ty →
        IsTextIn form ty text → IsTextIn form ty other → text ≡ other }
    ensures units { (form : Form) (s t : Types) (text : List ℕ) → AreTypes s → AreSameTypes s t →
        IsTextIn form s text → IsTextIn form t text }
    ensures types { (form : Form) (s t : Types) (text : List ℕ) → AreTypes s → AreTypes t →
        IsTextIn form s text → IsTextIn form t text → AreSameTypes s t }
    ensures least { (form : Form) (s t : Types) (text : List ℕ) → AreTypes s → AreTypes t →
        AreInLeastUnits s → AreInLeastUnits t → IsTextIn form s text → IsTextIn form t text →
        s ≡ t }
{}

/// The contexts of types whose old contexts differ differ, and no context is an old one.
pub fn forms_of_contexts()
    ensures apart { (s t : Types) (text other old old_other : List ℕ) → AreTypes s → AreTypes t →
        IsContextText s text → IsContextText t other → IsOldContextText s old →
        IsOldContextText t old_other → old ≢ old_other → text ≢ other }
    ensures other { (s t : Types) (text : List ℕ) → IsContextText s text → IsOldContextText t text →
        ⊥ }
{}
