// Laws of the twisted antipode and of constants: each is a clause of a function that does nothing.

ghost use Rattle.std.specs.Prelude.{◌≡◌, ◌<◌, ◌≤◌, ◌⊎◌, ◌++◌, ℕ, pos, neg_ℤ, true, List, Option, Some, None};
ghost use Rattle.ordered_lists.specs.Members.{IsIn};
ghost use Rattle.exact_sums.specs.Saturating.{overflow, saturating_plus, saturating_times};
ghost use Rattle.exact_sums.specs.Keyed.{keys};
ghost use Rattle.degree_numbers.specs.declared.types.Types.{Types};
ghost use Rattle.plain_trees.specs.Plain.{Plain};
ghost use Rattle.plain_trees.specs.Degree.{HasTypes};
ghost use Rattle.plain_trees.specs.Coproducts.{Extracted, extraction_terms};
ghost use Rattle.symbol_polys.specs.Polynomials.{PlainTerm, HaveSameCoefficients, times_all};
ghost use Rattle.symbol_polys.specs.Products.{products};
ghost use Rattle.gaussian_pairings.specs.Vanishing.{has_integrated, vanishes};
ghost use Rattle.antipode_laws.specs.Weighed.{Weighed, forest_terms, forest_mass, negated_sum, mass_sum};
ghost use Rattle.antipode_laws.specs.Antipode.{other_terms, nothing, IsAntipode};
ghost use Rattle.antipode_laws.specs.Constants.{IsConstants, expectation_terms};
ghost use Rattle.antipode_laws.specs.Inheritance.{has_some, is_decorated, has_odd, has_odd_sum};
ghost use Rattle.antipode_laws.specs.Sameness.{AreSameValues, IsSameHeld, IsHeldValue};
ghost use Rattle.antipode_laws.specs.Sizes.{IsWithinMass};
ghost use Rattle.antipode_laws.specs.Runs.{with_forest, quotient_sum, quotient_mass};

/// There is a twisted antipode, and there are constants for whatever values are held: the
/// recursions end, by the number of edges and the decorations of the nodes.
pub fn solutions_exist()
    ensures antipode { (ty : Types) → (a : Plain → Weighed) × IsAntipode ty a }
    ensures constants { (ty : Types) (held : Plain → Option Weighed) → (c : Plain → Weighed) ×
        IsConstants ty held c }
{}

/// No two solutions differ at a tree over the types.
pub fn solutions_are_unique()
    ensures antipode { (ty : Types) (a b : Plain → Weighed) → IsAntipode ty a → IsAntipode ty b →
        (t : Plain) → HasTypes ty t → a t ≡ b t }
    ensures constants { (ty : Types) (held : Plain → Option Weighed) (c d : Plain → Weighed) →
        IsConstants ty held c → IsConstants ty held d → (t : Plain) → HasTypes ty t → c t ≡ d t }
{}

/// Constants stay what they are where some of them are held besides, and as polynomials with their
/// masses also where these are held as other sums of the same terms. So where each value that is
/// held is the constant of its tree, the constants are those with nothing held.
pub fn constants_may_be_held()
    ensures itself { (ty : Types) (held more : Plain → Option Weighed) (c : Plain → Weighed) →
        IsConstants ty held c → ((t : Plain) → HasTypes ty t → (more t ≡ held t) ⊎
        (more t ≡ Some (c t))) → IsConstants ty more c }
    ensures same { (ty : Types) (held more : Plain → Option Weighed) (c d : Plain → Weighed) →
        IsConstants ty held c → IsConstants ty more d → ((t : Plain) → HasTypes ty t →
        IsSameHeld (held t) (more t) ⊎ IsHeldValue (more t) (c t)) → (t : Plain) →
        HasTypes ty t → AreSameValues (c t) (d t) }
{}

/// The constants, where nothing is held, are the expectations of the twisted antipode.
pub fn constants_are_expectations()
    ensures { (ty : Types) (a c : Plain → Weighed) → IsAntipode ty a → IsConstants ty nothing c →
        (t : Plain) → HasTypes ty t → expectation_terms ty (a t).terms ≡ (c t).terms }
{}

/// The absolute coefficients of a value add up to at most its mass, where those of each value that
/// is held do.
pub fn masses_bound_coefficients()
    ensures antipode { (ty : Types) (a : Plain → Weighed) → IsAntipode ty a → (t : Plain) →
        HasTypes ty t → IsWithinMass (a t) }
    ensures constants { (ty : Types) (held : Plain → Option Weighed) (c : Plain → Weighed) →
        ((t : Plain) (w : Weighed) → held t ≡ Some w → IsWithinMass w) → IsConstants ty held c →
        (t : Plain) → HasTypes ty t → IsWithinMass (c t) }
{}

/// No mass of the twisted antipode is 0, so one that is out of range makes the masses of all trees
/// above it so.
pub fn antipode_masses()
    ensures above { (ty : Types) (a : Plain → Weighed) → IsAntipode ty a → (t : Plain) →
        HasTypes ty t → 0 < (a t).mass }
    ensures overflow { (ty : Types) (a : Plain → Weighed) → IsAntipode ty a →
        (t : Plain) (x : Extracted × ℕ) (f : Plain) → HasTypes ty t → IsIn x (other_terms ty t) →
        IsIn f x.0.0 → overflow ≤ (a f).mass → overflow ≤ (a t).mass }
{}

/// What makes a tree vanish is found again in each term of its extraction coproduct: in the
/// quotient or in a tree of the forest.
pub fn vanishing_trees()
    ensures roots { (ty : Types) (t : Plain) (k : Extracted) →
        IsIn k (keys (extraction_terms ty t)) → is_decorated t ≡ true → has_some is_decorated k
        ≡ true }
    ensures groups { (ty : Types) (t : Plain) (k : Extracted) (g : ℕ) →
        IsIn k (keys (extraction_terms ty t)) → has_odd ty g t ≡ true → has_some (has_odd ty g) k
        ≡ true }
    ensures directions { (ty : Types) (t : Plain) (k : Extracted) (i : ℕ) →
        IsIn k (keys (extraction_terms ty t)) → has_odd_sum i t ≡ true → has_some (has_odd_sum i) k
        ≡ true }
    ensures moments { (ty : Types) (t : Plain) (k : Extracted) →
        IsIn k (keys (extraction_terms ty t)) → has_integrated ty t ≡ true →
        has_some (has_integrated ty) k ≡ true }
    ensures all { (ty : Types) (t : Plain) (k : Extracted) → IsIn k (keys (extraction_terms ty t)) →
        vanishes ty t ≡ true → has_some (vanishes ty) k ≡ true }
{}

/// Terms with one forest add up to the product of the forest and of the sum of their quotients;
/// their masses do so too. Sums are made one run after the other.
pub fn sums_by_runs()
    ensures terms { (of_quotient : Plain → List PlainTerm) (a : Plain → Weighed) (fs : List Plain)
        (qs : List (Plain × ℕ)) → HaveSameCoefficients
        (negated_sum of_quotient a (with_forest fs qs))
        (times_all (neg_ℤ (pos 1)) (products (forest_terms a fs) (quotient_sum of_quotient qs))) }
    ensures masses { (of_quotient : Plain → List PlainTerm) (a : Plain → Weighed) (fs : List Plain)
        (qs : List (Plain × ℕ)) → mass_sum of_quotient a (with_forest fs qs)
        ≡ saturating_times (quotient_mass of_quotient qs) (forest_mass a fs) }
    ensures terms_of_both { (of_quotient : Plain → List PlainTerm) (a : Plain → Weighed)
        (xs ys : List (Extracted × ℕ)) → negated_sum of_quotient a (xs ++ ys)
        ≡ negated_sum of_quotient a xs ++ negated_sum of_quotient a ys }
    ensures mass_of_both { (of_quotient : Plain → List PlainTerm) (a : Plain → Weighed)
        (xs ys : List (Extracted × ℕ)) → mass_sum of_quotient a (xs ++ ys)
        ≡ saturating_plus (mass_sum of_quotient a xs) (mass_sum of_quotient a ys) }
{}
