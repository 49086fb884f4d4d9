// Laws of what cuttings give: each is a clause of a function that does nothing.

ghost use Rattle.std.specs.Prelude.{◌≡◌, ◌<◌, ◌≤◌, ◌≤ℤ◌, ◌+◌, ◌*◌, ◌/◌, ◌⊎◌, ℕ, pos, neg_ℤ, unsigned_abs, Bool, true, false, List, [], ◌∷◌, map, sum, slice_index};
ghost use Rattle.std.specs.List.{AllByRecursion};
ghost use Rattle.limits.specs.declared.TheConstants.{MOST_EDGES, MOST_DECORATIONS, MOST_LISTED_DECORATIONS};
ghost use Rattle.ordered_lists.specs.Members.{IsIn};
ghost use Rattle.exact_sums.specs.Sums.{total};
ghost use Rattle.exact_sums.specs.Keyed.{collected, keys};
ghost use Rattle.degree_numbers.specs.declared.types.Types.{Types};
ghost use Rattle.degree_numbers.specs.Types.{AreTypes};
ghost use Rattle.degree_numbers.specs.Degree.{degree_plus};
ghost use Rattle.plain_trees.specs.Plain.{Plain, graft, edge_count_of, decoration_sum_of, IsSmall};
ghost use Rattle.plain_trees.specs.Canon.{canon};
ghost use Rattle.plain_trees.specs.Degree.{degree_of, HasTypes, empty_tree};
ghost use Rattle.plain_trees.specs.Coproducts.{Extracted, Recentred, each_direction, negative_size, positive_size, is_extracted, are_above_zero, extracted_order, recentred_order, extraction_terms, recentring_terms};
ghost use Rattle.plain_trees.specs.Multinomials.{zeros};
ghost use Rattle.plain_trees.specs.Cutting.{shifts};
ghost use Rattle.tree_cuttings.specs.Roots.{has_edge};
ghost use Rattle.tree_cuttings.specs.Entries.{Entry, forest_of, with_inside, with_outside, closed_from, good_closed, good_entries};
ghost use Rattle.tree_cuttings.specs.Rooted.{whole_entry, rooted_entries};
ghost use Rattle.tree_cuttings.specs.Terms.{extraction_entries_within, recentring_entries_within, extracted_entry, recentred_entry};
ghost use Rattle.cutting_sizes.specs.Lows.{low, lowest, IsLive};
ghost use Rattle.cutting_sizes.specs.Origins.{IsExtraction, IsRecentring};
ghost use Rattle.cutting_sizes.specs.Bounds.{AreTyped, IsBounded, IsFit, HasAtMost, IsOfBounded, IsSmaller, most_shift, most_part, most_quotient};
ghost use Rattle.cutting_sizes.specs.Sizes.{edges_of, node_sum, edge_sum, node_entries, edge_entries, direction_sum, degrees_of, AddUp};

/// What is counted in a tree adds up over what each of its cuttings gives: over the components and
/// the quotient of each entry of the recursions down the tree.
pub fn entries_add_up()
    ensures entries { (good : Plain → Bool) (w : List ℕ) (touched : Bool) (t : Plain) →
        AllByRecursion (λ e. AddUp t (e.part ∷ e.above) e.quotient)
        (good_entries good w touched t) }
    ensures extraction { (ty : Types) (w : List ℕ) (t : Plain) →
        AllByRecursion (λ e. AddUp t (forest_of e) e.quotient) (extraction_entries_within w ty t) }
    ensures recentring { (w : List ℕ) (t : Plain) →
        AllByRecursion (λ e. AddUp t (e.part ∷ []) e.quotient) (rooted_entries w t) }
{}

/// What is counted in a tree adds up over the forest and the quotient of each term of its
/// extraction coproduct, and over both trees of each term of its recentring coproduct.
pub fn terms_add_up()
    ensures extraction { (ty : Types) (t : Plain) (k : Extracted) →
        IsIn k (keys (extraction_terms ty t)) → AddUp t k.0 k.1 }
    ensures recentring { (ty : Types) (t : Plain) (k : Recentred) →
        IsIn k (keys (recentring_terms ty t)) → AddUp t (k.0 ∷ []) k.1 }
{}

/// What adds up: the edges, and those of some types, as the noises of a group; the decorations of
/// the nodes, to more by the sum of the shifts, and those of the edges too; so in each direction
/// the entries of both to more by twice that of the shifts. The edges of components are not raised,
/// and their nodes take as much from the quotient as is shifted.
pub fn sums_of_parts()
    ensures edges { (t q : Plain) (fs : List Plain) → AddUp t fs q →
        total edge_count_of fs + edge_count_of q ≡ edge_count_of t }
    ensures types { (t q : Plain) (fs : List Plain) (which : ℕ → Bool) → AddUp t fs q →
        total (edges_of which) fs + edges_of which q ≡ edges_of which t }
    ensures nodes { (t q : Plain) (fs : List Plain) (up : AddUp t fs q) →
        total node_sum fs + node_sum q ≡ node_sum t + sum up.shift }
    ensures derivatives { (t q : Plain) (fs : List Plain) (up : AddUp t fs q) →
        total edge_sum fs + edge_sum q ≡ edge_sum t + sum up.shift }
    ensures node_entries { (t q : Plain) (fs : List Plain) (up : AddUp t fs q) (d : ℕ) →
        total (node_entries d) fs + node_entries d q ≡ node_entries d t + slice_index up.shift d }
    ensures edge_entries { (t q : Plain) (fs : List Plain) (up : AddUp t fs q) (d : ℕ) →
        total (edge_entries d) fs + edge_entries d q ≡ edge_entries d t + slice_index up.shift d }
    ensures directions { (t q : Plain) (fs : List Plain) (up : AddUp t fs q) (d : ℕ) → total (direction_sum d) fs + direction_sum d q ≡ direction_sum d t + 2 * slice_index up.shift d }
    ensures components { (t q : Plain) (fs : List Plain) → AddUp t fs q → total edge_sum fs ≤ edge_sum t }
    ensures quotient { (t q : Plain) (fs : List Plain) → AddUp t fs q → node_sum q ≤ node_sum t }
{}

/// The degrees of what a cutting gives add up to the degree of the tree: a shift adds to a
/// component what it takes from the quotient.
pub fn degrees_add_up()
    ensures entries { (ty : Types) (good : Plain → Bool) (w : List ℕ) (touched : Bool) (t : Plain) →
        AllByRecursion (λ e. degree_plus (degrees_of ty (e.part ∷ e.above)) (degree_of ty
        e.quotient) ≡ degree_of ty t) (good_entries good w touched t) }
    ensures extraction { (ty : Types) (t : Plain) (k : Extracted) → IsIn k (keys (extraction_terms ty t)) → degree_plus (degrees_of ty k.0) (degree_of ty k.1) ≡ degree_of ty t }
    ensures recentring { (ty : Types) (t : Plain) (k : Recentred) →
        IsIn k (keys (recentring_terms ty t)) →
        degree_plus (degree_of ty k.0) (degree_of ty k.1) ≡ degree_of ty t }
{}

/// Each term of a coproduct is what some cutting of the definition gives.
pub fn terms_come_from_cuttings()
    ensures extraction { (ty : Types) (t : Plain) (k : Extracted) →
        IsIn k (keys (extraction_terms ty t)) → IsExtraction ty t k }
    ensures recentring { (ty : Types) (t : Plain) (k : Recentred) →
        IsIn k (keys (recentring_terms ty t)) → IsRecentring ty t k }
{}

/// What the cuttings of a tree over the types of a file give are trees over these types; the root's
/// component is the empty tree where the root is not touched.
pub fn cuttings_keep_the_types()
    ensures touched { (ty : Types) (good : Plain → Bool) (j : ℕ) (t : Plain) → HasTypes ty t →
        AllByRecursion (AreTyped ty) (good_entries good (each_direction ty.dims j) true t) }
    ensures untouched { (ty : Types) (good : Plain → Bool) (j : ℕ) (t : Plain) → HasTypes ty t →
        AllByRecursion (AreTyped ty) (good_entries good (each_direction ty.dims j) false t) }
    ensures idle { (ty : Types) (good : Plain → Bool) (w : List ℕ) (t : Plain) → HasTypes ty t →
        AllByRecursion (λ (e : Entry). e.part ≡ empty_tree) (good_entries good w false t) }
    ensures rooted { (ty : Types) (j : ℕ) (t : Plain) → HasTypes ty t →
        AllByRecursion (AreTyped ty) (rooted_entries (each_direction ty.dims j) t) }
    ensures extraction { (ty : Types) (t : Plain) (k : Extracted) → HasTypes ty t →
        IsIn k (keys (extraction_terms ty t)) → AllByRecursion (HasTypes ty) k.0 × HasTypes ty k.1 }
    ensures recentring { (ty : Types) (t : Plain) (k : Recentred) → HasTypes ty t →
        IsIn k (keys (recentring_terms ty t)) → HasTypes ty k.0 × HasTypes ty k.1 }
{}

/// A component of a degree of at most 0 is live, where the bound is as large as the lowest tree
/// above a node is low; and no component is lower than the low.
pub fn lows_of_components()
    ensures closing { (ty : Types) (b : ℕ) (t part : Plain) → neg_ℤ (pos b) ≤ℤ lowest ty t → (degree_of ty part).a ≤ℤ pos 0 → IsLive ty b t part }
    ensures least { (ty : Types) (good : Plain → Bool) (w : List ℕ) (touched : Bool) (t : Plain) →
        AllByRecursion (λ (e : Entry). low ty t ≤ℤ (degree_of ty e.part).a)
        (good_entries good w touched t) }
{}

/// Trees are bounded, or not too large, with their subtrees.
pub fn subtrees_are_bounded()
    ensures bounded { (k : ℕ) (p : List ℕ) (c t : Plain) → IsBounded (graft k p c t) →
        IsBounded c × IsBounded t }
    ensures fit { (k : ℕ) (p : List ℕ) (c t : Plain) → IsFit (graft k p c t) → IsFit c × IsFit t }
    ensures fit_bounded { (t : Plain) → IsFit t → IsBounded t }
    ensures fit_small { (t : Plain) → IsFit t →
        (MOST_EDGES < edge_count_of t) ⊎ (MOST_LISTED_DECORATIONS < decoration_sum_of t) → ⊥ }
    ensures small_fit { (t : Plain) →
        ((MOST_EDGES < edge_count_of t) ⊎ (MOST_LISTED_DECORATIONS < decoration_sum_of t) → ⊥) →
        IsFit t }
{}

/// The shifts and the lows of a bounded tree are at most `most_shift`; so its extraction coproduct
/// comes from a recursion with this bound.
pub fn shifts_of_bounded_trees()
    ensures shifts { (ty : Types) (t : Plain) → AreTypes ty → IsBounded t →
        negative_size ty t / unsigned_abs ty.units.den ≤ most_shift }
    ensures lows { (ty : Types) (t : Plain) → AreTypes ty → IsBounded t →
        neg_ℤ (pos (unsigned_abs ty.units.den * most_shift)) ≤ℤ lowest ty t }
    ensures extraction { (ty : Types) (t : Plain) → AreTypes ty → IsBounded t →
        extraction_terms ty t ≡ collected extracted_order
        (map (λ e. (extracted_entry e, e.coefficient))
        (extraction_entries_within (each_direction ty.dims most_shift) ty t)) }
    ensures fit_shifts { (ty : Types) (t : Plain) → AreTypes ty → IsFit t →
        positive_size ty t / unsigned_abs ty.units.den ≤ most_shift }
    ensures recentring { (ty : Types) (t : Plain) → AreTypes ty → IsFit t →
        recentring_terms ty t ≡ collected recentred_order
        (map (λ e. (recentred_entry e, e.coefficient))
        (recentring_entries_within (each_direction ty.dims most_shift) ty t)) }
{}

/// The components that are extracted from a bounded tree are bounded, and the quotients have a
/// decoration sum of at most `most_quotient`. The trees of live entries are small.
pub fn cuttings_of_bounded_trees()
    ensures closed { (ty : Types) (j : ℕ) (t : Plain) → AreTypes ty → HasTypes ty t → IsBounded t →
        AllByRecursion (λ e. AllByRecursion IsBounded (forest_of e)
        × HasAtMost most_quotient e.quotient) (extraction_entries_within (each_direction ty.dims j)
        ty t) }
    ensures terms { (ty : Types) (t : Plain) (k : Extracted) → AreTypes ty → HasTypes ty t →
        IsBounded t → IsIn k (keys (extraction_terms ty t)) →
        AllByRecursion IsBounded k.0 × HasAtMost most_quotient k.1 }
    ensures live { (ty : Types) (j b : ℕ) (t : Plain) → AreTypes ty → HasTypes ty t → IsBounded t → b ≤ unsigned_abs ty.units.den * most_shift → AllByRecursion (λ e. IsLive ty b t e.part → IsOfBounded e) (good_entries (is_extracted ty) (each_direction ty.dims j) true t) }
    ensures idle { (ty : Types) (j : ℕ) (t : Plain) → AreTypes ty → HasTypes ty t → IsBounded t →
        AllByRecursion IsOfBounded (good_entries (is_extracted ty) (each_direction ty.dims j) false
        t) }
{}

/// Recentring a tree that is not too large gives two trees with decoration sums of at most
/// `most_part`, as far as the branches of the quotient's root are above 0.
pub fn recentrings_of_fit_trees()
    ensures entries { (ty : Types) (j : ℕ) (t : Plain) → AreTypes ty → HasTypes ty t → IsFit t →
        AllByRecursion (λ e. are_above_zero ty e.quotient ≡ true →
        HasAtMost most_part e.part × HasAtMost most_part e.quotient)
        (rooted_entries (each_direction ty.dims j) t) }
    ensures terms { (ty : Types) (t : Plain) (k : Recentred) → AreTypes ty → HasTypes ty t →
        IsFit t → IsIn k (keys (recentring_terms ty t)) →
        HasAtMost most_part k.0 × HasAtMost most_part k.1 }
{}

/// Entries of a tree with one more edge at its root are made of entries of the tree above that edge
/// and of the tree without it.
pub fn entries_of_one_more_edge()
    ensures inside { (good : Plain → Bool) (w : List ℕ) (k : ℕ) (p : List ℕ) (c t : Plain)
        (x y : Entry) → IsIn x (good_entries good w true c) → IsIn y (good_entries good w true t) →
        IsIn (with_inside k p x y) (good_entries good w true (graft k p c t)) }
    ensures outside { (good : Plain → Bool) (w s : List ℕ) (k : ℕ) (p : List ℕ) (c t : Plain)
        (x y : Entry) → IsIn s (shifts w p) →
        IsIn x (good_closed good (closed_from (good_entries good w false c)
        (good_entries good w true c))) → IsIn y (good_entries good w true t) →
        IsIn (with_outside s k p x y) (good_entries good w true (graft k p c t)) }
    ensures idle { (good : Plain → Bool) (w : List ℕ) (k : ℕ) (p : List ℕ) (c t : Plain)
        (x y : Entry) →
        IsIn x (good_closed good (closed_from (good_entries good w false c)
        (good_entries good w true c))) → IsIn y (good_entries good w false t) →
        IsIn (with_outside (zeros p) k p x y) (good_entries good w false (graft k p c t)) }
    ensures closed_idle { (good : Plain → Bool) (w : List ℕ) (c : Plain) (x : Entry) →
        IsIn x (good_entries good w false c) → has_edge x.part ≡ false →
        IsIn x (good_closed good (closed_from (good_entries good w false c)
        (good_entries good w true c))) }
    ensures closed_component { (good : Plain → Bool) (w : List ℕ) (c : Plain) (x : Entry) →
        IsIn x (good_entries good w true c) → has_edge x.part ≡ true → good x.part ≡ true →
        IsIn x (good_closed good (closed_from (good_entries good w false c)
        (good_entries good w true c))) }
    ensures rooted_inside { (w : List ℕ) (k : ℕ) (p : List ℕ) (c t : Plain) (x y : Entry) →
        IsIn x (rooted_entries w c) → IsIn y (rooted_entries w t) →
        IsIn (with_inside k p x y) (rooted_entries w (graft k p c t)) }
    ensures rooted_outside { (w s : List ℕ) (k : ℕ) (p : List ℕ) (c t : Plain) (y : Entry) →
        IsIn s (shifts w p) → IsIn y (rooted_entries w t) →
        IsIn (with_outside s k p (whole_entry c) y) (rooted_entries w (graft k p c t)) }
{}

/// Trees within bounds are small, and canonical form keeps the bounds.
pub fn bounds_of_canonical_trees()
    ensures small { (most : ℕ) (t : Plain) → most ≤ MOST_DECORATIONS → HasAtMost most t →
        IsSmall t }
    ensures at_most { (most : ℕ) (t : Plain) → HasAtMost most t → HasAtMost most (canon t) }
    ensures at_most_back { (most : ℕ) (t : Plain) → HasAtMost most (canon t) → HasAtMost most t }
    ensures bounded { (t : Plain) → IsBounded t → IsBounded (canon t) }
    ensures bounded_small { (t : Plain) → IsBounded t → IsSmall t }
    ensures lows { (ty : Types) (b : ℕ) (t part : Plain) → IsLive ty b t part →
        IsLive ty b t (canon part) }
{}

/// In a term of the extraction coproduct other than that of the whole tree with the empty quotient,
/// each extracted tree is smaller than the tree.
pub fn extracted_trees_are_smaller()
    ensures { (ty : Types) (t : Plain) (k : Extracted) → HasTypes ty t → IsIn k (keys (extraction_terms ty t)) → (k ≡ (canon t ∷ [], empty_tree)) ⊎ AllByRecursion (λ f. IsSmaller f t) k.0 }
{}
