// Laws of cuttings: each is a clause of a function that does nothing.

ghost use Rattle.std.specs.Prelude.{◌≡◌, ◌<◌, ◌≤◌, ◌/◌, unsigned_abs, ℕ, Bool, true, false, ◌&&◌, List, map, length, slice_index};
ghost use Rattle.std.specs.List.{list_all};
ghost use Rattle.exact_sums.specs.Sums.{total, counted_if};
ghost use Rattle.exact_sums.specs.Binomials.{multinomial};
ghost use Rattle.exact_sums.specs.Saturating.{product};
ghost use Rattle.plain_trees.specs.Multinomials.{multinomial_of};
ghost use Rattle.plain_trees.specs.Plain.{Plain, root_of};
ghost use Rattle.plain_trees.specs.Flat.{tree_at, links_of};
ghost use Rattle.plain_trees.specs.Cutting.{components, quotient, splitting_coefficient, component, root_node, is_closed, cuttings, cutting_sum};
ghost use Rattle.tree_cuttings.specs.CutTree.{CutTree, edge, cut_components, contracted, cut_coefficient};
ghost use Rattle.tree_cuttings.specs.CutTrees.{cut_trees, cut_sum};
ghost use Rattle.tree_cuttings.specs.Recursion.{sweep, closed_sum};
ghost use Rattle.tree_cuttings.specs.Entries.{Entry, entry_of, forest_of, with_inside, with_outside, closed_from, entries, good_closed, good_entries};
ghost use Rattle.tree_cuttings.specs.Rooted.{rooted_entries};
ghost use Rattle.tree_cuttings.specs.Terms.{extraction_entries, extraction_entries_within, recentring_entries, recentring_entries_within, extracted_entry, recentred_entry};
ghost use Rattle.plain_trees.specs.Coproducts.{Extracted, Recentred, extracted, recentred, each_direction, negative_size, positive_size, is_admissible, is_recentred, extracted_order, recentred_order, extraction_coefficient, recentring_coefficient, extraction_terms, recentring_terms};
ghost use Rattle.exact_sums.specs.Keyed.{same_by, sum_at, collected, keys};
ghost use Rattle.degree_numbers.specs.declared.types.Types.{Types};
ghost use Rattle.degree_numbers.specs.Types.{AreTypes};
ghost use Rattle.std.specs.Ordering.{is_eq};
ghost use Rattle.std.specs.List.{AllByRecursion, range_with_len};
ghost use Rattle.std.specs.List.Sorted.{IsStrictlySortedBy};

/// Cuttings by numbers and cuttings read down the tree give the same sums: for every bound on the
/// shifts, with and without the flag that the root counts as touched, for every tree, and for
/// whatever is made of the components, the quotient and the splitting coefficient.
pub fn same_sums_by_numbers_and_down_the_tree()
    ensures tests { (w : List ℕ) (forced : Bool) (test : List Plain → Plain → Bool) (t : Plain) →
        cutting_sum w forced (λ c. test (components forced c) (quotient c)) t
        ≡ cut_sum w forced test t }
    ensures values { (w : List ℕ) (forced : Bool) (g : List Plain → Plain → ℕ → ℕ) (t : Plain) →
        total (λ c. g (components forced c) (quotient c) (splitting_coefficient forced c))
        (cuttings w forced t) ≡ total (λ m. g (cut_components forced m) (contracted m)
        (cut_coefficient m)) (cut_trees w forced t) }
{}

/// The cuttings of a tree, along the edges of its root, are those of its subtrees put together:
/// above an edge of the set a cutting in which the root counts as touched, above another edge any
/// cutting. Splitting coefficient, components and quotient go with them.
pub fn split_along_the_edges_of_the_root()
    ensures touched { (w : List ℕ) (t : Plain) (f : CutTree → ℕ) →
        total f (cut_trees w true t) ≡ sweep w true t f }
    ensures all { (w : List ℕ) (t : Plain) (f : CutTree → ℕ) →
        total f (cut_trees w false t) ≡ closed_sum w t f }
    ensures inside { (s : List ℕ) (k : ℕ) (p : List ℕ) (c r : CutTree) →
        entry_of (edge true s k p c r) ≡ with_inside k p (entry_of c) (entry_of r) }
    ensures outside { (s : List ℕ) (k : ℕ) (p : List ℕ) (c r : CutTree) →
        entry_of (edge false s k p c r) ≡ with_outside s k p (entry_of c) (entry_of r) }
{}

/// The sum over all cuttings is the sum over the entries that a recursion down the tree gives.
/// Where a test asks something of each component, the recursion may ask it when it reaches the
/// lowest node of the component.
pub fn sums_by_recursion()
    ensures all { (w : List ℕ) (test : List Plain → Plain → Bool) (t : Plain) →
        cutting_sum w false (λ c. test (components false c) (quotient c)) t
        ≡ total (λ e. counted_if (test (forest_of e) e.quotient) e.coefficient)
        (closed_from (entries w false t) (entries w true t)) }
    ensures good { (w : List ℕ) (good : Plain → Bool) (test : List Plain → Plain → Bool)
        (t : Plain) → cutting_sum w false (λ c. list_all good (components false c)
        && test (components false c) (quotient c)) t
        ≡ total (λ e. counted_if (test (forest_of e) e.quotient) e.coefficient)
        (good_closed good (closed_from (good_entries good w false t)
        (good_entries good w true t))) }
    ensures closed { (w : List ℕ) (test : Plain → Plain → Bool) (t : Plain) →
        cutting_sum w true (λ c. is_closed c && test (component c.edges (root_node c)) (quotient c))
        t ≡ total (λ e. counted_if (test e.part e.quotient) e.coefficient) (rooted_entries w t) }
{}

/// The flat form of a tree loses nothing.
pub fn flat_form_is_the_tree()
    ensures { (t : Plain) → tree_at 0 (root_of t) (links_of t) ≡ t }
{}

/// The terms of the two coproducts have the coefficients of their definitions, ascend, and leave
/// out just the pairs with coefficient 0.
pub fn terms_of_the_coproducts()
    ensures extraction { (ty : Types) (t : Plain) (k : Extracted) →
        sum_at (same_by extracted_order) k (extraction_terms ty t) ≡ extraction_coefficient ty t k }
    ensures extraction_order { (ty : Types) (t : Plain) →
        IsStrictlySortedBy extracted_order (keys (extraction_terms ty t)) }
    ensures extraction_above { (ty : Types) (t : Plain) →
        AllByRecursion (λ e. 0 < e.1) (extraction_terms ty t) }
    ensures recentring { (ty : Types) (t : Plain) (k : Recentred) →
        sum_at (same_by recentred_order) k (recentring_terms ty t) ≡ recentring_coefficient ty t k }
    ensures recentring_order { (ty : Types) (t : Plain) →
        IsStrictlySortedBy recentred_order (keys (recentring_terms ty t)) }
    ensures recentring_above { (ty : Types) (t : Plain) →
        AllByRecursion (λ e. 0 < e.1) (recentring_terms ty t) }
{}

/// The terms of the two coproducts are the collected entries of the recursions down the tree.
pub fn terms_by_recursion()
    ensures extraction { (ty : Types) (t : Plain) →
        extraction_terms ty t ≡ collected extracted_order
        (map (λ e. (extracted_entry e, e.coefficient)) (extraction_entries ty t)) }
    ensures recentring { (ty : Types) (t : Plain) →
        recentring_terms ty t ≡ collected recentred_order
        (map (λ e. (recentred_entry e, e.coefficient)) (recentring_entries ty t)) }
{}

/// Greater shifts than those of the definition add no term: a component with such a shift has a
/// degree of at least 0, and a branch that is raised by it has one of at most 0. So the terms of
/// all small trees come from recursions with one bound.
pub fn greater_shifts_add_no_term()
    ensures extraction_sums { (ty : Types) (t : Plain) (n : ℕ) (k : Extracted) → AreTypes ty →
        negative_size ty t / unsigned_abs ty.units.den ≤ n →
        cutting_sum (each_direction ty.dims n) false (λ c. is_admissible ty c
        && is_eq (extracted_order (extracted c) k)) t ≡ extraction_coefficient ty t k }
    ensures extraction { (ty : Types) (t : Plain) (n : ℕ) → AreTypes ty → negative_size ty t / unsigned_abs ty.units.den ≤ n → extraction_terms ty t ≡ collected extracted_order (map (λ e. (extracted_entry e, e.coefficient)) (extraction_entries_within (each_direction ty.dims n) ty t)) }
    ensures recentring_sums { (ty : Types) (t : Plain) (n : ℕ) (k : Recentred) → AreTypes ty →
        positive_size ty t / unsigned_abs ty.units.den ≤ n →
        cutting_sum (each_direction ty.dims n) true (λ c. is_recentred ty c
        && is_eq (recentred_order (recentred c) k)) t ≡ recentring_coefficient ty t k }
    ensures recentring { (ty : Types) (t : Plain) (n : ℕ) → AreTypes ty →
        positive_size ty t / unsigned_abs ty.units.den ≤ n →
        recentring_terms ty t ≡ collected recentred_order
        (map (λ e. (recentred_entry e, e.coefficient))
        (recentring_entries_within (each_direction ty.dims n) ty t)) }
{}

/// The multinomial of multiindices is the product, over the entries, of the multinomials of the
/// numbers that stand there.
pub fn multinomials_entry_by_entry()
    ensures { (n : ℕ) (ms : List (List ℕ)) → AllByRecursion (λ m. length m ≡ n) ms →
        multinomial_of ms ≡ product (map (λ i. multinomial (map (λ m. slice_index m i) ms))
        (range_with_len 0 n)) }
{}
