// Laws of tables: each is a clause of a function that does nothing.

ghost use Rattle.std.specs.Prelude.{◌≡◌, ◌<◌, ◌≤◌, ◌≤ℤ◌, ◌<ℤ◌, ◌/◌, ◌*◌, suc, pos, neg_ℤ, unsigned_abs, ℕ, true, false, List, ◌++◌, map};
ghost use Rattle.std.specs.List.{AllByRecursion};
ghost use Rattle.std.specs.List.Sorted.{IsSorted};
ghost use Rattle.exact_sums.specs.Saturating.{overflow};
ghost use Rattle.exact_sums.specs.Keyed.{same_by, HaveSameSums, saturated_terms, joined_neighbours, keys, IsCollected};
ghost use Rattle.degree_numbers.specs.declared.types.Types.{Types};
ghost use Rattle.degree_numbers.specs.Degree.{degree_plus};
ghost use Rattle.degree_numbers.specs.Types.{AreTypes};
ghost use Rattle.plain_trees.specs.Plain.{Plain, graft};
ghost use Rattle.plain_trees.specs.Degree.{edge_degree_of, degree_of};
ghost use Rattle.plain_trees.specs.Coproducts.{Extracted, Recentred, is_extracted, extracted_order, recentred_order, each_direction, negative_size, positive_size, canon_forest, extraction_terms, recentring_terms};
ghost use Rattle.tree_pool.specs.Content.{Content, tree_at, IsPooled};
ghost use Rattle.tree_pool.specs.Forests.{AreKnown, IsSorting};
ghost use Rattle.tree_cuttings.specs.Entries.{Entry, with_inside, with_outside, good_entries};
ghost use Rattle.tree_cuttings.specs.Rooted.{whole_entry};
ghost use Rattle.tree_cuttings.specs.Terms.{extracted_entry, recentred_entry, extraction_entries_within, recentring_entries_within};
ghost use Rattle.cutting_sizes.specs.Lows.{lowest};
ghost use Rattle.cutting_tables.specs.Keys.{Opened, opened, inside, inside_factor, outside, outside_factor, left_inside, left_factor, right_outside, right_factor};
ghost use Rattle.cutting_tables.specs.Tables.{closed_terms, idle_branch, touched_branch, extraction_tables, with_right_branch, recentring_table};
ghost use Rattle.cutting_tables.specs.Live.{AreSameExtracted, AreSameRecentred, live_terms, tables_within, recentred_within, IsLiveTable};

/// The tables of extraction list, in canonical form, what the cuttings give: a step down the tree
/// needs no more of an entry than its canonical form.
pub fn tables_list_the_entries()
    ensures inside { (k : ℕ) (p : List ℕ) (x y : Entry) →
        opened (with_inside k p x y) ≡ inside k p (opened x) (opened y) }
    ensures outside { (s : List ℕ) (k : ℕ) (p : List ℕ) (x y : Entry) →
        opened (with_outside s k p x y) ≡ outside s k p (extracted_entry x) (opened y) }
    ensures touched { (ty : Types) (w : List ℕ) (t : Plain) →
        map (λ e. (opened e, e.coefficient)) (good_entries (is_extracted ty) w true t)
        ≡ (extraction_tables ty w t).touched }
    ensures closed { (ty : Types) (w : List ℕ) (t : Plain) →
        map (λ e. (extracted_entry e, e.coefficient)) (extraction_entries_within w ty t)
        ≡ closed_terms ty (extraction_tables ty w t) }
{}

/// One more edge at the root: the tables may be replaced by others with the same sums, open ones
/// without the dead keys, and dead products may be dropped. A product with a dead key is dead; and
/// so is one with a shift that is beyond `m` in some direction, where m + 1 units are more than
/// `b`.
pub fn one_more_edge()
    ensures idle { (ty : Types) (n : ℕ) (k : ℕ) (p : List ℕ) (c t : Plain)
        (closed idle : List (Extracted × ℕ)) →
        AreSameExtracted closed (closed_terms ty (tables_within ty n c)) →
        AreSameExtracted idle (tables_within ty n t).idle →
        AreSameExtracted (idle_branch k p closed idle) (tables_within ty n (graft k p c t)).idle }
    ensures touched { (ty : Types) (n m b : ℕ) (k : ℕ) (p : List ℕ) (c t : Plain)
        (above touched : List (Opened × ℕ)) (closed : List (Extracted × ℕ)) → AreTypes ty → m ≤ n →
        b < unsigned_abs ty.units.den * suc m → IsLiveTable ty n b c above →
        AreSameExtracted closed (closed_terms ty (tables_within ty n c)) →
        IsLiveTable ty n b t touched →
        IsLiveTable ty n b (graft k p c t)
        (live_terms ty b (graft k p c t)
        (touched_branch (each_direction ty.dims m) k p above closed touched)) }
    ensures inside_above { (x y : Opened) → 0 < inside_factor x y }
    ensures outside_above { (s : List ℕ) (x : Extracted) (y : Opened) → 0 < outside_factor s x y }
{}

/// The table of all cuttings does not depend on the bound of the live keys, where that is as large
/// as the lowest tree above a node is low, nor on the bound of the shifts, where that is ample.
/// Collected, it is the list of the terms of extraction.
pub fn closed_tables_are_the_terms()
    ensures live { (ty : Types) (n b : ℕ) (t : Plain) (idle : List (Extracted × ℕ))
        (touched : List (Opened × ℕ)) → neg_ℤ (pos b) ≤ℤ lowest ty t →
        AreSameExtracted idle (tables_within ty n t).idle → IsLiveTable ty n b t touched →
        AreSameExtracted (closed_terms ty record { idle = idle; touched = touched })
        (closed_terms ty (tables_within ty n t)) }
    ensures sums { (ty : Types) (n : ℕ) (t : Plain) → AreTypes ty →
        negative_size ty t / unsigned_abs ty.units.den ≤ n →
        HaveSameSums (same_by extracted_order) (closed_terms ty (tables_within ty n t))
        (extraction_terms ty t) }
    ensures terms { (ty : Types) (n : ℕ) (t : Plain) (closed : List (Extracted × ℕ)) → AreTypes ty →
        negative_size ty t / unsigned_abs ty.units.den ≤ n →
        AreSameExtracted closed (closed_terms ty (tables_within ty n t)) →
        IsCollected extracted_order closed → closed ≡ saturated_terms (extraction_terms ty t) }
{}

/// The table of recentring lists, in canonical form, what the cuttings that recentre give: a branch
/// may be tested at the step at which it is made, since nothing is added to it later.
pub fn tables_list_the_rooted_entries()
    ensures inside { (k : ℕ) (p : List ℕ) (x y : Entry) →
        recentred_entry (with_inside k p x y)
        ≡ left_inside k p (recentred_entry x) (recentred_entry y) }
    ensures outside { (s : List ℕ) (k : ℕ) (p : List ℕ) (c : Plain) (y : Entry) →
        recentred_entry (with_outside s k p (whole_entry c) y)
        ≡ right_outside s k p c (recentred_entry y) }
    ensures table { (ty : Types) (w : List ℕ) (t : Plain) →
        map (λ e. (recentred_entry e, e.coefficient)) (recentring_entries_within w ty t)
        ≡ recentring_table ty w t }
{}

/// One more edge at the root: the tables may be replaced by others with the same sums. A shift that
/// is beyond `m` in some direction leaves no branch with a degree above 0, where the branch without
/// a shift has one below m + 1 units.
pub fn one_more_right_branch()
    ensures table { (ty : Types) (n m : ℕ) (k : ℕ) (p : List ℕ) (c t : Plain)
        (above rest : List (Recentred × ℕ)) → AreTypes ty → m ≤ n →
        (degree_plus (edge_degree_of ty k p) (degree_of ty c)).a
        <ℤ pos (unsigned_abs ty.units.den * suc m) →
        AreSameRecentred above (recentred_within ty n c) →
        AreSameRecentred rest (recentred_within ty n t) →
        AreSameRecentred (with_right_branch ty (each_direction ty.dims m) k p c above rest)
        (recentred_within ty n (graft k p c t)) }
    ensures left_above { (x y : Recentred) → 0 < left_factor x y }
    ensures right_above { (s : List ℕ) (c : Plain) (y : Recentred) → 0 < right_factor s c y }
{}

/// The table does not depend on the bound of the shifts, where that is ample. Collected, it is the
/// list of the terms of recentring.
pub fn recentring_tables_are_the_terms()
    ensures sums { (ty : Types) (n : ℕ) (t : Plain) → AreTypes ty →
        positive_size ty t / unsigned_abs ty.units.den ≤ n →
        HaveSameSums (same_by recentred_order) (recentred_within ty n t) (recentring_terms ty t) }
    ensures terms { (ty : Types) (n : ℕ) (t : Plain) (table : List (Recentred × ℕ)) → AreTypes ty →
        positive_size ty t / unsigned_abs ty.units.den ≤ n →
        AreSameRecentred table (recentred_within ty n t) → IsCollected recentred_order table →
        table ≡ saturated_terms (recentring_terms ty t) }
{}

/// The trees of a forest of a pool, in tree order, are the canonical form of the list of its trees
/// in any order; and two forests together have the form that their trees have.
pub fn forests_are_canonical()
    ensures sorted { (c : Content) (ids f : List ℕ) → IsPooled c → AreKnown c ids →
        IsSorting c ids f → map (tree_at c) f ≡ canon_forest (map (tree_at c) ids) }
    ensures append { (fs gs : List Plain) →
        canon_forest (canon_forest fs ++ canon_forest gs) ≡ canon_forest (fs ++ gs) }
{}

/// Terms that are sorted by their keys, and then joined where neighbours have equal keys, are
/// collected. Values that are all in range are the coefficients themselves, and they are so where
/// the coefficients are.
pub fn sorted_terms_are_collected()
    ensures extracted { (ts : List (Extracted × ℕ)) → IsSorted extracted_order (keys ts) →
        AllByRecursion (λ e. (0 < e.1) × (e.1 ≤ overflow)) ts →
        IsCollected extracted_order (joined_neighbours (same_by extracted_order) ts) }
    ensures extracted_sums { (ts : List (Extracted × ℕ)) →
        AreSameExtracted (joined_neighbours (same_by extracted_order) ts) ts }
    ensures recentred { (ts : List (Recentred × ℕ)) → IsSorted recentred_order (keys ts) →
        AllByRecursion (λ e. (0 < e.1) × (e.1 ≤ overflow)) ts →
        IsCollected recentred_order (joined_neighbours (same_by recentred_order) ts) }
    ensures recentred_sums { (ts : List (Recentred × ℕ)) →
        AreSameRecentred (joined_neighbours (same_by recentred_order) ts) ts }
    ensures values { (ts : List (Extracted × ℕ)) →
        AllByRecursion (λ e. e.1 < overflow) (saturated_terms ts) →
        (saturated_terms ts ≡ ts) × AllByRecursion (λ e. e.1 < overflow) ts }
    ensures range { (ts : List (Extracted × ℕ)) → AllByRecursion (λ e. e.1 < overflow) ts →
        AllByRecursion (λ e. e.1 < overflow) (saturated_terms ts) }
{}
