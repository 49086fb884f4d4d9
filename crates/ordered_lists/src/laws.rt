// Laws of sorted lists and of their sub-multisets.
ghost use Rattle.std.specs.Prelude.{◌≡◌, ◌≤◌, List, length, ◌⊎◌, ◌↔◌};
ghost use Rattle.std.specs.declared.cmp.Ordering.{Ordering};
ghost use Rattle.std.specs.Cmp.{IsTotalOrder};
ghost use Rattle.std.specs.FinMap.{IsAntisymmetric};
ghost use Rattle.std.specs.List.Sorted.{IsStrictlySortedBy, IsSorted, IsPermutation};
ghost use Rattle.ordered_lists.specs.Members.{IsIn, HaveSameMembers, insert_all};
ghost use Rattle.ordered_lists.specs.Subs.{IsSubMultiset, count_of, sub_lists};

/// Putting members into a sorted list of distinct members keeps it one, and adds these members
/// alone.
pub fn insertion_laws<K>()
    ensures sorted { (c : K → K → Ordering) (ks ns : List K) → IsTotalOrder c →
        IsStrictlySortedBy c ks → IsStrictlySortedBy c (insert_all c ks ns) }
    ensures from { (c : K → K → Ordering) (ks ns : List K) (n : K) → IsIn n (insert_all c ks ns) →
        IsIn n ks ⊎ IsIn n ns }
    ensures old { (c : K → K → Ordering) (ks ns : List K) (n : K) → IsIn n ks →
        IsIn n (insert_all c ks ns) }
    ensures new { (c : K → K → Ordering) (ks ns : List K) (n : K) → IsAntisymmetric c → IsIn n ns →
        IsIn n (insert_all c ks ns) }
{}

/// A sorted list of distinct members is determined by its members and no longer than another that
/// has them; a sorted list is determined by its elements with their multiplicities.
pub fn members_determine<K>()
    ensures strictly { (c : K → K → Ordering) (xs ys : List K) → IsTotalOrder c →
        IsAntisymmetric c → IsStrictlySortedBy c xs → IsStrictlySortedBy c ys →
        HaveSameMembers xs ys → xs ≡ ys }
    ensures fewer { (c : K → K → Ordering) (xs ys : List K) → IsTotalOrder c → IsAntisymmetric c →
        IsStrictlySortedBy c xs → IsStrictlySortedBy c ys → ((n : K) → IsIn n xs → IsIn n ys) →
        length xs ≤ length ys }
    ensures sorted { (c : K → K → Ordering) (xs ys : List K) → IsTotalOrder c → IsAntisymmetric c →
        IsSorted c xs → IsSorted c ys → IsPermutation xs ys → xs ≡ ys }
{}

/// Sub-multisets form an order, and `sub_lists` lists them. Of sorted lists they are the sorted
/// lists in which nothing stands more often.
pub fn sub_multiset_laws<K>()
    ensures itself { (xs : List K) → IsSubMultiset xs xs }
    ensures transitive { (ms ns xs : List K) → IsSubMultiset ms ns → IsSubMultiset ns xs →
        IsSubMultiset ms xs }
    ensures listed { (ns xs : List K) → IsSubMultiset ns xs ↔ IsIn ns (sub_lists xs) }
    ensures counts { (c : K → K → Ordering) (ns xs : List K) → IsTotalOrder c → IsAntisymmetric c →
        IsSorted c ns → IsSorted c xs →
        IsSubMultiset ns xs ↔ ((n : K) → count_of c n ns ≤ count_of c n xs) }
    ensures ascending { (c : K → K → Ordering) (ns xs : List K) → IsTotalOrder c → IsSorted c xs →
        IsSubMultiset ns xs → IsSorted c ns }
{}
