// Laws of the distinct members of a list.
ghost use Rattle.std.specs.Prelude.{◌≡◌, ◌≤◌, ◌↔◌, ℕ, List, length};
ghost use Rattle.std.specs.declared.cmp.Ordering.{Ordering};
ghost use Rattle.std.specs.Cmp.{IsTotalOrder};
ghost use Rattle.std.specs.FinMap.{IsAntisymmetric};
ghost use Rattle.exact_sums.specs.Sums.{total};
ghost use Rattle.ordered_lists.specs.Members.{IsIn};
ghost use Rattle.ordered_lists.specs.Subs.{count_of};
ghost use Rattle.multiplicities.specs.Distinct.{distinct_by, AreDistinct};

/// The distinct members of a list are its members, each once; and of two lists without repetition
/// with the same members neither is longer.
pub fn distinct_laws<K>()
    ensures members { (c : K → K → Ordering) (xs : List K) (x : K) → IsTotalOrder c →
        IsAntisymmetric c → IsIn x xs ↔ IsIn x (distinct_by c xs) }
    ensures distinct { (c : K → K → Ordering) (xs : List K) → IsTotalOrder c → IsAntisymmetric c →
        AreDistinct (distinct_by c xs) }
    ensures fewer { (xs ys : List K) → AreDistinct xs → ((x : K) → IsIn x xs → IsIn x ys) →
        length xs ≤ length ys }
{}

/// The multiplicities of the distinct members add up to the length of the list.
pub fn grouping_laws<K>()
    ensures { (c : K → K → Ordering) (xs : List K) → IsTotalOrder c → IsAntisymmetric c →
        total (λ x. count_of c x xs) (distinct_by c xs) ≡ length xs }
{}
