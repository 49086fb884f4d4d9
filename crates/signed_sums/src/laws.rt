// Laws of formal sums: each is a clause of a function that does nothing.
ghost use Rattle.std.specs.Prelude.{ℤ, List};
ghost use Rattle.std.specs.List.Sorted.{IsSorted};
ghost use Rattle.exact_sums.specs.Keyed.{same_by, IsExactTest};
ghost use Rattle.signed_sums.specs.Signed.{keys, joined, without_zeros, IsSumOf};

/// Terms that are sorted by their keys, joined where neighbours have equal keys, and then without
/// those that cancel, are the sum.
pub fn sorted_sums<K: Copy + Ord>()
    requires { IsExactTest (same_by K.cmp) }
    ensures { (ts : List (K × ℤ)) → IsSorted K.cmp (keys ts) →
        IsSumOf K.cmp ts (without_zeros (joined (same_by K.cmp) ts)) }
{}
