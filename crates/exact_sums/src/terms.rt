// Formal sums as lists of terms, each a key with a coefficient.

ghost use Rattle.std.specs.Prelude.{◌≡◌, ℕ, ◌+◌, ◌<◌, ◌≤◌, length, take};
ghost use Rattle.std.specs.List.{All, AllByRecursion};
ghost use Rattle.std.specs.List.Sorted.{IsSorted};
ghost use Rattle.exact_sums.specs.Saturating.{overflow};
ghost use Rattle.exact_sums.specs.Keyed.{joined_neighbours, keys, IsExactTest, HaveSameSaturatedSums, IsCollected};

use crate::saturated::Saturated;

/// Joins neighbours with equal keys at the front, and says how many terms that makes.
fn join_front<K: Copy + PartialEq>(terms: &mut [(K, Saturated)]) -> usize
    requires some { 0 < length terms.old }
    ensures joined { take result terms.new ≡ joined_neighbours K.eq terms.old }
{
    let mut last = 0;
    for i in 1..terms.len() {
        let next = terms[i];
        if next.0 == terms[last].0 {
            terms[last].1 = terms[last].1.plus(next.1);
        } else {
            last += 1;
            terms[last] = next;
        }
    }
    last + 1
}

/// Joins neighbours that have equal keys, and adds their coefficients.
pub fn join_equal<K: Copy + PartialEq>(terms: &mut Vec<(K, Saturated)>)
    ensures { terms.new.items ≡ joined_neighbours K.eq terms.old.items }
{
    if !terms.is_empty() {
        let n = join_front(terms.as_mut_slice());
        terms.truncate(n);
    }
}

/// Shows a caller's proof that all coefficients are at most the overflow.
pub fn all_in_range<K: Copy>(terms: &[(K, Saturated)])
    ensures { All (λ t. t.1 ≤ overflow) terms.now }
{
    for t in terms {
        t.1.in_range();
    }
}

/// Collects a list of terms that is sorted by its keys: each key once, with the sum of its
/// coefficients.
pub fn join_sorted<K: Copy + Ord>(terms: &mut Vec<(K, Saturated)>)
    requires exact { IsExactTest K.eq }
    requires sorted { IsSorted K.cmp (keys terms.old.items) }
    requires above { AllByRecursion (λ t. 0 < t.1) terms.old.items }
    ensures sums { HaveSameSaturatedSums K.eq terms.new.items terms.old.items }
    ensures collected { IsCollected K.cmp terms.new.items }
{
    all_in_range(terms.as_slice());
    join_equal(terms);
}

/// Collects a list of terms: sorted, each key once, with the sum of its coefficients.
pub fn collect_terms<K: Copy + Ord>(terms: &mut Vec<(K, Saturated)>)
    requires exact { IsExactTest K.eq }
    requires above { AllByRecursion (λ t. 0 < t.1) terms.old.items }
    ensures sums { HaveSameSaturatedSums K.eq terms.new.items terms.old.items }
    ensures collected { IsCollected K.cmp terms.new.items }
{
    terms.sort_unstable_by_key(|t| t.0);
    join_sorted(terms);
}

#[cfg(test)]
mod tests {
    use super::*;
    use std::alloc::AllocError;

    #[derive(Clone, Copy, Debug, PartialEq, Eq, PartialOrd, Ord)]
    struct Pair {
        forest: u32,
        tree: u32,
    }

    fn term(forest: u32, tree: u32, coefficient: u128) -> (Pair, Saturated) {
        (Pair { forest, tree }, Saturated::of(coefficient))
    }

    #[test]
    fn equal_keys_are_collected(rt: HostRuntime) -> Result<(), AllocError> {
        let mut terms = Vec::new(rt.alloc());
        terms.push(term(2, 1, 5))?;
        terms.push(term(1, 7, 1))?;
        terms.push(term(2, 1, 6))?;
        terms.push(term(1, 2, 3))?;
        terms.push(term(1, 7, 1))?;
        join_equal(&mut terms);
        assert_eq!(rt; terms.len(), 5);
        terms.sort_unstable_by_key(|t| t.0);
        join_equal(&mut terms);
        assert_eq!(rt; terms.len(), 3);
        assert_eq!(rt; terms[0], term(1, 2, 3));
        assert_eq!(rt; terms[1], term(1, 7, 2));
        assert_eq!(rt; terms[2], term(2, 1, 11));
        Ok(())
    }
}
