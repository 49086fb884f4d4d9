// Multiindices.
ghost use Rattle.std.specs.Prelude.{◌≡◌, ◌<◌, ◌^◌, ◌+◌, ◌∷◌, [], ℕ, sum, slice_index, IsTrue, ◌↔◌, IfSome, IsSome};
ghost use Rattle.degree_numbers.specs.Multi.{is_zero, plus_of, minus_of, IsAtMost, multi_order};

use std::cmp::Ordering;

/// A multiindex, by direction: a derivative, or a decoration of a node.
///
/// **Order.** Lexicographic from the first entry, the direction of time where there is one; `order`
/// and the derived order are this one.
///
/// **Units.** Entries count derivatives or powers; the scaled size of a multiindex, the sum of its
/// entries times those of the scaling, is that of the types.
///
/// **Invariants.** There are always five entries, `MOST_DIMENSIONS`. Those past the number of
/// directions are 0: calls that need it ask for it, since a multiindex doesn't know the directions.
///
/// **Example.** In time and one space direction, of scaling 2 and 1, two derivatives in space and
/// one in time are the entries `[1, 2, 0, 0, 0]`, printed as `(1,2)`, of scaled size 4.
#[derive(Clone, Copy, Debug, PartialEq, Eq, PartialOrd, Ord, Hash)]
pub struct Multi {
    pub entries: [u32; 5],
}

impl Multi {
    /// The multiindex with all entries 0.
    pub fn zero() -> Multi
        ensures { result.entries ≡ 0 ∷ 0 ∷ 0 ∷ 0 ∷ 0 ∷ [] }
    {
        Multi { entries: [0; 5] }
    }

    /// Whether all entries are 0.
    pub fn is_zero(&self) -> bool
        ensures { result ≡ is_zero self.now.entries }
    {
        self.entries.iter().all(|x| *x == 0)
    }

    /// The sum, entry by entry.
    pub fn plus(&self, other: &Multi) -> Multi
        requires { (k : ℕ) → k < 5 →
            slice_index self.now.entries k + slice_index other.now.entries k < 2 ^ 31 }
        ensures { result.entries ≡ plus_of self.now.entries other.now.entries }
    {
        let a = &self.entries;
        let b = &other.entries;
        Multi {
            entries: [
                a[0] + b[0],
                a[1] + b[1],
                a[2] + b[2],
                a[3] + b[3],
                a[4] + b[4],
            ],
        }
    }

    /// The difference, entry by entry: `None` exactly where an entry of `other` is greater.
    pub fn minus(&self, other: &Multi) -> Option<Multi>
        ensures some { IfSome result (λ m. m.entries
            ≡ minus_of self.now.entries other.now.entries) }
        ensures variant { IsSome result ↔ IsAtMost other.now.entries self.now.entries }
    {
        if other.at_most(self) {
            let a = &self.entries;
            let b = &other.entries;
            Some(Multi {
                entries: [
                    a[0] - b[0],
                    a[1] - b[1],
                    a[2] - b[2],
                    a[3] - b[3],
                    a[4] - b[4],
                ],
            })
        } else {
            None
        }
    }

    /// Whether no entry is greater than that of `other`.
    pub fn at_most(&self, other: &Multi) -> bool
        ensures { IsTrue result ↔ IsAtMost self.now.entries other.now.entries }
    {
        for i in 0..5 {
            if self.entries[i] > other.entries[i] {
                return false;
            }
        }
        true
    }

    /// Lexicographic order, from the first entry.
    pub fn order(&self, other: &Multi) -> Ordering
        ensures { result ≡ multi_order self.now.entries other.now.entries }
    {
        self.cmp(other)
    }

    /// The sum of the entries.
    pub fn total(&self) -> u32
        requires { sum self.now.entries < 2 ^ 31 }
        ensures { result ≡ sum self.now.entries }
    {
        let a = &self.entries;
        a[0] + a[1] + a[2] + a[3] + a[4]
    }
}
