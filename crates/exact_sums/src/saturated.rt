// Numbers up to 2^127 - 1, and one value for all that are larger.

ghost use Rattle.std.specs.Prelude.{◌≡◌, ℕ, ◌+◌, ◌*◌, ◌<◌, ◌≤◌, MatchOption, pos};
ghost use Rattle.std.specs.Coded.{coded_ℕ};
ghost use Rattle.exact_sums.specs.Saturating.{overflow, saturated, saturating_plus, saturating_times};

use std::marker::Model;

/// The value of every number that is out of range: 2^127.
pub(crate) const OVERFLOW: u128 = 170141183460469231731687303715884105728;

/// A number from 0 to 2^127 - 1, or the overflow, which stands for every larger number. Contracts
/// see it as a number, with 2^127 for the overflow.
#[derive(Clone, Copy, Debug, PartialEq, Eq)]
pub struct Saturated {
    raw: u128,
}

impl Model for Saturated {
    ghost Value = { ℕ };

    ghost coded = { coded_ℕ };

    ghost view = { λ s. s.raw };

    ghost invariant = { λ s. s.raw ≤ overflow };

    ghost inverse = { λ n. record { raw = n } };
}

impl Saturated {
    /// The value of a number.
    pub fn of(n: u128) -> Saturated
        ensures { result ≡ saturated n }
    {
        Saturated {
            raw: n.min(OVERFLOW),
        }
    }

    /// The sum.
    pub fn plus(self, other: Saturated) -> Saturated
        ensures { result ≡ saturating_plus self other }
    {
        Saturated::of(self.raw.saturating_add(other.raw))
    }

    /// The product; 0 times the overflow is 0.
    pub fn times(self, other: Saturated) -> Saturated
        ensures { result ≡ saturating_times self other }
    {
        Saturated::of(self.raw.saturating_mul(other.raw))
    }

    /// Shows a caller's proof that a value is at most the overflow.
    pub fn in_range(&self)
        ensures { self.now ≤ overflow }
    {
        let _ = &self.raw;
    }

    /// The number, or `None` exactly where it is out of range.
    pub fn value(self) -> Option<i128>
        ensures { MatchOption result (overflow ≤ self) (λ z. z ≡ pos self) }
    {
        if self.raw < OVERFLOW {
            Some(self.raw as i128)
        } else {
            None
        }
    }
}

#[cfg(test)]
mod tests {
    use super::*;

    const MOST: u128 = 170141183460469231731687303715884105727;

    #[test]
    fn values_at_the_end_of_the_range(rt: HostRuntime) {
        let most = Saturated::of(MOST);
        let one = Saturated::of(1);
        let zero = Saturated::of(0);
        let over = most.plus(one);
        assert_eq!(rt; most.value(), Some(170141183460469231731687303715884105727));
        assert_eq!(rt; over.value(), None);
        assert_eq!(rt; over.plus(over).value(), None);
        assert_eq!(rt; over.times(zero).value(), Some(0));
        assert_eq!(rt; zero.times(over).value(), Some(0));
        assert_eq!(rt; over.times(over).value(), None);
        assert_eq!(rt; most.times(one).value(), most.value());
    }
}
