// Denominators.

use std::marker::Model;

/// The denominator of a written fraction, 1 to 2^63-1. Contracts see the number.
#[derive(Clone, Copy, Debug, PartialEq, Eq)]
pub struct Denominator {
    value: u64,
}

impl Model for Denominator {
    ghost use Rattle.std.specs.Prelude.{ℕ, ◌<◌, ◌^◌};
    ghost use Rattle.std.proofs.Common.{refl};

    ghost Value = { ℕ };

    ghost view = { λ d. d.value };

    ghost invariant = { λ d. (0 < d.value) × (d.value < 2 ^ 63) };

    ghost inverse = { λ n. record { value = n } };

    ghost inverse_ok = { λ d h. refl };
}

impl Denominator {
    ghost use Rattle.std.specs.Prelude.{◌≡◌, ◌<◌, ◌^◌};

    /// This number as a denominator.
    pub fn new(value: u64) -> Denominator
        requires above { 0 < value }
        requires fits { value < 2 ^ 63 }
        ensures { result ≡ value }
    {
        Denominator { value }
    }

    /// The number.
    pub fn get(&self) -> u64
        ensures value { result ≡ self.now }
        ensures above { 0 < result }
        ensures fits { result < 2 ^ 63 }
    {
        self.value
    }
}
