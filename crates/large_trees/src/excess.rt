// Degrees above the regularity.
ghost use Rattle.std.specs.Prelude.{◌≡◌, ◌+ℤ◌, ◌-ℤ◌, FitsSigned, true, false};
ghost use Rattle.std.specs.Int.{w128};
ghost use Rattle.large_trees.specs.Lines.{excess_plus, IsAtMost};

use degree_numbers::Degree;

/// By how much a degree lies above the regularity: its standard part, in units of one over the
/// common denominator of the degrees, and its coefficient of `k`.
#[derive(Clone, Copy, Debug, PartialEq, Eq)]
pub struct Excess {
    pub a: i128,
    pub b: i128,
}

impl Excess {
    /// A degree as it is.
    pub fn of(degree: &Degree) -> Excess
        ensures { result ≡ record { a = degree.now.a; b = degree.now.b } }
    {
        Excess {
            a: i128::from(degree.a),
            b: i128::from(degree.b),
        }
    }

    /// The sum, part by part.
    pub fn plus(&self, other: &Excess) -> Excess
        requires a_fits { FitsSigned w128 (self.now.a +ℤ other.now.a) }
        requires b_fits { FitsSigned w128 (self.now.b +ℤ other.now.b) }
        ensures { result ≡ excess_plus self.now other.now }
    {
        Excess {
            a: self.a + other.a,
            b: self.b + other.b,
        }
    }

    /// The difference, part by part.
    pub fn minus(&self, other: &Excess) -> Excess
        requires a_fits { FitsSigned w128 (self.now.a -ℤ other.now.a) }
        requires b_fits { FitsSigned w128 (self.now.b -ℤ other.now.b) }
        ensures { result ≡ record { a = self.now.a -ℤ other.now.a; b = self.now.b -ℤ other.now.b } }
    {
        Excess {
            a: self.a - other.a,
            b: self.b - other.b,
        }
    }

    /// Whether this is at most the other, by standard part, then by the coefficient of `k`.
    pub fn is_at_most(&self, other: &Excess) -> bool
        ensures yes { result ≡ true → IsAtMost self.now other.now }
        ensures no { result ≡ false → IsAtMost other.now self.now }
        ensures never { result ≡ false → IsAtMost self.now other.now → ⊥ }
    {
        self.a < other.a || self.a == other.a && self.b <= other.b
    }
}
