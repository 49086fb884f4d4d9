// Degrees in units of one over a common denominator.
ghost use Rattle.std.specs.Prelude.{◌≡◌, ◌+ℤ◌, FitsSigned};
ghost use Rattle.std.specs.Int.{w64};
ghost use Rattle.degree_numbers.specs.Degree.{degree_plus, degree_order};

use std::cmp::Ordering;

/// The common denominator of the degrees of a file, 1 to 1,000,000 (`LARGEST_NUMBER`).
#[derive(Clone, Copy, Debug, PartialEq, Eq)]
pub struct Units {
    pub den: i64,
}

/// The degree `a + b*k`, where `k` stands for a positive number that is as small as one likes.
///
/// **Order.** By the standard part `a`, then by the coefficient `b` of `k`; `order` and the derived
/// order are this one.
///
/// **Units.** Both parts are in units of one over the common denominator, which the types keep and
/// a degree does not know: degrees of different types can't be compared.
///
/// **Invariants.** None of its own. Those of accepted files are at most 20 in size, part by part,
/// `LARGEST_DEGREE`.
///
/// **Example.** In units of one half, `-3/2-k` is `Degree { a: -3, b: -2 }`; it comes before
/// `-3/2`, which comes before `-1-k`.
#[derive(Clone, Copy, Debug, PartialEq, Eq, PartialOrd, Ord)]
pub struct Degree {
    pub a: i64,
    pub b: i64,
}

impl Degree {
    /// The sum, part by part.
    pub fn plus(&self, other: &Degree) -> Degree
        requires a_fits { FitsSigned w64 (self.now.a +ℤ other.now.a) }
        requires b_fits { FitsSigned w64 (self.now.b +ℤ other.now.b) }
        ensures { result ≡ degree_plus self.now other.now }
    {
        Degree {
            a: self.a + other.a,
            b: self.b + other.b,
        }
    }

    /// The order by standard part, then by the coefficient of `k`.
    pub fn order(&self, other: &Degree) -> Ordering
        ensures { result ≡ degree_order self.now other.now }
    {
        self.cmp(other)
    }
}
