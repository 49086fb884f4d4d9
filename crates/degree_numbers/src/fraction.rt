// Fractions brought to lowest terms.
ghost use Rattle.std.specs.Prelude.{◌≡◌, ◌≤◌, ◌<◌, ◌^◌, unsigned_abs};
ghost use Rattle.std.specs.Int.{IsGcd};
ghost use Rattle.degree_numbers.specs.Fraction.{IsLowest, IsReduced, under_sign};
ghost use Rattle.degree_numbers.specs.View.{fraction};

use crate::part::Fraction;
use crate::reduced::Reduced;

pub fn gcd(a: u64, b: u64) -> u64
    ensures { IsGcd a b result }
{
    let mut x = a;
    let mut y = b;
    while y != 0 {
        let rest = x % y;
        x = y;
        y = rest;
    }
    x
}

/// The same fraction in lowest terms.
pub fn lowest(num: u64, den: u64) -> (u64, u64)
    requires { 0 < den }
    ensures lowest { IsLowest num den result.0 result.1 }
    ensures num_falls { result.0 ≤ num }
    ensures den_falls { result.1 ≤ den }
{
    let divisor = gcd(num, den);
    (num / divisor, den / divisor)
}

/// The fraction in lowest terms.
pub fn reduced(f: Fraction) -> Reduced
    requires num { f.num ≤ 1000000 }
    requires den { f.den ≤ 1000000 }
    ensures { IsReduced (fraction f) result.num result.den }
{
    let (size, den) = lowest(f.num, f.den);
    Reduced {
        num: under_sign(f.negative, size),
        den: under_sign(false, den),
    }
}

fn under_sign(negative: bool, size: u64) -> i64
    requires { size < 2 ^ 63 }
    ensures value { result ≡ under_sign negative size }
    ensures size { unsigned_abs result ≡ size }
{
    let size = size as i64;
    if negative { -size } else { size }
}
