// Common denominators of degrees.
ghost use Rattle.std.specs.Prelude.{◌≡◌, ◌≤◌, ◌<◌, ◌/◌, ◌++◌, List, [], ◌∷◌, Bool, ℕ, pos, unsigned_abs, ◌*ℤ◌, ◌<ℤ◌, ◌≤ℤ◌, IfOk, IfErr};
ghost use Rattle.std.specs.List.{AllByRecursion};
ghost use Rattle.std.specs.Int.{IsGcd, ◌∣◌};
ghost use Rattle.degree_numbers.specs.Fraction.{Fraction as Plain, IsCommon};
ghost use Rattle.degree_numbers.specs.declared.refusal.DegreeRefusal.TheVariants.{DenominatorTooLarge};
ghost use Rattle.degree_numbers.specs.Units.{IsJoined, Separates, fraction_of, fractions, AreUnits, IsWholeIn, IsPast};

use crate::degree::{Degree, Units};
use crate::fraction::gcd;
use crate::refusal::DegreeRefusal;
use crate::written::WrittenDegree;

const MOST: u64 = i64::MAX as u64;

const LARGEST: u64 = 1_000_000;

// The denominator of a fraction in lowest terms.
fn lowest_denominator(num: u64, den: u64) -> u64
    requires { 0 < den }
    ensures { Separates result num den }
{
    den / gcd(num, den)
}

// The least common multiple, which stops at the greatest number.
fn joined(a: u64, b: u64) -> u64
    requires a { 0 < a }
    requires b { 0 < b }
    ensures { IsJoined result a b }
{
    (a / gcd(a, b)).saturating_mul(b).min(MOST)
}

/// The least common denominator of fractions and one more, where `common` is that of the fractions;
/// it stops at 2^63-1.
pub fn with_denominator(common: u64, num: u64, den: u64) -> u64
    requires common { 0 < common }
    requires den { 0 < den }
    ensures above { 0 < result }
    ensures value { (negative : Bool) (fs : List Plain) → IsCommon common fs →
        IsCommon result (fs ++ record { negative = negative; num = num; den = den } ∷ []) }
{
    if common >= MOST {
        return common;
    }
    joined(common, lowest_denominator(num, den))
}

// With both fractions of a degree.
fn with_degree(common: u64, w: &WrittenDegree) -> u64
    requires { 0 < common }
    ensures above { 0 < result }
    ensures value { (fs : List Plain) → IsCommon common fs →
        IsCommon result (fs ++ fraction_of w.now.a_num w.now.a_den ∷ fraction_of w.now.b_num
        w.now.b_den ∷ []) }
{
    let common = with_denominator(common, w.a_num.unsigned_abs(), w.a_den.unsigned_abs());
    with_denominator(common, w.b_num.unsigned_abs(), w.b_den.unsigned_abs())
}

/// The least common denominator of the degrees, which stops at 2^63-1.
pub fn common_denominator(list: &[WrittenDegree]) -> u64
    ensures { IsCommon result (fractions list.now) }
{
    let mut common = 1;
    for w in list {
        common = with_degree(common, w);
    }
    common
}

/// The least common denominator of the degrees. Refusal: `DenominatorTooLarge` exactly where it
/// passes 1,000,000 (`LARGEST_NUMBER`).
pub fn join_units(list: &[WrittenDegree]) -> Result<Units, DegreeRefusal>
    ensures ok { IfOk result (λ u. AreUnits (fractions list.now) u.den) }
    ensures whole { IfOk result (λ u. AllByRecursion (λ d. IsWholeIn d u.den) list.now) }
    ensures err { IfErr result (λ e. (e ≡ DenominatorTooLarge) × IsPast (fractions list.now)) }
{
    let common = common_denominator(list);
    if common > LARGEST {
        return Err(DegreeRefusal::DenominatorTooLarge);
    }
    Ok(Units { den: common as i64 })
}

// How often den goes into unit.
fn times(den: u64, unit: u64) -> i64
    requires above { 0 < den }
    requires fits { unit ≤ 1000000 }
    ensures value { result ≡ pos (unit / den) }
    ensures fits { unsigned_abs result ≤ 1000000 }
{
    (unit / den) as i64
}

// num over den, in units of one over unit.
fn in_unit(num: i64, den: i64, unit: i64) -> i64
    requires num { unsigned_abs num ≤ 1000000 }
    requires den { pos 0 <ℤ den }
    requires den_fits { den ≤ℤ pos 1000000 }
    requires above { pos 0 <ℤ unit }
    requires fits { unit ≤ℤ pos 1000000 }
    requires whole { unsigned_abs den ∣ unsigned_abs unit }
    ensures { result *ℤ den ≡ num *ℤ unit }
{
    num * times(den.unsigned_abs(), unit.unsigned_abs())
}

/// The degree in these units, exactly.
pub fn in_units(w: &WrittenDegree, units: Units) -> Degree
    requires above { pos 0 <ℤ units.den }
    requires fits { units.den ≤ℤ pos 1000000 }
    requires whole { IsWholeIn w.now units.den }
    ensures a { result.a *ℤ w.now.a_den ≡ w.now.a_num *ℤ units.den }
    ensures b { result.b *ℤ w.now.b_den ≡ w.now.b_num *ℤ units.den }
{
    Degree {
        a: in_unit(w.a_num, w.a_den, units.den),
        b: in_unit(w.b_num, w.b_den, units.den),
    }
}
