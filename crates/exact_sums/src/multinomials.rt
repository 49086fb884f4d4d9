// Binomials and multinomials, with no memory.

ghost use Rattle.std.specs.Prelude.{◌≡◌, ℕ, ◌+◌, ◌*◌, ◌<◌, ◌≤◌, sum};
ghost use Rattle.limits.specs.declared.TheConstants.{MOST_DECORATIONS};
ghost use Rattle.exact_sums.specs.Saturating.{saturated};
ghost use Rattle.exact_sums.specs.Binomials.{binomial, multinomial};

use crate::saturated::{OVERFLOW, Saturated};

/// The value of `c * m / d` where `d` divides `c * m`. No number above that value is made on the
/// way.
fn exact_quotient_of(c: u128, m: u32, d: u32) -> u128
    requires above { 0 < d }
    requires small { d ≤ MOST_DECORATIONS }
    requires factor { m ≤ MOST_DECORATIONS }
    ensures { (v : ℕ) → v * d ≡ c * m → result ≡ saturated v }
{
    let d = u128::from(d);
    let m = u128::from(m);
    let rest = c % d * m / d;
    (c / d).saturating_mul(m).saturating_add(rest).min(OVERFLOW)
}

/// The number of ways to choose `k` of `b + k` things, in `k` steps.
fn binomial_over(b: u32, k: u32) -> Saturated
    requires { b + k ≤ MOST_DECORATIONS }
    ensures { result ≡ saturated (binomial (b + k) k) }
{
    let mut c: u128 = 1;
    for i in 0..k {
        c = exact_quotient_of(c, b + i + 1, i + 1);
        if c == OVERFLOW {
            return Saturated::of(c);
        }
    }
    Saturated::of(c)
}

/// The binomial coefficient: the number of ways to choose `k` of `n` things.
pub fn binomial(n: u32, k: u32) -> Saturated
    requires most { n ≤ MOST_DECORATIONS }
    requires within { k ≤ n }
    ensures { result ≡ saturated (binomial n k) }
{
    let rest = n - k;
    if k <= rest {
        binomial_over(rest, k)
    } else {
        binomial_over(k, rest)
    }
}

/// The multinomial coefficient `(x1 + .. + xm)! / (x1! * .. * xm!)` of the given parts.
pub fn multinomial_of(parts: &[u32]) -> Saturated
    requires { sum parts.now ≤ MOST_DECORATIONS }
    ensures { result ≡ saturated (multinomial parts.now) }
{
    let mut size = 0;
    let mut ways = Saturated::of(1);
    for x in parts {
        size += *x;
        ways = ways.times(binomial(size, *x));
    }
    ways
}

#[cfg(test)]
mod tests {
    use super::*;

    #[test]
    fn multinomials_up_to_the_range(rt: HostRuntime) {
        assert_eq!(rt; multinomial_of(&[]).value(), Some(1));
        assert_eq!(rt; multinomial_of(&[0, 0]).value(), Some(1));
        assert_eq!(rt; multinomial_of(&[2, 1]).value(), Some(3));
        assert_eq!(rt; multinomial_of(&[4, 3, 2, 1]).value(), Some(12600));
        assert_eq!(rt;
            multinomial_of(&[65, 65]).value(),
            Some(95067625827960698145584333020095113100)
        );
        assert_eq!(rt; multinomial_of(&[66, 65]).value(), None);
        assert_eq!(rt;
            multinomial_of(&[1; 33]).value(),
            Some(8683317618811886495518194401280000000)
        );
        assert_eq!(rt; multinomial_of(&[1; 34]).value(), None);
    }
}
