// Multinomial coefficients.
ghost use Rattle.std.specs.Prelude.{◌≡◌, ◌≤◌, sum, pos, MatchOption};
ghost use Rattle.exact_sums.specs.Binomials.{multinomial};
ghost use Rattle.exact_sums.specs.Saturating.{overflow};

use exact_sums::multinomial_of;

/// The multinomial coefficient `(x1 + .. + xm)! / (x1! * .. * xm!)` of the parts: `None` exactly
/// where it passes 2^127-1.
pub fn multinomial(parts: &[u32]) -> Option<i128>
    requires { sum parts.now ≤ 4096 }
    ensures { MatchOption result (overflow ≤ multinomial parts.now) (λ z. z
        ≡ pos (multinomial parts.now)) }
{
    multinomial_of(parts).value()
}
