// The masses of multiples, sums and products, where they are at most 2^127-1.
ghost use Rattle.std.specs.Prelude.{◌≡◌, ◌<◌, ◌≤◌, ◌+◌, ◌*◌, pos, IfSome, MatchOption, unsigned_abs};
ghost use Rattle.exact_sums.specs.Saturating.{overflow};

use crate::poly::Poly;
use exact_sums::Saturated;

pub(crate) fn scaled_mass(f: &Poly, by: i128) -> Option<i128>
    ensures value { MatchOption result (overflow ≤ unsigned_abs by * unsigned_abs f.now.mass)
        (λ z. z ≡ pos (unsigned_abs by * unsigned_abs f.now.mass)) }
    ensures fits { IfSome result (λ z. unsigned_abs by * unsigned_abs f.now.mass < overflow) }
{
    Saturated::of(by.unsigned_abs())
        .times(Saturated::of(f.mass.unsigned_abs()))
        .value()
}

pub(crate) fn mass_sum(f: &Poly, g: &Poly) -> Option<i128>
    ensures value { MatchOption result (overflow ≤ unsigned_abs f.now.mass
        + unsigned_abs g.now.mass) (λ z. z
        ≡ pos (unsigned_abs f.now.mass + unsigned_abs g.now.mass)) }
    ensures fits { IfSome result (λ z. unsigned_abs f.now.mass + unsigned_abs g.now.mass
        < overflow) }
{
    Saturated::of(f.mass.unsigned_abs())
        .plus(Saturated::of(g.mass.unsigned_abs()))
        .value()
}

pub(crate) fn mass_product(f: &Poly, g: &Poly) -> Option<i128>
    ensures value { MatchOption result (overflow ≤ unsigned_abs f.now.mass
        * unsigned_abs g.now.mass) (λ z. z
        ≡ pos (unsigned_abs f.now.mass * unsigned_abs g.now.mass)) }
    ensures fits { IfSome result (λ z. unsigned_abs f.now.mass * unsigned_abs g.now.mass
        < overflow) }
{
    Saturated::of(f.mass.unsigned_abs())
        .times(Saturated::of(g.mass.unsigned_abs()))
        .value()
}
