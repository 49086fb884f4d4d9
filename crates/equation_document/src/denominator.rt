// Least common denominators.
ghost use Rattle.std.specs.Prelude.{◌≡◌, ◌<◌};
ghost use Rattle.equation_document.specs.Denominator.{least_common};

use degree_numbers::with_denominator;
use right_side_text::WrittenFraction;

/// The least common denominator of fractions, which stops at 2^63-1.
pub fn least_common_of(fractions: &[WrittenFraction]) -> u64
    ensures value { result ≡ least_common fractions.now }
    ensures above { 0 < result }
{
    let mut common = 1;
    for f in fractions {
        common = with_denominator(common, f.num, f.den.get());
    }
    common
}
