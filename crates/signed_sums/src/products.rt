// Products of whole numbers.
ghost use Rattle.std.specs.Prelude.{◌≡◌, ◌<◌, ◌≤◌, pos, neg_ℤ, unsigned_abs, cond, MatchOption};
ghost use Rattle.exact_sums.specs.Saturating.{overflow, saturated};
ghost use Rattle.signed_sums.specs.Signed.{is_below, product_of, size_of_product};

use exact_sums::Saturated;

/// The absolute value.
fn absolute(z: &i128) -> Saturated
    ensures { result ≡ saturated (unsigned_abs z.now) }
{
    Saturated::of(z.unsigned_abs())
}

/// Whether a number is below 0.
fn is_below(z: &i128) -> bool
    ensures { result ≡ is_below z.now }
{
    *z < 0
}

/// The number with this absolute value, below 0 or not; `None` exactly where that is out of range.
fn signed(size: Saturated, is_negative: bool) -> Option<i128>
    ensures { MatchOption result (overflow ≤ size)
        (λ z. (z ≡ cond is_negative (neg_ℤ (pos size)) (pos size)) × (size < overflow)) }
{
    let value = size.value()?;
    Some(if is_negative { -value } else { value })
}

/// The product of whole numbers; `None` exactly where that of their absolute values passes
/// 2^127-1. A factor 0 makes it 0, whatever the others are. Takes no memory.
pub fn product(factors: &[i128]) -> Option<i128>
    ensures { MatchOption result (overflow ≤ size_of_product factors.now)
        (λ z. (z ≡ product_of factors.now) × (size_of_product factors.now < overflow)) }
{
    let mut size = Saturated::of(1);
    let mut is_negative = false;
    for factor in factors {
        size = size.times(absolute(factor));
        if is_below(factor) {
            is_negative = !is_negative;
        }
    }
    signed(size, is_negative)
}
