// Numbers are read from their texts.
ghost use Rattle.std.specs.Prelude.{◌≡◌, ◌<◌, ◌≤◌, ◌∷◌, ℕ, ℤ, pos, neg_ℤ, unsigned_abs, Some, IfSome, MatchOption, option_map};
ghost use Rattle.exact_sums.specs.Saturating.{overflow};
ghost use Rattle.numerals.specs.Numerals.{numeral};
ghost use Rattle.character_tables.specs.Reading.{behind_minus};
ghost use Rattle.character_tables.specs.Rows.{IsValue};
ghost use Rattle.character_tables.specs.Texts.{number_text};

use exact_sums::Saturated;
use numerals::{is_numeral, magnitude};

fn in_range(value: Saturated) -> Option<i128>
    ensures value { MatchOption result (overflow ≤ value) (λ z. z ≡ pos value) }
    ensures fits { IfSome result (λ z. unsigned_abs z < overflow) }
{
    value.value()
}

/// The number above 0 with these digits, where it is in range.
fn positive(digits: &[u8]) -> Option<i128>
    ensures value { IfSome result (λ z. (0 < unsigned_abs z) × (z ≡ pos (unsigned_abs z))
        × IsValue z × (numeral (unsigned_abs z) ≡ digits.now)) }
    ensures back { (n : ℕ) → 0 < n → n < overflow → numeral n ≡ digits.now → result ≡ Some (pos n) }
{
    if !is_numeral(digits) {
        return None;
    }
    in_range(magnitude(digits))
}

/// Minus a number.
fn opposite(z: &i128) -> i128
    requires { unsigned_abs z.now < overflow }
    ensures { result ≡ neg_ℤ z.now }
{
    -*z
}

/// Minus the number above 0 with these digits, where that is in range.
fn negative(digits: &[u8]) -> Option<i128>
    ensures value { IfSome result (λ z. IsValue z × (number_text z ≡ 45 ∷ digits.now)) }
    ensures back { (z : ℤ) → IsValue z → number_text z ≡ 45 ∷ digits.now → result ≡ Some z }
{
    let Some(number) = positive(digits) else {
        return None;
    };
    Some(opposite(&number))
}

/// The number of at least 0 with these digits, where it is in range.
fn natural(digits: &[u8]) -> Option<i128>
    ensures value { IfSome result (λ z. (z ≡ pos (unsigned_abs z)) × IsValue z
        × (numeral (unsigned_abs z) ≡ digits.now)) }
    ensures back { (n : ℕ) → n < overflow → numeral n ≡ digits.now → result ≡ Some (pos n) }
{
    if digits == b"0".as_slice() {
        return Some(0);
    }
    positive(digits)
}

/// What stands behind a `-` at the front.
fn behind_minus(text: &[u8]) -> Option<&[u8]>
    ensures { option_map (λ x. x.now) result ≡ behind_minus text.now }
{
    match text {
        [b'-', digits @ ..] => Some(digits),
        _ => None,
    }
}

/// The number with this text, where its absolute value is at most 2^127-1.
pub(crate) fn read_number(text: &[u8]) -> Option<i128>
    ensures value { IfSome result (λ z. IsValue z × (number_text z ≡ text.now)) }
    ensures back { (z : ℤ) → IsValue z → number_text z ≡ text.now → result ≡ Some z }
{
    match behind_minus(text) {
        Some(digits) => negative(digits),
        None => natural(text),
    }
}
