// Texts, read from the left.
ghost use Rattle.std.specs.Prelude.{◌≡◌, ◌==◌, ◌+◌, ◌-◌, ◌*◌, ◌≤◌, ◌<◌, ◌^◌, min, option_map, IfSome};
ghost use Rattle.std.specs.Char.{is_ascii_digit};
ghost use Rattle.std.specs.List.{AllPass, prefix_len};
ghost use Rattle.std.specs.Str.Parse.{digits_value};
ghost use Rattle.text_parts.specs.Reading.{skip, most, digits_len, number_at, mark_at, nonzero_at, nonzero_after, begins_well, ends_well, is_trimmed};

const MOST: u64 = i64::MAX as u64;

// The number with one more digit, which stops at the greatest one.
fn with_digit(number: u64, digit: u8) -> u64
    requires { 48 ≤ digit }
    ensures { result ≡ min (number * 10 + (digit - 48)) most }
{
    let digit = u64::from(digit - b'0');
    number.saturating_mul(10).saturating_add(digit).min(MOST)
}

fn value_of(digits: &[u8]) -> u64
    requires { AllPass is_ascii_digit digits.now }
    ensures { result ≡ min (digits_value 10 digits.now) most }
{
    let mut number = 0;
    for digit in digits {
        number = with_digit(number, *digit);
    }
    number
}

// How many spaces stand at the front.
fn spaces_len(text: &[u8]) -> usize
    ensures { result ≡ prefix_len (λ c. c == 32) text.now }
{
    text.iter().take_while(|b| **b == b' ').count()
}

/// What follows the spaces at the front.
#[tactic(auto, unfolding(crate::specs::Reading::skip))]
pub fn skip(text: &[u8]) -> &[u8]
    ensures { result.now ≡ skip text.now }
{
    text.split_at(spaces_len(text)).1
}

// How many digits stand at the front.
fn digits_len(text: &[u8]) -> usize
    ensures { result ≡ digits_len text.now }
{
    text.iter().take_while(|b| b.is_ascii_digit()).count()
}

/// A whole number, and what follows it and the spaces after it. A number past 2^63-1 counts as
/// 2^63-1.
#[tactic(auto, unfolding(crate::specs::Reading::number_at))]
pub fn number_of(text: &[u8]) -> Option<(u64, &[u8])>
    ensures value { option_map (λ x. (x.0, x.1.now)) result ≡ number_at text.now }
    ensures fits { IfSome result (λ x. x.0 < 2 ^ 63) }
{
    let count = digits_len(text);
    if count == 0 {
        return None;
    }
    let (digits, rest) = text.split_at(count);
    Some((value_of(digits), skip(rest)))
}

/// What follows this byte and the spaces after it, where it stands at the front.
#[tactic(auto, unfolding(crate::specs::Reading::mark_at))]
pub fn mark_of(mark: u8, text: &[u8]) -> Option<&[u8]>
    ensures { option_map (λ x. x.now) result ≡ mark_at mark text.now }
{
    match text {
        [c, rest @ ..] if *c == mark => Some(skip(rest)),
        _ => None,
    }
}

/// A whole number that is not 0.
#[tactic(auto, unfolding(crate::specs::Reading::nonzero_at))]
pub fn nonzero_of(text: &[u8]) -> Option<(u64, &[u8])>
    ensures value { option_map (λ x. (x.0, x.1.now)) result ≡ nonzero_at text.now }
    ensures above { IfSome result (λ x. 0 < x.0) }
    ensures fits { IfSome result (λ x. x.0 < 2 ^ 63) }
{
    let (number, rest) = number_of(text)?;
    if number == 0 {
        None
    } else {
        Some((number, rest))
    }
}

/// A byte and a whole number that is not 0 behind it; 1 where the byte is not there.
#[tactic(auto, unfolding(crate::specs::Reading::nonzero_after))]
pub fn nonzero_behind(mark: u8, text: &[u8]) -> Option<(u64, &[u8])>
    ensures value { option_map (λ x. (x.0, x.1.now)) result ≡ nonzero_after mark text.now }
    ensures above { IfSome result (λ x. 0 < x.0) }
    ensures fits { IfSome result (λ x. x.0 < 2 ^ 63) }
{
    match mark_of(mark, text) {
        Some(rest) => nonzero_of(rest),
        None => Some((1, text)),
    }
}

fn begins_well(text: &[u8]) -> bool
    ensures { result ≡ begins_well text.now }
{
    match text {
        [] => true,
        [c, ..] => *c != b' ',
    }
}

fn ends_well(text: &[u8]) -> bool
    ensures { result ≡ ends_well text.now }
{
    match text.last() {
        None => true,
        Some(c) => *c != b' ',
    }
}

/// Whether no space stands at the front or at the end.
pub fn is_trimmed(text: &[u8]) -> bool
    ensures { result ≡ is_trimmed text.now }
{
    begins_well(text) && ends_well(text)
}
