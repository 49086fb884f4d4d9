// Numbers in decimal.
ghost use Rattle.std.specs.Prelude.{◌≡◌, ◌≤◌, ◌+◌, ◌-◌, ◌*◌, ◌++◌, true, OnOk};
ghost use Rattle.std.specs.Char.{is_ascii_digit};
ghost use Rattle.std.specs.List.{list_all};
ghost use Rattle.std.specs.Str.Parse.{digits_value};
ghost use Rattle.exact_sums.specs.Saturating.{saturated};
ghost use Rattle.numerals.specs.Numerals.{numeral, is_numeral};

use exact_sums::Saturated;
use itoa::Buffer;
use std::alloc::AllocError;

/// Appends a number in decimal.
pub fn put_number(out: &mut Vec<u8>, n: u128) -> Result<(), AllocError>
    ensures { OnOk result (out.new.items ≡ out.old.items ++ numeral n) }
{
    let mut buffer = Buffer::new();
    out.extend_from_slice(buffer.format(n).as_bytes())
}

fn are_digits(text: &[u8]) -> bool
    ensures { result ≡ list_all is_ascii_digit text.now }
{
    text.iter().all(|b| b.is_ascii_digit())
}

/// Whether these are the digits of a number above 0, without leading zeros.
pub fn is_numeral(text: &[u8]) -> bool
    ensures { result ≡ is_numeral text.now }
{
    match text {
        [] => false,
        [first, ..] => are_digits(text) && *first != b'0',
    }
}

// The number with one more digit.
fn with_digit(number: Saturated, digit: u8) -> Saturated
    requires { 48 ≤ digit }
    ensures { result ≡ saturated (number * 10 + (digit - 48)) }
{
    let digit = u128::from(digit - b'0');
    number.times(Saturated::of(10)).plus(Saturated::of(digit))
}

/// The number that the digits write, or the overflow where it passes 2^127-1.
pub fn magnitude(digits: &[u8]) -> Saturated
    requires { is_numeral digits.now ≡ true }
    ensures { result ≡ saturated (digits_value 10 digits.now) }
{
    let mut number = Saturated::of(0);
    for digit in digits {
        number = with_digit(number, *digit);
    }
    number
}

#[cfg(test)]
mod tests {
    use super::*;

    #[test]
    fn digits_and_their_numbers(rt: HostRuntime) {
        let cases = [
            (b"1".as_slice(), Some(1)),
            (b"907", Some(907)),
            (
                b"170141183460469231731687303715884105727",
                Some(170141183460469231731687303715884105727),
            ),
            (b"170141183460469231731687303715884105728", None),
            (
                b"99999999999999999999999999999999999999999999999999999999999999999999999999",
                None,
            ),
        ];
        for (text, number) in cases {
            assert!(rt; is_numeral(text));
            assert_eq!(rt; magnitude(text).value(), number);
            if let Some(number) = number {
                let mut out = Vec::new(rt.alloc());
                put_number(&mut out, number as u128).expect(&rt, "memory");
                assert_eq!(rt; out.as_slice(), text);
            }
        }
        for text in [b"".as_slice(), b"0", b"07", b"-1", b"1 ", b"1e3"] {
            assert!(rt; !is_numeral(text));
        }
    }
}
