// The degree that a text writes.
ghost use Rattle.std.specs.Prelude.{◌≡◌, ◌<◌, ◌≤◌, ◌^◌, IfSome, None, option_map};
ghost use Rattle.degree_numbers.specs.DegreeText.{fraction_with, first_large, large_in};
ghost use Rattle.degree_numbers.specs.View.{fraction, part, parts};
ghost use Rattle.degree_numbers.specs.Written.{IsRead};

use crate::degree_text::degree_parts;
use crate::fraction::reduced;
use crate::part::{Fraction, Parts};
use crate::refusal::DegreeRefusal;
use crate::written::WrittenDegree;

const LARGEST: u64 = 1_000_000;

/// The degree that a text writes. Refusals: `DegreeText` where the text is no degree text, then
/// `NumberTooLarge` where a written number passes 1,000,000 (`LARGEST_NUMBER`).
pub fn read_degree(text: &[u8]) -> Result<WrittenDegree, DegreeRefusal>
    ensures { IsRead text.now result }
{
    let Some(parts) = degree_parts(text) else {
        return Err(DegreeRefusal::DegreeText);
    };
    let plain = fraction_with(false, parts);
    let with_k = fraction_with(true, parts);
    if let Some(count) = first_large(parts) {
        return Err(DegreeRefusal::NumberTooLarge {
            count: count as i64,
            has_k: with_k.num != 0,
            above_zero: plain.num != 0 && !plain.negative,
        });
    }
    let a = reduced(plain);
    let b = reduced(with_k);
    Ok(WrittenDegree {
        a_num: a.num,
        a_den: a.den,
        b_num: b.num,
        b_den: b.den,
    })
}

/// The fraction of the part with `k`, or of the plain one, and zero where it is not written.
pub fn fraction_with(has_k: bool, parts: Parts) -> Fraction
    ensures value { fraction result ≡ fraction_with has_k (part parts.first)
        (option_map part parts.second) }
    ensures small { first_large (part parts.first) (option_map part parts.second) ≡ None →
        (result.num ≤ 1000000) × (result.den ≤ 1000000) }
{
    if parts.first.has_k == has_k {
        return parts.first.fraction;
    }
    match parts.second {
        Some(second) => second.fraction,
        None => Fraction {
            negative: false,
            num: 0,
            den: 1,
        },
    }
}

/// The first written number past 1,000,000 (`LARGEST_NUMBER`).
pub fn first_large(parts: Parts) -> Option<u64>
    ensures value { result ≡ first_large (part parts.first) (option_map part parts.second) }
    ensures fits { IfSome result (λ n. n < 2 ^ 63) }
{
    if let Some(n) = large_in(parts.first.fraction) {
        return Some(n);
    }
    large_in(parts.second?.fraction)
}

fn large_in(f: Fraction) -> Option<u64>
    ensures value { result ≡ large_in (fraction f) }
    ensures fits { IfSome result (λ n. n < 2 ^ 63) }
{
    if f.num > LARGEST {
        Some(f.num)
    } else if f.den > LARGEST {
        Some(f.den)
    } else {
        None
    }
}
