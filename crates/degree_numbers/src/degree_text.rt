// Degree texts, read from the left.
ghost use Rattle.std.specs.Prelude.{◌≡◌, option_map};
ghost use Rattle.degree_numbers.specs.DegreeText.{factor_at, multiple_at, part_at, sign_at, first_at, second_at, parts_at, written_of};
ghost use Rattle.degree_numbers.specs.View.{part, parts};

use crate::part::{Fraction, Part, Parts};
use text_parts::{is_trimmed, mark_of, nonzero_behind, number_of};

#[tactic(auto, unfolding(crate::specs::DegreeText::factor_at))]
fn factor_of(text: &[u8]) -> Option<(bool, &[u8])>
    ensures { option_map (λ x. (x.0, x.1.now)) result ≡ factor_at text.now }
{
    match mark_of(b'*', text) {
        Some(rest) => Some((true, mark_of(b'k', rest)?)),
        None => Some((false, text)),
    }
}

#[tactic(auto, unfolding(crate::specs::DegreeText::multiple_at))]
fn multiple_of(negative: bool, text: &[u8]) -> Option<(Part, &[u8])>
    ensures { option_map (λ x. (part x.0, x.1.now)) result ≡ multiple_at negative text.now }
{
    let (num, rest) = number_of(text)?;
    let (den, rest) = nonzero_behind(b'/', rest)?;
    let (has_k, rest) = factor_of(rest)?;
    let fraction = Fraction { negative, num, den };
    Some((Part { fraction, has_k }, rest))
}

#[tactic(auto, unfolding(crate::specs::DegreeText::part_at))]
fn part_of(negative: bool, text: &[u8]) -> Option<(Part, &[u8])>
    ensures { option_map (λ x. (part x.0, x.1.now)) result ≡ part_at negative text.now }
{
    match mark_of(b'k', text) {
        Some(rest) => {
            let unit = Fraction {
                negative,
                num: 1,
                den: 1,
            };
            Some((
                Part {
                    fraction: unit,
                    has_k: true,
                },
                rest,
            ))
        }
        None => multiple_of(negative, text),
    }
}

#[tactic(auto, unfolding(crate::specs::DegreeText::sign_at))]
fn sign_of(text: &[u8]) -> Option<(bool, &[u8])>
    ensures { option_map (λ x. (x.0, x.1.now)) result ≡ sign_at text.now }
{
    match mark_of(b'+', text) {
        Some(rest) => Some((false, rest)),
        None => Some((true, mark_of(b'-', text)?)),
    }
}

#[tactic(auto, unfolding(crate::specs::DegreeText::first_at))]
fn first_of(text: &[u8]) -> Option<(Part, &[u8])>
    ensures { option_map (λ x. (part x.0, x.1.now)) result ≡ first_at text.now }
{
    let (negative, rest) = sign_of(text).unwrap_or((false, text));
    part_of(negative, rest)
}

#[tactic(auto, unfolding(crate::specs::DegreeText::second_at))]
fn second_of(text: &[u8]) -> Option<Option<Part>>
    ensures { option_map (option_map part) result ≡ second_at text.now }
{
    if text.is_empty() {
        return Some(None);
    }
    let (negative, rest) = sign_of(text)?;
    let (part, rest) = part_of(negative, rest)?;
    if rest.is_empty() {
        Some(Some(part))
    } else {
        None
    }
}

#[tactic(auto, unfolding(crate::specs::DegreeText::parts_at))]
fn parts_of(text: &[u8]) -> Option<Parts>
    ensures { option_map (λ x. (part x.first, option_map part x.second)) result
        ≡ parts_at text.now }
{
    let (first, rest) = first_of(text)?;
    let second = second_of(rest)?;
    match second {
        Some(second) if second.has_k == first.has_k => None,
        _ => Some(Parts { first, second }),
    }
}

/// The parts of a degree text.
#[tactic(auto, unfolding(crate::specs::DegreeText::written_of))]
pub fn degree_parts(text: &[u8]) -> Option<Parts>
    ensures { option_map parts result ≡ written_of text.now }
{
    if is_trimmed(text) {
        parts_of(text)
    } else {
        None
    }
}
