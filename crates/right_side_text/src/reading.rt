// Right sides, read from the left.
ghost use Rattle.std.specs.Prelude.{◌≡◌, ◌==◌, [], length, option_map, not};
ghost use Rattle.text_parts.specs.Reading.{digits_len};
ghost use Rattle.std.specs.List.{prefix_len};
ghost use Rattle.degree_numbers.specs.Name.{is_name_byte};
ghost use Rattle.right_side_text.specs.Gives.{Gives};
ghost use Rattle.right_side_text.specs.Grammar.{name_at, entry_at, entries_at, derivative_at, factor_at, factors_at, coefficient_at, bare_at, with_coefficient_at, term_at, sign_at, terms_at, first_at, sum_at, right_side};

use crate::denominator::Denominator;
use crate::fault::ReadError;
use crate::written::{WrittenFactor, WrittenFraction, WrittenTerm};
use degree_numbers::Name;
use sqlite_items::Items;
use std::alloc::Global;
use text_parts::{is_trimmed, mark_of, nonzero_behind, number_of, skip};

fn is_name_byte(c: u8) -> bool
    ensures { result ≡ is_name_byte c }
{
    c.is_ascii_alphabetic() || c.is_ascii_digit() || c == b'_'
}

fn name_len(text: &[u8]) -> usize
    ensures { result ≡ prefix_len is_name_byte text.now }
{
    text.iter().take_while(|b| is_name_byte(**b)).count()
}

#[tactic(auto, unfolding(crate::specs::Grammar::name_at))]
fn name_of(text: &[u8]) -> Option<(Name, &[u8])>
    ensures { option_map (λ x. (x.0, x.1.now)) result ≡ name_at text.now }
{
    let (word, rest) = text.split_at(name_len(text));
    match Name::new(word) {
        Some(name) => Some((name, skip(rest))),
        None => None,
    }
}

#[tactic(auto, unfolding(crate::specs::Grammar::entry_at))]
fn entry_of(mark: u8, text: &[u8]) -> Option<(u64, &[u8])>
    ensures { option_map (λ x. (x.0, x.1.now)) result ≡ entry_at mark text.now }
{
    number_of(mark_of(mark, text)?)
}

fn entries_of(alloc: Global, dims: usize, text: &[u8]) -> Result<(Items<u64>, &[u8]), ReadError>
    ensures { Gives (λ x. (x.0, x.1.now)) result (entries_at dims 40 [] text.now) }
{
    let mut entries = Items::new(alloc);
    let mut rest = text;
    let mut mark = b'(';
    for _ in 0..dims {
        let Some((entry, after)) = entry_of(mark, rest) else {
            return Err(ReadError::Outside);
        };
        entries.push(entry)?;
        rest = after;
        mark = b',';
    }
    Ok((entries, rest))
}

#[tactic(auto, unfolding(crate::specs::Grammar::derivative_at))]
fn derivative_of(alloc: Global, dims: usize, text: &[u8]) -> Result<(Items<u64>, &[u8]), ReadError>
    ensures { Gives (λ x. (x.0, x.1.now)) result (derivative_at dims text.now) }
{
    let Some(rest) = mark_of(b'\'', text) else {
        return Ok((Items::new(alloc), text));
    };
    let (entries, rest) = entries_of(alloc, dims, rest)?;
    let Some(rest) = mark_of(b')', rest) else {
        return Err(ReadError::Outside);
    };
    Ok((entries, rest))
}

#[tactic(auto, unfolding(crate::specs::Grammar::factor_at))]
fn factor_of(alloc: Global, dims: usize, text: &[u8]) -> Result<(WrittenFactor, &[u8]), ReadError>
    ensures { Gives (λ x. (x.0, x.1.now)) result (factor_at dims text.now) }
{
    let Some((name, rest)) = name_of(text) else {
        return Err(ReadError::Outside);
    };
    let (entries, rest) = derivative_of(alloc, dims, rest)?;
    let Some((power, rest)) = nonzero_behind(b'^', rest) else {
        return Err(ReadError::Outside);
    };
    Ok((
        WrittenFactor {
            name,
            entries,
            power,
        },
        rest,
    ))
}

fn factors_of(
    alloc: Global,
    dims: usize,
    text: &[u8],
) -> Result<(Items<WrittenFactor>, &[u8]), ReadError>
    ensures { Gives (λ x. (x.0, x.1.now)) result (factors_at (length text.now) dims [] text.now) }
{
    let mut found = Items::new(alloc);
    let mut rest = text;
    for _ in 0..text.len() {
        let (factor, after) = factor_of(alloc, dims, rest)?;
        found.push(factor)?;
        match mark_of(b'*', after) {
            Some(next) => rest = next,
            None => return Ok((found, after)),
        }
    }
    Err(ReadError::Outside)
}

#[tactic(auto, unfolding(crate::specs::Grammar::coefficient_at))]
fn coefficient_of(negative: bool, text: &[u8]) -> Option<(WrittenFraction, &[u8])>
    ensures { option_map (λ x. (x.0, x.1.now)) result ≡ coefficient_at negative text.now }
{
    let (num, rest) = number_of(text)?;
    let (den, rest) = nonzero_behind(b'/', rest)?;
    let den = Denominator::new(den);
    Some((WrittenFraction { negative, num, den }, rest))
}

#[tactic(auto, unfolding(crate::specs::Grammar::bare_at))]
fn bare_of(
    alloc: Global,
    dims: usize,
    negative: bool,
    text: &[u8],
) -> Result<(WrittenTerm, &[u8]), ReadError>
    ensures { Gives (λ x. (x.0, x.1.now)) result (bare_at dims negative text.now) }
{
    let (factors, rest) = factors_of(alloc, dims, text)?;
    let coefficient = WrittenFraction {
        negative,
        num: 1,
        den: Denominator::new(1),
    };
    Ok((
        WrittenTerm {
            coefficient,
            factors,
        },
        rest,
    ))
}

#[tactic(auto, unfolding(crate::specs::Grammar::with_coefficient_at))]
fn with_coefficient_of(
    alloc: Global,
    dims: usize,
    negative: bool,
    text: &[u8],
) -> Result<(WrittenTerm, &[u8]), ReadError>
    ensures { Gives (λ x. (x.0, x.1.now)) result (with_coefficient_at dims negative text.now) }
{
    let Some((coefficient, rest)) = coefficient_of(negative, text) else {
        return Err(ReadError::Outside);
    };
    let (factors, rest) = match mark_of(b'*', rest) {
        Some(rest) => factors_of(alloc, dims, rest)?,
        None => (Items::new(alloc), rest),
    };
    Ok((
        WrittenTerm {
            coefficient,
            factors,
        },
        rest,
    ))
}

// How many digits stand at the front.
fn begins_with_digit(text: &[u8]) -> bool
    ensures { result ≡ not (digits_len text.now == 0) }
{
    match text {
        [c, ..] => c.is_ascii_digit(),
        [] => false,
    }
}

#[tactic(auto, unfolding(crate::specs::Grammar::term_at))]
fn term_of(
    alloc: Global,
    dims: usize,
    negative: bool,
    text: &[u8],
) -> Result<(WrittenTerm, &[u8]), ReadError>
    ensures { Gives (λ x. (x.0, x.1.now)) result (term_at dims negative text.now) }
{
    if begins_with_digit(text) {
        with_coefficient_of(alloc, dims, negative, text)
    } else {
        bare_of(alloc, dims, negative, text)
    }
}

#[tactic(auto, unfolding(crate::specs::Grammar::sign_at))]
fn sign_of(text: &[u8]) -> Option<(bool, &[u8])>
    ensures { option_map (λ x. (x.0, x.1.now)) result ≡ sign_at text.now }
{
    if let Some(rest) = mark_of(b'+', text) {
        return Some((false, rest));
    }
    let rest = mark_of(b'-', text)?;
    Some((true, rest))
}

fn terms_of(
    alloc: Global,
    dims: usize,
    most: usize,
    found: Items<WrittenTerm>,
    text: &[u8],
) -> Result<Items<WrittenTerm>, ReadError>
    ensures { Gives (λ x. x) result (terms_at most dims found text.now) }
{
    let mut found = found;
    let mut rest = text;
    for _ in 0..most {
        if rest.is_empty() {
            return Ok(found);
        }
        let Some((negative, after)) = sign_of(rest) else {
            return Err(ReadError::Outside);
        };
        let (term, after) = term_of(alloc, dims, negative, after)?;
        found.push(term)?;
        rest = after;
    }
    Err(ReadError::Outside)
}

#[tactic(auto, unfolding(crate::specs::Grammar::first_at))]
fn first_of(alloc: Global, dims: usize, text: &[u8]) -> Result<(WrittenTerm, &[u8]), ReadError>
    ensures { Gives (λ x. (x.0, x.1.now)) result (first_at dims text.now) }
{
    let (negative, rest) = sign_of(text).unwrap_or((false, text));
    term_of(alloc, dims, negative, rest)
}

#[tactic(auto, unfolding(crate::specs::Grammar::sum_at))]
fn sum_of(alloc: Global, dims: usize, text: &[u8]) -> Result<Items<WrittenTerm>, ReadError>
    ensures { Gives (λ x. x) result (sum_at dims text.now) }
{
    let (first, rest) = first_of(alloc, dims, text)?;
    let mut found = Items::new(alloc);
    found.push(first)?;
    terms_of(alloc, dims, text.len(), found, rest)
}

/// The terms of a right side, as they are written; none where the text is empty or spaces alone.
/// Spaces may stand between the tokens, and a derivative has `dims` entries. The refusals are
/// Outside where the text is outside the grammar, and Memory.
#[tactic(auto, unfolding(crate::specs::Grammar::right_side))]
pub fn read_right_side(
    alloc: Global,
    dims: usize,
    text: &[u8],
) -> Result<Items<WrittenTerm>, ReadError>
    ensures { Gives (λ x. x) result (right_side dims text.now) }
{
    if skip(text).is_empty() {
        return Ok(Items::new(alloc));
    }
    if !is_trimmed(text) {
        return Err(ReadError::Outside);
    }
    sum_of(alloc, dims, text)
}
