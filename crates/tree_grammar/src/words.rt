ghost use Rattle.std.specs.Prelude.{◌≡◌, ◌<◌, ◌^◌, ◌-◌, ◌↔◌, ◌≤◌, ℕ, List, length, min, None, Some};
ghost use Rattle.std.specs.List.{prefix_len, AllByRecursion};
ghost use Rattle.degree_numbers.specs.Name.{is_name, is_name_byte};
ghost use Rattle.degree_numbers.specs.declared.types.Types.{Types};
ghost use Rattle.tree_grammar.specs.Grammar.{Written, IsGrammatical, IsNumber, written_text, entries_onto};
ghost use Rattle.tree_grammar.specs.Words.{word, words_sum, entry_value, count_if, edges_in, decorations_in, is_unknown, first_unknown, next_entry, entries_at, multi_of, edges_of, decorations_of, AreKnown};

use crate::steps::{name_byte, type_named};
use degree_numbers::{Multi, Name, Types};
use text_parts::number_of;

const LARGEST_ENTRY: u64 = i32::MAX as u64;

fn word_len(text: &[u8]) -> usize
    ensures { result ≡ prefix_len is_name_byte text.now }
{
    text.iter().take_while(|b| name_byte(**b)).count()
}

/// The letters, digits and `_` at the front.
pub fn word(text: &[u8]) -> &[u8]
    ensures word { result.now ≡ word text.now }
    ensures within { length result.now ≤ length text.now }
{
    text.split_at(word_len(text)).0
}

/// The number that the digits at the front write. One past 2^31-1 counts as 2^31-1.
pub fn entry_value(text: &[u8]) -> u32
    ensures value { result ≡ entry_value text.now }
    ensures fits { result < 2 ^ 31 }
{
    match number_of(text) {
        Some((number, _)) => number.min(LARGEST_ENTRY) as u32,
        None => 0,
    }
}

/// Whether this is the text of a name.
pub fn is_name(text: &[u8]) -> bool
    ensures { result ≡ is_name text.now }
{
    Name::new(text).is_some()
}

fn is_unknown(types: &Types, text: &[u8]) -> bool
    ensures { result ≡ is_unknown types.now text.now }
{
    is_name(text) && type_named(types, text).is_none()
}

/// The place of the first byte of the first name that is no type's. Places count from 0.
pub fn first_unknown(types: &Types, text: &[u8]) -> Option<usize>
    ensures { result ≡ first_unknown types.now text.now }
{
    for i in 0..text.len() {
        if !name_byte(text[i]) && is_unknown(types, word(&text[i + 1..])) {
            return Some(i + 1);
        }
    }
    None
}

/// How many names stand in a tree text: the number of its edges.
pub fn edges_in(text: &[u8]) -> usize
    ensures { result ≡ edges_in text.now }
{
    let mut count = 0;
    for i in 0..text.len() {
        if !name_byte(text[i]) && is_name(word(&text[i + 1..])) {
            count += 1;
        }
    }
    count
}

/// The sum of the numbers in a tree text, each at most 2^31-1. The sum stops at 2^32-1.
pub fn decorations_in(text: &[u8]) -> u32
    ensures { result ≡ decorations_in text.now }
{
    let mut total: u32 = 0;
    for i in 0..text.len() {
        if !name_byte(text[i]) {
            total = total.saturating_add(entry_value(word(&text[i + 1..])));
        }
    }
    total
}

// What stands behind the word at the front and a comma.
fn next_entry(text: &[u8]) -> &[u8]
    ensures { result.now ≡ next_entry text.now }
{
    match text.split_at(word(text).len()).1 {
        [b',', rest @ ..] => rest,
        _ => &[],
    }
}

/// The multiindex that the numbers at the front write, joined by commas, five at most. Entries that
/// are not written are 0.
pub fn multi_at(text: &[u8]) -> Multi
    ensures entries { result.entries ≡ entries_at 5 text.now }
{
    let second = next_entry(text);
    let third = next_entry(second);
    let fourth = next_entry(third);
    let fifth = next_entry(fourth);
    Multi {
        entries: [
            entry_value(text),
            entry_value(second),
            entry_value(third),
            entry_value(fourth),
            entry_value(fifth),
        ],
    }
}

/// What the words of a written tree's text say of it: they count its edges, sum up its decorations,
/// give the entries of a multiindex, and show whether a name is that of no type.
pub fn word_laws()
    ensures edges { (ty : Types) (t : Written) → 0 < ty.dims → IsGrammatical ty t →
        edges_in (written_text t) ≡ edges_of t }
    ensures decorations { (ty : Types) (t : Written) → 0 < ty.dims → IsGrammatical ty t →
        decorations_in (written_text t) ≡ min (decorations_of t) (2 ^ 32 - 1) }
    ensures entries { (es : List (List ℕ)) (rest : List ℕ) → 0 < length es → length es ≤ 5 →
        AllByRecursion IsNumber es → entries_at 5 (entries_onto es rest) ≡ multi_of (Some es) }
    ensures unknown { (ty : Types) (t : Written) → 0 < ty.dims → IsGrammatical ty t →
        first_unknown ty (written_text t) ≡ None ↔ AreKnown ty t }
{}
