// The scaling that is read.
ghost use Rattle.std.specs.Prelude.{◌≡◌, ◌≤◌, [], ◌∷◌, ℕ, List, Some, decimal, length, map, option_map, take, slice_index, IfErr, IfOk, IfSome};
ghost use Rattle.std.specs.List.{AllByRecursion};
ghost use Rattle.degree_numbers.specs.Types.{IsScaling};
ghost use Rattle.degree_numbers.specs.declared.types.Types.{Types};
ghost use Rattle.type_contexts.specs.declared.refusal.ContextRefusal.TheVariants.{Memory};
ghost use Rattle.type_contexts.specs.Context.{scaling_text};
ghost use Rattle.type_contexts.specs.Scaling.{second_of};

use crate::draft::parts_of;
use crate::refusal::ContextRefusal;
use std::alloc::Global;
use text_parts::number_of;

const LARGEST_SCALING: u32 = 10;

const MOST_DIMENSIONS: usize = 5;

/// The whole number of a text, which is at most this.
pub fn number_up_to(most: u32, text: &[u8]) -> Option<u32>
    ensures value { (n : ℕ) → n ≤ most → text.now ≡ decimal n → result ≡ Some n }
    ensures most { IfSome result (λ n. n ≤ most) }
{
    let (number, _) = number_of(text)?;
    if number > most as u64 {
        return None;
    }
    Some(number as u32)
}

// The whole number of a part, and 0 behind the last part.
fn entry_at(parts: &[&[u8]], i: usize) -> Option<u32>
    ensures { (entries : List ℕ) → map (λ s. s.now) parts.now ≡ map decimal entries →
        AllByRecursion (λ n. n ≤ 10) entries → result ≡ Some (slice_index entries i) }
{
    if i < parts.len() {
        number_up_to(LARGEST_SCALING, parts[i])
    } else {
        Some(0)
    }
}

fn entries_of(parts: &[&[u8]]) -> Option<[u32; 5]>
    ensures { (entries : List ℕ) → map (λ s. s.now) parts.now ≡ map decimal entries →
        AllByRecursion (λ n. n ≤ 10) entries →
        result ≡ Some (slice_index entries 0 ∷ slice_index entries 1 ∷ slice_index entries 2
        ∷ slice_index entries 3 ∷ slice_index entries 4 ∷ []) }
{
    Some([
        entry_at(parts, 0)?,
        entry_at(parts, 1)?,
        entry_at(parts, 2)?,
        entry_at(parts, 3)?,
        entry_at(parts, 4)?,
    ])
}

fn directions_of(parts: &[&[u8]]) -> Option<(u8, [u32; 5])>
    ensures { (dims : ℕ) (scaling : List ℕ) → IsScaling dims scaling →
        map (λ s. s.now) parts.now ≡ map decimal (take dims scaling) →
        result ≡ Some (dims, scaling) }
{
    if parts.len() > MOST_DIMENSIONS {
        return None;
    }
    let scaling = entries_of(parts)?;
    Some((parts.len() as u8, scaling))
}

/// The second of two words.
pub fn second_of<'a>(words: &[&'a [u8]]) -> Option<&'a [u8]>
    ensures { option_map (λ s. s.now) result ≡ second_of (map (λ s. s.now) words.now) }
{
    match words {
        [_, second] => Some(second),
        _ => None,
    }
}

/// The number of directions and the scaling that the first piece of a context says.
pub fn scaling_of(alloc: Global, head: &[u8]) -> Result<(u8, [u32; 5]), ContextRefusal>
    ensures ok { (ty : Types) → IsScaling ty.dims ty.scaling → head.now ≡ scaling_text ty →
        IfOk result (λ r. r ≡ (ty.dims, ty.scaling)) }
    ensures err { (ty : Types) → IsScaling ty.dims ty.scaling → head.now ≡ scaling_text ty →
        IfErr result (λ e. e ≡ Memory) }
{
    let words = parts_of(alloc, b' ', head)?;
    let Some(entries) = second_of(words.as_slice()) else {
        return Err(ContextRefusal::ContextText);
    };
    let parts = parts_of(alloc, b',', entries)?;
    directions_of(parts.as_slice()).ok_or(ContextRefusal::ContextText)
}
