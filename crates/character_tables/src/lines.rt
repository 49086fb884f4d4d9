// The lines of a text.
ghost use Rattle.std.specs.Prelude.{◌≡◌, ◌==◌, ◌++◌, ◌∷◌, ℕ, List, IfOk, MatchOption, map};
ghost use Rattle.std.specs.List.{slice_split};
ghost use Rattle.character_tables.specs.Reading.{HasNo};
ghost use Rattle.character_tables.specs.Texts.{without_empty_end};

use std::alloc::{AllocError, Global};

/// The parts of a text between the places of LF.
pub(crate) fn parts_of(alloc: Global, text: &[u8]) -> Result<Vec<&[u8]>, AllocError>
    ensures { IfOk result (λ v. map (λ s. s.now) v.items ≡ slice_split (λ b. b == 10) text.now) }
{
    text.split(|b| *b == b'\n').collect(alloc)
}

/// The parts without the last, where that is empty.
pub(crate) fn without_empty_end<'a, 'b>(parts: &'b [&'a [u8]]) -> &'b [&'a [u8]]
    ensures { map (λ s. s.now) result.now ≡ without_empty_end (map (λ s. s.now) parts.now) }
{
    match parts {
        [front @ .., last] if last.is_empty() => front,
        _ => parts,
    }
}

/// What stands in front of the last space of a line, and behind it.
pub(crate) fn around_last_space(line: &[u8]) -> Option<(&[u8], &[u8])>
    ensures { MatchOption result ((x y : List ℕ) → x ++ 32 ∷ y ≡ line.now → ⊥)
        (λ p. (p.0.now ++ 32 ∷ p.1.now ≡ line.now) × HasNo 32 p.1.now) }
{
    let mut at = line.len();
    while at > 0 {
        at -= 1;
        if line[at] == b' ' {
            return Some((&line[..at], &line[at + 1..]));
        }
    }
    None
}
