// What is read of a type, before the common denominator is known.
ghost use Rattle.std.specs.Prelude.{◌≡◌, ◌==◌, ℕ, Option, Some, map, IfOk, IfErr, IfSome, IsSome, option_map};
ghost use Rattle.std.specs.List.{AllByRecursion, AllZip, slice_split};
ghost use Rattle.type_contexts.specs.declared.refusal.ContextRefusal.TheVariants.{ContextText};
ghost use Rattle.degree_numbers.specs.Types.{IsMoments};
ghost use Rattle.type_contexts.specs.Context.{moments_text};
ghost use Rattle.type_contexts.specs.Draft.{seen, words_by_kind, words_of, IsGood, IsDraftOf, IsGoodPiece, IsPieceDraft};

use crate::refusal::ContextRefusal;
use crate::scaling::number_up_to;
use degree_numbers::{Kind, Name, WrittenDegree, read_degree};
use std::alloc::{AllocError, Global};

const LARGEST_MOMENT: u32 = 20;

/// The parts of a text between the places of a byte.
pub fn parts_of(alloc: Global, mark: u8, text: &[u8]) -> Result<Vec<&[u8]>, AllocError>
    ensures { IfOk result (λ v. map (λ s. s.now) v.items ≡ slice_split (λ b. b == mark) text.now) }
{
    text.split(|b| *b == mark).collect(alloc)
}

/// The words that are written of a type. A kernel has no group, and its name stands there; `-`
/// stands where no moment number is written.
#[derive(Clone, Copy, Debug)]
pub struct Words<'a> {
    pub kind: Kind,
    pub name: &'a [u8],
    pub degree: &'a [u8],
    pub group: &'a [u8],
    pub moments: &'a [u8],
}

/// What is read of a type. A kernel has no group, and its name stands there.
#[derive(Clone, Copy, Debug, PartialEq, Eq)]
pub struct Draft {
    pub kind: Kind,
    pub name: Name,
    pub degree: WrittenDegree,
    pub group: Name,
    pub moments: Option<u8>,
}

// The words of a noise with a group, or of a kernel with a moment number.
fn words_by_kind<'a>(is_noise: bool, name: &'a [u8], degree: &'a [u8], last: &'a [u8]) -> Words<'a>
    ensures { seen result ≡ words_by_kind is_noise name.now degree.now last.now }
{
    if is_noise {
        Words {
            kind: Kind::Noise,
            name,
            degree,
            group: last,
            moments: b"-",
        }
    } else {
        Words {
            kind: Kind::Kernel,
            name,
            degree,
            group: name,
            moments: last,
        }
    }
}

fn words_of<'a>(parts: &[&'a [u8]]) -> Option<Words<'a>>
    ensures { option_map seen result ≡ words_of (map (λ s. s.now) parts.now) }
{
    match parts {
        [_, name, degree] => Some(words_by_kind(false, name, degree, b"-")),
        [word, name, degree, last] => Some(words_by_kind(
            *word == b"noise".as_slice(),
            name,
            degree,
            last,
        )),
        [_, name, degree, _, number] => Some(words_by_kind(false, name, degree, number)),
        _ => None,
    }
}

// The moment number that a text says, or that none is declared.
fn moments_of(text: &[u8]) -> Option<Option<u8>>
    ensures { (m : Option ℕ) → IsMoments m → text.now ≡ moments_text m → result ≡ Some m }
{
    if text == b"-".as_slice() {
        return Some(None);
    }
    let moments = number_up_to(LARGEST_MOMENT, text)?;
    Some(Some(moments as u8))
}

fn draft_of(words: &Words) -> Option<Draft>
    ensures some { IfSome result (IsDraftOf (seen words.now)) }
    ensures none { IsGood (seen words.now) → IsSome result }
{
    let name = Name::new(words.name)?;
    let degree = read_degree(words.degree).ok()?;
    let group = Name::new(words.group)?;
    let moments = moments_of(words.moments)?;
    Some(Draft {
        kind: words.kind,
        name,
        degree,
        group,
        moments,
    })
}

fn piece_draft(alloc: Global, piece: &[u8]) -> Result<Draft, ContextRefusal>
    ensures ok { IfOk result (IsPieceDraft piece.now) }
    ensures err { IfErr result (λ e. e ≡ ContextText → IsGoodPiece piece.now → ⊥) }
{
    let parts = parts_of(alloc, b' ', piece)?;
    let Some(words) = words_of(parts.as_slice()) else {
        return Err(ContextRefusal::ContextText);
    };
    draft_of(&words).ok_or(ContextRefusal::ContextText)
}

/// What is read of the pieces of a context behind the first.
pub fn drafts_of(alloc: Global, pieces: &[&[u8]]) -> Result<Vec<Draft>, ContextRefusal>
    ensures ok { IfOk result (λ v. AllZip (λ s d. IsPieceDraft s.now d) pieces.now v.items) }
    ensures err { IfErr result (λ e. e ≡ ContextText →
        AllByRecursion IsGoodPiece (map (λ s. s.now) pieces.now) → ⊥) }
{
    let mut drafts = Vec::new(alloc);
    for piece in pieces {
        drafts.push(piece_draft(alloc, piece)?)?;
    }
    Ok(drafts)
}
