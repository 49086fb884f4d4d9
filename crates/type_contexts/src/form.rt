// The two forms of a context, and its pieces in them.
ghost use Rattle.std.specs.Prelude.{◌≡◌, ◌≤◌, not, codes, length, map, option_map, slice_get, unwrap_or};
ghost use Rattle.std.specs.List.{prefix_len};
ghost use Rattle.type_contexts.specs.Parts.{is_reflect_piece, old_parts, parts_in, seen_parts};

/// The two forms of a context.
#[derive(Clone, Copy, Debug, PartialEq, Eq)]
pub enum Form {
    /// What is not declared is left out.
    Old,
    /// What is not declared is written as `-`.
    New,
}

/// The pieces of a context, by what they say.
#[derive(Clone, Copy, Debug)]
pub struct Parts<'a> {
    pub scaling: &'a [u8],
    pub reflect: &'a [u8],
    pub entries: &'a [&'a [u8]],
}

fn is_reflect_piece(piece: &[u8]) -> bool
    ensures { result ≡ is_reflect_piece piece.now }
{
    piece.starts_with(b"reflect ")
}

// How many pieces stand before one with the directions that may be reflected.
fn entry_count(rest: &[&[u8]]) -> usize
    ensures value { result ≡ prefix_len (λ s. not (is_reflect_piece s.now)) rest.now }
    ensures within { result ≤ length rest.now }
{
    rest.iter().take_while(|p| !is_reflect_piece(*p)).count()
}

// The piece at a place; that of no directions behind the last one.
fn reflect_at<'a>(rest: &[&'a [u8]], place: usize) -> &'a [u8]
    ensures { result.now ≡ unwrap_or (option_map (λ s. s.now) (slice_get rest.now place))
        (codes "reflect -") }
{
    match rest.get(place) {
        Some(piece) => *piece,
        None => b"reflect -",
    }
}

// The entries, up to a piece with the directions that may be reflected, which is left out where
// there are none.
fn old_parts<'a>(scaling: &'a [u8], rest: &'a [&'a [u8]]) -> Parts<'a>
    ensures { seen_parts result ≡ old_parts scaling.now (map (λ s. s.now) rest.now) }
{
    let count = entry_count(rest);
    Parts {
        scaling,
        reflect: reflect_at(rest, count),
        entries: &rest[..count],
    }
}

/// What the pieces of a context say; none where there are too few.
pub fn parts_in<'a>(form: Form, pieces: &'a [&'a [u8]]) -> Option<Parts<'a>>
    ensures { option_map seen_parts result ≡ parts_in form (map (λ s. s.now) pieces.now) }
{
    match (form, pieces) {
        (Form::Old, [scaling, rest @ ..]) => Some(old_parts(scaling, rest)),
        (Form::New, [_, scaling, reflect, entries @ ..]) => Some(Parts {
            scaling,
            reflect,
            entries,
        }),
        _ => None,
    }
}
