// The pieces of a text.
ghost use Rattle.std.specs.Prelude.{◌≡◌, ◌<◌, ◌+◌, ◌^◌, ◌==◌, ◌&&◌, IfOk, map};
ghost use Rattle.symbol_polys.specs.Pieces.{depth_after, is_mark, pieces, unmarked};

use std::alloc::{AllocError, Global};

// Whether this byte is one of the marks, and stands outside all brackets.
fn is_cut(marks: &[u8], depth: usize, c: u8) -> bool
    ensures { result ≡ (depth == 0 && is_mark marks.now c) }
{
    depth == 0 && marks.contains(&c)
}

fn depth_after(depth: usize, c: u8) -> usize
    requires { depth + 1 < 2 ^ 64 }
    ensures { result ≡ depth_after depth c }
{
    match c {
        b'[' => depth + 1,
        b']' => depth.saturating_sub(1),
        _ => depth,
    }
}

/// A text, cut before each of these marks that stands outside all brackets.
pub(crate) fn pieces<'a>(
    alloc: Global,
    text: &'a [u8],
    marks: &[u8],
) -> Result<Vec<&'a [u8]>, AllocError>
    ensures { IfOk result (λ v. map (λ x. x.now) v.items ≡ pieces marks.now text.now) }
{
    let mut pieces = Vec::new(alloc);
    let mut depth = 0;
    let mut start = 0;
    for i in 0..text.len() {
        if is_cut(marks, depth, text[i]) {
            pieces.push(&text[start..i])?;
            start = i;
        }
        depth = depth_after(depth, text[i]);
    }
    pieces.push(&text[start..])?;
    Ok(pieces)
}

/// A piece without the mark at its front, where it stands there.
pub(crate) fn unmarked(mark: u8, piece: &[u8]) -> &[u8]
    ensures { result.now ≡ unmarked mark piece.now }
{
    match piece {
        [c, rest @ ..] if *c == mark => rest,
        _ => piece,
    }
}
