// Answers and refusals as texts.
ghost use Rattle.std.specs.Prelude.{◌<◌, length};

use characters::{CharacterError, CharacterPart, Line};
use plain_trees::print_tree;
use std::alloc::Global;
use tree_pool::{Pool, TreeId};

/// Puts the text of a tree behind others.
fn put_tree(alloc: Global, out: &mut Vec<u8>, pool: &Pool<'_>, id: TreeId) -> Option<()>
    requires { id.0 < length pool.now.trees }
{
    pool.laws();
    let Ok(tree) = pool.plain(alloc, id) else {
        return None;
    };
    let text = print_tree(alloc, pool.types(), &tree).ok()?;
    out.extend_from_slice(text.as_slice()).ok()
}

/// Puts a line behind others: the coefficient and the tree.
fn put_line(alloc: Global, out: &mut Vec<u8>, pool: &Pool<'_>, line: &Line) -> Option<()> {
    if line.tree.0 >= pool.len() {
        return None;
    }
    let coefficient = line.coefficient;
    let front = format!(in alloc; "{coefficient} ").ok()?;
    out.extend_from_slice(front.as_bytes()).ok()?;
    put_tree(alloc, out, pool, line.tree)?;
    out.push(b'\n').ok()
}

/// The text of lines.
pub(crate) fn lines_text(alloc: Global, pool: &Pool<'_>, lines: &[Line]) -> Option<Vec<u8>> {
    let mut out = Vec::new(alloc);
    for line in lines {
        put_line(alloc, &mut out, pool, line)?;
    }
    Some(out)
}

/// The text of a number.
pub(crate) fn number_text(alloc: Global, number: i128) -> Option<Vec<u8>> {
    let mut out = Vec::new(alloc);
    let text = format!(in alloc; "{number}").ok()?;
    out.extend_from_slice(text.as_bytes()).ok()?;
    Some(out)
}

/// The text of a refusal.
pub(crate) fn refusal_text(
    alloc: Global,
    pool: &Pool<'_>,
    refusal: CharacterError,
) -> Option<Vec<u8>> {
    let mut out = Vec::new(alloc);
    match refusal {
        CharacterError::TableRefused { line } => {
            let text = format!(in alloc; "TableRefused {line}").ok()?;
            out.extend_from_slice(text.as_bytes()).ok()?;
        }
        CharacterError::CoefficientTooLarge {
            which: CharacterPart::Coproduct,
        } => out.extend_from_slice(b"Coproduct").ok()?,
        CharacterError::CoefficientTooLarge {
            which: CharacterPart::Sum,
        } => out.extend_from_slice(b"Sum").ok()?,
        CharacterError::Missing { tree } => {
            if tree.0 >= pool.len() {
                return None;
            }
            out.extend_from_slice(b"Missing ").ok()?;
            put_tree(alloc, &mut out, pool, tree)?;
        }
        CharacterError::Memory => return None,
    }
    Some(out)
}
