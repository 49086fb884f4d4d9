// Sums over the terms of a coproduct, as texts, and why there is none.
ghost use Rattle.std.specs.Prelude.{◌≡◌, ◌≢◌, ◌⊎◌, ◌<◌, ◌++◌, length, flat_map, codes, decimal, IfOk, IfErr, OnOk};
ghost use Rattle.plain_trees.specs.Text.{tree_text};
ghost use Rattle.tree_pool.specs.Content.{tree_at};
ghost use Rattle.tree_pool.specs.declared.node.TreeId.{TreeId};
ghost use Rattle.character_tables.specs.Texts.{number_text};
ghost use Rattle.characters.specs.Sums.{AreKnownLines, lines_over};
ghost use Rattle.workbench_core.specs.Characters.{line_text, act_text, product_text, of_sum_error};

use crate::refusal::Refusal;
use crate::tree_list::tree_text;
use characters::{CharacterError, CharacterPart, Line};
use itoa::Buffer;
use numerals::put_number;
use sqlite_items::Items;
use std::alloc::{AllocError, Global};
use tree_pool::{Pool, TreeId};

/// The lines of a sum of trees of a pool: `act N`, and each with its coefficient and its tree.
/// Refused only for want of memory.
pub(crate) fn act_text(alloc: Global, pool: &Pool<'_>, lines: &[Line]) -> Result<Vec<u8>, Refusal>
    requires { AreKnownLines pool.now lines.now }
    ensures text { IfOk result (λ v.
        v.items ≡ act_text pool.now.types (lines_over pool.now lines.now)) }
    ensures memory { IfErr result (λ e. e ≡ Refusal.Memory) }
{
    let mut text = Vec::new(alloc);
    put_count(lines.len(), &mut text)?;
    put_lines(alloc, pool, lines, &mut text)?;
    Ok(text)
}

/// The line `product N`. Refused only for want of memory.
pub(crate) fn product_text(alloc: Global, number: &i128) -> Result<Vec<u8>, Refusal>
    ensures text { IfOk result (λ v. v.items ≡ product_text number.now) }
    ensures memory { IfErr result (λ e. e ≡ Refusal.Memory) }
{
    let mut text = Vec::from_slice(alloc, b"product ")?;
    put_signed(number, &mut text)?;
    text.extend_from_slice(b"\n")?;
    Ok(text)
}

fn put_count(count: usize, text: &mut Vec<u8>) -> Result<(), AllocError>
    ensures { OnOk result (text.new.items ≡ text.old.items
        ++ (codes "act " ++ decimal count ++ codes "\n")) }
{
    text.extend_from_slice(b"act ")?;
    text.extend_from_slice(Buffer::new().format(count).as_bytes())?;
    text.extend_from_slice(b"\n")
}

fn put_lines(
    alloc: Global,
    pool: &Pool<'_>,
    lines: &[Line],
    text: &mut Vec<u8>,
) -> Result<(), Refusal>
    requires { AreKnownLines pool.now lines.now }
    ensures lines { OnOk result (text.new.items ≡ text.old.items
        ++ flat_map (line_text pool.now.types) (lines_over pool.now lines.now)) }
    ensures memory { IfErr result (λ e. e ≡ Refusal.Memory) }
{
    for line in lines {
        put_line(alloc, pool, line, text)?;
    }
    Ok(())
}

fn put_line(alloc: Global, pool: &Pool<'_>, line: &Line, text: &mut Vec<u8>) -> Result<(), Refusal>
    requires { line.now.tree.0 < length pool.now.trees }
    ensures line { OnOk result (text.new.items ≡ text.old.items
        ++ line_text pool.now.types (tree_at pool.now line.now.tree.0, line.now.coefficient)) }
    ensures memory { IfErr result (λ e. e ≡ Refusal.Memory) }
{
    let tree = tree_text(alloc, pool, line.tree)?;
    put_signed(&line.coefficient, text)?;
    text.extend_from_slice(b" ")?;
    text.extend_from_slice(&tree)?;
    text.extend_from_slice(b"\n")?;
    Ok(())
}

// A number in decimal, behind a `-` where it is below 0.
fn put_signed(number: &i128, text: &mut Vec<u8>) -> Result<(), AllocError>
    ensures { OnOk result (text.new.items ≡ text.old.items ++ number_text number.now) }
{
    if *number < 0 {
        text.extend_from_slice(b"-")?;
    }
    put_number(text, number.unsigned_abs())
}

/// The refusal of a sum for a tree of a pool, where the coproduct and the sum have these names; or
/// want of memory.
pub(crate) fn sum_refusal(
    alloc: Global,
    pool: &Pool<'_>,
    id: TreeId,
    coproduct: &[u8],
    sum: &[u8],
    error: CharacterError,
) -> Refusal
    requires known { id.0 < length pool.now.trees }
    requires missing { (i : TreeId) → error ≡ CharacterError.Missing i →
        i.0 < length pool.now.trees }
    ensures refusal { (result ≡ Refusal.Memory)
        ⊎ (result ≡ of_sum_error pool.now (tree_at pool.now id.0) coproduct.now sum.now error) }
    ensures no_fault { result ≢ Refusal.FileFault }
{
    match error {
        CharacterError::TableRefused { line } => Refusal::TableRefused { line },
        CharacterError::CoefficientTooLarge { which } => match which {
            CharacterPart::Coproduct => past(alloc, pool, id, coproduct),
            CharacterPart::Sum => past(alloc, pool, id, sum),
        },
        CharacterError::Missing { tree } => missing(alloc, pool, tree),
        CharacterError::Memory => Refusal::Memory,
    }
}

// The refusal that names a tree and this quantity of it; or want of memory.
fn past(alloc: Global, pool: &Pool<'_>, id: TreeId, quantity: &[u8]) -> Refusal
    requires { id.0 < length pool.now.trees }
    ensures refusal { (result ≡ Refusal.Memory) ⊎ (result ≡ Refusal.CoefficientTooLarge
        (tree_text pool.now.types (tree_at pool.now id.0)) quantity.now) }
    ensures no_fault { result ≢ Refusal.FileFault }
{
    let Ok(tree) = tree_text(alloc, pool, id) else {
        return Refusal::Memory;
    };
    let Ok(quantity) = Items::from_slice(alloc, quantity) else {
        return Refusal::Memory;
    };
    Refusal::CoefficientTooLarge {
        tree: Items::from_vec(tree),
        quantity,
    }
}

// The refusal that names a tree without a row; or want of memory.
fn missing(alloc: Global, pool: &Pool<'_>, id: TreeId) -> Refusal
    requires { id.0 < length pool.now.trees }
    ensures refusal { (result ≡ Refusal.Memory) ⊎ (result ≡ Refusal.Missing
        (tree_text pool.now.types (tree_at pool.now id.0))) }
    ensures no_fault { result ≢ Refusal.FileFault }
{
    let Ok(tree) = tree_text(alloc, pool, id) else {
        return Refusal::Memory;
    };
    Refusal::Missing {
        tree: Items::from_vec(tree),
    }
}
