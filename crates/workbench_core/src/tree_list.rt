// The tree list.
ghost use Rattle.std.specs.Prelude.{◌≡◌, ◌++◌, ◌<◌, ℕ, List, length, unsigned_abs, IfOk, IfErr, OnOk};
ghost use Rattle.std.specs.List.{All};
ghost use Rattle.degree_numbers.specs.Printing.{IsDegreeText};
ghost use Rattle.plain_trees.specs.Degree.{degree_of};
ghost use Rattle.plain_trees.specs.Text.{tree_text};
ghost use Rattle.tree_pool.specs.Content.{tree_at};
ghost use Rattle.rule_steps.specs.Steps.{trees_of};
ghost use Rattle.workbench_core.specs.TreeList.{count_text, row_text, IsRow, AreRows, IsTreeList};

use crate::refusal::Refusal;
use degree_numbers::{SmallText, print_degree};
use itoa::Buffer;
use std::alloc::{AllocError, Global};
use tree_pool::{Pool, TreeId};

/// The tree list: `trees N`, and for each tree a line with its number, from 1, its degree and its
/// text. Refused only for want of memory.
pub fn tree_list(alloc: Global, pool: &Pool<'_>, ids: &[TreeId]) -> Result<Vec<u8>, Refusal>
    requires { All (λ id. id.0 < length pool.now.trees) ids.now }
    ensures text { IfOk result (λ v. IsTreeList pool.now.types (trees_of pool.now ids.now)
        v.items) }
    ensures memory { IfErr result (λ e. e ≡ Refusal.Memory) }
{
    let mut text = Vec::new(alloc);
    put_count(ids.len(), &mut text)?;
    put_rows(alloc, pool, ids, &mut text)?;
    Ok(text)
}

fn put_count(count: usize, text: &mut Vec<u8>) -> Result<(), AllocError>
    ensures { OnOk result (text.new.items ≡ text.old.items ++ count_text count) }
{
    text.extend_from_slice(b"trees ")?;
    text.extend_from_slice(Buffer::new().format(count).as_bytes())?;
    text.extend_from_slice(b"\n")
}

fn put_rows(
    alloc: Global,
    pool: &Pool<'_>,
    ids: &[TreeId],
    text: &mut Vec<u8>,
) -> Result<(), Refusal>
    requires { All (λ id. id.0 < length pool.now.trees) ids.now }
    ensures rows { OnOk result ((piece : List ℕ)
        × AreRows pool.now.types 1 (trees_of pool.now ids.now) piece
        × (text.new.items ≡ text.old.items ++ piece)) }
    ensures memory { IfErr result (λ e. e ≡ Refusal.Memory) }
{
    for (i, id) in ids.iter().enumerate() {
        put_row(alloc, pool, i + 1, *id, text)?;
    }
    Ok(())
}

// The line of a tree, which has this number in the list.
fn put_row(
    alloc: Global,
    pool: &Pool<'_>,
    number: usize,
    id: TreeId,
    text: &mut Vec<u8>,
) -> Result<(), Refusal>
    requires { id.0 < length pool.now.trees }
    ensures row { OnOk result ((piece : List ℕ)
        × IsRow pool.now.types number (tree_at pool.now id.0) piece
        × (text.new.items ≡ text.old.items ++ piece)) }
    ensures memory { IfErr result (λ e. e ≡ Refusal.Memory) }
{
    let tree = tree_text(alloc, pool, id)?;
    let degree = degree_text(pool, id);
    put_line(number, degree.bytes(), &tree, text)?;
    Ok(())
}

fn put_line(number: usize, degree: &[u8], tree: &[u8], text: &mut Vec<u8>) -> Result<(), AllocError>
    ensures { OnOk result (text.new.items ≡ text.old.items ++ row_text number degree.now tree.now) }
{
    text.extend_from_slice(Buffer::new().format(number).as_bytes())?;
    text.extend_from_slice(b" ")?;
    text.extend_from_slice(degree)?;
    text.extend_from_slice(b" ")?;
    text.extend_from_slice(tree)?;
    text.extend_from_slice(b"\n")
}

/// The text of a tree of a pool. Refused only for want of memory.
pub fn tree_text(alloc: Global, pool: &Pool<'_>, id: TreeId) -> Result<Vec<u8>, Refusal>
    requires { id.0 < length pool.now.trees }
    ensures text { IfOk result (λ v. v.items ≡ tree_text pool.now.types (tree_at pool.now id.0)) }
    ensures memory { IfErr result (λ e. e ≡ Refusal.Memory) }
{
    Ok(tree_details::tree_text(alloc, pool, id)?)
}

// The text of the degree of a tree.
fn degree_text(pool: &Pool<'_>, id: TreeId) -> SmallText
    requires { id.0 < length pool.now.trees }
    ensures { IsDegreeText (degree_of pool.now.types (tree_at pool.now id.0))
        (unsigned_abs pool.now.types.units.den) result }
{
    let mut text = SmallText::new();
    print_degree(pool.degree(id), pool.types().units, &mut text);
    text
}
