// Rows of tables are read from their lines.
ghost use Rattle.std.specs.Prelude.{◌≡◌, ◌<◌, ◌++◌, ◌∷◌, [], ℕ, List, length, IfOk, MatchOption, MatchBool};
ghost use Rattle.std.specs.List.Sorted.{IsStrictlySortedBy};
ghost use Rattle.degree_numbers.specs.Types.{AreTypes};
ghost use Rattle.tree_pool.specs.Content.{tree_at, IsGrown};
ghost use Rattle.plain_trees.specs.Plain.{tree_order};
ghost use Rattle.plain_trees.specs.View.{plain};
ghost use Rattle.character_tables.specs.Reading.{IsRowOf, IsReadRow, AreReadRows, AreBefore};
ghost use Rattle.character_tables.specs.Rows.{Row, AreKnownRows, rows_over, trees_in};
ghost use Rattle.character_tables.specs.Texts.{HasLines};

use crate::lines::around_last_space;
use crate::numbers::read_number;
use crate::table::CharacterRow;
use crate::trees::read_table_tree;
use degree_numbers::Types;
use plain_trees::Tree;
use sqlite_items::Items;
use std::alloc::{AllocError, Global};
use tree_pool::{Pool, PoolError};

/// The tree and the number that a line writes.
fn read_parts(alloc: Global, types: &Types, line: &[u8]) -> Result<Option<(Tree, i128)>, AllocError>
    requires { AreTypes types.now }
    ensures { IfOk result (λ o. MatchOption o ((r : Row) → IsRowOf types.now line.now r → ⊥)
        (λ p. IsRowOf types.now line.now (plain p.0, p.1))) }
{
    let Some((text, digits)) = around_last_space(line) else {
        return Ok(None);
    };
    let Some(number) = read_number(digits) else {
        return Ok(None);
    };
    match read_table_tree(alloc, types, text)? {
        Some(tree) => Ok(Some((tree, number))),
        None => Ok(None),
    }
}

/// The row with this text, where it is one that a table may have; its tree is put into the pool.
/// Fails only for want of memory.
fn read_row(
    alloc: Global,
    types: &Types,
    pool: &mut Pool<'_>,
    line: &[u8],
) -> Result<Option<CharacterRow>, PoolError>
    requires types { pool.old.types ≡ types.now }
    ensures row { IfOk result (λ o. MatchOption o ((r : Row) → IsRowOf types.now line.now r → ⊥)
        (IsReadRow pool.new line.now)) }
    ensures grown { IsGrown pool.old pool.new }
{
    pool.laws();
    match read_parts(alloc, types, line)? {
        Some((tree, value)) => {
            let tree = pool.intern_tree(alloc, &tree)?;
            Ok(Some(CharacterRow { tree, value }))
        }
        None => Ok(None),
    }
}

/// Whether a row's tree comes behind those of rows, which are in tree order.
fn is_behind(pool: &Pool<'_>, rows: &[CharacterRow], row: &CharacterRow) -> bool
    requires rows { AreKnownRows pool.now rows.now }
    requires row { row.now.tree.0 < length pool.now.trees }
    ensures { IsStrictlySortedBy tree_order (trees_in (rows_over pool.now rows.now)) →
        MatchBool result
        (AreBefore (trees_in (rows_over pool.now rows.now)) (tree_at pool.now row.now.tree.0))
        (AreBefore (trees_in (rows_over pool.now rows.now)) (tree_at pool.now row.now.tree.0)
        → ⊥) }
{
    if rows.is_empty() {
        return true;
    }
    let last = rows[rows.len() - 1];
    pool.order(last.tree, row.tree).is_lt()
}

/// Reads one more row of a table, of which the rows before are read; or answers that with this line
/// the lines are those of no table. Fails only for want of memory.
pub(crate) fn read_next_row(
    alloc: Global,
    types: &Types,
    pool: &mut Pool<'_>,
    rows: &mut Items<CharacterRow>,
    line: &[u8],
) -> Result<bool, PoolError>
    requires types { pool.old.types ≡ types.now }
    requires known { AreKnownRows pool.old rows.old }
    ensures read { IfOk result (λ b. (ls : List (List ℕ)) → AreReadRows pool.old ls rows.old →
        MatchBool b (AreReadRows pool.new (ls ++ line.now ∷ []) rows.new)
        ((rs : List Row) → HasLines types.now (ls ++ line.now ∷ []) rs → ⊥)) }
    ensures grown { IsGrown pool.old pool.new }
{
    pool.laws();
    let Some(row) = read_row(alloc, types, pool, line)? else {
        return Ok(false);
    };
    if !is_behind(pool, rows.as_slice(), &row) {
        return Ok(false);
    }
    rows.push(row)?;
    Ok(true)
}
