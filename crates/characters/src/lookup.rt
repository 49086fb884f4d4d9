// Values of characters at trees.
ghost use Rattle.std.specs.Prelude.{◌≡◌, ◌<◌, length};
ghost use Rattle.plain_trees.specs.Degree.{is_empty_tree};
ghost use Rattle.tree_pool.specs.Content.{tree_at};
ghost use Rattle.character_tables.specs.Rows.{rows_over, AreKnownRows};
ghost use Rattle.characters.specs.Sums.{row_of, value_of, lacks_row};

use character_tables::Character;
use tree_pool::{Pool, TreeId};

/// Whether a tree is the empty tree.
fn is_empty(pool: &Pool<'_>, id: TreeId) -> bool
    requires { id.0 < length pool.now.trees }
    ensures { result ≡ is_empty_tree (tree_at pool.now id.0) }
{
    let (n, edges) = pool.node(id);
    edges.is_empty() && n.is_zero()
}

/// The value in the row of a tree, where it has one.
fn row_of(pool: &Pool<'_>, table: &Character, id: TreeId) -> Option<i128>
    requires known { id.0 < length pool.now.trees }
    requires rows { AreKnownRows pool.now table.now.rows }
    ensures { result ≡ row_of (rows_over pool.now table.now.rows) (tree_at pool.now id.0) }
{
    pool.laws();
    for row in table.rows.as_slice() {
        if row.tree == id {
            return Some(row.value);
        }
    }
    None
}

/// The character of a table at a tree; 0 where the tree lacks a row.
pub(crate) fn value_of(pool: &Pool<'_>, table: &Character, id: TreeId) -> i128
    requires known { id.0 < length pool.now.trees }
    requires rows { AreKnownRows pool.now table.now.rows }
    ensures { result ≡ value_of (rows_over pool.now table.now.rows) (tree_at pool.now id.0) }
{
    if is_empty(pool, id) {
        return 1;
    }
    row_of(pool, table, id).unwrap_or(0)
}

/// Whether a tree is not the empty tree and has no row.
pub(crate) fn lacks_row(pool: &Pool<'_>, table: &Character, id: TreeId) -> bool
    requires known { id.0 < length pool.now.trees }
    requires rows { AreKnownRows pool.now table.now.rows }
    ensures { result ≡ lacks_row (rows_over pool.now table.now.rows) (tree_at pool.now id.0) }
{
    !is_empty(pool, id) && row_of(pool, table, id).is_none()
}
