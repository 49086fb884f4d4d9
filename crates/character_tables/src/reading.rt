// Tables are read from their texts.
ghost use Rattle.std.specs.Prelude.{◌≡◌, map, IfOk, IfErr};
ghost use Rattle.tree_pool.specs.Content.{IsGrown};
ghost use Rattle.character_tables.specs.Reading.{AreReadRows};
ghost use Rattle.character_tables.specs.Rows.{rows_over, IsCharacter};
ghost use Rattle.character_tables.specs.Texts.{IsTableText, AreRefused, IsTableRefused};

use crate::error::CharacterError;
use crate::lines::{parts_of, without_empty_end};
use crate::rows::read_next_row;
use crate::table::Character;
use degree_numbers::Types;
use sqlite_items::Items;
use std::alloc::Global;
use tree_pool::Pool;

/// Reads the rows of a table from their lines, or names the first line that is none.
fn read_lines(
    alloc: Global,
    types: &Types,
    pool: &mut Pool<'_>,
    lines: &[&[u8]],
) -> Result<Character, CharacterError>
    requires types { pool.old.types ≡ types.now }
    ensures rows { IfOk result (λ g. AreReadRows pool.new (map (λ s. s.now) lines.now) g.rows) }
    ensures refusal { IfErr result (AreRefused types.now (map (λ s. s.now) lines.now)) }
    ensures grown { IsGrown pool.old pool.new }
{
    let mut rows = Items::new(alloc);
    for i in 0..lines.len() {
        if !read_next_row(alloc, types, pool, &mut rows, lines[i])? {
            return Err(CharacterError::TableRefused { line: i as u64 + 1 });
        }
    }
    Ok(Character { rows })
}

/// Reads the text of a table of a character: on each line the text of a tree, a space and a number,
/// the trees in strictly ascending tree order. A tree is not `[]` and has at most 24 edges
/// (`MOST_EDGES`) and a decoration sum of at most 64 (`MOST_LISTED_DECORATIONS`); a number is at
/// most 2^127-1 in absolute value, has no leading zeros, and is not `-0`. Lines end with LF, which
/// may be missing at the end; the empty text is the empty table. The trees are put into the pool,
/// which was made with these types. Refused with `TableRefused` at the first line that is no line
/// of such a table here, from 1 on, also for a name of no type and for a tree that is too large or
/// not in its canonical text; or for want of memory.
pub fn read_table(
    alloc: Global,
    types: &Types,
    pool: &mut Pool<'_>,
    text: &[u8],
) -> Result<Character, CharacterError>
    requires types { pool.old.types ≡ types.now }
    ensures rows { IfOk result (λ g. IsTableText types.now text.now (rows_over pool.new g.rows)) }
    ensures character { IfOk result (λ g. IsCharacter pool.new g.rows) }
    ensures refusal { IfErr result (IsTableRefused types.now text.now) }
    ensures grown { IsGrown pool.old pool.new }
{
    let parts = parts_of(alloc, text)?;
    read_lines(alloc, types, pool, without_empty_end(parts.as_slice()))
}
