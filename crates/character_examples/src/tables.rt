// Characters are read, and sums asked for, by what calls hand over.
ghost use Rattle.std.specs.Prelude.{◌≡◌, ◌<◌, length, IfOk};
ghost use Rattle.tree_pool.specs.Content.{IsGrown};
ghost use Rattle.recentring_coproduct.specs.Held.{FitsPool};
ghost use Rattle.character_tables.specs.Rows.{IsCharacter};

use crate::asked::{is_bounded, is_fit};
use crate::texts::{lines_text, number_text, refusal_text};
use characters::{
    Character, CharacterError, act_left, act_right, growth_laws, product, read_table,
};
use degree_numbers::Types;
use extraction_coproduct::{Tables, Work};
use recentring_coproduct::Recentrer;
use std::alloc::Global;
use tree_pool::{Pool, TreeId};

/// Which sum is asked for.
#[derive(Clone, Copy, Debug, PartialEq, Eq)]
pub enum Sum {
    /// The action of the first character by extraction.
    Left,
    /// The action of the first character by recentring.
    Right,
    /// The product of the two.
    Product,
}

/// The characters of two tables.
pub(crate) fn read_tables(
    alloc: Global,
    types: &Types,
    pool: &mut Pool<'_>,
    first: &[u8],
    second: &[u8],
) -> Result<(Character, Character), CharacterError>
    requires { pool.old.types ≡ types.now }
    ensures first { IfOk result (λ p. IsCharacter pool.new p.0.rows) }
    ensures second { IfOk result (λ p. IsCharacter pool.new p.1.rows) }
    ensures grown { IsGrown pool.old pool.new }
{
    growth_laws();
    let g = read_table(alloc, types, pool, first)?;
    let h = read_table(alloc, types, pool, second)?;
    Ok((g, h))
}

/// The text of the action by extraction.
fn left(alloc: Global, tables: &mut Tables<'_>, g: &Character, id: TreeId) -> Option<Vec<u8>>
    requires { IsCharacter tables.old.pool g.now.rows }
{
    if id.0 >= tables.pool().len() || !is_bounded(tables.pool(), id) {
        return None;
    }
    let mut work = Work { tables: 0 };
    match act_left(alloc, tables, g, id, &mut work) {
        Ok(lines) => lines_text(alloc, tables.pool(), lines.as_slice()),
        Err(e) => refusal_text(alloc, tables.pool(), e),
    }
}

/// The text of the product.
fn both(
    alloc: Global,
    tables: &mut Tables<'_>,
    g: &Character,
    h: &Character,
    id: TreeId,
) -> Option<Vec<u8>>
    requires first { IsCharacter tables.old.pool g.now.rows }
    requires second { IsCharacter tables.old.pool h.now.rows }
{
    if id.0 >= tables.pool().len() || !is_bounded(tables.pool(), id) {
        return None;
    }
    let mut work = Work { tables: 0 };
    match product(alloc, tables, g, h, id, &mut work) {
        Ok(number) => number_text(alloc, number),
        Err(e) => refusal_text(alloc, tables.pool(), e),
    }
}

/// The text of a sum over the terms of extraction.
pub(crate) fn by_extraction(
    alloc: Global,
    tables: &mut Tables<'_>,
    sum: Sum,
    g: &Character,
    h: &Character,
    id: TreeId,
) -> Option<Vec<u8>>
    requires first { IsCharacter tables.old.pool g.now.rows }
    requires second { IsCharacter tables.old.pool h.now.rows }
{
    match sum {
        Sum::Product => both(alloc, tables, g, h, id),
        _ => left(alloc, tables, g, id),
    }
}

/// The text of the action by recentring.
pub(crate) fn by_recentring<'a>(
    alloc: Global,
    pool: &mut Pool<'a>,
    recentrer: &mut Recentrer<'a>,
    f: &Character,
    id: TreeId,
) -> Option<Vec<u8>>
    requires rows { IsCharacter pool.old f.now.rows }
    requires fits { FitsPool recentrer.old pool.old }
{
    if id.0 >= pool.len() || !is_fit(pool, id) {
        return None;
    }
    match act_right(alloc, pool, recentrer, f, id) {
        Ok(lines) => lines_text(alloc, pool, lines.as_slice()),
        Err(e) => refusal_text(alloc, pool, e),
    }
}
