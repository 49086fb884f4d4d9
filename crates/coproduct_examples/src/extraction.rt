// Extraction coproducts, with a look at what a call asks for first.
ghost use Rattle.degree_numbers.specs.Types.{AreTypes};

use crate::trees::{interned, is_fit};
use bumpalo::Bump;
use degree_numbers::Types;
use extraction_coproduct::{CoproductError, ExtractTerm, Tables, Work};
use std::alloc::Global;
use tree_pool::{ForestId, Pool, TreeId};

/// Tables with the tree of this text, and its number.
pub fn tables_with<'a>(
    alloc: Global,
    arena: &'a Bump,
    types: &Types,
    text: &[u8],
) -> Option<(Tables<'a>, TreeId)>
    requires { AreTypes types.now }
{
    let mut pool = Pool::new(alloc, arena, types).ok()?;
    let id = interned(alloc, types, &mut pool, text)?;
    let tables = Tables::new(alloc, arena, types, pool).ok()?;
    Some((tables, id))
}

/// The terms of the extraction coproduct of a tree, or the refusal. `None` for a number of no tree,
/// and for a tree that is too large.
pub fn asked_extraction<'a>(
    alloc: Global,
    tables: &mut Tables<'a>,
    id: TreeId,
    work: &mut Work,
) -> Option<Result<&'a [ExtractTerm], CoproductError>> {
    if id.0 >= tables.pool().len() || !is_fit(tables.pool(), id) {
        return None;
    }
    Some(tables.coproduct(alloc, id, work))
}

/// The number of the forest of two trees.
pub fn forest_of_two(
    alloc: Global,
    tables: &mut Tables<'_>,
    a: TreeId,
    b: TreeId,
) -> Option<ForestId> {
    let count = tables.pool().len();
    if a.0 >= count || b.0 >= count {
        return None;
    }
    tables.forest(alloc, &[a, b]).ok()
}
