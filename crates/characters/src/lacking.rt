// The trees that are asked for and lack a row.
ghost use Rattle.std.specs.Prelude.{◌≡◌, ◌<◌, ◌++◌, [], ◌∷◌, length, IfOk, OnOk, MatchOption};
ghost use Rattle.tree_pool.specs.Content.{tree_at, trees_of};
ghost use Rattle.character_tables.specs.Rows.{rows_over, AreKnownRows};
ghost use Rattle.characters.specs.Asked.{AreTrees, IsKnown, AreKnown, asked_in, missing, missing_in};
ghost use Rattle.characters.specs.Sums.{lacking, IsFirst};

use crate::asked::Asked;
use crate::lookup::lacks_row;
use character_tables::Character;
use std::alloc::{AllocError, Global};
use tree_pool::{Pool, TreeId};

/// Puts a tree behind others, where it lacks a row.
fn push_lacking(
    found: &mut Vec<TreeId>,
    pool: &Pool<'_>,
    table: &Character,
    id: TreeId,
) -> Result<(), AllocError>
    requires known { id.0 < length pool.now.trees }
    requires rows { AreKnownRows pool.now table.now.rows }
    ensures trees { OnOk result (trees_of pool.now found.new.items
        ≡ trees_of pool.now found.old.items
        ++ lacking (rows_over pool.now table.now.rows) (tree_at pool.now id.0 ∷ [])) }
    ensures known { AreTrees pool.now found.old.items →
        OnOk result (AreTrees pool.now found.new.items) }
{
    if lacks_row(pool, table, id) {
        found.push(id)?;
    }
    Ok(())
}

/// Puts those of some trees that lack a row behind others.
fn push_all_lacking(
    found: &mut Vec<TreeId>,
    pool: &Pool<'_>,
    table: &Character,
    ids: &[TreeId],
) -> Result<(), AllocError>
    requires known { AreTrees pool.now ids.now }
    requires rows { AreKnownRows pool.now table.now.rows }
    ensures trees { OnOk result (trees_of pool.now found.new.items
        ≡ trees_of pool.now found.old.items
        ++ lacking (rows_over pool.now table.now.rows) (trees_of pool.now ids.now)) }
    ensures known { AreTrees pool.now found.old.items →
        OnOk result (AreTrees pool.now found.new.items) }
{
    for id in ids {
        push_lacking(found, pool, table, *id)?;
    }
    Ok(())
}

/// Puts the trees that lack a row and are asked for in one question behind others.
fn push_missing(
    found: &mut Vec<TreeId>,
    pool: &Pool<'_>,
    g: &Character,
    h: &Character,
    asked: &Asked<'_>,
) -> Result<(), AllocError>
    requires known { IsKnown pool.now asked.now }
    requires g { AreKnownRows pool.now g.now.rows }
    requires h { AreKnownRows pool.now h.now.rows }
    ensures trees { OnOk result (trees_of pool.now found.new.items
        ≡ trees_of pool.now found.old.items
        ++ missing (rows_over pool.now g.now.rows) (rows_over pool.now h.now.rows)
        (asked_in pool.now asked.now ∷ [])) }
    ensures known { AreTrees pool.now found.old.items →
        OnOk result (AreTrees pool.now found.new.items) }
{
    push_all_lacking(found, pool, g, asked.first)?;
    if let Some(id) = asked.second {
        push_lacking(found, pool, h, id)?;
    }
    Ok(())
}

/// The trees that are asked for and lack a row.
pub(crate) fn missing(
    alloc: Global,
    pool: &Pool<'_>,
    g: &Character,
    h: &Character,
    asked: &[Asked<'_>],
) -> Result<Vec<TreeId>, AllocError>
    requires known { AreKnown pool.now asked.now }
    requires g { AreKnownRows pool.now g.now.rows }
    requires h { AreKnownRows pool.now h.now.rows }
    ensures trees { IfOk result (λ v. trees_of pool.now v.items
        ≡ missing_in pool.now g.now.rows h.now.rows asked.now) }
    ensures known { IfOk result (λ v. AreTrees pool.now v.items) }
{
    let mut found = Vec::new(alloc);
    for one in asked {
        push_missing(&mut found, pool, g, h, one)?;
    }
    Ok(found)
}

/// The first of some trees in tree order.
pub(crate) fn first(pool: &Pool<'_>, ids: &[TreeId]) -> Option<TreeId>
    requires { AreTrees pool.now ids.now }
    ensures { MatchOption result (trees_of pool.now ids.now ≡ []) (λ id.
        (id.0 < length pool.now.trees)
        × IsFirst (trees_of pool.now ids.now) (tree_at pool.now id.0)) }
{
    let mut first = match ids {
        [] => return None,
        [one, ..] => *one,
    };
    for id in ids {
        if pool.order(*id, first).is_lt() {
            first = *id;
        }
    }
    Some(first)
}
