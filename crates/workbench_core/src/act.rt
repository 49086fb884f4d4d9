// The actions of a character on a tree of an equation file.
ghost use Rattle.std.specs.Prelude.{◌≡◌, ◌≢◌, ◌⊎◌, ◌<◌, length, Ok, Err, IfOk, IfErr};
ghost use Rattle.equations.specs.Accepted.{IsEquation};
ghost use Rattle.tree_pool.specs.Content.{Content, tree_at};
ghost use Rattle.cutting_sizes.specs.Bounds.{IsFit};
ghost use Rattle.recentring_coproduct.specs.Held.{FitsPool};
ghost use Rattle.character_tables.specs.Rows.{rows_over, IsCharacter};
ghost use Rattle.workbench_core.specs.Characters.{Acts, ActsFromLeft, ActsFromRight, IsActIn, IsActOf};
ghost use Rattle.workbench_core.specs.GivenTable.{IsForTable};

use crate::compute::tables_over;
use crate::given_table::given_table;
use crate::given_tree::given_tree;
use crate::refusal::Refusal;
use crate::sums::{act_text, sum_refusal};
use bumpalo::Bump;
use characters::{Character, act_left, act_right};
use equation_file::read_equation;
use equations::Equation;
use extraction_coproduct::Work;
use recentring_coproduct::{Recentrer, fit_laws};
use std::alloc::Global;
use tree_pool::{Pool, TreeId};

/// The action of the character of a table on the tree with this text, for the equation of a file:
/// the sum over the terms of its extraction coproduct, with the character of the forests, or, where
/// `recentre` is set, over those of its recentring coproduct, with the character of the right
/// trees. Refused in this order: the file writes down no equation; the text is not that of a tree
/// over its types with at most 24 edges (`MOST_EDGES`) and a decoration sum of at most 64
/// (`MOST_LISTED_DECORATIONS`); the table has more than 65,536 bytes (`MOST_FILE_BYTES`) or a line
/// that is none of a table; a coefficient of the coproduct passes 2^127-1; a tree that is looked up
/// has no row; the absolute products sum up to more than 2^127-1. No rule is built.
pub fn act_of(
    alloc: Global,
    file: &[u8],
    tree: &[u8],
    table: &[u8],
    recentre: bool,
) -> Result<Vec<u8>, Refusal>
    ensures text { IfOk result (λ v.
        IsActOf file.now tree.now table.now recentre (Ok v.items)) }
    ensures refused { IfErr result (λ e.
        (e ≡ Refusal.Memory) ⊎ IsActOf file.now tree.now table.now recentre (Err e)) }
    ensures no_fault { result ≢ Err Refusal.FileFault }
{
    match read_equation(alloc, file) {
        Ok(eq) => act_in(alloc, &eq, tree, table, recentre),
        Err(refusal) => Err(Refusal::of_file(refusal)),
    }
}

// The same for an equation.
fn act_in(
    alloc: Global,
    eq: &Equation,
    tree: &[u8],
    table: &[u8],
    recentre: bool,
) -> Result<Vec<u8>, Refusal>
    requires { IsEquation eq.now }
    ensures text { IfOk result (λ v. IsActIn eq.now tree.now table.now recentre (Ok v.items)) }
    ensures refused { IfErr result (λ e.
        (e ≡ Refusal.Memory) ⊎ IsActIn eq.now tree.now table.now recentre (Err e)) }
    ensures no_fault { result ≢ Err Refusal.FileFault }
{
    let arena = Bump::new(alloc);
    let given = given_tree(alloc, &arena, &eq.types, tree)?;
    act_by(alloc, &arena, eq, given.pool, given.id, table, recentre)
}

// The same for a tree of a pool, which is given up.
fn act_by<'a>(
    alloc: Global,
    arena: &'a Bump,
    eq: &Equation,
    mut pool: Pool<'a>,
    id: TreeId,
    table: &[u8],
    recentre: bool,
) -> Result<Vec<u8>, Refusal>
    requires types { pool.types ≡ eq.now.types }
    requires known { id.0 < length pool.trees }
    requires fit { IsFit (tree_at pool id.0) }
    ensures text { IfOk result (λ v.
        IsForTable (λ rows. Acts eq.now recentre rows (tree_at pool.entry id.0)) eq.now.types
        table.now (Ok v.items)) }
    ensures refused { IfErr result (λ e. (e ≡ Refusal.Memory)
        ⊎ IsForTable (λ rows. Acts eq.now recentre rows (tree_at pool.entry id.0)) eq.now.types
        table.now (Err e)) }
    ensures no_fault { result ≢ Err Refusal.FileFault }
{
    let character = given_table(alloc, &eq.types, &mut pool, table)?;
    act_in_pool(alloc, arena, eq, pool, id, &character, recentre)
}

// The same for a character of the pool.
fn act_in_pool<'a>(
    alloc: Global,
    arena: &'a Bump,
    eq: &Equation,
    pool: Pool<'a>,
    id: TreeId,
    character: &Character,
    recentre: bool,
) -> Result<Vec<u8>, Refusal>
    requires types { pool.types ≡ eq.now.types }
    requires known { id.0 < length pool.trees }
    requires fit { IsFit (tree_at pool id.0) }
    requires rows { IsCharacter pool character.now.rows }
    ensures text { IfOk result (λ v.
        Acts eq.now recentre (rows_over pool.entry character.now.rows) (tree_at pool.entry id.0)
        (Ok v.items)) }
    ensures refused { IfErr result (λ e. (e ≡ Refusal.Memory)
        ⊎ Acts eq.now recentre (rows_over pool.entry character.now.rows) (tree_at pool.entry id.0)
        (Err e)) }
    ensures no_fault { result ≢ Err Refusal.FileFault }
{
    if recentre {
        act_from_right(alloc, arena, eq, pool, id, character)
    } else {
        act_from_left(alloc, arena, eq, pool, id, character)
    }
}

// The sum over the terms of the extraction coproduct.
fn act_from_left<'a>(
    alloc: Global,
    arena: &'a Bump,
    eq: &Equation,
    pool: Pool<'a>,
    id: TreeId,
    character: &Character,
) -> Result<Vec<u8>, Refusal>
    requires types { pool.types ≡ eq.now.types }
    requires known { id.0 < length pool.trees }
    requires fit { IsFit (tree_at pool id.0) }
    requires rows { IsCharacter pool character.now.rows }
    ensures text { IfOk result (λ v.
        ActsFromLeft eq.now (rows_over pool.entry character.now.rows) (tree_at pool.entry id.0)
        (Ok v.items)) }
    ensures refused { IfErr result (λ e. (e ≡ Refusal.Memory)
        ⊎ ActsFromLeft eq.now (rows_over pool.entry character.now.rows) (tree_at pool.entry id.0)
        (Err e)) }
    ensures no_fault { result ≢ Err Refusal.FileFault }
{
    let mut tables = tables_over(alloc, arena, &eq.types, pool)?;
    let mut work = Work { tables: 0 };
    match act_left(alloc, &mut tables, character, id, &mut work) {
        Ok(lines) => act_text(alloc, tables.pool(), lines.as_slice()),
        Err(error) => Err(sum_refusal(alloc, tables.pool(), id, b"extraction", b"act", error)),
    }
}

// The sum over the terms of the recentring coproduct.
fn act_from_right<'a>(
    alloc: Global,
    arena: &'a Bump,
    eq: &Equation,
    mut pool: Pool<'a>,
    id: TreeId,
    character: &Character,
) -> Result<Vec<u8>, Refusal>
    requires types { pool.types ≡ eq.now.types }
    requires known { id.0 < length pool.trees }
    requires fit { IsFit (tree_at pool id.0) }
    requires rows { IsCharacter pool character.now.rows }
    ensures text { IfOk result (λ v.
        ActsFromRight eq.now (rows_over pool.entry character.now.rows) (tree_at pool.entry id.0)
        (Ok v.items)) }
    ensures refused { IfErr result (λ e. (e ≡ Refusal.Memory)
        ⊎ ActsFromRight eq.now (rows_over pool.entry character.now.rows) (tree_at pool.entry id.0)
        (Err e)) }
    ensures no_fault { result ≢ Err Refusal.FileFault }
{
    let mut recentrer = new_recentrer(alloc, arena)?;
    match act_right(alloc, &mut pool, &mut recentrer, character, id) {
        Ok(lines) => act_text(alloc, &pool, lines.as_slice()),
        Err(error) => Err(sum_refusal(alloc, &pool, id, b"recentring", b"act", error)),
    }
}

// A recentrer with nothing finished, which fits every pool.
fn new_recentrer<'a>(alloc: Global, arena: &'a Bump) -> Result<Recentrer<'a>, Refusal>
    ensures fits { IfOk result (λ r. (c : Content) → FitsPool r c) }
    ensures memory { IfErr result (λ e. e ≡ Refusal.Memory) }
{
    fit_laws();
    match Recentrer::new(alloc, arena) {
        Ok(recentrer) => Ok(recentrer),
        Err(_) => Err(Refusal::Memory),
    }
}
