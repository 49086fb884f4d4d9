// The product of two characters at a tree of an equation file.
ghost use Rattle.std.specs.Prelude.{◌≡◌, ◌≢◌, ◌⊎◌, ◌<◌, length, Ok, Err, IfOk, IfErr};
ghost use Rattle.equations.specs.Accepted.{IsEquation};
ghost use Rattle.tree_pool.specs.Content.{tree_at};
ghost use Rattle.cutting_sizes.specs.Bounds.{IsFit};
ghost use Rattle.character_tables.specs.Rows.{rows_over, IsCharacter};
ghost use Rattle.workbench_core.specs.Characters.{Multiplies, IsMultiplyIn, IsMultiplyOf};
ghost use Rattle.workbench_core.specs.GivenTable.{IsForTable};

use crate::compute::tables_over;
use crate::given_table::given_table;
use crate::given_tree::given_tree;
use crate::refusal::Refusal;
use crate::sums::{product_text, sum_refusal};
use bumpalo::Bump;
use characters::{Character, product};
use equation_file::read_equation;
use equations::Equation;
use extraction_coproduct::Work;
use std::alloc::Global;
use tree_pool::{Pool, TreeId};

/// The value, at the tree with this text, of the product of the characters of two tables, for the
/// equation of a file: the sum over the terms of its extraction coproduct, with the first character
/// of the forest and the second of the quotient. Refused in the order of `act_of`, the tables one
/// after the other; then the first tree that lacks a row where it is looked up, in whichever table.
pub fn multiply_of(
    alloc: Global,
    file: &[u8],
    tree: &[u8],
    first: &[u8],
    second: &[u8],
) -> Result<Vec<u8>, Refusal>
    ensures text { IfOk result (λ v.
        IsMultiplyOf file.now tree.now first.now second.now (Ok v.items)) }
    ensures refused { IfErr result (λ e.
        (e ≡ Refusal.Memory) ⊎ IsMultiplyOf file.now tree.now first.now second.now (Err e)) }
    ensures no_fault { result ≢ Err Refusal.FileFault }
{
    match read_equation(alloc, file) {
        Ok(eq) => multiply_in(alloc, &eq, tree, first, second),
        Err(refusal) => Err(Refusal::of_file(refusal)),
    }
}

// The same for an equation.
fn multiply_in(
    alloc: Global,
    eq: &Equation,
    tree: &[u8],
    first: &[u8],
    second: &[u8],
) -> Result<Vec<u8>, Refusal>
    requires { IsEquation eq.now }
    ensures text { IfOk result (λ v.
        IsMultiplyIn eq.now tree.now first.now second.now (Ok v.items)) }
    ensures refused { IfErr result (λ e.
        (e ≡ Refusal.Memory) ⊎ IsMultiplyIn eq.now tree.now first.now second.now (Err e)) }
    ensures no_fault { result ≢ Err Refusal.FileFault }
{
    let arena = Bump::new(alloc);
    let given = given_tree(alloc, &arena, &eq.types, tree)?;
    multiply_at(alloc, &arena, eq, given.pool, given.id, first, second)
}

// The same for a tree of a pool, which is given up.
fn multiply_at<'a>(
    alloc: Global,
    arena: &'a Bump,
    eq: &Equation,
    mut pool: Pool<'a>,
    id: TreeId,
    first: &[u8],
    second: &[u8],
) -> Result<Vec<u8>, Refusal>
    requires types { pool.types ≡ eq.now.types }
    requires known { id.0 < length pool.trees }
    requires fit { IsFit (tree_at pool id.0) }
    ensures text { IfOk result (λ v. IsForTable (λ gs. IsForTable (λ hs.
        Multiplies eq.now gs hs (tree_at pool.entry id.0)) eq.now.types second.now) eq.now.types
        first.now (Ok v.items)) }
    ensures refused { IfErr result (λ e. (e ≡ Refusal.Memory)
        ⊎ IsForTable (λ gs. IsForTable (λ hs.
        Multiplies eq.now gs hs (tree_at pool.entry id.0)) eq.now.types second.now) eq.now.types
        first.now (Err e)) }
    ensures no_fault { result ≢ Err Refusal.FileFault }
{
    let character = given_table(alloc, &eq.types, &mut pool, first)?;
    multiply_by(alloc, arena, eq, pool, id, &character, second)
}

// The same where the first character is one of the pool.
fn multiply_by<'a>(
    alloc: Global,
    arena: &'a Bump,
    eq: &Equation,
    mut pool: Pool<'a>,
    id: TreeId,
    first: &Character,
    second: &[u8],
) -> Result<Vec<u8>, Refusal>
    requires types { pool.types ≡ eq.now.types }
    requires known { id.0 < length pool.trees }
    requires fit { IsFit (tree_at pool id.0) }
    requires rows { IsCharacter pool first.now.rows }
    ensures text { IfOk result (λ v.
        IsForTable (λ hs. Multiplies eq.now (rows_over pool.entry first.now.rows) hs
        (tree_at pool.entry id.0)) eq.now.types second.now (Ok v.items)) }
    ensures refused { IfErr result (λ e. (e ≡ Refusal.Memory)
        ⊎ IsForTable (λ hs. Multiplies eq.now (rows_over pool.entry first.now.rows) hs
        (tree_at pool.entry id.0)) eq.now.types second.now (Err e)) }
    ensures no_fault { result ≢ Err Refusal.FileFault }
{
    let character = given_table(alloc, &eq.types, &mut pool, second)?;
    multiply_in_pool(alloc, arena, eq, pool, id, first, &character)
}

// The same where both characters are.
fn multiply_in_pool<'a>(
    alloc: Global,
    arena: &'a Bump,
    eq: &Equation,
    pool: Pool<'a>,
    id: TreeId,
    first: &Character,
    second: &Character,
) -> Result<Vec<u8>, Refusal>
    requires types { pool.types ≡ eq.now.types }
    requires known { id.0 < length pool.trees }
    requires fit { IsFit (tree_at pool id.0) }
    requires first { IsCharacter pool first.now.rows }
    requires second { IsCharacter pool second.now.rows }
    ensures text { IfOk result (λ v.
        Multiplies eq.now (rows_over pool.entry first.now.rows)
        (rows_over pool.entry second.now.rows) (tree_at pool.entry id.0) (Ok v.items)) }
    ensures refused { IfErr result (λ e. (e ≡ Refusal.Memory)
        ⊎ Multiplies eq.now (rows_over pool.entry first.now.rows)
        (rows_over pool.entry second.now.rows) (tree_at pool.entry id.0) (Err e)) }
    ensures no_fault { result ≢ Err Refusal.FileFault }
{
    let mut tables = tables_over(alloc, arena, &eq.types, pool)?;
    let mut work = Work { tables: 0 };
    match product(alloc, &mut tables, first, second, id, &mut work) {
        Ok(sum) => product_text(alloc, &sum),
        Err(error) => Err(sum_refusal(alloc, tables.pool(), id, b"extraction", b"product", error)),
    }
}
