// The constants that rows hold.
ghost use Rattle.std.specs.Prelude.{◌≡◌, ◌≤◌, ◌<◌, [], length, filter, map, option_map, is_some, Some, IfOk, IfErr, OnOk};
ghost use Rattle.std.specs.List.{All};
ghost use Rattle.limits.specs.declared.TheConstants.{MOST_LISTED_TREES};
ghost use Rattle.tree_pool.specs.Content.{trees_of};
ghost use Rattle.symbol_polys.specs.View.{IsPoly};
ghost use Rattle.twisted_antipode.specs.Held.{weighed_of, with_held, held_over, AreHeldOver};
ghost use Rattle.twisted_antipode.specs.Kinds.{AreHeldTyped};
ghost use Rattle.result_keeper.specs.Entries.{pair_of};
ghost use Rattle.stored_constants.specs.Rows.{AreHeldRows};
ghost use Rattle.stored_constants.specs.Held.{IsHoldRefused, IsHeldValue, IsHeldStep, IsStepRefused};

use crate::error::HoldError;
use crate::texts::values_by_tree;
use crate::value::value_of;
use result_keeper::StoredRow;
use std::alloc::Global;
use symbol_polys::Poly;
use tree_details::tree_text;
use tree_pool::{Pool, TreeId};
use twisted_antipode::Constants;

/// The constants that rows hold, and of how many of the trees.
#[derive(Drop)]
pub struct HeldRows {
    pub constants: Constants,
    pub reused: u32,
}

/// What the rows of a context hold for these trees: for each tree that has a row, the constant that
/// the row says, be it that of the tree or not. Of several rows of one tree the first is taken, and
/// rows of other trees are left alone. Refused exactly where the row of one of the trees is the
/// text of no value, with the first such tree; and for want of memory.
pub fn hold_rows(
    alloc: Global,
    pool: &Pool<'_>,
    ids: &[TreeId],
    rows: &[StoredRow],
) -> Result<HeldRows, HoldError>
    requires known { All (λ id. id.0 < length pool.now.trees) ids.now }
    requires few { length ids.now ≤ MOST_LISTED_TREES }
    ensures rows { IfOk result (λ h. AreHeldRows pool.now.types (map pair_of rows.now)
        (trees_of pool.now ids.now) (held_over pool.now h.constants)) }
    ensures held { IfOk result (λ h. AreHeldOver pool.now h.constants) }
    ensures typed { IfOk result (λ h. AreHeldTyped pool.now.types h.constants) }
    ensures reused { IfOk result (λ h. h.reused ≡ length
        (filter (λ t. is_some (held_over pool.now h.constants t)) (trees_of pool.now ids.now))) }
    ensures refused { IfErr result (IsHoldRefused pool.now (map pair_of rows.now) ids.now) }
{
    pool.laws();
    let values = values_by_tree(alloc, rows)?;
    let mut constants = nothing_held(alloc)?;
    let mut reused = 0;
    for id in ids {
        let text = tree_text(alloc, pool, *id)?;
        let row = values.get(text.as_slice()).copied();
        if hold_row(alloc, pool, *id, row, &mut constants)? {
            reused += 1;
        }
    }
    Ok(HeldRows { constants, reused })
}

// Nothing is held.
fn nothing_held(alloc: Global) -> Result<Constants, HoldError>
    ensures nothing { IfOk result (λ c. c ≡ []) }
    ensures memory { IfErr result (λ e. e ≡ HoldError.Memory) }
{
    match Constants::new(alloc) {
        Ok(constants) => Ok(constants),
        Err(_) => Err(HoldError::Memory),
    }
}

// Holds what the row of a tree says, where it has one, and tells whether it has.
fn hold_row(
    alloc: Global,
    pool: &Pool<'_>,
    id: TreeId,
    row: Option<&[u8]>,
    constants: &mut Constants,
) -> Result<bool, HoldError>
    ensures held { IfOk result (λ b.
        IsHeldStep pool.now (option_map (λ v. v.now) row.entry) id.0 constants.old constants.new) }
    ensures has { IfOk result (λ b. b ≡ is_some row.entry) }
    ensures refused { IfErr result (IsStepRefused pool.now (option_map (λ v. v.now) row.entry) id) }
{
    match row {
        None => Ok(false),
        Some(value) => {
            hold_value(alloc, pool, id, value, constants)?;
            Ok(true)
        }
    }
}

// Holds what this text says of a tree.
fn hold_value(
    alloc: Global,
    pool: &Pool<'_>,
    id: TreeId,
    value: &[u8],
    constants: &mut Constants,
) -> Result<(), HoldError>
    ensures held { OnOk result
        (IsHeldValue pool.now value.now id.0 constants.old constants.new) }
    ensures refused { IfErr result (IsStepRefused pool.now (Some value.now) id) }
{
    match value_of(alloc, pool.types(), value)? {
        Some(constant) => put_constant(alloc, id, constant, constants),
        None => Err(HoldError::NoValue(id)),
    }
}

// Holds a polynomial as the constant of a tree.
fn put_constant(
    alloc: Global,
    id: TreeId,
    constant: Poly,
    constants: &mut Constants,
) -> Result<(), HoldError>
    requires { IsPoly constant }
    ensures held { OnOk result
        (constants.new ≡ with_held constants.old id.0 (weighed_of constant)) }
    ensures memory { IfErr result (λ e. e ≡ HoldError.Memory) }
{
    match constants.hold(alloc, id, constant) {
        Ok(()) => Ok(()),
        Err(_) => Err(HoldError::Memory),
    }
}
