// Values that are known already, by the numbers of their trees.
ghost use Rattle.std.specs.Prelude.{◌≡◌, ◌<◌, ◌⊎◌, None, IfOk, IfSome, IsOkUnless, MatchOption};
ghost use Rattle.tree_pool.specs.Content.{tree_at};
ghost use Rattle.twisted_antipode.specs.Values.{IsKept};
ghost use Rattle.twisted_antipode.specs.Known.{first_held, AreWellHeld, IsHeldAs, IsHeldWith};

use crate::error::AntipodeError;
use crate::holding::Constants;
use crate::value::{Value, copy, copy_poly};
use std::alloc::Global;
use tree_pool::{Pool, TreeId};

/// The value that is held for a tree.
pub(crate) fn held_value(
    alloc: Global,
    pool: &Pool<'_>,
    memo: &Constants,
    id: TreeId,
) -> Result<Option<Value>, AntipodeError>
    requires { AreWellHeld pool.now memo.now }
    ensures kept { IfOk result (λ o. IfSome o IsKept) }
    ensures value { IfOk result (λ o. MatchOption o (first_held memo.now id.0 ≡ None)
        (IsHeldAs memo.now id.0)) }
    ensures memory { IsOkUnless result AntipodeError.Memory }
{
    let _ = pool;
    match memo.get(id) {
        None => Ok(None),
        Some(poly) => Ok(Some(copy_poly(alloc, poly)?)),
    }
}

/// Holds a value for a tree, unless something is held for it or the value is too large.
pub(crate) fn keep(
    alloc: Global,
    memo: &mut Constants,
    id: TreeId,
    value: &Value,
) -> Result<(), AntipodeError>
    requires { IsKept value.now }
    ensures held { (memo.new ≡ memo.old) ⊎ IsHeldWith memo.old memo.new id.0 value.now }
    ensures memory { IsOkUnless result AntipodeError.Memory }
{
    if memo.held(id) {
        return Ok(());
    }
    match copy(alloc, value)? {
        Value::Sum(poly) => memo.hold(alloc, id, poly),
        Value::TooLarge => Ok(()),
    }
}
