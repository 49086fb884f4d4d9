// The values of quotients.
ghost use Rattle.std.specs.Prelude.{◌≡◌, ◌<◌, length, IfOk, IsOkUnless};
ghost use Rattle.plain_trees.specs.Degree.{is_empty_tree};
ghost use Rattle.gaussian_pairings.specs.Vanishing.{vanishes};
ghost use Rattle.symbol_polys.specs.Symbols.{tree, expectation};
ghost use Rattle.tree_pool.specs.Content.{tree_at};
ghost use Rattle.antipode_laws.specs.Weighed.{symbol_term};
ghost use Rattle.twisted_antipode.specs.Values.{IsValueOf, IsKept, nothing_value, symbol_value};
ghost use Rattle.twisted_antipode.specs.Quotients.{quotient_value};

use crate::error::AntipodeError;
use crate::value::{Value, unit};
use gaussian_pairings::vanishes;
use std::alloc::Global;
use symbol_polys::{PolyError, Symbol, symbol, zero};
use tree_pool::{Pool, TreeId};

/// What quotients are read as.
#[derive(Clone, Copy, Debug, PartialEq, Eq)]
pub(crate) enum Reading {
    /// Trees, as the antipode has them.
    Antipode,
    /// Expectations, as constants have them.
    Constant,
}

/// Whether a tree is the empty tree.
pub(crate) fn is_empty(pool: &Pool<'_>, id: TreeId) -> bool
    requires { id.0 < length pool.now.trees }
    ensures { result ≡ is_empty_tree (tree_at pool.now id.0) }
{
    let (n, edges) = pool.node(id);
    edges.is_empty() && n.is_zero()
}

/// The value 0.
pub(crate) fn nothing(alloc: Global) -> Result<Value, PolyError>
    ensures kept { IfOk result IsKept }
    ensures value { IfOk result (IsValueOf nothing_value) }
    ensures memory { IsOkUnless result PolyError.Memory }
{
    Ok(Value::Sum(zero(alloc)?))
}

/// The symbol of a tree.
fn tree_value(alloc: Global, pool: &Pool<'_>, id: TreeId) -> Result<Value, AntipodeError>
    requires { id.0 < length pool.now.trees }
    ensures kept { IfOk result IsKept }
    ensures value { IfOk result (IsValueOf (symbol_value (tree (tree_at pool.now id.0)))) }
    ensures memory { IsOkUnless result AntipodeError.Memory }
{
    pool.laws();
    Ok(Value::Sum(symbol(alloc, Symbol::Plain(pool.plain(alloc, id)?))?))
}

/// The symbol of the expectation of a tree.
fn expectation_value(alloc: Global, pool: &Pool<'_>, id: TreeId) -> Result<Value, AntipodeError>
    requires { id.0 < length pool.now.trees }
    ensures kept { IfOk result IsKept }
    ensures value { IfOk result (IsValueOf (symbol_value (expectation (tree_at pool.now id.0)))) }
    ensures memory { IsOkUnless result AntipodeError.Memory }
{
    pool.laws();
    Ok(Value::Sum(symbol(alloc, Symbol::Expect(pool.plain(alloc, id)?))?))
}

/// The value of a quotient.
pub(crate) fn quotient(
    alloc: Global,
    reading: Reading,
    pool: &Pool<'_>,
    id: TreeId,
) -> Result<Value, AntipodeError>
    requires { id.0 < length pool.now.trees }
    ensures kept { IfOk result IsKept }
    ensures value { IfOk result (IsValueOf (quotient_value reading pool.now.types
        (tree_at pool.now id.0))) }
    ensures memory { IsOkUnless result AntipodeError.Memory }
{
    if reading == Reading::Constant && vanishes(pool.types(), pool, id) {
        return Ok(nothing(alloc)?);
    }
    if is_empty(pool, id) {
        return Ok(unit(alloc)?);
    }
    match reading {
        Reading::Antipode => tree_value(alloc, pool, id),
        Reading::Constant => expectation_value(alloc, pool, id),
    }
}
