// Holding 0 for trees that vanish.
ghost use Rattle.std.specs.Prelude.{◌≡◌, ◌↔◌, ◌<◌, length, IsTrue, OnOk, OnErr, IsOkUnless};
ghost use Rattle.std.specs.List.{All};
ghost use Rattle.tree_pool.specs.Content.{tree_at, trees_of};
ghost use Rattle.symbol_polys.specs.View.{IsPoly};
ghost use Rattle.twisted_antipode.specs.Counts.{HasAllComponents};
ghost use Rattle.twisted_antipode.specs.Held.{weighed_of, held_over, AreHeldOver, IsExtended};
ghost use Rattle.twisted_antipode.specs.Kinds.{AreHeldTyped};
ghost use Rattle.twisted_antipode.specs.Values.{nothing_value};
ghost use Rattle.vanishing_constants.specs.Zeros.{IsKnownZero, AreKnownZeros, HoldsZeros, with_zero};

use coefficient_bounds::{has_small_coefficients, small_coefficients_are_in_range};
use gaussian_pairings::vanishes;
use std::alloc::Global;
use symbol_polys::{Poly, zero};
use tree_pool::{Pool, TreeId};
use twisted_antipode::{AntipodeError, Constants};

/// Holds 0 as the constant of each of these trees that vanishes and for which nothing is held, so
/// that no coproduct has to be made for it. Does so where all of them are known to have the
/// constant 0: where 0 is held for a tree that vanishes, or nothing is and the bound of its
/// coefficients is in range; else it holds what it held. The list has all components of its trees.
/// Fails only for want of memory, and holds nothing but constants then too.
pub fn hold_zeros(
    alloc: Global,
    pool: &Pool<'_>,
    ids: &[TreeId],
    constants: &mut Constants,
) -> Result<(), AntipodeError>
    requires known { All (λ id. id.0 < length pool.now.trees) ids.now }
    requires closed { HasAllComponents pool.now.types (trees_of pool.now ids.now) }
    requires held { AreHeldOver pool.now constants.old }
    ensures zeros { OnOk result (HoldsZeros pool.now.types (held_over pool.now constants.old)
        (held_over pool.now constants.new) (trees_of pool.now ids.now)) }
    ensures left { (AreKnownZeros pool.now.types (held_over pool.now constants.old)
        (trees_of pool.now ids.now) → ⊥) → constants.new ≡ constants.old }
    ensures extended { IsExtended pool.now constants.old constants.new }
    ensures held { AreHeldOver pool.now constants.new }
    ensures typed { AreHeldTyped pool.now.types constants.old →
        AreHeldTyped pool.now.types constants.new }
    ensures memory { IsOkUnless result AntipodeError.Memory }
{
    pool.laws();
    small_coefficients_are_in_range();
    if !are_zeros(pool, ids, constants) {
        return Ok(());
    }
    for id in ids {
        hold_zero(alloc, pool, *id, constants)?;
    }
    Ok(())
}

// Whether each of these trees that vanishes is known to have the constant 0.
fn are_zeros(pool: &Pool<'_>, ids: &[TreeId], constants: &Constants) -> bool
    requires known { All (λ id. id.0 < length pool.now.trees) ids.now }
    requires held { AreHeldOver pool.now constants.now }
    ensures { IsTrue result ↔ AreKnownZeros pool.now.types (held_over pool.now constants.now)
        (trees_of pool.now ids.now) }
{
    for id in ids {
        if !is_zero(pool, *id, constants) {
            return false;
        }
    }
    true
}

// Whether a tree is known to have the constant 0, or does not vanish.
fn is_zero(pool: &Pool<'_>, id: TreeId, constants: &Constants) -> bool
    requires known { id.0 < length pool.now.trees }
    requires held { AreHeldOver pool.now constants.now }
    ensures { IsTrue result ↔ IsKnownZero pool.now.types (held_over pool.now constants.now)
        (tree_at pool.now id.0) }
{
    pool.laws();
    if !vanishes(pool.types(), pool, id) {
        return true;
    }
    match constants.get(id) {
        Some(poly) => is_nothing(poly),
        None => has_small_coefficients(pool, id),
    }
}

// Whether a polynomial is 0, with the mass 0.
fn is_nothing(poly: &Poly) -> bool
    requires { IsPoly poly.now }
    ensures { IsTrue result ↔ (weighed_of poly.now ≡ nothing_value) }
{
    poly.mass == 0
}

// Holds 0 as the constant of a tree that vanishes, where nothing is held for it.
fn hold_zero(
    alloc: Global,
    pool: &Pool<'_>,
    id: TreeId,
    constants: &mut Constants,
) -> Result<(), AntipodeError>
    requires { id.0 < length pool.now.trees }
    ensures held { OnOk result (constants.new ≡ with_zero pool.now constants.old id.0) }
    ensures unchanged { OnErr result (constants.new ≡ constants.old) }
    ensures memory { IsOkUnless result AntipodeError.Memory }
{
    if !vanishes(pool.types(), pool, id) {
        return Ok(());
    }
    if constants.held(id) {
        return Ok(());
    }
    constants.hold(alloc, id, zero(alloc)?)
}
