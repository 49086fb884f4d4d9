// The elementary differentials of a tree at all unknowns.
ghost use Rattle.std.specs.Prelude.{◌≡◌, ◌<◌, ◌++◌, [], ◌∷◌, length, IfOk, IfErr, OnOk, IsOkUnless};
ghost use Rattle.std.specs.List.{All};
ghost use Rattle.equations.specs.Accepted.{IsEquation};
ghost use Rattle.tree_pool.specs.Content.{tree_at};
ghost use Rattle.counterterm_report.specs.Values.{IsPrinted};
ghost use Rattle.tree_values.specs.Quantities.{quantities_at};
ghost use Rattle.tree_values.specs.Ranges.{IsDifferentialPast, IsFirstOf, AreInRange};
ghost use Rattle.tree_values.specs.Values.{IsDifferentialOf, AreDifferentialsOf, IsRefusedFor};

use crate::error::ValuesError;
use crate::quantity::Quantity;
use counterterm_report::DiffValue;
use elementary_diff::{DiffRefusal, differential};
use equations::{Equation, Unknown};
use sqlite_items::Items;
use std::alloc::Global;
use tree_pool::{Pool, TreeId};

/// The elementary differential of a tree at an unknown.
fn differential_at(
    alloc: Global,
    eq: &Equation,
    unknown: &Unknown,
    pool: &Pool<'_>,
    id: TreeId,
) -> Result<DiffValue, ValuesError>
    requires equation { IsEquation eq.now }
    requires known { id.0 < length pool.now.trees }
    requires types { pool.now.types ≡ eq.now.types }
    ensures value { IfOk result (IsDifferentialOf eq.now (tree_at pool.now id.0) unknown.now) }
    ensures printed { IfOk result (λ d. IsPrinted eq.now d.poly) }
    ensures range { OnOk result (AreInRange (IsDifferentialPast eq.now (tree_at pool.now id.0))
        (quantities_at (unknown.now ∷ []))) }
    ensures refusal { IfErr result (IsRefusedFor id
        (IsFirstOf (IsDifferentialPast eq.now (tree_at pool.now id.0))
        (quantities_at (unknown.now ∷ [])))) }
{
    let kernel = unknown.kernel;
    let quantity = match differential(alloc, eq, kernel, pool, id) {
        Ok(d) => {
            return Ok(DiffValue {
                poly: d.poly,
                denominator: d.denominator,
            });
        }
        Err(DiffRefusal::CoefficientTooLarge) => Quantity::Differential { kernel },
        Err(DiffRefusal::DenominatorTooLarge) => Quantity::Denominator { kernel },
        Err(DiffRefusal::Memory) => return Err(ValuesError::Memory),
    };
    Err(ValuesError::TooLarge { tree: id, quantity })
}

/// Puts a differential behind others.
fn put(values: &mut Items<DiffValue>, value: DiffValue) -> Result<(), ValuesError>
    ensures put { OnOk result (values.new ≡ values.old ++ value ∷ []) }
    ensures memory { IsOkUnless result ValuesError.Memory }
{
    values.push(value)?;
    Ok(())
}

/// The elementary differentials of a tree at these unknowns.
fn differentials_at(
    alloc: Global,
    eq: &Equation,
    unknowns: &[Unknown],
    pool: &Pool<'_>,
    id: TreeId,
) -> Result<Items<DiffValue>, ValuesError>
    requires equation { IsEquation eq.now }
    requires known { id.0 < length pool.now.trees }
    requires types { pool.now.types ≡ eq.now.types }
    ensures values { IfOk result (AreDifferentialsOf eq.now (tree_at pool.now id.0)
        unknowns.now) }
    ensures printed { IfOk result (λ ds. All (λ d. IsPrinted eq.now d.poly) ds) }
    ensures range { OnOk result (AreInRange (IsDifferentialPast eq.now (tree_at pool.now id.0))
        (quantities_at unknowns.now)) }
    ensures refusal { IfErr result (IsRefusedFor id
        (IsFirstOf (IsDifferentialPast eq.now (tree_at pool.now id.0))
        (quantities_at unknowns.now))) }
{
    let mut values = Items::new(alloc);
    for u in unknowns {
        let value = differential_at(alloc, eq, u, pool, id)?;
        put(&mut values, value)?;
    }
    Ok(values)
}

/// The elementary differentials of a tree at all unknowns, in their order, each with its
/// denominator. Refused exactly where the mass of one is out of range, or its denominator is while
/// the mass is neither 0 nor out of range, with the first such quantity; and for want of memory.
pub fn differentials_of(
    alloc: Global,
    eq: &Equation,
    pool: &Pool<'_>,
    id: TreeId,
) -> Result<Items<DiffValue>, ValuesError>
    requires equation { IsEquation eq.now }
    requires known { id.0 < length pool.now.trees }
    requires types { pool.now.types ≡ eq.now.types }
    ensures values { IfOk result (AreDifferentialsOf eq.now (tree_at pool.now id.0)
        eq.now.unknowns) }
    ensures printed { IfOk result (λ ds. All (λ d. IsPrinted eq.now d.poly) ds) }
    ensures range { OnOk result (AreInRange (IsDifferentialPast eq.now (tree_at pool.now id.0))
        (quantities_at eq.now.unknowns)) }
    ensures refusal { IfErr result (IsRefusedFor id
        (IsFirstOf (IsDifferentialPast eq.now (tree_at pool.now id.0))
        (quantities_at eq.now.unknowns))) }
{
    differentials_at(alloc, eq, eq.unknowns.as_slice(), pool, id)
}
