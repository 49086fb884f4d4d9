// The twisted antipode of a tree, and its constant.
ghost use Rattle.std.specs.Prelude.{◌≡◌, ◌<◌, ◌≤◌, ◌∷◌, [], length, unsigned_abs, false, None, IfOk, IfErr};
ghost use Rattle.exact_sums.specs.Saturating.{overflow};
ghost use Rattle.symbol_polys.specs.View.{terms_of, IsPoly};
ghost use Rattle.tree_pool.specs.Content.{tree_at};
ghost use Rattle.cutting_sizes.specs.Bounds.{IsBounded};
ghost use Rattle.extraction_coproduct.specs.Finished.{coproduct_of, AreGrown};
ghost use Rattle.extraction_coproduct.specs.Terms.{AreInRange};
ghost use Rattle.antipode_laws.specs.Weighed.{Weighed};
ghost use Rattle.antipode_laws.specs.Antipode.{IsAntipode};
ghost use Rattle.antipode_laws.specs.Constants.{IsConstants};
ghost use Rattle.plain_trees.specs.Plain.{Plain};
ghost use Rattle.plain_trees.specs.Degree.{is_empty_tree};
ghost use Rattle.twisted_antipode.specs.declared.error.AntipodeError.TheVariants.{CoefficientTooLarge};
ghost use Rattle.twisted_antipode.specs.Values.{IsPolyOf, IsValueOf, IsKept};
ghost use Rattle.twisted_antipode.specs.Counts.{IsCountOf, AreFinishedOver};
ghost use Rattle.twisted_antipode.specs.Known.{first_held};
ghost use Rattle.twisted_antipode.specs.Kinds.{AreTyped, AreOverTrees, AreHeldTyped};
ghost use Rattle.twisted_antipode.specs.Held.{held_over, AreHeldOver, AreOverExpectations, IsExtended, IsAntipodeRefused, IsConstantRefused};

use crate::error::{AntipodeError, Quantity};
use crate::holding::Constants;
use crate::quotient::{Reading, is_empty};
use crate::recursion::value_at;
use crate::value::Value;
use extraction_coproduct::{CoproductError, Tables, Work};
use std::alloc::Global;
use symbol_polys::Poly;
use tree_pool::TreeId;

/// The polynomial of a value, or that this quantity is too large.
fn poly_of(value: Value, quantity: Quantity) -> Result<Poly, AntipodeError>
    requires { IsKept value }
    ensures poly { IfOk result IsPoly }
    ensures range { IfOk result (λ p. unsigned_abs p.mass < overflow) }
    ensures value { IfOk result (λ p. (w : Weighed) → IsValueOf w value → IsPolyOf w p) }
    ensures refusal { IfErr result (λ e. e ≡ CoefficientTooLarge quantity) }
    ensures large { IfErr result (λ e. (w : Weighed) → IsValueOf w value → overflow ≤ w.mass) }
{
    match value {
        Value::Sum(poly) => Ok(poly),
        Value::TooLarge => Err(AntipodeError::CoefficientTooLarge(quantity)),
    }
}

/// The twisted antipode of a tree, over symbols of trees, with its mass. Refused exactly where the
/// mass is out of range (as it is where a coefficient of the extraction coproduct of the tree, or
/// of one that the recursion meets, is), or for want of memory.
pub fn antipode<'a>(
    alloc: Global,
    tables: &mut Tables<'a>,
    id: TreeId,
    work: &mut Work,
) -> Result<Poly, AntipodeError>
    requires known { id.0 < length tables.old.pool.trees }
    requires bounded { IsBounded (tree_at tables.old.pool id.0) }
    ensures poly { IfOk result IsPoly }
    ensures range { IfOk result (λ p. unsigned_abs p.mass < overflow) }
    ensures trees { IfOk result (λ p. AreOverTrees tables.old.pool.types (terms_of p.terms)) }
    ensures value { IfOk result (λ p. (a : Plain → Weighed) → IsAntipode tables.old.pool.types a →
        IsPolyOf (a (tree_at tables.old.pool id.0)) p) }
    ensures refusal { IfErr result (IsAntipodeRefused tables.old.pool.types
        (tree_at tables.old.pool id.0)) }
    ensures grown { AreGrown tables.old tables.new }
    ensures counted { IsCountOf tables.old tables.new work.old.tables work.new.tables }
    ensures finished { AreFinishedOver tables.old tables.new []
        (tree_at tables.old.pool id.0 ∷ []) }
{
    tables.laws();
    let mut memo = Constants::new(alloc)?;
    let value = value_at(alloc, Reading::Antipode, tables, &mut memo, id, work)?;
    poly_of(value, Quantity::Antipode)
}

/// Refuses a tree with a coefficient of its extraction coproduct that is out of range, unless the
/// constant of the tree is known without its coproduct: it is held, or the tree is empty.
fn check_coefficients<'a>(
    alloc: Global,
    tables: &mut Tables<'a>,
    constants: &Constants,
    id: TreeId,
    work: &mut Work,
) -> Result<(), AntipodeError>
    requires known { id.0 < length tables.old.pool.trees }
    requires bounded { IsBounded (tree_at tables.old.pool id.0) }
    requires held { AreHeldOver tables.old.pool constants.now }
    ensures range { IfOk result (λ _. first_held constants.now id.0 ≡ None →
        is_empty_tree (tree_at tables.old.pool id.0) ≡ false →
        AreInRange (coproduct_of tables.old.pool id.0)) }
    ensures refusal { IfErr result (IsConstantRefused tables.old.pool.types
        (held_over tables.old.pool constants.now) (tree_at tables.old.pool id.0)) }
    ensures grown { AreGrown tables.old tables.new }
    ensures counted { IsCountOf tables.old tables.new work.old.tables work.new.tables }
    ensures finished { AreFinishedOver tables.old tables.new constants.now
        (tree_at tables.old.pool id.0 ∷ []) }
{
    tables.laws();
    if constants.held(id) {
        return Ok(());
    }
    if is_empty(tables.pool(), id) {
        return Ok(());
    }
    match tables.coproduct(alloc, id, work) {
        Ok(_) => Ok(()),
        Err(CoproductError::CoefficientTooLarge) => {
            Err(AntipodeError::CoefficientTooLarge(Quantity::Extraction))
        }
        Err(CoproductError::Memory) => Err(AntipodeError::Memory),
    }
}

/// The constant of a tree, over symbols of expectations, with its mass: the polynomial that is
/// held, else what the recursion gives over those that are held at the start of the call. Refused
/// exactly where the tree is not held and a coefficient of its extraction coproduct, or else the
/// mass, is out of range, or for want of memory. Constants that are found on the way may be held
/// afterwards.
pub fn constant<'a>(
    alloc: Global,
    tables: &mut Tables<'a>,
    constants: &mut Constants,
    id: TreeId,
    work: &mut Work,
) -> Result<Poly, AntipodeError>
    requires known { id.0 < length tables.old.pool.trees }
    requires bounded { IsBounded (tree_at tables.old.pool id.0) }
    requires held { AreHeldOver tables.old.pool constants.old }
    ensures poly { IfOk result IsPoly }
    ensures range { IfOk result (λ p. unsigned_abs p.mass < overflow) }
    ensures expectations { IfOk result (λ p. AreOverExpectations (terms_of p.terms)) }
    ensures typed { IfOk result (λ p. AreHeldTyped tables.old.pool.types constants.old →
        AreTyped tables.old.pool.types (terms_of p.terms)) }
    ensures value { IfOk result (λ p. (c : Plain → Weighed) →
        IsConstants tables.old.pool.types (held_over tables.old.pool constants.old) c →
        IsPolyOf (c (tree_at tables.old.pool id.0)) p) }
    ensures refusal { IfErr result (IsConstantRefused tables.old.pool.types
        (held_over tables.old.pool constants.old) (tree_at tables.old.pool id.0)) }
    ensures extended { IsExtended tables.new.pool constants.old constants.new }
    ensures held { AreHeldOver tables.new.pool constants.new }
    ensures held_typed { AreHeldTyped tables.old.pool.types constants.old →
        AreHeldTyped tables.new.pool.types constants.new }
    ensures grown { AreGrown tables.old tables.new }
    ensures counted { IsCountOf tables.old tables.new work.old.tables work.new.tables }
    ensures finished { AreFinishedOver tables.old tables.new constants.old
        (tree_at tables.old.pool id.0 ∷ []) }
{
    tables.laws();
    check_coefficients(alloc, tables, constants, id, work)?;
    let value = value_at(alloc, Reading::Constant, tables, constants, id, work);
    tables.laws();
    poly_of(value?, Quantity::Constant)
}
