// Values of trees, and their arithmetic. A value whose mass is out of range is one all the same:
// times 0 it is 0.
ghost use Rattle.std.specs.Prelude.{◌≡◌, ◌≤◌, [], IfOk, IsOkUnless, IsTrue};
ghost use Rattle.exact_sums.specs.Saturating.{overflow};
ghost use Rattle.symbol_polys.specs.Polynomials.{HaveSameCoefficients};
ghost use Rattle.symbol_polys.specs.View.{IsPoly};
ghost use Rattle.antipode_laws.specs.Weighed.{Weighed, unit};
ghost use Rattle.twisted_antipode.specs.Values.{IsPolyOf, IsValueOf, IsKept, IsPolyInRange, sum_of, product_of, negative_of};

use std::alloc::Global;
use symbol_polys::{Poly, PolyError, add, mul, one, scale, zero};

/// The value of a tree, or of a sum of products.
#[derive(Drop)]
pub(crate) enum Value {
    /// A polynomial with its mass.
    Sum(Poly),
    /// The mass passes 2^127-1.
    TooLarge,
}

/// The value of the empty forest.
pub(crate) fn unit(alloc: Global) -> Result<Value, PolyError>
    ensures kept { IfOk result IsKept }
    ensures value { IfOk result (IsValueOf unit) }
    ensures memory { IsOkUnless result PolyError.Memory }
{
    Ok(Value::Sum(one(alloc)?))
}

/// The sum of two values, as a new one.
fn added(alloc: Global, a: &Value, b: &Value) -> Result<Value, PolyError>
    requires a { IsKept a.now }
    requires b { IsKept b.now }
    ensures kept { IfOk result IsKept }
    ensures value { IfOk result (λ v. (w u : Weighed) → IsValueOf w a.now → IsValueOf u b.now →
        IsValueOf (sum_of w u) v) }
    ensures memory { IsOkUnless result PolyError.Memory }
{
    match (a, b) {
        (Value::Sum(f), Value::Sum(g)) => match add(alloc, f, g) {
            Ok(p) => Ok(Value::Sum(p)),
            Err(PolyError::CoefficientTooLarge) => Ok(Value::TooLarge),
            Err(e) => Err(e),
        },
        _ => Ok(Value::TooLarge),
    }
}

/// The sum of two values. Where one of them is 0 the other is handed back as it is.
pub(crate) fn sum(alloc: Global, a: Value, b: Value) -> Result<Value, PolyError>
    requires a { IsKept a }
    requires b { IsKept b }
    ensures kept { IfOk result IsKept }
    ensures value { IfOk result (λ v. (w u : Weighed) → w.mass ≤ overflow → u.mass ≤ overflow →
        IsValueOf w a → IsValueOf u b → IsValueOf (sum_of w u) v) }
    ensures memory { IsOkUnless result PolyError.Memory }
{
    if is_nothing(&b) {
        return Ok(a);
    }
    if is_nothing(&a) {
        return Ok(b);
    }
    added(alloc, &a, &b)
}

/// The product of a polynomial and a value whose mass is out of range.
fn product_with_large(alloc: Global, f: &Poly) -> Result<Value, PolyError>
    requires { IsPolyInRange f.now }
    ensures kept { IfOk result IsKept }
    ensures value { IfOk result (λ v. (w u : Weighed) → IsPolyOf w f.now → overflow ≤ u.mass →
        IsValueOf (product_of w u) v × IsValueOf (product_of u w) v) }
    ensures memory { IsOkUnless result PolyError.Memory }
{
    if f.mass == 0 {
        return Ok(Value::Sum(zero(alloc)?));
    }
    Ok(Value::TooLarge)
}

/// The product of two values. What has the mass 0 makes it 0, also where the other mass is out of
/// range.
pub(crate) fn product(alloc: Global, a: &Value, b: &Value) -> Result<Value, PolyError>
    requires a { IsKept a.now }
    requires b { IsKept b.now }
    ensures kept { IfOk result IsKept }
    ensures value { IfOk result (λ v. (w u : Weighed) → IsValueOf w a.now → IsValueOf u b.now →
        IsValueOf (product_of w u) v) }
    ensures memory { IsOkUnless result PolyError.Memory }
{
    match (a, b) {
        (Value::Sum(f), Value::Sum(g)) => match mul(alloc, f, g) {
            Ok(p) => Ok(Value::Sum(p)),
            Err(PolyError::CoefficientTooLarge) => Ok(Value::TooLarge),
            Err(e) => Err(e),
        },
        (Value::Sum(f), Value::TooLarge) => product_with_large(alloc, f),
        (Value::TooLarge, Value::Sum(g)) => product_with_large(alloc, g),
        (Value::TooLarge, Value::TooLarge) => Ok(Value::TooLarge),
    }
}

/// Minus a value.
pub(crate) fn negative(alloc: Global, a: &Value) -> Result<Value, PolyError>
    requires a { IsKept a.now }
    ensures kept { IfOk result IsKept }
    ensures value { IfOk result (λ v. (w : Weighed) → w.mass ≤ overflow → IsValueOf w a.now →
        IsValueOf (negative_of w) v) }
    ensures memory { IsOkUnless result PolyError.Memory }
{
    match a {
        Value::Sum(f) => match scale(alloc, f, -1) {
            Ok(p) => Ok(Value::Sum(p)),
            Err(PolyError::CoefficientTooLarge) => Ok(Value::TooLarge),
            Err(e) => Err(e),
        },
        Value::TooLarge => Ok(Value::TooLarge),
    }
}

/// A copy of a polynomial, as a value.
pub(crate) fn copy_poly(alloc: Global, f: &Poly) -> Result<Value, PolyError>
    requires { IsPoly f.now }
    ensures kept { IfOk result IsKept }
    ensures value { IfOk result (λ v. (w : Weighed) → w.mass ≤ overflow → IsPolyOf w f.now →
        IsValueOf w v) }
    ensures memory { IsOkUnless result PolyError.Memory }
{
    match scale(alloc, f, 1) {
        Ok(p) => Ok(Value::Sum(p)),
        Err(PolyError::CoefficientTooLarge) => Ok(Value::TooLarge),
        Err(e) => Err(e),
    }
}

/// A copy of a value.
pub(crate) fn copy(alloc: Global, a: &Value) -> Result<Value, PolyError>
    requires a { IsKept a.now }
    ensures kept { IfOk result IsKept }
    ensures value { IfOk result (λ v. (w : Weighed) → w.mass ≤ overflow → IsValueOf w a.now →
        IsValueOf w v) }
    ensures memory { IsOkUnless result PolyError.Memory }
{
    match a {
        Value::Sum(f) => copy_poly(alloc, f),
        Value::TooLarge => Ok(Value::TooLarge),
    }
}

/// Whether a value is 0.
pub(crate) fn is_nothing(a: &Value) -> bool
    requires { IsKept a.now }
    ensures mass { IsTrue result → (w : Weighed) → IsValueOf w a.now → w.mass ≡ 0 }
    ensures terms { IsTrue result → (w : Weighed) → IsValueOf w a.now →
        HaveSameCoefficients w.terms [] }
{
    match a {
        Value::Sum(f) => f.mass == 0,
        Value::TooLarge => false,
    }
}
