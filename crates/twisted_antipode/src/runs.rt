// The sum of the quotients of terms with one forest.
ghost use Rattle.std.specs.Prelude.{◌≤◌, ◌<◌, ◌≡◌, ◌↔◌, ◌∷◌, [], unsigned_abs, length, take, get_or, IfOk, IsOkUnless, IsTrue};
ghost use Rattle.std.specs.List.{AllByRecursion};
ghost use Rattle.tree_pool.specs.Content.{tree_at};
ghost use Rattle.tree_pool.specs.Forests.{numbers};
ghost use Rattle.exact_sums.specs.Saturating.{overflow};
ghost use Rattle.antipode_laws.specs.Weighed.{Weighed};
ghost use Rattle.twisted_antipode.specs.Values.{IsValueOf, IsKept, sum_of, product_of, negative_of};
ghost use Rattle.twisted_antipode.specs.Quotients.{quotient_value};
ghost use Rattle.extraction_coproduct.specs.declared.term.ExtractTerm.{ExtractTerm};
ghost use Rattle.twisted_antipode.specs.RunTerms.{IsCoefficient, IsRunTerm, quotients_in, multiple_of, run_value};

use crate::error::AntipodeError;
use crate::quotient::{Reading, nothing, quotient};
use crate::value::{Value, negative, product, sum};
use extraction_coproduct::ExtractTerm;
use std::alloc::Global;
use symbol_polys::{PolyError, scale};
use tree_pool::{Pool, TreeId};

/// A value times a coefficient.
fn multiple(alloc: Global, a: &Value, by: i128) -> Result<Value, PolyError>
    requires a { IsKept a.now }
    requires by { IsCoefficient by }
    ensures kept { IfOk result IsKept }
    ensures value { IfOk result (λ v. (w : Weighed) → IsValueOf w a.now →
        IsValueOf (multiple_of (unsigned_abs by) w) v) }
    ensures memory { IsOkUnless result PolyError.Memory }
{
    match a {
        Value::Sum(f) => match scale(alloc, f, by) {
            Ok(p) => Ok(Value::Sum(p)),
            Err(PolyError::CoefficientTooLarge) => Ok(Value::TooLarge),
            Err(e) => Err(e),
        },
        Value::TooLarge => Ok(Value::TooLarge),
    }
}

/// A sum with the quotient of one more term.
fn with_quotient(
    alloc: Global,
    reading: Reading,
    pool: &Pool<'_>,
    total: Value,
    term: &ExtractTerm,
) -> Result<Value, AntipodeError>
    requires total { IsKept total }
    requires term { IsRunTerm pool.now term.now }
    ensures kept { IfOk result IsKept }
    ensures value { IfOk result (λ v. (w : Weighed) → w.mass ≤ overflow → IsValueOf w total →
        IsValueOf (sum_of w (multiple_of (unsigned_abs term.now.coefficient)
        (quotient_value reading pool.now.types (tree_at pool.now term.now.quotient.0)))) v) }
    ensures memory { IsOkUnless result AntipodeError.Memory }
{
    let one = quotient(alloc, reading, pool, term.quotient)?;
    let all = multiple(alloc, &one, term.coefficient)?;
    Ok(sum(alloc, total, all)?)
}

/// The sum of the quotients of terms with one forest, each times its coefficient.
pub(crate) fn quotients(
    alloc: Global,
    reading: Reading,
    pool: &Pool<'_>,
    run: &[ExtractTerm],
) -> Result<Value, AntipodeError>
    requires { AllByRecursion (IsRunTerm pool.now) run.now }
    ensures kept { IfOk result IsKept }
    ensures value { IfOk result (IsValueOf (run_value reading pool.now.types
        (quotients_in pool.now run.now))) }
    ensures memory { IsOkUnless result AntipodeError.Memory }
{
    let mut total = nothing(alloc)?;
    for term in run {
        total = with_quotient(alloc, reading, pool, total, term)?;
    }
    Ok(total)
}

/// A sum with minus the product of the quotients and the forest of a run.
pub(crate) fn with_product(
    alloc: Global,
    total: Value,
    quotients: &Value,
    forest: &Value,
) -> Result<Value, AntipodeError>
    requires total { IsKept total }
    requires quotients { IsKept quotients.now }
    requires forest { IsKept forest.now }
    ensures kept { IfOk result IsKept }
    ensures value { IfOk result (λ v. (w q f : Weighed) → w.mass ≤ overflow → IsValueOf w total →
        IsValueOf q quotients.now → IsValueOf f forest.now →
        IsValueOf (sum_of w (negative_of (product_of f q))) v) }
    ensures memory { IsOkUnless result AntipodeError.Memory }
{
    let all = product(alloc, forest, quotients)?;
    let minus = negative(alloc, &all)?;
    Ok(sum(alloc, total, minus)?)
}

/// How many terms from the first on have its forest.
pub(crate) fn run_length(terms: &[ExtractTerm]) -> usize
    requires { 0 < length terms.now }
    ensures some { 0 < result }
    ensures most { result ≤ length terms.now }
    ensures forest { (d : ExtractTerm) → AllByRecursion
        (λ e. e.forest ≡ (get_or terms.now 0 d).forest) (take result terms.now) }
{
    let forest = terms[0].forest;
    let mut i = 1;
    while i < terms.len() && terms[i].forest == forest {
        i += 1;
    }
    i
}

/// Whether a forest is one tree alone.
pub(crate) fn is_alone(trees: &[TreeId], id: TreeId) -> bool
    ensures { IsTrue result ↔ (numbers trees.now ≡ id.0 ∷ []) }
{
    match trees {
        [tree] => *tree == id,
        _ => false,
    }
}
