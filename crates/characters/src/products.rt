// The products of a sum, with what stands against it.
ghost use Rattle.std.specs.Prelude.{◌≡◌, ◌<◌, ◌≤◌, ◌++◌, ◌∷◌, ◌⊎◌, [], length, map, option_to_list, IfOk, IfErr, OnOk};
ghost use Rattle.exact_sums.specs.Saturating.{overflow};
ghost use Rattle.signed_sums.specs.Signed.{product_of, size_of, size_of_product};
ghost use Rattle.tree_pool.specs.Content.{tree_at, trees_of};
ghost use Rattle.character_tables.specs.Rows.{rows_over, AreKnownRows};
ghost use Rattle.character_tables.specs.declared.CharacterError.TheVariants.{CoefficientTooLarge, Memory};
ghost use Rattle.character_tables.specs.declared.CharacterPart.TheVariants.{Sum};
ghost use Rattle.characters.specs.Asked.{AreTrees, IsKnown, AreKnown, AreKnownTerms, IsNotGiven, asked_in, factors, answer, answers_in, missing_in, terms_over};
ghost use Rattle.characters.specs.Sums.{value_of};

use crate::asked::Asked;
use crate::lacking::{first, missing};
use crate::lookup::value_of;
use character_tables::{Character, CharacterError, CharacterPart};
use std::alloc::{AllocError, Global};
use tree_pool::{Pool, TreeId};

/// Puts the values at some trees behind other factors.
fn push_values(
    found: &mut Vec<i128>,
    pool: &Pool<'_>,
    table: &Character,
    ids: &[TreeId],
) -> Result<(), AllocError>
    requires known { AreTrees pool.now ids.now }
    requires rows { AreKnownRows pool.now table.now.rows }
    ensures { OnOk result (found.new.items ≡ found.old.items
        ++ map (value_of (rows_over pool.now table.now.rows)) (trees_of pool.now ids.now)) }
{
    for id in ids {
        found.push(value_of(pool, table, *id))?;
    }
    Ok(())
}

/// The coefficient of a question, and the values that it asks for.
fn factors(
    alloc: Global,
    pool: &Pool<'_>,
    g: &Character,
    h: &Character,
    asked: &Asked<'_>,
) -> Result<Vec<i128>, AllocError>
    requires known { IsKnown pool.now asked.now }
    requires g { AreKnownRows pool.now g.now.rows }
    requires h { AreKnownRows pool.now h.now.rows }
    ensures { IfOk result (λ v. v.items ≡ factors (rows_over pool.now g.now.rows)
        (rows_over pool.now h.now.rows) (asked_in pool.now asked.now)) }
{
    let mut found = Vec::new(alloc);
    found.push(asked.coefficient)?;
    if let Some(id) = asked.second {
        push_values(&mut found, pool, h, &[id])?;
    }
    push_values(&mut found, pool, g, asked.first)?;
    Ok(found)
}

/// The product of some factors, or the refusal.
fn product_of(factors: &[i128]) -> Result<i128, CharacterError>
    ensures product { IfOk result (λ z. z ≡ product_of factors.now) }
    ensures refusal { IfErr result (λ e. (e ≡ CoefficientTooLarge Sum)
        × (overflow ≤ size_of_product factors.now)) }
{
    match signed_sums::product(factors) {
        Some(product) => Ok(product),
        None => Err(CharacterError::CoefficientTooLarge {
            which: CharacterPart::Sum,
        }),
    }
}

/// The product that a question asks for, or the refusal.
fn answer(
    alloc: Global,
    pool: &Pool<'_>,
    g: &Character,
    h: &Character,
    asked: &Asked<'_>,
) -> Result<i128, CharacterError>
    requires known { IsKnown pool.now asked.now }
    requires g { AreKnownRows pool.now g.now.rows }
    requires h { AreKnownRows pool.now h.now.rows }
    ensures product { IfOk result (λ z. z ≡ product_of (factors (rows_over pool.now g.now.rows)
        (rows_over pool.now h.now.rows) (asked_in pool.now asked.now))) }
    ensures refusal { IfErr result (λ e. (e ≡ Memory) ⊎ ((e ≡ CoefficientTooLarge Sum)
        × (overflow ≤ size_of_product (factors (rows_over pool.now g.now.rows)
        (rows_over pool.now h.now.rows) (asked_in pool.now asked.now))))) }
{
    let factors = factors(alloc, pool, g, h, asked)?;
    product_of(factors.as_slice())
}

/// Puts a term behind others.
fn push_term(terms: &mut Vec<(TreeId, i128)>, key: TreeId, z: &i128) -> Result<(), AllocError>
    ensures { OnOk result (terms.new.items ≡ terms.old.items ++ (key, z.now) ∷ []) }
{
    terms.push((key, *z))?;
    Ok(())
}

/// Puts the term that a question asks for behind others, or the refusal.
fn push_answer(
    alloc: Global,
    terms: &mut Vec<(TreeId, i128)>,
    pool: &Pool<'_>,
    g: &Character,
    h: &Character,
    asked: &Asked<'_>,
) -> Result<(), CharacterError>
    requires known { IsKnown pool.now asked.now }
    requires g { AreKnownRows pool.now g.now.rows }
    requires h { AreKnownRows pool.now h.now.rows }
    ensures term { OnOk result (terms_over pool.now terms.new.items
        ≡ terms_over pool.now terms.old.items ++ answer (rows_over pool.now g.now.rows)
        (rows_over pool.now h.now.rows) (asked_in pool.now asked.now) ∷ []) }
    ensures known { AreKnownTerms pool.now terms.old.items →
        OnOk result (AreKnownTerms pool.now terms.new.items) }
    ensures refusal { IfErr result (λ e. (e ≡ Memory) ⊎ ((e ≡ CoefficientTooLarge Sum)
        × (overflow ≤ size_of_product (factors (rows_over pool.now g.now.rows)
        (rows_over pool.now h.now.rows) (asked_in pool.now asked.now))))) }
{
    match answer(alloc, pool, g, h, asked) {
        Ok(product) => Ok(push_term(terms, asked.key, &product)?),
        Err(e) => Err(e),
    }
}

/// The products that questions ask for, or the refusal where one is too large.
fn answers(
    alloc: Global,
    pool: &Pool<'_>,
    g: &Character,
    h: &Character,
    asked: &[Asked<'_>],
) -> Result<Vec<(TreeId, i128)>, CharacterError>
    requires known { AreKnown pool.now asked.now }
    requires g { AreKnownRows pool.now g.now.rows }
    requires h { AreKnownRows pool.now h.now.rows }
    ensures known { IfOk result (λ v. AreKnownTerms pool.now v.items) }
    ensures terms { IfOk result (λ v. terms_over pool.now v.items
        ≡ answers_in pool.now g.now.rows h.now.rows asked.now) }
    ensures refusal { IfErr result (λ e. (e ≡ Memory) ⊎ ((e ≡ CoefficientTooLarge Sum)
        × (overflow ≤ size_of (answers_in pool.now g.now.rows h.now.rows asked.now)))) }
{
    let mut terms = Vec::new(alloc);
    for one in asked {
        match push_answer(alloc, &mut terms, pool, g, h, one) {
            Ok(()) => {}
            Err(e) => return Err(e),
        }
    }
    Ok(terms)
}

/// The terms, or the refusal where their absolute values sum up to too much.
fn in_range(terms: Vec<(TreeId, i128)>) -> Result<Vec<(TreeId, i128)>, CharacterError>
    ensures terms { IfOk result (λ v. v.items ≡ terms.items) }
    ensures range { OnOk result (size_of terms.items < overflow) }
    ensures refusal { IfErr result (λ e. (e ≡ CoefficientTooLarge Sum)
        × (overflow ≤ size_of terms.items)) }
{
    if signed_sums::size(terms.as_slice()).value().is_none() {
        return Err(CharacterError::CoefficientTooLarge {
            which: CharacterPart::Sum,
        });
    }
    Ok(terms)
}

/// The products that questions ask for, or the first cause against their sum: a tree that lacks a
/// row, the first in tree order, whatever the other values are; then the sum of the absolute
/// products; or want of memory.
pub(crate) fn products(
    alloc: Global,
    pool: &Pool<'_>,
    g: &Character,
    h: &Character,
    asked: &[Asked<'_>],
) -> Result<Vec<(TreeId, i128)>, CharacterError>
    requires known { AreKnown pool.now asked.now }
    requires g { AreKnownRows pool.now g.now.rows }
    requires h { AreKnownRows pool.now h.now.rows }
    ensures known { IfOk result (λ v. AreKnownTerms pool.now v.items) }
    ensures terms { IfOk result (λ v. terms_over pool.now v.items
        ≡ answers_in pool.now g.now.rows h.now.rows asked.now) }
    ensures rows { OnOk result (missing_in pool.now g.now.rows h.now.rows asked.now ≡ []) }
    ensures range { OnOk result (size_of (answers_in pool.now g.now.rows h.now.rows asked.now)
        < overflow) }
    ensures refusal { IfErr result (IsNotGiven pool.now
        (missing_in pool.now g.now.rows h.now.rows asked.now)
        (size_of (answers_in pool.now g.now.rows h.now.rows asked.now))) }
{
    let lacking = missing(alloc, pool, g, h, asked)?;
    if let Some(tree) = first(pool, lacking.as_slice()) {
        return Err(CharacterError::Missing { tree });
    }
    match answers(alloc, pool, g, h, asked) {
        Ok(terms) => in_range(terms),
        Err(e) => Err(e),
    }
}
