// The product of two characters.
ghost use Rattle.std.specs.Prelude.{◌≡◌, ◌<◌, [], length, IfOk, IfErr, OnOk};
ghost use Rattle.exact_sums.specs.Saturating.{overflow};
ghost use Rattle.tree_pool.specs.Content.{tree_at};
ghost use Rattle.signed_sums.specs.Signed.{size_of};
ghost use Rattle.cutting_sizes.specs.Bounds.{IsBounded};
ghost use Rattle.extraction_coproduct.specs.Finished.{coproduct_of, grove_of, AreGrown};
ghost use Rattle.extraction_coproduct.specs.Terms.{terms_in, AreKnownTerms};
ghost use Rattle.character_tables.specs.Rows.{rows_over, AreKnownRows, IsCharacter};
ghost use Rattle.characters.specs.Asked.{AreKnown, IsNotGiven, answers_in, missing_in, both_answers, both_missing};
ghost use Rattle.characters.specs.Sums.{IsGiven, IsRefused, IsAskedOnce, lacking_both, products, product_sum, sum_of};

use crate::asked::Asked;
use crate::products::products;
use crate::questions::questions;
use crate::refusal::extraction_refusal;
use crate::summing::sum_of;
use character_tables::{Character, CharacterError};
use extraction_coproduct::{ExtractTerm, Tables, Work};
use std::alloc::Global;
use tree_pool::{Pool, TreeId};

/// The sum of the products that questions ask for, or the first cause against it.
fn sum(
    alloc: Global,
    pool: &Pool<'_>,
    g: &Character,
    h: &Character,
    asked: &[Asked<'_>],
) -> Result<i128, CharacterError>
    requires known { AreKnown pool.now asked.now }
    requires g { AreKnownRows pool.now g.now.rows }
    requires h { AreKnownRows pool.now h.now.rows }
    ensures sum { IfOk result (λ z. z ≡ sum_of
        (answers_in pool.now g.now.rows h.now.rows asked.now)) }
    ensures given { OnOk result ((missing_in pool.now g.now.rows h.now.rows asked.now ≡ [])
        × (size_of (answers_in pool.now g.now.rows h.now.rows asked.now) < overflow)) }
    ensures refusal { IfErr result (IsNotGiven pool.now
        (missing_in pool.now g.now.rows h.now.rows asked.now)
        (size_of (answers_in pool.now g.now.rows h.now.rows asked.now))) }
{
    match products(alloc, pool, g, h, asked) {
        Ok(terms) => Ok(sum_of(terms.as_slice())),
        Err(e) => Err(e),
    }
}

/// The sum over terms of extraction of the first character of the forest times the second of the
/// quotient.
fn sum_over<'a>(
    alloc: Global,
    tables: &Tables<'a>,
    g: &Character,
    h: &Character,
    terms: &[ExtractTerm],
) -> Result<i128, CharacterError>
    requires known { AreKnownTerms (grove_of tables.now) terms.now }
    requires first { AreKnownRows tables.now.pool g.now.rows }
    requires second { AreKnownRows tables.now.pool h.now.rows }
    ensures sum { IfOk result (λ z. z ≡ sum_of (both_answers
        (rows_over tables.now.pool g.now.rows) (rows_over tables.now.pool h.now.rows)
        (terms_in (grove_of tables.now) terms.now))) }
    ensures given { OnOk result ((both_missing (rows_over tables.now.pool g.now.rows)
        (rows_over tables.now.pool h.now.rows) (terms_in (grove_of tables.now) terms.now) ≡ [])
        × (size_of (both_answers (rows_over tables.now.pool g.now.rows)
        (rows_over tables.now.pool h.now.rows) (terms_in (grove_of tables.now) terms.now))
        < overflow)) }
    ensures refusal { IfErr result (IsNotGiven tables.now.pool
        (both_missing (rows_over tables.now.pool g.now.rows)
        (rows_over tables.now.pool h.now.rows) (terms_in (grove_of tables.now) terms.now))
        (size_of (both_answers (rows_over tables.now.pool g.now.rows)
        (rows_over tables.now.pool h.now.rows) (terms_in (grove_of tables.now) terms.now)))) }
{
    let asked = questions(alloc, tables, terms)?;
    sum(alloc, tables.pool(), g, h, asked.as_slice())
}

/// The product of two characters at a tree (after Bruned, Hairer and Zambotti): the sum, over the
/// terms of the extraction coproduct of the tree, of the coefficient times the first character of
/// the forest times the second of the quotient. The refusals are those of `act_left`, of both
/// tables: the first tree in tree order that lacks a row where it is looked up, in whichever table.
pub fn product<'a>(
    alloc: Global,
    tables: &mut Tables<'a>,
    g: &Character,
    h: &Character,
    id: TreeId,
    work: &mut Work,
) -> Result<i128, CharacterError>
    requires known { id.0 < length tables.old.pool.trees }
    requires bounded { IsBounded (tree_at tables.old.pool id.0) }
    requires first { IsCharacter tables.old.pool g.now.rows }
    requires second { IsCharacter tables.old.pool h.now.rows }
    ensures sum { IfOk result (λ z. z ≡ product_sum (rows_over tables.old.pool g.now.rows)
        (rows_over tables.old.pool h.now.rows) (coproduct_of tables.old.pool id.0)) }
    ensures given { OnOk result (IsGiven (coproduct_of tables.old.pool id.0)
        (lacking_both (rows_over tables.old.pool g.now.rows) (rows_over tables.old.pool h.now.rows)
        (coproduct_of tables.old.pool id.0))
        (size_of (products (rows_over tables.old.pool g.now.rows)
        (rows_over tables.old.pool h.now.rows) (coproduct_of tables.old.pool id.0)))) }
    ensures refusal { IfErr result (IsRefused tables.new.pool (coproduct_of tables.old.pool id.0)
        (lacking_both (rows_over tables.old.pool g.now.rows) (rows_over tables.old.pool h.now.rows)
        (coproduct_of tables.old.pool id.0))
        (size_of (products (rows_over tables.old.pool g.now.rows)
        (rows_over tables.old.pool h.now.rows) (coproduct_of tables.old.pool id.0)))) }
    ensures grown { AreGrown tables.old tables.new }
    ensures counted { IsAskedOnce tables.old tables.new id.0 work.old.tables work.new.tables }
{
    let terms = match tables.coproduct(alloc, id, work) {
        Ok(terms) => terms,
        Err(e) => return Err(extraction_refusal(e)),
    };
    sum_over(alloc, tables, g, h, terms)
}
