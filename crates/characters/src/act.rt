// The two actions of a character on a tree.
ghost use Rattle.std.specs.Prelude.{◌≡◌, ◌<◌, [], length, IfOk, IfErr, OnOk};
ghost use Rattle.exact_sums.specs.Saturating.{overflow};
ghost use Rattle.tree_pool.specs.Content.{tree_at, IsGrown};
ghost use Rattle.plain_trees.specs.Plain.{tree_order};
ghost use Rattle.signed_sums.specs.Signed.{size_of, IsSumOf};
ghost use Rattle.cutting_sizes.specs.Bounds.{IsBounded, IsFit};
ghost use Rattle.extraction_coproduct.specs.Finished.{coproduct_of, grove_of, AreGrown};
ghost use Rattle.extraction_coproduct.specs.Terms.{terms_in, AreKnownTerms};
ghost use Rattle.recentring_coproduct.specs.Terms.{right_terms_in, AreKnownTerms as AreKnownRightTerms};
ghost use Rattle.recentring_coproduct.specs.Held.{recentring_of, FitsPool, HasGrown};
ghost use Rattle.character_tables.specs.Rows.{rows_over, AreKnownRows, IsCharacter};
ghost use Rattle.characters.specs.Asked.{AreKnown, IsNotGiven, answers_in, missing_in, left_answers, left_missing, right_answers, right_missing};
ghost use Rattle.characters.specs.Sums.{AreKnownLines, IsLeftSum, IsRightSum, IsGiven, IsRefused, IsAskedOnce, lacking_left, lacking_right, left_products, right_products, lines_over};

use crate::asked::Asked;
use crate::line::Line;
use crate::products::products;
use crate::questions::{left_questions, right_questions};
use crate::refusal::{extraction_refusal, recentring_refusal};
use crate::summing::sum_by_tree;
use character_tables::{Character, CharacterError};
use extraction_coproduct::{ExtractTerm, Tables, Work};
use recentring_coproduct::{Recentrer, RightTerm};
use std::alloc::Global;
use tree_pool::{Pool, TreeId};

/// The sum by tree of the products that questions ask for, or the first cause against it.
fn lines(
    alloc: Global,
    pool: &Pool<'_>,
    g: &Character,
    h: &Character,
    asked: &[Asked<'_>],
) -> Result<Vec<Line>, CharacterError>
    requires known { AreKnown pool.now asked.now }
    requires g { AreKnownRows pool.now g.now.rows }
    requires h { AreKnownRows pool.now h.now.rows }
    ensures sum { IfOk result (λ v. IsSumOf tree_order
        (answers_in pool.now g.now.rows h.now.rows asked.now) (lines_over pool.now v.items)) }
    ensures known { IfOk result (λ v. AreKnownLines pool.now v.items) }
    ensures given { OnOk result ((missing_in pool.now g.now.rows h.now.rows asked.now ≡ [])
        × (size_of (answers_in pool.now g.now.rows h.now.rows asked.now) < overflow)) }
    ensures refusal { IfErr result (IsNotGiven pool.now
        (missing_in pool.now g.now.rows h.now.rows asked.now)
        (size_of (answers_in pool.now g.now.rows h.now.rows asked.now))) }
{
    let mut terms = products(alloc, pool, g, h, asked)?;
    Ok(sum_by_tree(alloc, pool, &mut terms)?)
}

/// The sum of the values of a character on the forests of terms of extraction, by quotient.
fn left_lines<'a>(
    alloc: Global,
    tables: &Tables<'a>,
    g: &Character,
    terms: &[ExtractTerm],
) -> Result<Vec<Line>, CharacterError>
    requires known { AreKnownTerms (grove_of tables.now) terms.now }
    requires rows { AreKnownRows tables.now.pool g.now.rows }
    ensures sum { IfOk result (λ v. IsSumOf tree_order (left_answers
        (rows_over tables.now.pool g.now.rows) (terms_in (grove_of tables.now) terms.now))
        (lines_over tables.now.pool v.items)) }
    ensures known { IfOk result (λ v. AreKnownLines tables.now.pool v.items) }
    ensures given { OnOk result ((left_missing (rows_over tables.now.pool g.now.rows)
        (terms_in (grove_of tables.now) terms.now) ≡ [])
        × (size_of (left_answers (rows_over tables.now.pool g.now.rows)
        (terms_in (grove_of tables.now) terms.now)) < overflow)) }
    ensures refusal { IfErr result (IsNotGiven tables.now.pool
        (left_missing (rows_over tables.now.pool g.now.rows)
        (terms_in (grove_of tables.now) terms.now))
        (size_of (left_answers (rows_over tables.now.pool g.now.rows)
        (terms_in (grove_of tables.now) terms.now)))) }
{
    let asked = left_questions(alloc, tables, terms)?;
    lines(alloc, tables.pool(), g, g, asked.as_slice())
}

/// The sum of the values of a character at the right trees of terms of recentring, by left tree.
fn right_lines(
    alloc: Global,
    pool: &Pool<'_>,
    f: &Character,
    terms: &[RightTerm],
) -> Result<Vec<Line>, CharacterError>
    requires known { AreKnownRightTerms pool.now terms.now }
    requires rows { AreKnownRows pool.now f.now.rows }
    ensures sum { IfOk result (λ v. IsSumOf tree_order (right_answers
        (rows_over pool.now f.now.rows) (right_terms_in pool.now terms.now))
        (lines_over pool.now v.items)) }
    ensures known { IfOk result (λ v. AreKnownLines pool.now v.items) }
    ensures given { OnOk result ((right_missing (rows_over pool.now f.now.rows)
        (right_terms_in pool.now terms.now) ≡ [])
        × (size_of (right_answers (rows_over pool.now f.now.rows)
        (right_terms_in pool.now terms.now)) < overflow)) }
    ensures refusal { IfErr result (IsNotGiven pool.now
        (right_missing (rows_over pool.now f.now.rows) (right_terms_in pool.now terms.now))
        (size_of (right_answers (rows_over pool.now f.now.rows)
        (right_terms_in pool.now terms.now)))) }
{
    let asked = right_questions(alloc, pool, terms)?;
    lines(alloc, pool, f, f, asked.as_slice())
}

/// The action of a character by extraction (after Bruned, Hairer and Zambotti): the sum, over the
/// terms of the extraction coproduct of a tree, of the coefficient times the character of the
/// forest, by quotient. Lines are in tree order, without zeros. A character is multiplicative on
/// forests and 1 at the empty tree; each other tree of each forest is looked up in the table. The
/// refusals, in their order:
///
/// - `CoefficientTooLarge` with `Coproduct`: a coefficient of the coproduct passes 2^127-1.
/// - `Missing`: a tree that is looked up has no row, the first such in tree order; no value excuses
///   it, not even a 0 in the same product.
/// - `CoefficientTooLarge` with `Sum`: the absolute values of the products sum up to more than
///   2^127-1.
/// - `Memory`: want of memory.
pub fn act_left<'a>(
    alloc: Global,
    tables: &mut Tables<'a>,
    g: &Character,
    id: TreeId,
    work: &mut Work,
) -> Result<Vec<Line>, CharacterError>
    requires known { id.0 < length tables.old.pool.trees }
    requires bounded { IsBounded (tree_at tables.old.pool id.0) }
    requires rows { IsCharacter tables.old.pool g.now.rows }
    ensures lines { IfOk result (λ v. IsLeftSum (rows_over tables.old.pool g.now.rows)
        (coproduct_of tables.old.pool id.0) (lines_over tables.new.pool v.items)) }
    ensures known { IfOk result (λ v. AreKnownLines tables.new.pool v.items) }
    ensures given { OnOk result (IsGiven (coproduct_of tables.old.pool id.0)
        (lacking_left (rows_over tables.old.pool g.now.rows) (coproduct_of tables.old.pool id.0))
        (size_of (left_products (rows_over tables.old.pool g.now.rows)
        (coproduct_of tables.old.pool id.0)))) }
    ensures refusal { IfErr result (IsRefused tables.new.pool (coproduct_of tables.old.pool id.0)
        (lacking_left (rows_over tables.old.pool g.now.rows) (coproduct_of tables.old.pool id.0))
        (size_of (left_products (rows_over tables.old.pool g.now.rows)
        (coproduct_of tables.old.pool id.0)))) }
    ensures grown { AreGrown tables.old tables.new }
    ensures counted { IsAskedOnce tables.old tables.new id.0 work.old.tables work.new.tables }
{
    let terms = match tables.coproduct(alloc, id, work) {
        Ok(terms) => terms,
        Err(e) => return Err(extraction_refusal(e)),
    };
    left_lines(alloc, tables, g, terms)
}

/// The action of a character by recentring (after Bruned, Hairer and Zambotti): the sum, over the
/// terms of the recentring coproduct of a tree, of the coefficient times the value at the whole
/// right tree, by left tree. Lines are in tree order, without zeros. The refusals are those of
/// `act_left`, of the recentring coproduct and of the right trees.
pub fn act_right<'a>(
    alloc: Global,
    pool: &mut Pool<'a>,
    recentrer: &mut Recentrer<'a>,
    f: &Character,
    id: TreeId,
) -> Result<Vec<Line>, CharacterError>
    requires known { id.0 < length pool.old.trees }
    requires fit { IsFit (tree_at pool.old id.0) }
    requires fits { FitsPool recentrer.old pool.old }
    requires rows { IsCharacter pool.old f.now.rows }
    ensures lines { IfOk result (λ v. IsRightSum (rows_over pool.old f.now.rows)
        (recentring_of pool.old id.0) (lines_over pool.new v.items)) }
    ensures known { IfOk result (λ v. AreKnownLines pool.new v.items) }
    ensures given { OnOk result (IsGiven (recentring_of pool.old id.0)
        (lacking_right (rows_over pool.old f.now.rows) (recentring_of pool.old id.0))
        (size_of (right_products (rows_over pool.old f.now.rows) (recentring_of pool.old id.0)))) }
    ensures refusal { IfErr result (IsRefused pool.new (recentring_of pool.old id.0)
        (lacking_right (rows_over pool.old f.now.rows) (recentring_of pool.old id.0))
        (size_of (right_products (rows_over pool.old f.now.rows) (recentring_of pool.old id.0)))) }
    ensures grown { IsGrown pool.old pool.new }
    ensures fits { FitsPool recentrer.new pool.new }
    ensures held { HasGrown recentrer.old recentrer.new }
{
    let terms = match recentrer.recentre(alloc, pool, id) {
        Ok(terms) => terms,
        Err(e) => return Err(recentring_refusal(e)),
    };
    right_lines(alloc, pool, f, terms)
}
