// What the three sums ask of the terms of the coproducts.
ghost use Rattle.std.specs.Prelude.{◌≡◌, map, IfOk};
ghost use Rattle.pooled_cuttings.specs.Lines.{extracted_in, recentred_in, IsExtractKey, IsRightKey};
ghost use Rattle.extraction_coproduct.specs.Finished.{grove_of};
ghost use Rattle.extraction_coproduct.specs.Terms.{key_of, terms_in, AreKnownTerms};
ghost use Rattle.recentring_coproduct.specs.Terms.{key_of as right_key_of, right_terms_in, AreKnownTerms as AreKnownRightTerms};
ghost use Rattle.characters.specs.Asked.{IsKnown, AreKnown, asked_in, left_question, right_question, question};

use crate::asked::Asked;
use extraction_coproduct::{ExtractTerm, Tables};
use recentring_coproduct::RightTerm;
use std::alloc::{AllocError, Global};
use tree_pool::Pool;

/// What the sum of values on forests asks of a term of extraction.
fn left_question<'a>(tables: &Tables<'a>, term: &ExtractTerm) -> Asked<'a>
    requires { IsExtractKey (grove_of tables.now) (key_of term.now) }
    ensures known { IsKnown tables.now.pool result }
    ensures question { asked_in tables.now.pool result ≡ left_question
        (extracted_in (grove_of tables.now) (key_of term.now), term.now.coefficient) }
{
    tables.laws();
    Asked {
        key: term.quotient,
        coefficient: term.coefficient,
        first: tables.forests().trees(term.forest),
        second: None,
    }
}

/// What the sum of products of two characters asks of a term of extraction.
fn question<'a>(tables: &Tables<'a>, term: &ExtractTerm) -> Asked<'a>
    requires { IsExtractKey (grove_of tables.now) (key_of term.now) }
    ensures known { IsKnown tables.now.pool result }
    ensures question { asked_in tables.now.pool result ≡ question
        (extracted_in (grove_of tables.now) (key_of term.now), term.now.coefficient) }
{
    tables.laws();
    Asked {
        key: term.quotient,
        coefficient: term.coefficient,
        first: tables.forests().trees(term.forest),
        second: Some(term.quotient),
    }
}

/// What the sum of values at right trees asks of a term of recentring.
fn right_question<'a>(pool: &Pool<'_>, term: &RightTerm) -> Asked<'a>
    requires { IsRightKey pool.now (right_key_of term.now) }
    ensures known { IsKnown pool.now result }
    ensures question { asked_in pool.now result ≡ right_question
        (recentred_in pool.now (right_key_of term.now), term.now.coefficient) }
{
    let _ = pool;
    Asked {
        key: term.left,
        coefficient: term.coefficient,
        first: &[],
        second: Some(term.right),
    }
}

/// What the sum of values on forests asks of terms of extraction.
pub(crate) fn left_questions<'a>(
    alloc: Global,
    tables: &Tables<'a>,
    terms: &[ExtractTerm],
) -> Result<Vec<Asked<'a>>, AllocError>
    requires { AreKnownTerms (grove_of tables.now) terms.now }
    ensures known { IfOk result (λ v. AreKnown tables.now.pool v.items) }
    ensures questions { IfOk result (λ v. map (asked_in tables.now.pool) v.items
        ≡ map left_question (terms_in (grove_of tables.now) terms.now)) }
{
    let mut asked = Vec::new(alloc);
    for term in terms {
        asked.push(left_question(tables, term))?;
    }
    Ok(asked)
}

/// What the sum of products of two characters asks of terms of extraction.
pub(crate) fn questions<'a>(
    alloc: Global,
    tables: &Tables<'a>,
    terms: &[ExtractTerm],
) -> Result<Vec<Asked<'a>>, AllocError>
    requires { AreKnownTerms (grove_of tables.now) terms.now }
    ensures known { IfOk result (λ v. AreKnown tables.now.pool v.items) }
    ensures questions { IfOk result (λ v. map (asked_in tables.now.pool) v.items
        ≡ map question (terms_in (grove_of tables.now) terms.now)) }
{
    let mut asked = Vec::new(alloc);
    for term in terms {
        asked.push(question(tables, term))?;
    }
    Ok(asked)
}

/// What the sum of values at right trees asks of terms of recentring.
pub(crate) fn right_questions<'a>(
    alloc: Global,
    pool: &Pool<'_>,
    terms: &[RightTerm],
) -> Result<Vec<Asked<'a>>, AllocError>
    requires { AreKnownRightTerms pool.now terms.now }
    ensures known { IfOk result (λ v. AreKnown pool.now v.items) }
    ensures questions { IfOk result (λ v. map (asked_in pool.now) v.items
        ≡ map right_question (right_terms_in pool.now terms.now)) }
{
    let mut asked = Vec::new(alloc);
    for term in terms {
        asked.push(right_question(pool, term))?;
    }
    Ok(asked)
}
