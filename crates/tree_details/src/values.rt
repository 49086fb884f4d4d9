// The values of a tree, one quantity after the other.
ghost use Rattle.std.specs.Prelude.{◌≡◌, ◌<◌, ◌≤◌, [], ◌∷◌, length, IfOk, IfErr, OnOk, MatchOption};
ghost use Rattle.exact_sums.specs.Saturating.{overflow};
ghost use Rattle.plain_trees.specs.Plain.{Plain};
ghost use Rattle.equations.specs.Accepted.{IsEquation};
ghost use Rattle.tree_pool.specs.Content.{tree_at};
ghost use Rattle.cutting_sizes.specs.Bounds.{IsBounded};
ghost use Rattle.extraction_coproduct.specs.Finished.{coproduct_of, grove_of, AreGrown};
ghost use Rattle.extraction_coproduct.specs.Finished as extraction;
ghost use Rattle.extraction_coproduct.specs.Terms as terms;
ghost use Rattle.recentring_coproduct.specs.Held as held;
ghost use Rattle.recentring_coproduct.specs.Terms as lines;
ghost use Rattle.gaussian_pairings.specs.Pairings.{noise_edges, pairs_of, ArePairings};
ghost use Rattle.antipode_laws.specs.Weighed.{Weighed};
ghost use Rattle.antipode_laws.specs.Antipode.{nothing, IsAntipode};
ghost use Rattle.antipode_laws.specs.Constants.{IsConstants};
ghost use Rattle.tree_values.specs.declared.Quantity.TheVariants.{Extraction, Antipode, Constant};
ghost use Rattle.tree_values.specs.Quantities.{quantities_at};
ghost use Rattle.tree_values.specs.Ranges.{AreInRange, IsFirstOf};
ghost use Rattle.tree_values.specs.Values.{IsRefusedFor};
ghost use Rattle.tree_details.specs.Ranges.{IsPast, IsFirstPast, IsInRange};
ghost use Rattle.tree_details.specs.Values.{IsPolynomialOf, ArePolynomials, IsDetail};

use crate::detail::{Detail, Polynomials};
use equations::Equation;
use extraction_coproduct::{CoproductError, ExtractTerm, Tables, Work};
use gaussian_pairings::Pairing;
use recentring_coproduct::RightTerm;
use sqlite_items::Items;
use std::alloc::Global;
use symbol_polys::Poly;
use tree_pool::TreeId;
use tree_values::{Quantity, ValuesError, differentials_of};
use twisted_antipode::{Constants, antipode, constant};

// The terms of the extraction coproduct of a tree.
fn extraction_of<'a>(
    alloc: Global,
    tables: &mut Tables<'a>,
    id: TreeId,
    work: &mut Work,
) -> Result<&'a [ExtractTerm], ValuesError>
    requires known { id.0 < length tables.old.pool.trees }
    requires bounded { IsBounded (tree_at tables.old.pool id.0) }
    ensures terms { IfOk result (λ ts. extraction.IsTerms (grove_of tables.new) id.0 ts.now) }
    ensures range { OnOk result (terms.AreInRange (coproduct_of tables.old.pool id.0)) }
    ensures refusal { IfErr result (IsRefusedFor id (λ q. (q ≡ Extraction)
        × (terms.AreInRange (coproduct_of tables.old.pool id.0) → ⊥))) }
    ensures grown { AreGrown tables.old tables.new }
{
    match tables.coproduct(alloc, id, work) {
        Ok(terms) => Ok(terms),
        Err(CoproductError::CoefficientTooLarge) => Err(ValuesError::TooLarge {
            tree: id,
            quantity: Quantity::Extraction,
        }),
        Err(CoproductError::Memory) => Err(ValuesError::Memory),
    }
}

// The twisted antipode of a tree.
fn antipode_of<'a>(
    alloc: Global,
    eq: &Equation,
    tables: &mut Tables<'a>,
    id: TreeId,
    work: &mut Work,
) -> Result<Poly, ValuesError>
    requires types { tables.old.pool.types ≡ eq.now.types }
    requires known { id.0 < length tables.old.pool.trees }
    requires bounded { IsBounded (tree_at tables.old.pool id.0) }
    ensures value { IfOk result (λ p. (a : Plain → Weighed) → IsAntipode eq.now.types a →
        IsPolynomialOf eq.now (a (tree_at tables.old.pool id.0)).terms p
        × ((a (tree_at tables.old.pool id.0)).mass < overflow)) }
    ensures refusal { IfErr result (IsRefusedFor id (λ q. (q ≡ Antipode)
        × ((a : Plain → Weighed) → IsAntipode eq.now.types a →
        overflow ≤ (a (tree_at tables.old.pool id.0)).mass))) }
    ensures grown { AreGrown tables.old tables.new }
{
    tables.laws();
    match antipode(alloc, tables, id, work) {
        Ok(value) => Ok(value),
        Err(e) => Err(ValuesError::of_antipode(id, e)),
    }
}

// The constant of a tree whose extraction coproduct is in range, where no constant is held.
fn constant_of<'a>(
    alloc: Global,
    eq: &Equation,
    tables: &mut Tables<'a>,
    id: TreeId,
    work: &mut Work,
) -> Result<Poly, ValuesError>
    requires types { tables.old.pool.types ≡ eq.now.types }
    requires known { id.0 < length tables.old.pool.trees }
    requires bounded { IsBounded (tree_at tables.old.pool id.0) }
    requires range { terms.AreInRange (coproduct_of tables.old.pool id.0) }
    ensures value { IfOk result (λ p. (c : Plain → Weighed) → IsConstants eq.now.types nothing c →
        IsPolynomialOf eq.now (c (tree_at tables.old.pool id.0)).terms p
        × ((c (tree_at tables.old.pool id.0)).mass < overflow)) }
    ensures refusal { IfErr result (IsRefusedFor id (λ q. (q ≡ Constant)
        × ((c : Plain → Weighed) → IsConstants eq.now.types nothing c →
        overflow ≤ (c (tree_at tables.old.pool id.0)).mass))) }
    ensures grown { AreGrown tables.old tables.new }
{
    tables.laws();
    let Ok(mut constants) = Constants::new(alloc) else {
        return Err(ValuesError::Memory);
    };
    match constant(alloc, tables, &mut constants, id, work) {
        Ok(value) => Ok(value),
        Err(e) => Err(ValuesError::of_antipode(id, e)),
    }
}

// What is over symbols of a tree whose extraction coproduct is in range.
fn polynomials_of<'a>(
    alloc: Global,
    eq: &Equation,
    tables: &mut Tables<'a>,
    id: TreeId,
    work: &mut Work,
) -> Result<Polynomials, ValuesError>
    requires equation { IsEquation eq.now }
    requires types { tables.old.pool.types ≡ eq.now.types }
    requires known { id.0 < length tables.old.pool.trees }
    requires bounded { IsBounded (tree_at tables.old.pool id.0) }
    requires range { terms.AreInRange (coproduct_of tables.old.pool id.0) }
    ensures polynomials { IfOk result (ArePolynomials eq.now (tree_at tables.old.pool id.0)) }
    ensures range { OnOk result ((a c : Plain → Weighed) → IsAntipode eq.now.types a →
        IsConstants eq.now.types nothing c →
        AreInRange (IsPast eq.now a c (tree_at tables.old.pool id.0))
        (Antipode ∷ Constant ∷ quantities_at eq.now.unknowns)) }
    ensures refusal { IfErr result (λ e. (a c : Plain → Weighed) → IsAntipode eq.now.types a →
        IsConstants eq.now.types nothing c →
        IsRefusedFor id (IsFirstOf (IsPast eq.now a c (tree_at tables.old.pool id.0))
        (Antipode ∷ Constant ∷ quantities_at eq.now.unknowns)) e) }
    ensures grown { AreGrown tables.old tables.new }
{
    let antipode = antipode_of(alloc, eq, tables, id, work)?;
    let constant = constant_of(alloc, eq, tables, id, work)?;
    let differentials = differentials_of(alloc, eq, tables.pool(), id)?;
    Ok(Polynomials {
        antipode,
        constant,
        differentials,
    })
}

/// What a detail says of a tree, besides what takes no memory: both its coproducts (after Bruned,
/// Hairer and Zambotti), its twisted antipode, its constant, where no constant is held, and its
/// elementary differentials (after Bruned, Chandra, Chevyrev and Hairer). Its pairings are given,
/// and so are the terms of its recentring coproduct, over the pool of the tables, or `None` where a
/// coefficient of it is too large. Refused exactly where a quantity passes 2^127-1, with the first
/// one in this order: a coefficient of the extraction and of the recentring coproduct, the mass of
/// the antipode and of the constant, and for each unknown the mass of the differential and its
/// denominator; and for want of memory.
pub fn detail_values<'a>(
    alloc: Global,
    eq: &Equation,
    tables: &mut Tables<'a>,
    id: TreeId,
    pairings: Items<Pairing>,
    recentring: Option<&'a [RightTerm]>,
) -> Result<Detail<'a>, ValuesError>
    requires equation { IsEquation eq.now }
    requires types { tables.old.pool.types ≡ eq.now.types }
    requires known { id.0 < length tables.old.pool.trees }
    requires bounded { IsBounded (tree_at tables.old.pool id.0) }
    requires pairings { ArePairings
        (noise_edges eq.now.types (tree_at tables.old.pool id.0)) (pairs_of pairings) }
    requires recentring { MatchOption recentring
        (lines.AreInRange (held.recentring_of tables.old.pool id.0) → ⊥)
        (λ ts. held.IsTerms tables.old.pool id.0 ts.now) }
    ensures detail { IfOk result (IsDetail eq.now tables.new) }
    ensures tree { IfOk result (λ d. d.tree ≡ id) }
    ensures range { OnOk result ((a c : Plain → Weighed) → IsAntipode eq.now.types a →
        IsConstants eq.now.types nothing c →
        IsInRange eq.now a c (tree_at tables.old.pool id.0)) }
    ensures refusal { IfErr result (λ e. (a c : Plain → Weighed) → IsAntipode eq.now.types a →
        IsConstants eq.now.types nothing c →
        IsRefusedFor id (IsFirstPast eq.now a c (tree_at tables.old.pool id.0)) e) }
    ensures grown { AreGrown tables.old tables.new }
{
    let mut work = Work { tables: 0 };
    let extraction = extraction_of(alloc, tables, id, &mut work)?;
    tables.laws();
    let Some(recentring) = recentring else {
        return Err(ValuesError::TooLarge {
            tree: id,
            quantity: Quantity::Recentring,
        });
    };
    let polynomials = polynomials_of(alloc, eq, tables, id, &mut work)?;
    Ok(Detail {
        tree: id,
        pairings,
        extraction,
        recentring,
        polynomials,
    })
}
