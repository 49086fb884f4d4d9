// The detail of a tree of an equation file.
ghost use Rattle.std.specs.Prelude.{◌≡◌, ◌≢◌, ◌⊎◌, ◌≤◌, ◌<◌, length, Ok, Err, IfOk, IfErr, MatchOption};
ghost use Rattle.limits.specs.declared.TheConstants.{MOST_PAIRED_NOISES};
ghost use Rattle.equations.specs.Accepted.{IsEquation};
ghost use Rattle.tree_pool.specs.Content.{tree_at, IsGrown};
ghost use Rattle.cutting_sizes.specs.Bounds.{IsFit};
ghost use Rattle.recentring_coproduct.specs.Held as held;
ghost use Rattle.recentring_coproduct.specs.Terms as lines;
ghost use Rattle.gaussian_pairings.specs.Pairings.{noise_edges, pairs_of, ArePairings};
ghost use Rattle.workbench_core.specs.Detail.{noise_count, IsTooNoisy, IsDetailed, IsDetailIn, IsDetailOf};

use crate::compute::{tables_over, too_large};
use crate::given_tree::given_tree;
use crate::refusal::Refusal;
use bumpalo::Bump;
use equation_file::read_equation;
use equations::Equation;
use gaussian_pairings::{Pairing, PairingError, pairings};
use recentring_coproduct::{CoproductError, Recentrer, RightTerm};
use sqlite_items::Items;
use std::alloc::Global;
use tree_details::{detail_values, print_detail};
use tree_pool::{Pool, TreeId};
use tree_values::ValuesError;

/// The detail of the tree with this text, for the equation of a file; or why there is none: the
/// file writes down no equation; the text is not that of a tree over its types with at most 24
/// edges (`MOST_EDGES`) and a decoration sum of at most 64 (`MOST_LISTED_DECORATIONS`); the tree
/// has more than 12 noise edges (`MOST_PAIRED_NOISES`); or a quantity passes 2^127-1, of which the
/// first one is named, in this order: a coefficient of the extraction and of the recentring
/// coproduct, the mass of the twisted antipode and of the constant, and for each unknown the mass
/// of the elementary differential and its denominator. No rule is built.
pub fn detail_of(alloc: Global, file: &[u8], tree: &[u8]) -> Result<Vec<u8>, Refusal>
    ensures text { IfOk result (λ v. IsDetailOf file.now tree.now (Ok v.items)) }
    ensures refused { IfErr result (λ e.
        (e ≡ Refusal.Memory) ⊎ IsDetailOf file.now tree.now (Err e)) }
    ensures no_fault { result ≢ Err Refusal.FileFault }
{
    match read_equation(alloc, file) {
        Ok(eq) => detail_in(alloc, &eq, tree),
        Err(refusal) => Err(Refusal::of_file(refusal)),
    }
}

// The same for an equation.
fn detail_in(alloc: Global, eq: &Equation, text: &[u8]) -> Result<Vec<u8>, Refusal>
    requires { IsEquation eq.now }
    ensures text { IfOk result (λ v. IsDetailIn eq.now text.now (Ok v.items)) }
    ensures refused { IfErr result (λ e.
        (e ≡ Refusal.Memory) ⊎ IsDetailIn eq.now text.now (Err e)) }
    ensures no_fault { result ≢ Err Refusal.FileFault }
{
    let arena = Bump::new(alloc);
    let given = given_tree(alloc, &arena, &eq.types, text)?;
    detail_at(alloc, &arena, eq, given.pool, given.id)
}

// The same for a tree of a pool, which is given up.
fn detail_at<'a>(
    alloc: Global,
    arena: &'a Bump,
    eq: &Equation,
    pool: Pool<'a>,
    id: TreeId,
) -> Result<Vec<u8>, Refusal>
    requires equation { IsEquation eq.now }
    requires types { pool.types ≡ eq.now.types }
    requires known { id.0 < length pool.trees }
    requires fit { IsFit (tree_at pool id.0) }
    ensures text { IfOk result (λ v. IsDetailed eq.now (tree_at pool.entry id.0) (Ok v.items)) }
    ensures refused { IfErr result (λ e.
        (e ≡ Refusal.Memory) ⊎ IsDetailed eq.now (tree_at pool.entry id.0) (Err e)) }
    ensures no_fault { result ≢ Err Refusal.FileFault }
{
    let pairings = pairings_of(alloc, eq, &pool, id)?;
    detail_in_pool(alloc, arena, eq, pool, id, pairings)
}

// The pairings of a tree.
fn pairings_of(
    alloc: Global,
    eq: &Equation,
    pool: &Pool<'_>,
    id: TreeId,
) -> Result<Items<Pairing>, Refusal>
    requires types { pool.now.types ≡ eq.now.types }
    requires known { id.0 < length pool.now.trees }
    ensures pairings { IfOk result (λ ps.
        ArePairings (noise_edges eq.now.types (tree_at pool.now id.0)) (pairs_of ps)) }
    ensures few { IfOk result (λ ps.
        noise_count eq.now.types (tree_at pool.now id.0) ≤ MOST_PAIRED_NOISES) }
    ensures refused { IfErr result (λ e. (e ≡ Refusal.Memory)
        ⊎ IsTooNoisy eq.now.types (tree_at pool.now id.0) (Err e)) }
    ensures no_fault { result ≢ Err Refusal.FileFault }
{
    match pairings(alloc, &eq.types, pool, id) {
        Ok(pairings) => Ok(Items::from_vec(pairings)),
        Err(PairingError::TooManyNoises { count }) => Err(Refusal::TooManyNoises { count }),
        Err(PairingError::Memory) => Err(Refusal::Memory),
    }
}

// The terms of the recentring coproduct of a tree; `None` where a coefficient is too large.
fn recentring_of<'a>(
    alloc: Global,
    arena: &'a Bump,
    pool: &mut Pool<'a>,
    id: TreeId,
) -> Result<Option<&'a [RightTerm]>, Refusal>
    requires known { id.0 < length pool.old.trees }
    requires fit { IsFit (tree_at pool.old id.0) }
    ensures terms { IfOk result (λ r. MatchOption r
        (lines.AreInRange (held.recentring_of pool.new id.0) → ⊥)
        (λ ts. held.IsTerms pool.new id.0 ts.now)) }
    ensures memory { IfErr result (λ e. e ≡ Refusal.Memory) }
    ensures grown { IsGrown pool.old pool.new }
{
    let Ok(mut recentrer) = Recentrer::new(alloc, arena) else {
        return Err(Refusal::Memory);
    };
    match recentrer.recentre(alloc, pool, id) {
        Ok(terms) => Ok(Some(terms)),
        Err(CoproductError::CoefficientTooLarge) => Ok(None),
        Err(CoproductError::Memory) => Err(Refusal::Memory),
    }
}

// The same where the pairings of the tree are listed.
fn detail_in_pool<'a>(
    alloc: Global,
    arena: &'a Bump,
    eq: &Equation,
    mut pool: Pool<'a>,
    id: TreeId,
    pairings: Items<Pairing>,
) -> Result<Vec<u8>, Refusal>
    requires equation { IsEquation eq.now }
    requires types { pool.types ≡ eq.now.types }
    requires known { id.0 < length pool.trees }
    requires fit { IsFit (tree_at pool id.0) }
    requires pairings { ArePairings (noise_edges eq.now.types (tree_at pool id.0))
        (pairs_of pairings) }
    requires few { noise_count eq.now.types (tree_at pool id.0) ≤ MOST_PAIRED_NOISES }
    ensures text { IfOk result (λ v. IsDetailed eq.now (tree_at pool.entry id.0) (Ok v.items)) }
    ensures refused { IfErr result (λ e.
        (e ≡ Refusal.Memory) ⊎ IsDetailed eq.now (tree_at pool.entry id.0) (Err e)) }
    ensures no_fault { result ≢ Err Refusal.FileFault }
{
    let recentring = recentring_of(alloc, arena, &mut pool, id)?;
    let mut tables = tables_over(alloc, arena, &eq.types, pool)?;
    match detail_values(alloc, eq, &mut tables, id, pairings, recentring) {
        Ok(detail) => Ok(print_detail(alloc, eq, &tables, &detail)?),
        Err(ValuesError::TooLarge { quantity, .. }) => {
            Err(too_large(alloc, tables.pool(), id, quantity))
        }
        Err(ValuesError::Memory) => Err(Refusal::Memory),
    }
}
