// Pairings of noise edges.
ghost use Rattle.std.specs.Prelude.{◌≡◌, ◌<◌, ◌≤◌, ◌+◌, ◌++◌, ◌∷◌, [], map, length, take, drop, slice_index_or, IfOk, IfErr, OnOk};
ghost use Rattle.tree_pool.specs.Content.{tree_at};
ghost use Rattle.gaussian_pairings.specs.declared.pairing.PairingError.TheVariants.{Memory};
ghost use Rattle.gaussian_pairings.specs.Pairings.{noise_edges, pairs_of, ArePairings, IsRefused};
ghost use Rattle.gaussian_pairings.specs.Listing.{paired, pairings_of};

use crate::noises::{NoiseEdge, numbered, put_groups};
use degree_numbers::Types;
use sqlite_items::Items;
use std::alloc::{AllocError, Global};
use thiserror::Error;
use tree_pool::{Pool, TreeId};

const MOST_NOISES: usize = 12;

/// A partition of the noise edges of a tree into pairs within one noise group. Noise edges are
/// numbered from 1 in preorder. In each pair the smaller number stands first, and the pairs are in
/// order.
#[derive(Debug, Drop)]
pub struct Pairing {
    pub pairs: Items<(u16, u16)>,
}

/// Why there are no pairings.
#[derive(Clone, Copy, Debug, PartialEq, Eq, Error)]
pub enum PairingError {
    /// The tree has more than 12 noise edges (`MOST_PAIRED_NOISES`).
    #[error("{count} noise edges are too many for pairings")]
    TooManyNoises { count: u32 },
    /// Memory is wanted.
    #[error("out of memory")]
    Memory,
}

impl From<AllocError> for PairingError {
    ghost from_gives = { λ _ e. e ≡ Memory };

    fn from(_e: AllocError) -> PairingError {
        PairingError::Memory
    }
}

/// Puts a pairing of these pairs behind others.
fn put_pairing(
    alloc: Global,
    pairs: &[(u16, u16)],
    all: &mut Vec<Pairing>,
) -> Result<(), AllocError>
    ensures { OnOk result (pairs_of all.new.items ≡ pairs_of all.old.items ++ pairs.now ∷ []) }
{
    let pairs = Items::from_slice(alloc, pairs)?;
    all.push(Pairing { pairs })?;
    Ok(())
}

/// The noise edges but the one at this place.
fn without(alloc: Global, noises: &[NoiseEdge], place: usize) -> Result<Vec<NoiseEdge>, AllocError>
    requires { place < length noises.now }
    ensures { IfOk result (λ others. others.items ≡ take place noises.now
        ++ drop (place + 1) noises.now) }
{
    let mut others = Vec::new(alloc);
    others.extend_from_slice(&noises[..place])?;
    others.extend_from_slice(&noises[place + 1..])?;
    Ok(others)
}

/// The chosen pairs with one more behind them.
fn with_pair(
    alloc: Global,
    chosen: &[(u16, u16)],
    pair: (u16, u16),
) -> Result<Vec<(u16, u16)>, AllocError>
    ensures { IfOk result (λ pairs. pairs.items ≡ chosen.now ++ pair ∷ []) }
{
    let mut pairs = Vec::new(alloc);
    pairs.extend_from_slice(chosen)?;
    pairs.push(pair)?;
    Ok(pairs)
}

/// Puts behind others the pairings in which the first of the noise edges that are left is paired
/// with the one at this place of the rest, where the two are of one group.
#[cycle(put_pairings)]
fn put_partner(
    alloc: Global,
    chosen: &[(u16, u16)],
    first: NoiseEdge,
    rest: &[NoiseEdge],
    place: usize,
    all: &mut Vec<Pairing>,
) -> Result<(), AllocError>
    requires { place < length rest.now }
    ensures { OnOk result (pairs_of all.new.items ≡ pairs_of all.old.items
        ++ map (λ ps. chosen.now ++ ps) (paired first (slice_index_or rest.now place first)
        (pairings_of (take place rest.now ++ drop (place + 1) rest.now)))) }
{
    let partner = rest[place];
    if partner.group != first.group {
        return Ok(());
    }
    let others = without(alloc, rest, place)?;
    let pairs = with_pair(alloc, chosen, (first.number, partner.number))?;
    put_pairings(alloc, pairs.as_slice(), others.as_slice(), all)?;
    Ok(())
}

/// Puts the pairings of the noise edges that are left behind others, each behind the pairs that are
/// chosen: the first noise edge is paired with each later one of its group in turn.
#[cycle(put_pairings)]
fn put_pairings(
    alloc: Global,
    chosen: &[(u16, u16)],
    left: &[NoiseEdge],
    all: &mut Vec<Pairing>,
) -> Result<(), AllocError>
    ensures { OnOk result (pairs_of all.new.items ≡ pairs_of all.old.items
        ++ map (λ ps. chosen.now ++ ps) (pairings_of left.now)) }
{
    let Some((first, rest)) = left.split_first() else {
        return put_pairing(alloc, chosen, all);
    };
    for place in 0..rest.len() {
        put_partner(alloc, chosen, *first, rest, place, all)?;
    }
    Ok(())
}

/// All pairings of the noise edges of a tree, each once, in lexicographic order: what the
/// expectation of a product of Gaussian variables sums over (Isserlis). For
/// `[u[xi]*u[xi]*u[xi]*u[xi]]` they are `(1,2)(3,4)`, `(1,3)(2,4)` and `(1,4)(2,3)`; a tree without
/// noises has the one empty pairing. Fails with `TooManyNoises` exactly where the tree has more
/// than 12 noise edges (`MOST_PAIRED_NOISES`), with their number, and for want of memory. The pool
/// is one that was made with these types.
pub fn pairings(
    alloc: Global,
    types: &Types,
    pool: &Pool<'_>,
    id: TreeId,
) -> Result<Vec<Pairing>, PairingError>
    requires known { id.0 < length pool.now.trees }
    requires types { pool.now.types ≡ types.now }
    ensures pairings { IfOk result
        (λ all. ArePairings (noise_edges types.now (tree_at pool.now id.0)) (pairs_of all.items)) }
    ensures few { IfOk result (λ _. length (noise_edges types.now (tree_at pool.now id.0)) ≤ 12) }
    ensures refusal { IfErr result (IsRefused (noise_edges types.now (tree_at pool.now id.0))) }
{
    pool.laws();
    let mut groups = Vec::new(alloc);
    put_groups(types, pool, id, &mut groups)?;
    let groups = groups.as_slice();
    if groups.len() > MOST_NOISES {
        return Err(PairingError::TooManyNoises {
            count: groups.len() as u32,
        });
    }
    let noises = numbered(alloc, groups)?;
    let mut all = Vec::new(alloc);
    put_pairings(alloc, &[], noises.as_slice(), &mut all)?;
    Ok(all)
}
