// Stems with each decoration at their roots that fits.
ghost use Rattle.std.specs.Prelude.{◌≡◌, ◌<◌, ◌≤◌, ◌++◌, ◌∷◌, [], length, map, IfOk, IfErr, OnOk};
ghost use Rattle.std.specs.List.{All};
ghost use Rattle.std.specs.List.Sorted.{IsStrictlySortedBy};
ghost use Rattle.conforming_trees.specs.Listed.{listing_order};
ghost use Rattle.tree_pool.specs.Content.{IsGrown, IsKept, tree_at};
ghost use Rattle.tree_listing.specs.declared.refusal.ListRefusal.TheVariants.{TooManyTrees, TreeTooLarge};
ghost use Rattle.tree_listing.specs.Levels.{trees, sprouts, stem_trees};
ghost use Rattle.tree_listing.specs.Roots.{IsRoom};
ghost use Rattle.tree_listing.specs.Gathered.{gathered, IsFoundIn, IsKeeping, IsDecorable, with_tree, with_trees, IsOverfull, room_of, with_root_of, decorated_all};

use crate::found::{Found, put};
use crate::level::Stem;
use crate::passes::MOST_DECORATION;
use crate::refusal::ListRefusal;
use crate::roots::{Room, roots};
use crate::stems::decorate;
use degree_numbers::{Degree, Multi};
use std::alloc::{AllocError, Global};
use tree_pool::{Pool, TreeId};

// The greatest number of listed trees.
const MOST_TREES: usize = 4000;

/// What a decoration at the root of a stem has to keep within.
fn room_of(pool: &Pool<'_>, most: &Degree, stem: TreeId) -> Room
    requires known { stem.0 < length pool.now.trees }
    ensures room { result ≡ room_of pool.now.types most.now (tree_at pool.now stem.0) }
    ensures bounds { IsRoom result }
{
    pool.laws();
    Room {
        degree: pool.degree(stem),
        most: *most,
        entries: MOST_DECORATION.saturating_sub(pool.decoration_sum(stem)),
    }
}

/// Puts a number behind others.
fn push(ids: &mut Vec<TreeId>, id: TreeId) -> Result<(), AllocError>
    ensures { OnOk result (ids.new.items ≡ ids.old.items ++ id ∷ []) }
{
    ids.push(id)?;
    Ok(())
}

/// Puts in a stem with this decoration at its root.
fn put_whole(
    alloc: Global,
    pool: &mut Pool<'_>,
    found: &mut Found,
    wholes: &mut Vec<TreeId>,
    stem: TreeId,
    n: &Multi,
) -> Result<(), ListRefusal>
    requires known { stem.0 < length pool.old.trees }
    requires kept { IsKept pool.old.types (with_root_of (tree_at pool.old stem.0) n.now) }
    requires keeping { IsKeeping pool.old found.old wholes.old.items }
    ensures grown { IsGrown pool.old pool.new }
    ensures trees { OnOk result (trees pool.new wholes.new.items ≡ trees pool.old wholes.old.items
        ++ with_root_of (tree_at pool.old stem.0) n.now ∷ []) }
    ensures gathered { OnOk result (gathered pool.new found.new ≡ with_tree pool.old.types
        (gathered pool.old found.old) (with_root_of (tree_at pool.old stem.0) n.now)) }
    ensures keeping { OnOk result (IsKeeping pool.new found.new wholes.new.items) }
    ensures many { IfErr result (λ e. e ≡ TooManyTrees →
        4000 < length (with_tree pool.old.types (gathered pool.old found.old)
        (with_root_of (tree_at pool.old stem.0) n.now)).listed) }
    ensures large { IfErr result (λ e. e ≡ TreeTooLarge → ⊥) }
{
    let id = decorate(alloc, pool, n, stem)?;
    put(pool, found, id)?;
    if found.listed.as_slice().len() > MOST_TREES {
        return Err(ListRefusal::TooManyTrees);
    }
    Ok(push(wholes, id)?)
}

/// Puts in a stem with each of these decorations at its root.
fn put_wholes(
    alloc: Global,
    pool: &mut Pool<'_>,
    found: &mut Found,
    wholes: &mut Vec<TreeId>,
    stem: TreeId,
    roots: &[Multi],
) -> Result<(), ListRefusal>
    requires known { stem.0 < length pool.old.trees }
    requires kept { All (λ n. IsKept pool.old.types (with_root_of (tree_at pool.old stem.0) n))
        roots.now }
    requires keeping { IsKeeping pool.old found.old wholes.old.items }
    ensures grown { IsGrown pool.old pool.new }
    ensures trees { OnOk result (trees pool.new wholes.new.items ≡ trees pool.old wholes.old.items
        ++ map (with_root_of (tree_at pool.old stem.0)) roots.now) }
    ensures gathered { OnOk result (gathered pool.new found.new ≡ with_trees pool.old.types
        (gathered pool.old found.old) (map (with_root_of (tree_at pool.old stem.0)) roots.now)) }
    ensures keeping { OnOk result (IsKeeping pool.new found.new wholes.new.items) }
    ensures many { IfErr result (λ e. e ≡ TooManyTrees →
        IsOverfull pool.old.types (gathered pool.old found.old)
        (map (with_root_of (tree_at pool.old stem.0)) roots.now)) }
    ensures large { IfErr result (λ e. e ≡ TreeTooLarge → ⊥) }
{
    for n in roots {
        put_whole(alloc, pool, found, wholes, stem, n)?;
    }
    Ok(())
}

/// The wholes of these stems, each as often as it arises.
pub fn wholes_of(
    alloc: Global,
    pool: &mut Pool<'_>,
    found: &mut Found,
    most: &Degree,
    stems: &[Stem],
) -> Result<Vec<TreeId>, ListRefusal>
    requires stems { All (IsDecorable pool.old most.now) stems.now }
    requires keeping { IsKeeping pool.old found.old [] }
    ensures grown { IsGrown pool.old pool.new }
    ensures trees { IfOk result (λ wholes. trees pool.new wholes.items
        ≡ decorated_all pool.old.types most.now (stem_trees pool.old stems.now)) }
    ensures gathered { OnOk result (gathered pool.new found.new ≡ with_trees pool.old.types
        (gathered pool.old found.old) (decorated_all pool.old.types most.now
        (stem_trees pool.old stems.now))) }
    ensures keeping { IfOk result (λ wholes. IsKeeping pool.new found.new wholes.items) }
    ensures many { IfErr result (λ e. e ≡ TooManyTrees →
        IsOverfull pool.old.types (gathered pool.old found.old)
        (decorated_all pool.old.types most.now (stem_trees pool.old stems.now))) }
    ensures large { IfErr result (λ e. e ≡ TreeTooLarge → ⊥) }
{
    let mut wholes = Vec::new(alloc);
    for stem in stems {
        let room = room_of(pool, most, stem.id);
        let roots = roots(alloc, pool.types(), &room)?;
        put_wholes(alloc, pool, found, &mut wholes, stem.id, roots.as_slice())?;
    }
    Ok(wholes)
}
