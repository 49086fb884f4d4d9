// The lines of recentring of the tree with one node.
ghost use Rattle.std.specs.Prelude.{◌≡◌, ◌∷◌, ◌++◌, ◌≤◌, [], map, sum, IfOk, OnOk};
ghost use Rattle.std.specs.List.{AllByRecursion};
ghost use Rattle.degree_numbers.specs.Multi.{IsMultiIndex};
ghost use Rattle.plain_trees.specs.Plain.{bare};
ghost use Rattle.tree_pool.specs.Content.{Holds, IsGrown};
ghost use Rattle.pooled_cuttings.specs.Lines.{recentred_in, recentred_terms_in, IsRightKey, AreRightLines};
ghost use Rattle.pooled_cuttings.specs.Products.{CanHold, IsPart};
ghost use Rattle.pooled_cuttings.specs.RightProducts.{right_seed};

use crate::keys::RightKey;
use crate::lines::push_line;
use crate::seeds::left_of;
use degree_numbers::Multi;
use exact_sums::Saturated;
use std::alloc::Global;
use tree_pool::{Pool, PoolError, TreeId};

/// The number of the tree with one node of this decoration.
fn node_of(pool: &mut Pool<'_>, alloc: Global, n: &Multi) -> Result<TreeId, PoolError>
    requires fits { CanHold pool.old.types (bare n.now.entries) }
    ensures tree { IfOk result (λ id. Holds pool.new id.0 (bare n.now.entries)) }
    ensures grown { IsGrown pool.old pool.new }
{
    pool.intern_node(alloc, *n, &[])
}

/// The key of the part `a` of a decoration, of which `rest` is left.
fn right_seed_key(
    pool: &mut Pool<'_>,
    alloc: Global,
    a: &Multi,
    rest: &Multi,
) -> Result<RightKey, PoolError>
    requires part { IsMultiIndex pool.old.types.dims a.now.entries }
    requires part_small { sum a.now.entries ≤ 4096 }
    requires rest { IsMultiIndex pool.old.types.dims rest.now.entries }
    requires rest_small { sum rest.now.entries ≤ 4096 }
    ensures known { IfOk result (λ k. IsRightKey pool.new k) }
    ensures means { IfOk result (λ k. recentred_in pool.new k
        ≡ (bare a.now.entries, bare rest.now.entries)) }
    ensures grown { IsGrown pool.old pool.new }
{
    let left = node_of(pool, alloc, a)?;
    let right = node_of(pool, alloc, rest)?;
    Ok(RightKey { left, right })
}

/// The line of a part of a decoration, behind others.
fn push_right_seed(
    pool: &mut Pool<'_>,
    alloc: Global,
    n: &Multi,
    a: &Multi,
    lines: &mut Vec<(RightKey, Saturated)>,
) -> Result<(), PoolError>
    requires part { IsPart pool.old.types n.now.entries a.now.entries }
    requires lines { AreRightLines pool.old lines.old.items }
    ensures lines { OnOk result (AreRightLines pool.new lines.new.items) }
    ensures terms { OnOk result (recentred_terms_in pool.new lines.new.items
        ≡ recentred_terms_in pool.old lines.old.items
        ++ right_seed n.now.entries a.now.entries ∷ []) }
    ensures grown { IsGrown pool.old pool.new }
{
    let key = right_seed_key(pool, alloc, a, &left_of(n, a))?;
    push_line(lines, (key, Saturated::of(1)))?;
    Ok(())
}

/// The lines of some parts of a decoration, behind others.
pub(crate) fn push_right_seeds(
    pool: &mut Pool<'_>,
    alloc: Global,
    n: &Multi,
    parts: &[Multi],
    lines: &mut Vec<(RightKey, Saturated)>,
) -> Result<(), PoolError>
    requires parts { AllByRecursion (λ a. IsPart pool.old.types n.now.entries a.entries)
        parts.now }
    requires lines { AreRightLines pool.old lines.old.items }
    ensures lines { OnOk result (AreRightLines pool.new lines.new.items) }
    ensures terms { OnOk result (recentred_terms_in pool.new lines.new.items
        ≡ recentred_terms_in pool.old lines.old.items
        ++ map (right_seed n.now.entries) (map (λ a. a.entries) parts.now)) }
    ensures grown { IsGrown pool.old pool.new }
{
    for a in parts {
        push_right_seed(pool, alloc, n, a, lines)?;
    }
    Ok(())
}
