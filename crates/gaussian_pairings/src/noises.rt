// The noise edges of a tree, in preorder.
ghost use Rattle.std.specs.Prelude.{◌≡◌, ◌<◌, ◌^◌, ◌++◌, ◌∷◌, [], cond, length, IfOk, OnOk};
ghost use Rattle.degree_numbers.specs.Types.{group_of};
ghost use Rattle.tree_pool.specs.Content.{tree_at};
ghost use Rattle.gaussian_pairings.specs.Vanishing.{is_noise_type, noise_groups};
ghost use Rattle.gaussian_pairings.specs.Pairings.{numbered};

use degree_numbers::{Kind, TypeId, Types};
use std::alloc::{AllocError, Global};
use tree_pool::{Pool, TreeId};

/// A noise edge: its number in preorder, from 1, and its noise group.
#[derive(Clone, Copy)]
pub struct NoiseEdge {
    pub number: u16,
    pub group: u8,
}

/// Puts the group of an edge behind others, where it is a noise edge.
fn put_group(types: &Types, kind: TypeId, groups: &mut Vec<u8>) -> Result<(), AllocError>
    ensures { OnOk result (groups.new.items ≡ groups.old.items
        ++ cond (is_noise_type types.now kind.0) (group_of types.now kind.0 ∷ []) []) }
{
    if let Some(entry) = types.list.get(kind.0 as usize) {
        if entry.kind == Kind::Noise {
            groups.push(entry.group)?;
        }
    }
    Ok(())
}

/// Puts the groups of the noise edges of a tree behind others, in preorder.
pub fn put_groups(
    types: &Types,
    pool: &Pool<'_>,
    id: TreeId,
    groups: &mut Vec<u8>,
) -> Result<(), AllocError>
    requires { id.0 < length pool.now.trees }
    ensures { OnOk result (groups.new.items ≡ groups.old.items
        ++ noise_groups types.now (tree_at pool.now id.0)) }
{
    let (_, edges) = pool.node(id);
    for e in edges {
        put_group(types, e.kind, groups)?;
        put_groups(types, pool, e.child, groups)?;
    }
    Ok(())
}

/// Noise edges of these groups, numbered from 1.
pub fn numbered(alloc: Global, groups: &[u8]) -> Result<Vec<NoiseEdge>, AllocError>
    requires { length groups.now < 2 ^ 15 }
    ensures { IfOk result (λ noises. noises.items ≡ numbered 1 groups.now) }
{
    let mut noises = Vec::new(alloc);
    let mut number = 0;
    for group in groups {
        number += 1;
        noises.push(NoiseEdge {
            number,
            group: *group,
        })?;
    }
    Ok(noises)
}
