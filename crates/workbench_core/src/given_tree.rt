// A tree that is given as a text.
ghost use Rattle.std.specs.Prelude.{◌≡◌, ◌≢◌, ◌⊎◌, ◌<◌, ℕ, List, length, Err, IfOk, IfErr};
ghost use Rattle.limits.specs.declared.TheConstants.{MOST_LISTED_DECORATIONS};
ghost use Rattle.degree_numbers.specs.Types.{AreTypes};
ghost use Rattle.plain_trees.specs.Canon.{IsCanonical};
ghost use Rattle.plain_trees.specs.Degree.{HasTypes};
ghost use Rattle.plain_trees.specs.Plain.{IsSmall};
ghost use Rattle.plain_trees.specs.Reading.{IsTreeOf};
ghost use Rattle.plain_trees.specs.View.{plain};
ghost use Rattle.tree_pool.specs.Content.{tree_at};
ghost use Rattle.workbench_core.specs.GivenTree.{IsTreeRefused};

use crate::refusal::Refusal;
use bumpalo::Bump;
use degree_numbers::Types;
use limits::MOST_LISTED_DECORATIONS;
use plain_trees::{Tree, read_tree};
use std::alloc::Global;
use tree_pool::{Pool, PoolError, TreeId};

/// A tree in a pool.
#[derive(Drop)]
pub(crate) struct GivenTree<'a> {
    pub pool: Pool<'a>,
    pub id: TreeId,
}

/// The tree over these types with this text, with at most 24 edges (`MOST_EDGES`) and a decoration
/// sum of at most 64 (`MOST_LISTED_DECORATIONS`), in a new pool over this arena; or the refusal of
/// the text.
pub(crate) fn given_tree<'a>(
    alloc: Global,
    arena: &'a Bump,
    types: &Types,
    text: &[u8],
) -> Result<GivenTree<'a>, Refusal>
    requires { AreTypes types.now }
    ensures tree { IfOk result (λ g.
        IsTreeOf types.now MOST_LISTED_DECORATIONS text.now (tree_at g.pool g.id.0)) }
    ensures known { IfOk result (λ g. g.id.0 < length g.pool.trees) }
    ensures types { IfOk result (λ g. g.pool.types ≡ types.now) }
    ensures refused { IfErr result (λ e. (e ≡ Refusal.Memory)
        ⊎ IsTreeRefused {T = List ℕ} types.now text.now (Err e)) }
    ensures no_fault { result ≢ Err Refusal.FileFault }
{
    match read_tree(alloc, types, text, MOST_LISTED_DECORATIONS) {
        Ok(tree) => Ok(pooled(alloc, arena, types, &tree)?),
        Err(error) => Err(Refusal::of_tree_error(error)),
    }
}

// A canonical tree in a new pool.
fn pooled<'a>(
    alloc: Global,
    arena: &'a Bump,
    types: &Types,
    tree: &Tree,
) -> Result<GivenTree<'a>, PoolError>
    requires accepted { AreTypes types.now }
    requires types { HasTypes types.now (plain tree.now) }
    requires canonical { IsCanonical (plain tree.now) }
    requires small { IsSmall (plain tree.now) }
    ensures tree { IfOk result (λ g. tree_at g.pool g.id.0 ≡ plain tree.now) }
    ensures known { IfOk result (λ g. g.id.0 < length g.pool.trees) }
    ensures types { IfOk result (λ g. g.pool.types ≡ types.now) }
{
    let mut pool = Pool::new(alloc, arena, types)?;
    let id = pool.intern_tree(alloc, tree)?;
    Ok(GivenTree { pool, id })
}
