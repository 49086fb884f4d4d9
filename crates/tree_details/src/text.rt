// Texts of trees of a pool.
ghost use Rattle.std.specs.Prelude.{◌≡◌, ◌<◌, ◌++◌, length, IfOk, OnOk};
ghost use Rattle.plain_trees.specs.Text.{tree_text};
ghost use Rattle.tree_pool.specs.Content.{tree_at};

use plain_trees::print_tree;
use std::alloc::{AllocError, Global};
use tree_pool::{Pool, TreeId};

/// The text of a tree of a pool, of which a tree of its own is made for that. Refused only for want
/// of memory.
#[tactic(auto, using(crate::proofs::PoolTrees::tree_facts))]
pub fn tree_text(alloc: Global, pool: &Pool<'_>, id: TreeId) -> Result<Vec<u8>, AllocError>
    requires { id.0 < length pool.now.trees }
    ensures { IfOk result (λ v. v.items ≡ tree_text pool.now.types (tree_at pool.now id.0)) }
{
    pool.laws();
    let Ok(tree) = pool.plain(alloc, id) else {
        return Err(AllocError);
    };
    match print_tree(alloc, pool.types(), &tree) {
        Ok(text) => Ok(text),
        Err(_) => Err(AllocError),
    }
}

/// Puts that text behind what is written.
pub(crate) fn put_tree(
    out: &mut Vec<u8>,
    alloc: Global,
    pool: &Pool<'_>,
    id: TreeId,
) -> Result<(), AllocError>
    requires { id.0 < length pool.now.trees }
    ensures { OnOk result (out.new.items
        ≡ out.old.items ++ tree_text pool.now.types (tree_at pool.now id.0)) }
{
    let text = tree_text(alloc, pool, id)?;
    out.extend_from_slice(text.as_slice())
}
