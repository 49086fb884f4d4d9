// Trees of a pool and their texts.
ghost use Rattle.std.specs.Prelude.{◌≡◌, ◌<◌, length, IsTrue};
ghost use Rattle.degree_numbers.specs.Types.{AreTypes};
ghost use Rattle.tree_pool.specs.Content.{tree_at};
ghost use Rattle.cutting_sizes.specs.Bounds.{IsBounded, IsFit};

use cutting_sizes::subtrees_are_bounded;
use degree_numbers::Types;
use plain_trees::{print_tree, read_tree};
use std::alloc::Global;
use tree_pool::{Pool, TreeId};

/// The number in a pool of the tree with this text.
pub fn interned(alloc: Global, types: &Types, pool: &mut Pool<'_>, text: &[u8]) -> Option<TreeId>
    requires accepted { AreTypes types.now }
    requires types { pool.old.types ≡ types.now }
    ensures { pool.new.types ≡ types.now }
{
    let tree = read_tree(alloc, types, text, 64).ok()?;
    pool.intern_tree(alloc, &tree).ok()
}

/// Whether a tree has at most 24 edges and a decoration sum of at most 64.
pub fn is_fit(pool: &Pool<'_>, id: TreeId) -> bool
    requires { id.0 < length pool.now.trees }
    ensures fit { IsTrue result → IsFit (tree_at pool.now id.0) }
    ensures bounded { IsTrue result → IsBounded (tree_at pool.now id.0) }
{
    subtrees_are_bounded();
    pool.edge_count(id) <= 24 && pool.decoration_sum(id) <= 64
}

/// Puts the text of a tree behind others.
pub fn put_tree(alloc: Global, out: &mut Vec<u8>, pool: &Pool<'_>, id: TreeId) -> Option<()>
    requires { id.0 < length pool.now.trees }
{
    pool.laws();
    let Ok(tree) = pool.plain(alloc, id) else {
        return None;
    };
    let text = print_tree(alloc, pool.types(), &tree).ok()?;
    out.extend_from_slice(text.as_slice()).ok()
}
