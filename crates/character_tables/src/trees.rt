// Trees of tables are read from their texts.
ghost use Rattle.std.specs.Prelude.{◌≡◌, IfOk, MatchOption};
ghost use Rattle.degree_numbers.specs.Types.{AreTypes};
ghost use Rattle.plain_trees.specs.Degree.{is_empty_tree};
ghost use Rattle.plain_trees.specs.Plain.{Plain};
ghost use Rattle.plain_trees.specs.Text.{tree_text};
ghost use Rattle.plain_trees.specs.View.{plain};
ghost use Rattle.character_tables.specs.Texts.{IsTableTree};

use degree_numbers::Types;
use limits::MOST_LISTED_DECORATIONS;
use plain_trees::{Tree, TreeError, read_tree};
use std::alloc::{AllocError, Global};

/// Whether a tree is the empty tree.
fn is_empty(t: &Tree) -> bool
    ensures { result ≡ is_empty_tree (plain t.now) }
{
    t.edges.is_empty() && t.n.is_zero()
}

/// The tree with this text, where it is one that a table may have. Fails only for want of memory.
pub(crate) fn read_table_tree(
    alloc: Global,
    types: &Types,
    text: &[u8],
) -> Result<Option<Tree>, AllocError>
    requires { AreTypes types.now }
    ensures { IfOk result (λ o. MatchOption o
        ((t : Plain) → IsTableTree types.now t → tree_text types.now t ≡ text.now → ⊥)
        (λ t. IsTableTree types.now (plain t) × (tree_text types.now (plain t) ≡ text.now))) }
{
    let t = match read_tree(alloc, types, text, MOST_LISTED_DECORATIONS) {
        Ok(t) => t,
        Err(TreeError::Memory) => return Err(AllocError),
        Err(_) => return Ok(None),
    };
    if is_empty(&t) {
        return Ok(None);
    }
    Ok(Some(t))
}
