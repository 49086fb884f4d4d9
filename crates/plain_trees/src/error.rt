// Why a call on trees gives no answer.
ghost use Rattle.std.specs.Prelude.{◌≡◌};
ghost use Rattle.plain_trees.specs.declared.error.TreeError.TheVariants.{Memory};

use std::alloc::AllocError;
use thiserror::Error;

/// Why a text is not read as a tree, or that memory is wanted. Places count bytes from 0; the end
/// of the text is its length.
#[derive(Clone, Copy, Debug, PartialEq, Eq, Error)]
pub enum TreeError {
    #[error("no tree text goes on like this at byte {place}")]
    TreeText { place: u64 },
    #[error("the name at byte {place} is that of no type")]
    UnknownType { place: u64 },
    #[error("the tree has {count} edges")]
    TooManyEdges { count: u64 },
    #[error("the entries of the tree's decorations sum up to {total}")]
    TooManyDecorations { total: u32 },
    #[error("the text is not the one that is printed for its tree")]
    NotCanonical,
    #[error("out of memory")]
    Memory,
}

impl From<AllocError> for TreeError {
    ghost from_gives = { λ _ e. e ≡ Memory };

    fn from(_e: AllocError) -> TreeError {
        TreeError::Memory
    }
}
