// Why a call on characters gives no answer.
ghost use Rattle.std.specs.Prelude.{◌≡◌};
ghost use Rattle.character_tables.specs.declared.error.CharacterError.TheVariants.{Memory};

use std::alloc::AllocError;
use thiserror::Error;
use tree_pool::{PoolError, TreeId};

/// What is too large.
#[derive(Clone, Copy, Debug, PartialEq, Eq)]
pub enum CharacterPart {
    /// A coefficient of the coproduct.
    Coproduct,
    /// The sum of the absolute values of the products.
    Sum,
}

/// Why a call on characters gives no answer.
#[derive(Clone, Copy, Debug, PartialEq, Eq, Error)]
pub enum CharacterError {
    /// The text of a table leaves the grammar of tables first at this line; lines count from 1.
    #[error("line {line} is no line of a table here")]
    TableRefused { line: u64 },
    /// A number passes 2^127-1.
    #[error("a number passes 2^127-1")]
    CoefficientTooLarge { which: CharacterPart },
    /// The value of this tree is asked for, and the table has no row of it.
    #[error("the table has no row of a tree")]
    Missing { tree: TreeId },
    /// Memory is wanted.
    #[error("out of memory")]
    Memory,
}

impl From<AllocError> for CharacterError {
    ghost from_gives = { λ _ e. e ≡ Memory };

    fn from(_e: AllocError) -> CharacterError {
        CharacterError::Memory
    }
}

impl From<PoolError> for CharacterError {
    ghost from_gives = { λ _ e. e ≡ Memory };

    fn from(_e: PoolError) -> CharacterError {
        CharacterError::Memory
    }
}
