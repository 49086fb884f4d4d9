// Why a coproduct gives no answer.
ghost use Rattle.std.specs.Prelude.{◌≡◌};
ghost use Rattle.extraction_coproduct.specs.declared.error.CoproductError.TheVariants.{Memory};

use std::alloc::AllocError;
use tree_pool::PoolError;

/// Why a coproduct gives no answer.
#[derive(Clone, Copy, Debug, PartialEq, Eq)]
pub enum CoproductError {
    /// A coefficient passes 2^127 - 1.
    CoefficientTooLarge,
    /// Memory is wanted.
    Memory,
}

impl From<AllocError> for CoproductError {
    ghost from_gives = { λ _ e. e ≡ Memory };

    fn from(_e: AllocError) -> CoproductError {
        CoproductError::Memory
    }
}

impl From<PoolError> for CoproductError {
    ghost from_gives = { λ _ e. e ≡ Memory };

    fn from(_e: PoolError) -> CoproductError {
        CoproductError::Memory
    }
}
