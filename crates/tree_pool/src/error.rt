// Why a call on a pool gives no answer.
ghost use Rattle.std.specs.Prelude.{◌≡◌};
ghost use Rattle.tree_pool.specs.declared.error.PoolError.TheVariants.{Memory};

use std::alloc::AllocError;
use thiserror::Error;

/// Want of memory: the one reason for which a call on a pool or a forest pool fails.
#[derive(Clone, Copy, Debug, PartialEq, Eq, Error)]
pub enum PoolError {
    #[error("out of memory")]
    Memory,
}

impl From<AllocError> for PoolError {
    ghost from_gives = { λ _ e. e ≡ Memory };

    fn from(_e: AllocError) -> PoolError {
        PoolError::Memory
    }
}
