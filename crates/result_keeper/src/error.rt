// Why a call of a keeper gave no answer.
ghost use Rattle.std.specs.Prelude.{◌≡◌};
ghost use Rattle.result_keeper.specs.declared.error.KeeperError.TheVariants.{Memory};

use std::alloc::{AllocError, AllocFailed};
use thiserror::Error;

/// Why a call of a keeper gave no answer.
#[derive(Clone, Copy, Debug, PartialEq, Eq, Error)]
pub enum KeeperError {
    /// The call failed. The keeper's count of faults rose, or stands at its last value.
    #[error("the store failed")]
    Failed,
    /// There was no memory.
    #[error("out of memory")]
    Memory,
}

impl From<AllocError> for KeeperError {
    ghost from_gives = { λ _ e. e ≡ Memory };

    fn from(_: AllocError) -> KeeperError {
        KeeperError::Memory
    }
}

impl<T: Drop> From<AllocFailed<T>> for KeeperError {
    ghost from_gives = { λ _ e. e ≡ Memory };

    fn from(_: AllocFailed<T>) -> KeeperError {
        KeeperError::Memory
    }
}
