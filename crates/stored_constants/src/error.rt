// Why rows are refused.
ghost use Rattle.std.specs.Prelude.{◌≡◌};
ghost use Rattle.stored_constants.specs.declared.error.HoldError.TheVariants as hold;
ghost use Rattle.stored_constants.specs.declared.error.ReadError.TheVariants as read;
ghost use Rattle.stored_constants.specs.declared.error.AuditError.TheVariants as audit;

use crate::audit::AuditCause;
use std::alloc::AllocError;
use thiserror::Error;
use tree_pool::TreeId;

/// Why rows are not held.
#[derive(Clone, Copy, Debug, PartialEq, Eq, Error)]
pub enum HoldError {
    /// The row of this tree is the text of no value.
    #[error("a stored row is the text of no value")]
    NoValue(TreeId),
    /// Memory is wanted.
    #[error("out of memory")]
    Memory,
}

/// Why rows are not read.
#[derive(Clone, Copy, Debug, PartialEq, Eq, Error)]
pub enum ReadError {
    /// The row at this place, from 0, is not the text of a tree that is not too large with the text
    /// of a value.
    #[error("a stored row is outside its grammar")]
    Unread(usize),
    /// Memory is wanted.
    #[error("out of memory")]
    Memory,
}

/// Why rows do not pass an audit.
#[derive(Debug, Error, Drop)]
pub enum AuditError {
    /// The row at this place, from 0, is not true.
    #[error("a stored row is not true")]
    False { place: usize, cause: AuditCause },
    /// Memory is wanted.
    #[error("out of memory")]
    Memory,
}

impl From<AllocError> for HoldError {
    ghost from_gives = { λ _ e. e ≡ hold.Memory };

    fn from(_e: AllocError) -> HoldError {
        HoldError::Memory
    }
}

impl From<AllocError> for ReadError {
    ghost from_gives = { λ _ e. e ≡ read.Memory };

    fn from(_e: AllocError) -> ReadError {
        ReadError::Memory
    }
}

impl From<AllocError> for AuditError {
    ghost from_gives = { λ _ e. e ≡ audit.Memory };

    fn from(_e: AllocError) -> AuditError {
        AuditError::Memory
    }
}
