// Why there is no antipode and no constant.
ghost use Rattle.std.specs.Prelude.{◌≡◌};
ghost use Rattle.twisted_antipode.specs.declared.error.AntipodeError.TheVariants.{Memory};

use std::alloc::AllocError;
use symbol_polys::PolyError;
use thiserror::Error;
use tree_pool::PoolError;

/// What is too large.
#[derive(Clone, Copy, Debug, PartialEq, Eq)]
pub enum Quantity {
    /// A coefficient of the extraction coproduct.
    Extraction,
    /// The mass of the twisted antipode.
    Antipode,
    /// The mass of the constant.
    Constant,
}

/// Why a call on antipodes and constants gives no answer.
#[derive(Clone, Copy, Debug, PartialEq, Eq, Error)]
pub enum AntipodeError {
    /// A quantity passes 2^127-1.
    #[error("a coefficient is too large")]
    CoefficientTooLarge(Quantity),
    /// Memory is wanted.
    #[error("out of memory")]
    Memory,
}

impl From<AllocError> for AntipodeError {
    ghost from_gives = { λ _ e. e ≡ Memory };

    fn from(_e: AllocError) -> AntipodeError {
        AntipodeError::Memory
    }
}

impl From<PoolError> for AntipodeError {
    ghost from_gives = { λ _ e. e ≡ Memory };

    fn from(_e: PoolError) -> AntipodeError {
        AntipodeError::Memory
    }
}

impl From<PolyError> for AntipodeError {
    ghost from_gives = { λ _ e. e ≡ Memory };

    fn from(_e: PolyError) -> AntipodeError {
        AntipodeError::Memory
    }
}
