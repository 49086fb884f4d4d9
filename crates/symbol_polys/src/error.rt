// Why a call on polynomials gives no answer.
ghost use Rattle.std.specs.Prelude.{◌≡◌};
ghost use Rattle.symbol_polys.specs.declared.error.PolyError.TheVariants.{Memory};

use std::alloc::AllocError;
use thiserror::Error;

/// Why a call on polynomials gives no answer.
#[derive(Clone, Copy, Debug, PartialEq, Eq, Error)]
pub enum PolyError {
    /// A mass, and so perhaps a coefficient, passes 2^127-1.
    #[error("a coefficient is too large")]
    CoefficientTooLarge,
    /// The text is not the one that is printed for a polynomial.
    #[error("the text is not the one that is printed for a polynomial")]
    PolyText,
    /// Memory is wanted.
    #[error("out of memory")]
    Memory,
}

impl From<AllocError> for PolyError {
    ghost from_gives = { λ _ e. e ≡ Memory };

    fn from(_e: AllocError) -> PolyError {
        PolyError::Memory
    }
}
