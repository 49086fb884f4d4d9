// Elementary differentials, and why one is not given.
ghost use Rattle.std.specs.Prelude.{◌≡◌};
ghost use Rattle.symbol_polys.specs.declared.error.PolyError.TheVariants.{Memory as PolyMemory};
ghost use Rattle.elementary_diff.specs.declared.answer.DiffRefusal.TheVariants.{Memory};

use symbol_polys::{Poly, PolyError};
use thiserror::Error;

/// An elementary differential: the polynomial, which is to be divided by the denominator.
#[derive(Drop)]
pub struct Differential {
    pub poly: Poly,
    pub denominator: u128,
}

/// Why an elementary differential is not given.
#[derive(Clone, Copy, Debug, PartialEq, Eq, Error)]
pub enum DiffRefusal {
    /// The differential mass passes 2^127-1.
    #[error("a coefficient is too large")]
    CoefficientTooLarge,
    /// The differential mass is neither 0 nor too large, and the denominator passes 2^127-1.
    #[error("the denominator is too large")]
    DenominatorTooLarge,
    /// Memory is wanted.
    #[error("out of memory")]
    Memory,
}

impl From<PolyError> for DiffRefusal {
    ghost from_gives = { λ e r. e ≡ PolyMemory → r ≡ Memory };

    fn from(e: PolyError) -> DiffRefusal {
        match e {
            PolyError::CoefficientTooLarge => DiffRefusal::CoefficientTooLarge,
            PolyError::PolyText | PolyError::Memory => DiffRefusal::Memory,
        }
    }
}
