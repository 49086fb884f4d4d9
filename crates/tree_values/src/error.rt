// Why there are no values.
ghost use Rattle.std.specs.Prelude.{◌≡◌};
ghost use Rattle.tree_values.specs.declared.error.ValuesError.TheVariants.{Memory};

use crate::quantity::Quantity;
use std::alloc::AllocError;
use thiserror::Error;
use tree_pool::{PoolError, TreeId};
use twisted_antipode::{AntipodeError, Quantity as Part};

/// Why there are no values of a tree.
#[derive(Clone, Copy, Debug, PartialEq, Eq, Error)]
pub enum ValuesError {
    /// This quantity of this tree passes 2^127-1.
    #[error("a quantity of a tree is too large")]
    TooLarge { tree: TreeId, quantity: Quantity },
    /// Memory is wanted.
    #[error("out of memory")]
    Memory,
}

impl ValuesError {
    ghost use Rattle.tree_values.specs.Values.{of_antipode};

    /// The refusal of an antipode or of a constant, said of its tree.
    pub fn of_antipode(tree: TreeId, e: AntipodeError) -> ValuesError
        ensures { result ≡ of_antipode tree e }
    {
        let quantity = match e {
            AntipodeError::CoefficientTooLarge(Part::Extraction) => Quantity::Extraction,
            AntipodeError::CoefficientTooLarge(Part::Antipode) => Quantity::Antipode,
            AntipodeError::CoefficientTooLarge(Part::Constant) => Quantity::Constant,
            AntipodeError::Memory => return ValuesError::Memory,
        };
        ValuesError::TooLarge { tree, quantity }
    }
}

impl From<AllocError> for ValuesError {
    ghost from_gives = { λ _ e. e ≡ Memory };

    fn from(_e: AllocError) -> ValuesError {
        ValuesError::Memory
    }
}

impl From<PoolError> for ValuesError {
    ghost from_gives = { λ _ e. e ≡ Memory };

    fn from(_e: PoolError) -> ValuesError {
        ValuesError::Memory
    }
}
