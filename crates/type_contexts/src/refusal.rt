// Why a text is not read as a context.
ghost use Rattle.std.specs.Prelude.{◌≡◌};
ghost use Rattle.type_contexts.specs.declared.refusal.ContextRefusal.TheVariants.{Memory};

use std::alloc::{AllocError, AllocFailed};

/// Why a text is not read as a context.
#[derive(Clone, Copy, Debug, PartialEq, Eq)]
pub enum ContextRefusal {
    /// The text is the context of no types that an accepted equation file has.
    ContextText,
    /// Memory ran out.
    Memory,
}

impl From<AllocError> for ContextRefusal {
    ghost from_gives = { λ _ e. e ≡ Memory };

    fn from(_e: AllocError) -> ContextRefusal {
        ContextRefusal::Memory
    }
}

impl<T: Drop> From<AllocFailed<T>> for ContextRefusal {
    ghost from_gives = { λ _ e. e ≡ Memory };

    fn from(_e: AllocFailed<T>) -> ContextRefusal {
        ContextRefusal::Memory
    }
}
