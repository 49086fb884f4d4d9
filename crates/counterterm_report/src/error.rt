// Why there is no report and no value.
ghost use Rattle.std.specs.Prelude.{◌≡◌};
ghost use Rattle.counterterm_report.specs.declared.error.ReportError.TheVariants.{Memory};

use std::alloc::AllocError;
use thiserror::Error;

/// Why a report is not printed, and a stored value neither printed nor read.
#[derive(Clone, Copy, Debug, PartialEq, Eq, Error)]
pub enum ReportError {
    /// The text is not the one that is printed for a value.
    #[error("the text is not the one that is printed for a value")]
    ValueText,
    /// Memory is wanted.
    #[error("out of memory")]
    Memory,
}

impl From<AllocError> for ReportError {
    ghost from_gives = { λ _ e. e ≡ Memory };

    fn from(_e: AllocError) -> ReportError {
        ReportError::Memory
    }
}
