// Files, from bytes to equations.
ghost use Rattle.std.specs.Prelude.{◌≡◌, IfOk};
ghost use Rattle.equations.specs.Accepted.{IsEquation};
ghost use Rattle.equation_file.specs.File.{equation_of};
ghost use Rattle.equation_file.specs.Refusals.{IsAnswer};

use crate::build::document_equation;
use crate::refusal::{FileRefusal, refusal_of};
use equation_document::{ReadError, read_document};
use equations::Equation;
use std::alloc::Global;

// The equation of the bytes, or their refusal.
fn told_equation(alloc: Global, bytes: &[u8]) -> Result<Equation, FileRefusal>
    ensures { IsAnswer (equation_of bytes.now) result }
{
    match read_document(alloc, bytes) {
        Ok(document) => Ok(document_equation(alloc, &document)?),
        Err(ReadError::Memory) => Err(FileRefusal::Memory),
        Err(ReadError::Wrong(fault)) => Err(refusal_of(alloc, fault)?),
    }
}

/// The equation that the bytes of a file write down. It is within all limits of a file. The
/// refusals, in the order in which they are sought: `Limit` of more than 65,536 bytes
/// (`MOST_FILE_BYTES`); `NotUtf8`; `NotToml`; `Malformed` with the first bad entry; `Limit` with
/// the first limit that is passed; and `Memory`.
pub fn read_equation(alloc: Global, bytes: &[u8]) -> Result<Equation, FileRefusal>
    ensures answer { IsAnswer (equation_of bytes.now) result }
    ensures equation { IfOk result (λ eq. IsEquation eq) }
{
    told_equation(alloc, bytes)
}
