// What is found of rows.
ghost use Rattle.degree_numbers.specs.Types.{AreTypes};

use degree_numbers::Types;
use result_keeper::StoredRow;
use std::alloc::{AllocError, Global};
use stored_constants::{AuditCause, AuditError, audit_rows, check_rows};

/// A row with these texts.
pub fn row(alloc: Global, tree: &str, value: &str) -> Result<StoredRow, AllocError> {
    Ok(StoredRow {
        tree: tree.as_bytes().to_vec(alloc)?,
        value: value.as_bytes().to_vec(alloc)?,
    })
}

/// Whether rows are read and true, in a word, or the constant that a value is not.
pub fn verdict(alloc: Global, types: &Types, rows: &[StoredRow]) -> Result<Vec<u8>, AllocError>
    requires { AreTypes types.now }
{
    match check_rows(alloc, types, rows) {
        Ok(()) => audited(audit_rows(alloc, types, rows), alloc),
        Err(_) => Vec::from_slice(alloc, b"unread"),
    }
}

fn audited(answer: Result<(), AuditError>, alloc: Global) -> Result<Vec<u8>, AllocError> {
    match answer {
        Ok(()) => Vec::from_slice(alloc, b"true"),
        Err(
            AuditError::False {
                cause: AuditCause::Differs { computed },
                ..
            },
        ) => Ok(computed),
        Err(_) => Vec::from_slice(alloc, b"refused"),
    }
}
