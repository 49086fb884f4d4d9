// Files, from bytes to documents.
ghost use Rattle.std.specs.Prelude.{◌≡◌, Ok, IfOk, OnOk};
ghost use Rattle.toml.specs.Parse.{parse_document};
ghost use Rattle.toml.specs.View.{table_view};
ghost use Rattle.equation_document.specs.Counted.{AreCounted};
ghost use Rattle.equation_document.specs.File.{accepted, table_document, reading};
ghost use Rattle.equation_document.specs.Gives.{Gives};
ghost use Rattle.equation_document.specs.Limits.{limits_of};

use crate::bounds::MOST_BYTES;
use crate::document::Document;
use crate::fault::{Fault, ReadError, Which};
use crate::passed_limits::limits_of;
use crate::tables::document_of;
use std::alloc::Global;
use toml::Table;

// What the table of a file holds, where it passes no limit.
#[tactic(auto, unfolding(crate::specs::File::accepted))]
fn accepted(alloc: Global, table: &Table) -> Result<Document, ReadError>
    ensures { Gives (λ d. d) result (accepted (table_view table.now)) }
{
    let document = document_of(alloc, table)?;
    limits_of(alloc, &document)?;
    Ok(document)
}

fn text_document(alloc: Global, text: &str) -> Result<Document, ReadError>
    ensures { Gives (λ d. d) result (table_document (parse_document text.now)) }
{
    match toml::table_from_str(alloc, text) {
        Ok(table) => accepted(alloc, &table),
        Err(e) => {
            if e.is_memory() {
                Err(ReadError::Memory)
            } else {
                Err(ReadError::Wrong(Fault::NotToml))
            }
        }
    }
}

fn reading(alloc: Global, bytes: &[u8]) -> Result<Document, ReadError>
    ensures { Gives (λ d. d) result (reading bytes.now) }
{
    if bytes.len() > MOST_BYTES {
        return Err(ReadError::Wrong(Fault::Limit(Which::Bytes, MOST_BYTES as u64 + 1)));
    }
    let Ok(text) = std::str::from_utf8(bytes) else {
        return Err(ReadError::Wrong(Fault::NotUtf8));
    };
    text_document(alloc, text)
}

/// What the bytes of a file hold, within all limits; or the first fault, in the order: more than
/// 65,536 bytes, no UTF-8, no TOML, a bad entry, a limit.
pub fn read_document(alloc: Global, bytes: &[u8]) -> Result<Document, ReadError>
    ensures document { Gives (λ d. d) result (reading bytes.now) }
    ensures counted { IfOk result (λ d. AreCounted d) }
    ensures limits { IfOk result (λ d. limits_of d ≡ Ok tt) }
{
    reading(alloc, bytes)
}
