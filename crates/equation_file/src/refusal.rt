// Why a file is refused.
ghost use Rattle.std.specs.Prelude.{◌≡◌, ◌++◌, IfOk, OnOk};
ghost use Rattle.equation_file.specs.Refusals.{section_text, field_text, item_text, entry_text, refusal_of};
ghost use Rattle.equation_file.specs.declared.refusal.FileRefusal.TheVariants.{Memory};

use equation_document::{Entry, Fault, Field, Reason, Section, Which};
use sqlite_items::Items;
use std::alloc::{AllocError, Global};

/// Why a file is refused. The causes stand in the order in which they are sought, but for `Limit`:
/// the limit on bytes comes first of all, the others last.
#[derive(Debug, Drop)]
pub enum FileRefusal {
    /// A measured quantity passes its limit. A number past 2^63-1 counts as that; a file that is
    /// too long always as 65,537 bytes.
    Limit { which: Which, count: i64 },
    /// The bytes are not UTF-8.
    NotUtf8,
    /// The text is not TOML, as the library `toml` reads it.
    NotToml,
    /// What is wrong with the first bad entry. Its name is `file`, a top key, `KEY[i]` for an item
    /// of a list, counted from 1, or `KEY[i].KEY`.
    Malformed { entry: Items<u8>, reason: Reason },
    /// Memory ran out.
    Memory,
}

impl From<AllocError> for FileRefusal {
    ghost from_gives = { λ _ e. e ≡ Memory };

    fn from(_e: AllocError) -> FileRefusal {
        FileRefusal::Memory
    }
}

fn section_text(section: Section) -> &'static [u8]
    ensures { result.now ≡ section_text section }
{
    match section {
        Section::Version => b"version",
        Section::Scaling => b"scaling",
        Section::Reflect => b"reflect",
        Section::Parameters => b"parameters",
        Section::Noise => b"noise",
        Section::Unknown => b"unknown",
    }
}

fn field_text(field: Field) -> &'static [u8]
    ensures { result.now ≡ field_text field }
{
    match field {
        Field::Name => b"name",
        Field::Degree => b"degree",
        Field::Group => b"group",
        Field::Regularity => b"regularity",
        Field::Moments => b"moments",
        Field::Right => b"right",
    }
}

fn put_item(
    alloc: Global,
    section: Section,
    at: usize,
    text: &mut Vec<u8>,
) -> Result<(), AllocError>
    ensures { OnOk result (text.new.items ≡ text.old.items ++ item_text section at) }
{
    let number = at.to_string(alloc)?;
    text.extend_from_slice(section_text(section))?;
    text.extend_from_slice(b"[")?;
    text.extend_from_slice(number.as_bytes())?;
    text.extend_from_slice(b"]")
}

fn put_entry(alloc: Global, entry: Entry, text: &mut Vec<u8>) -> Result<(), AllocError>
    ensures { OnOk result (text.new.items ≡ text.old.items ++ entry_text entry) }
{
    match entry {
        Entry::File => text.extend_from_slice(b"file"),
        Entry::Whole(section) => text.extend_from_slice(section_text(section)),
        Entry::Item(section, at) => put_item(alloc, section, at, text),
        Entry::Part(section, at, field) => {
            put_item(alloc, section, at, text)?;
            text.extend_from_slice(b".")?;
            text.extend_from_slice(field_text(field))
        }
    }
}

// The name of an entry.
fn entry_text(alloc: Global, entry: Entry) -> Result<Items<u8>, AllocError>
    ensures { IfOk result (λ v. v ≡ entry_text entry) }
{
    let mut text = Vec::new(alloc);
    put_entry(alloc, entry, &mut text)?;
    Ok(Items::from_vec(text))
}

/// The refusal for a fault.
pub fn refusal_of(alloc: Global, fault: Fault) -> Result<FileRefusal, AllocError>
    ensures { IfOk result (λ r. r ≡ refusal_of fault) }
{
    match fault {
        Fault::NotUtf8 => Ok(FileRefusal::NotUtf8),
        Fault::NotToml => Ok(FileRefusal::NotToml),
        Fault::Malformed(entry, reason) => Ok(FileRefusal::Malformed {
            entry: entry_text(alloc, entry)?,
            reason,
        }),
        Fault::Limit(which, n) => Ok(FileRefusal::Limit {
            which,
            count: n.min(i64::MAX as u64) as i64,
        }),
    }
}
