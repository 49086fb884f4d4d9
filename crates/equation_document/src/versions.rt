// The version of a file, and what a file of version 2 may declare: directions that may be
// reflected, and moments of kernels.
ghost use Rattle.std.specs.Prelude.{◌≡◌, ◌<◌, ◌^◌, [], option_map, length};
ghost use Rattle.std.specs.List.{list_any};
ghost use Rattle.toml.specs.View.{view, items_view, table_view};
ghost use Rattle.equation_document.specs.Gives.{Gives};
ghost use Rattle.equation_document.specs.Reading.{version_by, version_of, of_version, whole, natural, up_to, direction_of, directions_from, reflect_of, moments_of};

use crate::bounds::LARGEST_MOMENT;
use crate::entries::{malformed, value_at};
use crate::fault::{Entry, ReadError, Reason, Section};
use sqlite_items::Items;
use std::alloc::Global;
use toml::{Table, Value};

/// The version of a file. Only a file of version 2 may declare reflections and moments.
#[derive(Clone, Copy, Debug, PartialEq, Eq)]
pub enum FileVersion {
    One,
    Two,
}

fn version_by(number: i64) -> Option<FileVersion>
    ensures { result ≡ version_by number }
{
    if number == 1 {
        Some(FileVersion::One)
    } else if number == 2 {
        Some(FileVersion::Two)
    } else {
        None
    }
}

/// The version of a file: 1 or 2.
#[tactic(auto, unfolding(crate::specs::Reading::version_of))]
pub fn version_of(table: &Table) -> Result<FileVersion, ReadError>
    ensures { Gives (λ v. v) result (version_of (table_view table.now)) }
{
    let entry = Entry::Whole(Section::Version);
    let Some(value) = value_at(table, "version") else {
        return Err(malformed(entry, Reason::Missing));
    };
    let Some(number) = value.as_integer() else {
        return Err(malformed(entry, Reason::Kind));
    };
    match version_by(number) {
        Some(version) => Ok(version),
        None => Err(malformed(entry, Reason::Value)),
    }
}

// That an entry which version 1 has not may stand in a file.
fn of_version(entry: Entry, version: FileVersion) -> Result<(), ReadError>
    ensures { Gives (λ x. x) result (of_version entry version) }
{
    match version {
        FileVersion::One => Err(malformed(entry, Reason::Version)),
        FileVersion::Two => Ok(()),
    }
}

/// A whole number that is at least 1.
pub fn whole(n: i64) -> Option<u64>
    ensures { result ≡ whole n }
{
    if n >= 1 { Some(n as u64) } else { None }
}

// A whole number that is at least 0.
fn natural(n: i64) -> Option<u64>
    ensures { result ≡ natural n }
{
    if n >= 0 { Some(n as u64) } else { None }
}

// A number that is at most this.
fn up_to(most: u64, n: Option<u64>) -> Option<u64>
    ensures { result ≡ up_to most n }
{
    match n {
        Some(n) if n <= most => Some(n),
        _ => None,
    }
}

// One of the directions of a scaling with so many entries, which was not seen before.
#[tactic(auto, unfolding(crate::specs::Reading::direction_of))]
fn direction_of(dims: usize, at: usize, seen: &[u64], value: &Value) -> Result<u64, ReadError>
    ensures { Gives (λ i. i) result (direction_of dims at seen.now (view value.now)) }
{
    let entry = Entry::Item(Section::Reflect, at);
    let Some(number) = value.as_integer() else {
        return Err(malformed(entry, Reason::Kind));
    };
    let Some(direction) = up_to(dims as u64, whole(number)) else {
        return Err(malformed(entry, Reason::Value));
    };
    if seen.contains(&direction) {
        return Err(malformed(entry, Reason::Repeated));
    }
    Ok(direction)
}

fn directions_from(alloc: Global, dims: usize, values: &[Value]) -> Result<Items<u64>, ReadError>
    ensures { Gives (λ v. v) result (directions_from dims 1 [] (items_view values.now)) }
{
    let mut seen = Items::new(alloc);
    for (i, value) in values.iter().enumerate() {
        let direction = direction_of(dims, i + 1, seen.as_slice(), value)?;
        seen.push(direction)?;
    }
    Ok(seen)
}

/// The directions that may be reflected, counted from 1, as they are written; none where they are
/// not.
#[tactic(auto, unfolding(crate::specs::Reading::reflect_of))]
pub fn reflect_of(
    alloc: Global,
    version: FileVersion,
    dims: usize,
    value: Option<&Value>,
) -> Result<Items<u64>, ReadError>
    ensures { Gives (λ v. v) result
        (reflect_of version dims (option_map (λ v. view v.now) value.entry)) }
{
    let entry = Entry::Whole(Section::Reflect);
    let Some(value) = value else {
        return Ok(Items::new(alloc));
    };
    of_version(entry, version)?;
    let Some(values) = value.as_array() else {
        return Err(malformed(entry, Reason::Kind));
    };
    directions_from(alloc, dims, values)
}

/// The moment number of a kernel, 0 to 20, where one is written.
#[tactic(auto, unfolding(crate::specs::Reading::moments_of))]
pub fn moments_of(
    at: Entry,
    version: FileVersion,
    value: Option<&Value>,
) -> Result<Option<u8>, ReadError>
    ensures { Gives (λ r. r) result
        (moments_of at version (option_map (λ v. view v.now) value.entry)) }
{
    let Some(value) = value else {
        return Ok(None);
    };
    of_version(at, version)?;
    let Some(number) = value.as_integer() else {
        return Err(malformed(at, Reason::Kind));
    };
    match up_to(LARGEST_MOMENT, natural(number)) {
        Some(moments) => Ok(Some(moments as u8)),
        None => Err(malformed(at, Reason::Value)),
    }
}
