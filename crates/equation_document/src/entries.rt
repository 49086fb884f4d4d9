// What stands at the keys of a table, or what is wrong with it.
ghost use Rattle.std.specs.Prelude.{◌≡◌, option_map};
ghost use Rattle.toml.specs.Data.{get_member};
ghost use Rattle.toml.specs.View.{view, items_view, table_view};
ghost use Rattle.equation_document.specs.Gives.{Gives};
ghost use Rattle.equation_document.specs.Reading.{is_key, has_other_key, keys_of, some_items, list_of, of_name, new_name, table_of, text_of, name_of, degree_of};

use crate::degree_entry::DegreeEntry;
use crate::fault::{Entry, Fault, Field, ReadError, Reason, Section};
use crate::names::stands_in;
use degree_numbers::Name;
use toml::{Table, Value};

/// Which keys may stand in a table: those of a file, of a noise or of an unknown.
#[derive(Clone, Copy, Debug, PartialEq, Eq)]
pub enum KeySet {
    Top,
    OfNoise,
    OfUnknown,
}

/// The value at a key of a table.
pub fn value_at<'a>(table: &'a Table, key: &str) -> Option<&'a Value>
    ensures { option_map (λ v. view v.now) result ≡ get_member key.now (table_view table.now) }
{
    table.get(key)
}

/// A fault of an entry.
pub fn malformed(entry: Entry, reason: Reason) -> ReadError
    ensures { result ≡ ReadError.Wrong (Fault.Malformed entry reason) }
{
    ReadError::Wrong(Fault::Malformed(entry, reason))
}

fn is_key(set: KeySet, key: &str) -> bool
    ensures { result ≡ is_key set key.now }
{
    match set {
        KeySet::Top => {
            key == "noise"
                || key == "parameters"
                || key == "reflect"
                || key == "scaling"
                || key == "unknown"
                || key == "version"
        }
        KeySet::OfNoise => key == "degree" || key == "group" || key == "name",
        KeySet::OfUnknown => {
            key == "degree"
                || key == "moments"
                || key == "name"
                || key == "regularity"
                || key == "right"
        }
    }
}

fn has_other_key(set: KeySet, table: &Table) -> bool
    ensures { result ≡ has_other_key set (table_view table.now) }
{
    for (key, _) in table {
        if !is_key(set, key.as_str()) {
            return true;
        }
    }
    false
}

/// That no other key stands in a table.
pub fn keys_of(entry: Entry, set: KeySet, table: &Table) -> Result<bool, ReadError>
    ensures { Gives (λ b. b) result (keys_of entry set (table_view table.now)) }
{
    if has_other_key(set, table) {
        Err(malformed(entry, Reason::Key))
    } else {
        Ok(true)
    }
}

// A list that is not empty.
fn some_items(section: Section, values: &[Value]) -> Result<&[Value], ReadError>
    ensures { Gives (λ v. items_view v.now) result (some_items section (items_view values.now)) }
{
    match values {
        [] => Err(malformed(Entry::Whole(section), Reason::Value)),
        [_, ..] => Ok(values),
    }
}

/// The list at a key, which is there and not empty.
#[tactic(auto, unfolding(crate::specs::Reading::list_of))]
pub fn list_of<'a>(section: Section, key: &str, table: &'a Table) -> Result<&'a [Value], ReadError>
    ensures { Gives (λ v. items_view v.now) result
        (list_of section key.now (table_view table.now)) }
{
    let Some(value) = value_at(table, key) else {
        return Err(malformed(Entry::Whole(section), Reason::Missing));
    };
    let Some(values) = value.as_array() else {
        return Err(malformed(Entry::Whole(section), Reason::Kind));
    };
    some_items(section, values)
}

/// A text that is a name.
pub fn of_name(entry: Entry, text: &str) -> Result<Name, ReadError>
    ensures { Gives (λ n. n) result (of_name entry text.now) }
{
    match Name::new(text.as_bytes()) {
        Some(name) => Ok(name),
        None => Err(malformed(entry, Reason::Name)),
    }
}

/// A name that was not seen before.
#[tactic(auto, unfolding(crate::specs::Reading::new_name))]
pub fn new_name(entry: Entry, seen: &[Name], text: &str) -> Result<Name, ReadError>
    ensures { Gives (λ n. n) result (new_name entry seen.now text.now) }
{
    let name = of_name(entry, text)?;
    if stands_in(seen, &name) {
        return Err(malformed(entry, Reason::Repeated));
    }
    Ok(name)
}

#[tactic(auto, unfolding(crate::specs::Reading::table_of))]
pub fn table_of(
    section: Section,
    set: KeySet,
    at: usize,
    value: &Value,
) -> Result<&Table, ReadError>
    ensures { Gives (λ t. table_view t.now) result (table_of section set at (view value.now)) }
{
    let entry = Entry::Item(section, at);
    let Some(table) = value.as_table() else {
        return Err(malformed(entry, Reason::Kind));
    };
    let _known = keys_of(entry, set, table)?;
    Ok(table)
}

#[tactic(auto, unfolding(crate::specs::Reading::text_of))]
pub fn text_of<'a>(entry: Entry, key: &str, table: &'a Table) -> Result<&'a str, ReadError>
    ensures { Gives (λ t. t.now) result (text_of entry key.now (table_view table.now)) }
{
    let Some(value) = value_at(table, key) else {
        return Err(malformed(entry, Reason::Missing));
    };
    let Some(text) = value.as_str() else {
        return Err(malformed(entry, Reason::Kind));
    };
    Ok(text)
}

/// The name of an item, which was not seen before.
#[tactic(auto, unfolding(crate::specs::Reading::name_of))]
pub fn name_of(section: Section, at: usize, seen: &[Name], table: &Table) -> Result<Name, ReadError>
    ensures { Gives (λ n. n) result (name_of section at seen.now (table_view table.now)) }
{
    let entry = Entry::Part(section, at, Field::Name);
    let text = text_of(entry, "name", table)?;
    new_name(entry, seen, text)
}

#[tactic(auto, unfolding(crate::specs::Reading::degree_of))]
pub fn degree_of(entry: Entry, key: &str, table: &Table) -> Result<DegreeEntry, ReadError>
    ensures { Gives (λ d. d) result (degree_of entry key.now (table_view table.now)) }
{
    let text = text_of(entry, key, table)?;
    match DegreeEntry::new(text.as_bytes()) {
        Some(degree) => Ok(degree),
        None => Err(malformed(entry, Reason::Degree)),
    }
}
