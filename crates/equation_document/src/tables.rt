// What a table of a file means, key by key, in the order in which faults are sought.
ghost use Rattle.std.specs.Prelude.{◌≡◌, ℕ, List, [], length, codes, option_map};
ghost use Rattle.toml.specs.View.{view, items_view, table_view};
ghost use Rattle.equation_document.specs.Gives.{Gives};
ghost use Rattle.equation_document.specs.Reading.{number_of, numbers_from, parameter_of, parameters_from, parameters_of, group_of, noise_of, noises_from, noises_of, positive_of, standard_of, unknown_of, unknowns_from, directions_of, unknown_part, document_of};

use crate::degree_entry::DegreeEntry;
use crate::document::{Document, NoiseEntry, UnknownEntry};
use crate::entries::{
    KeySet, degree_of, keys_of, list_of, malformed, name_of, new_name, of_name, table_of, value_at,
};
use crate::fault::{Entry, Field, ReadError, Reason, Section};
use crate::names::Names;
use crate::rights::rights_from;
use crate::versions::{FileVersion, moments_of, reflect_of, version_of, whole};
use degree_numbers::Name;
use sqlite_items::Items;
use std::alloc::Global;
use toml::{Table, Value};

/// The scaling, and the directions that may be reflected.
#[derive(Debug, Drop)]
struct Directions {
    scaling: Items<u64>,
    reflect: Items<u64>,
}

/// Names seen so far, and the noises found so far.
#[derive(Debug, Drop)]
struct FoundNoises {
    seen: Items<Name>,
    found: Items<NoiseEntry>,
}

/// Names seen so far, and the unknowns found so far.
#[derive(Debug, Drop)]
struct FoundUnknowns {
    seen: Items<Name>,
    found: Items<UnknownEntry>,
}

#[tactic(auto, unfolding(crate::specs::Reading::number_of))]
fn number_of(at: usize, value: &Value) -> Result<u64, ReadError>
    ensures { Gives (λ n. n) result (number_of at (view value.now)) }
{
    let entry = Entry::Item(Section::Scaling, at);
    let Some(number) = value.as_integer() else {
        return Err(malformed(entry, Reason::Kind));
    };
    match whole(number) {
        Some(number) => Ok(number),
        None => Err(malformed(entry, Reason::Value)),
    }
}

fn numbers_from(alloc: Global, values: &[Value]) -> Result<Items<u64>, ReadError>
    ensures { Gives (λ v. v) result (numbers_from 1 [] (items_view values.now)) }
{
    let mut found = Items::new(alloc);
    for (i, value) in values.iter().enumerate() {
        let number = number_of(i + 1, value)?;
        found.push(number)?;
    }
    Ok(found)
}

#[tactic(auto, unfolding(crate::specs::Reading::directions_of))]
fn directions_of(
    alloc: Global,
    version: FileVersion,
    table: &Table,
) -> Result<Directions, ReadError>
    ensures { Gives (λ d. (d.scaling, d.reflect)) result
        (directions_of version (table_view table.now)) }
{
    let numbers = list_of(Section::Scaling, "scaling", table)?;
    let scaling = numbers_from(alloc, numbers)?;
    let reflect = reflect_of(alloc, version, scaling.len(), value_at(table, "reflect"))?;
    Ok(Directions { scaling, reflect })
}

#[tactic(auto, unfolding(crate::specs::Reading::parameter_of))]
fn parameter_of(at: usize, seen: &[Name], value: &Value) -> Result<Name, ReadError>
    ensures { Gives (λ n. n) result (parameter_of at seen.now (view value.now)) }
{
    let entry = Entry::Item(Section::Parameters, at);
    let Some(text) = value.as_str() else {
        return Err(malformed(entry, Reason::Kind));
    };
    new_name(entry, seen, text)
}

fn parameters_from(alloc: Global, values: &[Value]) -> Result<Items<Name>, ReadError>
    ensures { Gives (λ v. v) result (parameters_from 1 [] (items_view values.now)) }
{
    let mut seen = Items::new(alloc);
    for (i, value) in values.iter().enumerate() {
        let name = parameter_of(i + 1, seen.as_slice(), value)?;
        seen.push(name)?;
    }
    Ok(seen)
}

#[tactic(auto, unfolding(crate::specs::Reading::parameters_of))]
fn parameters_of(alloc: Global, value: Option<&Value>) -> Result<Items<Name>, ReadError>
    ensures { Gives (λ v. v) result (parameters_of (option_map (λ v. view v.now) value.entry)) }
{
    let Some(value) = value else {
        return Ok(Items::new(alloc));
    };
    let Some(values) = value.as_array() else {
        return Err(malformed(Entry::Whole(Section::Parameters), Reason::Kind));
    };
    parameters_from(alloc, values)
}

#[tactic(auto, unfolding(crate::specs::Reading::group_of))]
fn group_of(entry: Entry, name: &Name, value: Option<&Value>) -> Result<Name, ReadError>
    ensures { Gives (λ n. n) result
        (group_of entry name.now (option_map (λ v. view v.now) value.entry)) }
{
    let Some(value) = value else {
        return Ok(*name);
    };
    let Some(text) = value.as_str() else {
        return Err(malformed(entry, Reason::Kind));
    };
    of_name(entry, text)
}

#[tactic(auto, unfolding(crate::specs::Reading::noise_of))]
fn noise_of(at: usize, seen: &[Name], value: &Value) -> Result<NoiseEntry, ReadError>
    ensures { Gives (λ n. n) result (noise_of at seen.now (view value.now)) }
{
    let table = table_of(Section::Noise, KeySet::OfNoise, at, value)?;
    let name = name_of(Section::Noise, at, seen, table)?;
    let degree = degree_of(
        Entry::Part(Section::Noise, at, Field::Degree),
        "degree",
        table,
    )?;
    let group = group_of(
        Entry::Part(Section::Noise, at, Field::Group),
        &name,
        value_at(table, "group"),
    )?;
    Ok(NoiseEntry {
        name,
        degree,
        group,
    })
}

fn noises_from(alloc: Global, seen: Items<Name>, values: &[Value]) -> Result<FoundNoises, ReadError>
    ensures { Gives (λ v. (v.seen, v.found)) result
        (noises_from 1 seen [] (items_view values.now)) }
{
    let mut seen = seen;
    let mut found = Items::new(alloc);
    for (i, value) in values.iter().enumerate() {
        let noise = noise_of(i + 1, seen.as_slice(), value)?;
        seen.push(noise.name)?;
        found.push(noise)?;
    }
    Ok(FoundNoises { seen, found })
}

#[tactic(auto, unfolding(crate::specs::Reading::noises_of))]
fn noises_of(
    alloc: Global,
    seen: Items<Name>,
    value: Option<&Value>,
) -> Result<FoundNoises, ReadError>
    ensures { Gives (λ v. (v.seen, v.found)) result
        (noises_of seen (option_map (λ v. view v.now) value.entry)) }
{
    let Some(value) = value else {
        let found = Items::new(alloc);
        return Ok(FoundNoises { seen, found });
    };
    let Some(values) = value.as_array() else {
        return Err(malformed(Entry::Whole(Section::Noise), Reason::Kind));
    };
    noises_from(alloc, seen, values)
}

#[tactic(auto, unfolding(crate::specs::Reading::positive_of))]
fn positive_of(entry: Entry, key: &str, table: &Table) -> Result<DegreeEntry, ReadError>
    ensures { Gives (λ d. d) result (positive_of entry key.now (table_view table.now)) }
{
    let degree = degree_of(entry, key, table)?;
    if degree.is_positive() {
        Ok(degree)
    } else {
        Err(malformed(entry, Reason::Value))
    }
}

#[tactic(auto, unfolding(crate::specs::Reading::standard_of))]
fn standard_of(entry: Entry, key: &str, table: &Table) -> Result<DegreeEntry, ReadError>
    ensures { Gives (λ d. d) result (standard_of entry key.now (table_view table.now)) }
{
    let degree = degree_of(entry, key, table)?;
    if degree.is_standard() {
        Ok(degree)
    } else {
        Err(malformed(entry, Reason::Value))
    }
}

#[tactic(auto, unfolding(crate::specs::Reading::unknown_of))]
fn unknown_of(
    version: FileVersion,
    at: usize,
    seen: &[Name],
    value: &Value,
) -> Result<UnknownEntry, ReadError>
    ensures { Gives (λ u. u) result (unknown_of version at seen.now (view value.now)) }
{
    let table = table_of(Section::Unknown, KeySet::OfUnknown, at, value)?;
    let name = name_of(Section::Unknown, at, seen, table)?;
    let degree = positive_of(
        Entry::Part(Section::Unknown, at, Field::Degree),
        "degree",
        table,
    )?;
    let regularity = standard_of(
        Entry::Part(Section::Unknown, at, Field::Regularity),
        "regularity",
        table,
    )?;
    let moments = moments_of(
        Entry::Part(Section::Unknown, at, Field::Moments),
        version,
        value_at(table, "moments"),
    )?;
    Ok(UnknownEntry {
        name,
        degree,
        regularity,
        moments,
    })
}

fn unknowns_from(
    alloc: Global,
    version: FileVersion,
    seen: Items<Name>,
    values: &[Value],
) -> Result<FoundUnknowns, ReadError>
    ensures { Gives (λ v. (v.seen, v.found)) result (unknowns_from version 1 seen []
        (items_view values.now)) }
{
    let mut seen = seen;
    let mut found = Items::new(alloc);
    for (i, value) in values.iter().enumerate() {
        let unknown = unknown_of(version, i + 1, seen.as_slice(), value)?;
        seen.push(unknown.name)?;
        found.push(unknown)?;
    }
    Ok(FoundUnknowns { seen, found })
}

#[tactic(auto, unfolding(crate::specs::Reading::unknown_part))]
fn unknown_part(
    alloc: Global,
    version: FileVersion,
    directions: Directions,
    parameters: usize,
    noises: FoundNoises,
    values: &[Value],
) -> Result<Document, ReadError>
    ensures { Gives (λ d. d) result (unknown_part version (directions.scaling, directions.reflect)
        parameters (noises.seen, noises.found) (items_view values.now)) }
{
    let first_unknown = noises.seen.len();
    let unknowns = unknowns_from(alloc, version, noises.seen, values)?;
    let names = Names {
        list: unknowns.seen,
        first_noise: parameters,
        first_unknown,
    };
    let rights = rights_from(alloc, &names, directions.scaling.len(), values)?;
    Ok(Document {
        scaling: directions.scaling,
        reflect: directions.reflect,
        names,
        noises: noises.found,
        unknowns: unknowns.found,
        rights,
    })
}

/// All that the table of a file holds, or its first fault.
#[tactic(auto, unfolding(crate::specs::Reading::document_of))]
pub fn document_of(alloc: Global, table: &Table) -> Result<Document, ReadError>
    ensures { Gives (λ d. d) result (document_of (table_view table.now)) }
{
    let _known = keys_of(Entry::File, KeySet::Top, table)?;
    let version = version_of(table)?;
    let directions = directions_of(alloc, version, table)?;
    let parameters = parameters_of(alloc, value_at(table, "parameters"))?;
    let count = parameters.len();
    let noises = noises_of(alloc, parameters, value_at(table, "noise"))?;
    let unknowns = list_of(Section::Unknown, "unknown", table)?;
    unknown_part(alloc, version, directions, count, noises, unknowns)
}
