// The right sides of the unknowns.
ghost use Rattle.std.specs.Prelude.{◌≡◌, []};
ghost use Rattle.toml.specs.View.{view, items_view};
ghost use Rattle.right_side_text.specs.Grammar.{right_side};
ghost use Rattle.equation_document.specs.Gives.{Gives};
ghost use Rattle.equation_document.specs.Reading.{known_terms, terms_of, right_of, rights_from};

use crate::entries::{malformed, text_of};
use crate::fault::{Entry, Field, ReadError, Reason, Section};
use crate::names::{Names, are_known, have_one_noise};
use right_side_text::{WrittenTerm, read_right_side};
use sqlite_items::Items;
use std::alloc::Global;
use toml::Value;

// The terms, where their names are known and none has two noises.
fn known_terms(
    entry: Entry,
    names: &Names,
    terms: Items<WrittenTerm>,
) -> Result<Items<WrittenTerm>, ReadError>
    ensures { Gives (λ v. v) result (known_terms entry names.now terms) }
{
    if !are_known(names, terms.as_slice()) {
        return Err(malformed(entry, Reason::Polynomial));
    }
    if !have_one_noise(names, terms.as_slice()) {
        return Err(malformed(entry, Reason::Noise));
    }
    Ok(terms)
}

fn terms_of(
    alloc: Global,
    entry: Entry,
    names: &Names,
    dims: usize,
    text: &str,
) -> Result<Items<WrittenTerm>, ReadError>
    ensures { Gives (λ v. v) result (terms_of entry names.now (right_side dims text.now)) }
{
    match read_right_side(alloc, dims, text.as_bytes()) {
        Ok(terms) => known_terms(entry, names, terms),
        Err(right_side_text::ReadError::Memory) => Err(ReadError::Memory),
        Err(right_side_text::ReadError::Outside) => Err(malformed(entry, Reason::Polynomial)),
    }
}

#[tactic(auto, unfolding(crate::specs::Reading::right_of))]
fn right_of(
    alloc: Global,
    names: &Names,
    dims: usize,
    at: usize,
    value: &Value,
) -> Result<Items<WrittenTerm>, ReadError>
    ensures { Gives (λ v. v) result (right_of names.now dims at (view value.now)) }
{
    let Some(table) = value.as_table() else {
        return Err(malformed(Entry::Item(Section::Unknown, at), Reason::Kind));
    };
    let entry = Entry::Part(Section::Unknown, at, Field::Right);
    let text = text_of(entry, "right", table)?;
    terms_of(alloc, entry, names, dims, text)
}

/// The right sides of the unknowns.
pub fn rights_from(
    alloc: Global,
    names: &Names,
    dims: usize,
    values: &[Value],
) -> Result<Items<Items<WrittenTerm>>, ReadError>
    ensures { Gives (λ v. v) result (rights_from names.now dims 1 [] (items_view values.now)) }
{
    let mut found = Items::new(alloc);
    for (i, value) in values.iter().enumerate() {
        let terms = right_of(alloc, names, dims, i + 1, value)?;
        found.push(terms)?;
    }
    Ok(found)
}
