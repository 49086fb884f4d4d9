// The types that are read, in units of one over the least common denominator of their degrees.
ghost use Rattle.std.specs.Prelude.{◌≡◌, ◌≤◌, ◌<ℤ◌, ◌≤ℤ◌, ◌+◌, length, map, pos, IfOk, IfErr};
ghost use Rattle.std.specs.List.{AllByRecursion, AllZip};
ghost use Rattle.std.specs.Str.{bytes_eq};
ghost use Rattle.degree_numbers.specs.Units.{IsWholeIn, fractions, AreUnits, IsPast};
ghost use Rattle.type_contexts.specs.Made.{place_of, stands_in, with_group, groups_of, number_by, IsEntryOf, AreMadeOf};
ghost use Rattle.type_contexts.specs.declared.refusal.ContextRefusal.TheVariants.{ContextText};

use crate::draft::Draft;
use crate::refusal::ContextRefusal;
use degree_numbers::{Kind, Name, TypeEntry, Types, Units, WrittenDegree, in_units, join_units};
use sqlite_items::Items;
use std::alloc::{AllocError, Global};

fn is_same(a: &Name, b: &Name) -> bool
    ensures { result ≡ bytes_eq a.now b.now }
{
    a.bytes() == b.bytes()
}

fn place_of(names: &[Name], name: &Name) -> usize
    ensures value { result ≡ place_of names.now name.now }
    ensures within { result ≤ length names.now }
{
    names.iter().take_while(|n| !is_same(*n, name)).count()
}

fn stands_in(names: &[Name], name: &Name) -> bool
    ensures { result ≡ stands_in names.now name.now }
{
    place_of(names, name) < names.len()
}

fn add_group(groups: &mut Items<Name>, draft: &Draft) -> Result<(), AllocError>
    ensures value { IfOk result (λ _. groups.new ≡ with_group groups.old draft.now) }
    ensures few { IfOk result (λ _. length groups.new ≤ length groups.old + 1) }
{
    if draft.kind == Kind::Noise && !stands_in(groups.as_slice(), &draft.group) {
        groups.push(draft.group)?;
    }
    Ok(())
}

// The names of the groups, in the order of their first noise.
fn groups_of(alloc: Global, drafts: &[Draft]) -> Result<Items<Name>, AllocError>
    ensures value { IfOk result (λ v. v ≡ groups_of drafts.now) }
    ensures few { IfOk result (λ v. length v ≤ length drafts.now) }
{
    let mut groups = Items::new(alloc);
    for draft in drafts {
        add_group(&mut groups, draft)?;
    }
    Ok(groups)
}

// The degrees that are read.
fn degrees_of(alloc: Global, drafts: &[Draft]) -> Result<Vec<WrittenDegree>, AllocError>
    ensures { IfOk result (λ v. v.items ≡ map (λ d. d.degree) drafts.now) }
{
    drafts.iter().map(|d| d.degree).collect(alloc)
}

fn number_of(groups: &[Name], draft: &Draft) -> u8
    requires { length groups.now ≤ 255 }
    ensures { result ≡ number_by draft.now.kind groups.now draft.now.group }
{
    match draft.kind {
        Kind::Noise => place_of(groups, &draft.group) as u8,
        Kind::Kernel => 0,
    }
}

fn entry_of(units: Units, groups: &[Name], draft: &Draft) -> TypeEntry
    requires above { pos 0 <ℤ units.den }
    requires fits { units.den ≤ℤ pos 1000000 }
    requires few { length groups.now ≤ 255 }
    requires whole { IsWholeIn draft.now.degree units.den }
    ensures { IsEntryOf units.den groups.now draft.now result }
{
    TypeEntry {
        name: draft.name,
        kind: draft.kind,
        degree: in_units(&draft.degree, units),
        group: number_of(groups, draft),
        moments: draft.moments,
    }
}

// The types that are read.
fn entries_of(
    alloc: Global,
    units: Units,
    groups: &[Name],
    drafts: &[Draft],
) -> Result<Items<TypeEntry>, AllocError>
    requires above { pos 0 <ℤ units.den }
    requires fits { units.den ≤ℤ pos 1000000 }
    requires few { length groups.now ≤ 255 }
    requires whole { AllByRecursion (λ d. IsWholeIn d units.den) (map (λ d. d.degree) drafts.now) }
    ensures { IfOk result (λ v. AllZip (IsEntryOf units.den groups.now) drafts.now v) }
{
    let mut entries = Items::new(alloc);
    for draft in drafts {
        entries.push(entry_of(units, groups, draft))?;
    }
    Ok(entries)
}

/// The types that are read, with this scaling and these directions that may be reflected, in units
/// of one over the least common denominator of their degrees. Refusal: `ContextText` only where
/// that passes 1,000,000 (`LARGEST_NUMBER`).
pub fn types_of(
    alloc: Global,
    dims: u8,
    scaling: [u32; 5],
    reflect: Items<u8>,
    drafts: &[Draft],
) -> Result<Types, ContextRefusal>
    requires { length drafts.now ≤ 255 }
    ensures ok { IfOk result (λ ty. AreMadeOf dims scaling reflect drafts.now ty) }
    ensures err { IfErr result (λ e. e ≡ ContextText →
        IsPast (fractions (map (λ d. d.degree) drafts.now))) }
{
    let degrees = degrees_of(alloc, drafts)?;
    let Ok(units) = join_units(degrees.as_slice()) else {
        return Err(ContextRefusal::ContextText);
    };
    let groups = groups_of(alloc, drafts)?;
    let list = entries_of(alloc, units, groups.as_slice(), drafts)?;
    Ok(Types {
        dims,
        scaling,
        units,
        list,
        groups,
        reflect,
    })
}
