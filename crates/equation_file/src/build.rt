// The equation that a document writes down.
ghost use Rattle.std.specs.Prelude.{◌≡◌, ◌≤◌, ◌<◌, ◌+◌, ◌++◌, ◌∷◌, [], ℕ, pos, None, cond, length, map, take, slice_index, Ok, IfOk, OnOk};
ghost use Rattle.equation_document.specs.FirstOf.{over, first_of};
ghost use Rattle.equation_document.specs.Limits.{noise_number, unknown_number, right_terms, limits_of};
ghost use Rattle.equation_document.specs.Counted.{AreCounted};
ghost use Rattle.equation_document.specs.Terms.{term_derivative};
ghost use Rattle.equation_file.specs.Collect.{collected};
ghost use Rattle.equation_file.specs.Meaning.{groups_of, is_written, reflect_of, noise_type, kernel_type, type_list, types_of, unknown_of, unknowns_from, equation_in, document_equation};
ghost use Rattle.equation_file.specs.Products.{five, products};

use crate::collect::collected;
use crate::resolve::{five, products_of};
use degree_numbers::{Kind, Name, TypeEntry, TypeId, Types, Units};
use equation_document::{
    Document, Names, NoiseEntry, UnknownEntry, denominator_of, place_of, stands_in, units_of,
};
use equations::{Equation, RightTerm, Unknown};
use right_side_text::WrittenTerm;
use sqlite_items::Items;
use std::alloc::{AllocError, Global};

// The names of the groups, in the order of their first noise.
fn groups_of(alloc: Global, noises: &[NoiseEntry]) -> Result<Items<Name>, AllocError>
    ensures value { IfOk result (λ v. v ≡ groups_of noises.now) }
    ensures few { IfOk result (λ v. length v ≤ length noises.now) }
{
    let mut groups = Items::new(alloc);
    for noise in noises {
        if !stands_in(groups.as_slice(), &noise.group) {
            groups.push(noise.group)?;
        }
    }
    Ok(groups)
}

fn noise_type(den: u64, groups: &[Name], noise: &NoiseEntry) -> TypeEntry
    requires den { den ≤ 1000000 }
    requires few { length groups.now ≤ 8 }
    requires small { noise_number noise.now ≡ None }
    ensures { result ≡ noise_type den groups.now noise.now }
{
    TypeEntry {
        name: noise.name,
        kind: Kind::Noise,
        degree: noise.degree.in_units(den),
        group: place_of(groups, &noise.group) as u8,
        moments: None,
    }
}

fn kernel_type(den: u64, unknown: &UnknownEntry) -> TypeEntry
    requires den { den ≤ 1000000 }
    requires small { unknown_number unknown.now ≡ None }
    ensures { result ≡ kernel_type den unknown.now }
{
    TypeEntry {
        name: unknown.name,
        kind: Kind::Kernel,
        degree: unknown.degree.in_units(den),
        group: 0,
        moments: unknown.moments,
    }
}

fn add_noise_types(
    list: &mut Items<TypeEntry>,
    den: u64,
    groups: &[Name],
    noises: &[NoiseEntry],
) -> Result<(), AllocError>
    requires den { den ≤ 1000000 }
    requires few { length groups.now ≤ 8 }
    requires small { first_of noise_number noises.now ≡ None }
    ensures { OnOk result (list.new ≡ list.old ++ map (noise_type den groups.now) noises.now) }
{
    for noise in noises {
        list.push(noise_type(den, groups, noise))?;
    }
    Ok(())
}

fn add_kernel_types(
    list: &mut Items<TypeEntry>,
    den: u64,
    unknowns: &[UnknownEntry],
) -> Result<(), AllocError>
    requires den { den ≤ 1000000 }
    requires small { first_of unknown_number unknowns.now ≡ None }
    ensures { OnOk result (list.new ≡ list.old ++ map (kernel_type den) unknowns.now) }
{
    for unknown in unknowns {
        list.push(kernel_type(den, unknown))?;
    }
    Ok(())
}

fn add_direction(
    directions: &mut Items<u8>,
    written: &[u64],
    direction: u8,
) -> Result<(), AllocError>
    ensures { OnOk result (directions.new ≡ directions.old
        ++ cond (is_written written.now direction) (direction ∷ []) []) }
{
    if written.contains(&(direction as u64)) {
        directions.push(direction)?;
    }
    Ok(())
}

// The directions that may be reflected, ascending.
fn reflect_of(alloc: Global, dims: usize, written: &[u64]) -> Result<Items<u8>, AllocError>
    requires { dims ≤ 5 }
    ensures { IfOk result (λ v. v ≡ reflect_of dims written.now) }
{
    let mut directions = Items::new(alloc);
    for before in 0..dims {
        add_direction(&mut directions, written, (before + 1) as u8)?;
    }
    Ok(directions)
}

fn types_of(alloc: Global, den: u64, document: &Document) -> Result<Types, AllocError>
    requires den { den ≤ 1000000 }
    requires limits { limits_of document.now ≡ Ok tt }
    ensures { IfOk result (λ ty. ty ≡ types_of den document.now) }
{
    let groups = groups_of(alloc, document.noises.as_slice())?;
    let mut list = Items::new(alloc);
    add_noise_types(
        &mut list,
        den,
        groups.as_slice(),
        document.noises.as_slice(),
    )?;
    add_kernel_types(&mut list, den, document.unknowns.as_slice())?;
    let reflect = reflect_of(alloc, document.scaling.len(), document.reflect.as_slice())?;
    Ok(Types {
        dims: document.scaling.len() as u8,
        scaling: five(document.scaling.as_slice()),
        units: Units { den: whole(den) },
        list,
        groups,
        reflect,
    })
}

fn right_of(
    alloc: Global,
    den: u64,
    names: &Names,
    right: &[WrittenTerm],
) -> Result<Items<RightTerm>, AllocError>
    requires den { den ≤ 1000000 }
    requires names { length names.now.list ≤ 24 }
    requires terms { length right.now ≤ 64 }
    requires small { first_of term_derivative right.now ≡ None }
    ensures { IfOk result (λ v. v ≡ collected den (products names.now right.now)) }
{
    let terms = products_of(alloc, names, right)?;
    collected(alloc, den, terms.as_slice())
}

fn unknown_of(
    alloc: Global,
    units: u64,
    den: u64,
    names: &Names,
    kernel: usize,
    unknown: &UnknownEntry,
    right: &[WrittenTerm],
) -> Result<Unknown, AllocError>
    requires units { units ≤ 1000000 }
    requires den { den ≤ 1000000 }
    requires names { length names.now.list ≤ 24 }
    requires kernel { kernel < 256 }
    requires numbers { unknown_number unknown.now ≡ None }
    requires terms { right_terms right.now ≡ None }
    requires small { first_of term_derivative right.now ≡ None }
    ensures { IfOk result (λ u. u ≡ unknown_of units den names.now kernel unknown.now right.now) }
{
    Ok(Unknown {
        kernel: TypeId(kernel as u8),
        regularity: unknown.regularity.in_units(units),
        right: right_of(alloc, den, names, right)?,
    })
}

fn unknowns_of(
    alloc: Global,
    units: u64,
    den: u64,
    document: &Document,
) -> Result<Items<Unknown>, AllocError>
    requires units { units ≤ 1000000 }
    requires den { den ≤ 1000000 }
    requires counted { AreCounted document.now }
    requires limits { limits_of document.now ≡ Ok tt }
    ensures { IfOk result (λ v. v ≡ unknowns_from units den document.now.names
        (length document.now.noises) document.now.unknowns document.now.rights) }
{
    let first = document.noises.len();
    let unknowns = document.unknowns.as_slice();
    let rights = document.rights.as_slice();
    let mut found = Items::new(alloc);
    for i in 0..unknowns.len().min(rights.len()) {
        let names = &document.names;
        let right = rights[i].as_slice();
        found.push(unknown_of(alloc, units, den, names, first + i, &unknowns[i], right)?)?;
    }
    Ok(found)
}

fn equation_in(
    alloc: Global,
    units: u64,
    denominator: u64,
    document: &Document,
) -> Result<Equation, AllocError>
    requires units { units ≤ 1000000 }
    requires denominator { denominator ≤ 1000000 }
    requires counted { AreCounted document.now }
    requires limits { limits_of document.now ≡ Ok tt }
    ensures { IfOk result (λ eq. eq ≡ equation_in units denominator document.now) }
{
    let names = document.names.list.as_slice();
    Ok(Equation {
        types: types_of(alloc, units, document)?,
        parameters: Items::from_slice(alloc, &names[..document.names.first_noise])?,
        unknowns: unknowns_of(alloc, units, denominator, document)?,
        denominator: whole(denominator),
    })
}

/// The equation that a document writes down.
#[tactic(auto, unfolding(crate::specs::Meaning::document_equation))]
pub fn document_equation(alloc: Global, document: &Document) -> Result<Equation, AllocError>
    requires counted { AreCounted document.now }
    requires limits { limits_of document.now ≡ Ok tt }
    ensures { IfOk result (λ eq. eq ≡ document_equation document.now) }
{
    let units = units_of(alloc, document)?;
    let denominator = denominator_of(alloc, document)?;
    equation_in(alloc, units, denominator, document)
}

fn whole(n: u64) -> i64
    requires { n ≤ 1000000 }
    ensures { result ≡ pos n }
{
    n as i64
}
