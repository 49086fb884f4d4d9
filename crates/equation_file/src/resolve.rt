// Written terms with their names resolved.
ghost use Rattle.std.specs.Prelude.{ℕ, ◌≡◌, ◌≤◌, ◌<◌, None, length, slice_index, not, IfOk, OnOk};
ghost use Rattle.std.specs.List.{prefix_len};
ghost use Rattle.std.specs.Ordering.{nat_cmp, is_gt};
ghost use Rattle.equation_document.specs.FirstOf.{over, first_of};
ghost use Rattle.equation_document.specs.Names.{place_of};
ghost use Rattle.equation_document.specs.Terms.{factor_derivative, term_derivative};
ghost use Rattle.equations.specs.EdgeTypes.{edge_type_order};
ghost use Rattle.equation_file.specs.Products.{placed, placed_often, five, multi_of, is_parameter, edge_type_of, with_parameter, with_factor, parameters_of, factors_of, product_of, products};

use crate::product::Product;
use degree_numbers::{Multi, TypeId};
use equation_document::{Names, place_of};
use equations::edge_type_order;
use right_side_text::{WrittenFactor, WrittenTerm};
use sqlite_items::Items;
use std::alloc::{AllocError, Global};

// How many of the parameters are not greater than this one.
fn parameter_place(parameters: &[u8], parameter: u8) -> usize
    ensures { result ≡ prefix_len (λ p. not (is_gt (nat_cmp p parameter))) parameters.now }
{
    parameters
        .iter()
        .take_while(|p| !p.cmp(&&parameter).is_gt())
        .count()
}

fn place_parameter(parameters: &mut Vec<u8>, parameter: u8) -> Result<(), AllocError>
    ensures { OnOk result (parameters.new.items ≡ placed nat_cmp parameters.old.items parameter) }
{
    let place = parameter_place(parameters, parameter);
    parameters.insert(place, parameter)?;
    Ok(())
}

fn place_parameter_often(
    parameters: &mut Vec<u8>,
    parameter: u8,
    times: u64,
) -> Result<(), AllocError>
    ensures { OnOk result (parameters.new.items ≡ placed_often times nat_cmp parameters.old.items
        parameter) }
{
    for _ in 0..times {
        place_parameter(parameters, parameter)?;
    }
    Ok(())
}

fn is_above(a: &(TypeId, Multi), b: &(TypeId, Multi)) -> bool
    ensures { result ≡ is_gt (edge_type_order a.now b.now) }
{
    edge_type_order(a, b).is_gt()
}

// How many of the factors are not greater than this one.
fn factor_place(factors: &[(TypeId, Multi)], factor: &(TypeId, Multi)) -> usize
    ensures { result ≡ prefix_len (λ f. not (is_gt (edge_type_order f factor.now))) factors.now }
{
    factors.iter().take_while(|f| !is_above(*f, factor)).count()
}

fn place_factor(
    factors: &mut Vec<(TypeId, Multi)>,
    factor: (TypeId, Multi),
) -> Result<(), AllocError>
    ensures { OnOk result (factors.new.items ≡ placed edge_type_order factors.old.items factor) }
{
    let place = factor_place(factors, &factor);
    factors.insert(place, factor)?;
    Ok(())
}

fn place_factor_often(
    factors: &mut Vec<(TypeId, Multi)>,
    factor: (TypeId, Multi),
    times: u64,
) -> Result<(), AllocError>
    ensures { OnOk result (factors.new.items ≡ placed_often times edge_type_order factors.old.items
        factor) }
{
    for _ in 0..times {
        place_factor(factors, factor)?;
    }
    Ok(())
}

fn entry_at(entries: &[u64], at: usize) -> u32
    requires { slice_index entries.now at ≤ 10 }
    ensures { result ≡ slice_index entries.now at }
{
    if at < entries.len() {
        entries[at] as u32
    } else {
        0
    }
}

/// The first five numbers, with 0 behind them.
pub fn five(numbers: &[u64]) -> [u32; 5]
    requires { (i : ℕ) → slice_index numbers.now i ≤ 10 }
    ensures { result ≡ five numbers.now }
{
    [
        entry_at(numbers, 0),
        entry_at(numbers, 1),
        entry_at(numbers, 2),
        entry_at(numbers, 3),
        entry_at(numbers, 4),
    ]
}

fn multi_of(entries: &[u64]) -> Multi
    requires { first_of (over 8) entries.now ≡ None }
    ensures { result ≡ multi_of entries.now }
{
    Multi {
        entries: five(entries),
    }
}

fn is_parameter(names: &Names, factor: &WrittenFactor) -> bool
    ensures { result ≡ is_parameter names.now factor.now }
{
    place_of(names.list.as_slice(), &factor.name) < names.first_noise
}

fn parameter_of(names: &Names, factor: &WrittenFactor) -> u8
    requires { length names.now.list ≤ 24 }
    ensures { result ≡ place_of names.now.list factor.now.name }
{
    place_of(names.list.as_slice(), &factor.name) as u8
}

fn edge_type_of(names: &Names, factor: &WrittenFactor) -> (TypeId, Multi)
    requires few { length names.now.list ≤ 24 }
    requires small { factor_derivative factor.now ≡ None }
    ensures { result ≡ edge_type_of names.now factor.now }
{
    let place = place_of(names.list.as_slice(), &factor.name);
    let kind = TypeId(place.saturating_sub(names.first_noise) as u8);
    (kind, multi_of(factor.entries.as_slice()))
}

fn add_parameter(
    names: &Names,
    parameters: &mut Vec<u8>,
    factor: &WrittenFactor,
) -> Result<(), AllocError>
    requires { length names.now.list ≤ 24 }
    ensures { OnOk result (parameters.new.items ≡ with_parameter names.now parameters.old.items
        factor.now) }
{
    if is_parameter(names, factor) {
        place_parameter_often(parameters, parameter_of(names, factor), factor.power)?;
    }
    Ok(())
}

fn add_factor(
    names: &Names,
    factors: &mut Vec<(TypeId, Multi)>,
    factor: &WrittenFactor,
) -> Result<(), AllocError>
    requires few { length names.now.list ≤ 24 }
    requires small { factor_derivative factor.now ≡ None }
    ensures { OnOk result (factors.new.items ≡ with_factor names.now factors.old.items factor.now) }
{
    if !is_parameter(names, factor) {
        place_factor_often(factors, edge_type_of(names, factor), factor.power)?;
    }
    Ok(())
}

fn parameters_of(alloc: Global, names: &Names, term: &WrittenTerm) -> Result<Items<u8>, AllocError>
    requires { length names.now.list ≤ 24 }
    ensures { IfOk result (λ v. v ≡ parameters_of names.now term.now) }
{
    let mut found = Vec::new(alloc);
    for factor in term.factors.as_slice() {
        add_parameter(names, &mut found, factor)?;
    }
    Ok(Items::from_vec(found))
}

fn factors_of(
    alloc: Global,
    names: &Names,
    term: &WrittenTerm,
) -> Result<Items<(TypeId, Multi)>, AllocError>
    requires few { length names.now.list ≤ 24 }
    requires small { term_derivative term.now ≡ None }
    ensures { IfOk result (λ v. v ≡ factors_of names.now term.now) }
{
    let mut found = Vec::new(alloc);
    for factor in term.factors.as_slice() {
        add_factor(names, &mut found, factor)?;
    }
    Ok(Items::from_vec(found))
}

fn product_of(alloc: Global, names: &Names, term: &WrittenTerm) -> Result<Product, AllocError>
    requires few { length names.now.list ≤ 24 }
    requires small { term_derivative term.now ≡ None }
    ensures { IfOk result (λ p. p ≡ product_of names.now term.now) }
{
    Ok(Product {
        coefficient: term.coefficient,
        parameters: parameters_of(alloc, names, term)?,
        factors: factors_of(alloc, names, term)?,
    })
}

/// The terms with their parameters and factors.
pub fn products_of(
    alloc: Global,
    names: &Names,
    terms: &[WrittenTerm],
) -> Result<Items<Product>, AllocError>
    requires few { length names.now.list ≤ 24 }
    requires small { first_of term_derivative terms.now ≡ None }
    ensures { IfOk result (λ v. v ≡ products names.now terms.now) }
{
    let mut found = Items::new(alloc);
    for term in terms {
        found.push(product_of(alloc, names, term)?)?;
    }
    Ok(found)
}
