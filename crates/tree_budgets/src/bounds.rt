// The low degrees and the budgets of a rule.
ghost use Rattle.std.specs.Prelude.{◌≡◌, ◌<◌, ◌⊎◌, length, map, ◌-ℤ◌, FitsSigned, IfOk};
ghost use Rattle.std.specs.Int.{w64};
ghost use Rattle.std.specs.List.{range_with_len};
ghost use Rattle.degree_numbers.specs.Degree.{IsWithin};
ghost use Rattle.equations.specs.Accepted.{IsEquation};
ghost use Rattle.normal_rule.specs.Regularity.{IsSubcritical};
ghost use Rattle.conforming_trees.specs.Conforming.{IsRule};
ghost use Rattle.conforming_trees.specs.Budgets.{IsNotAbove};
ghost use Rattle.tree_budgets.specs.Bounds.{HasBounds, IsSlackMost, degree_minus, regular_low, regular_most, slack};

use crate::lows::{are_low, least_degrees};
use crate::mosts::{are_enough, greatest_degrees};
use crate::sums::{NO_DEGREE, type_degree};
use degree_numbers::{Degree, TypeId};
use equations::Equation;
use normal_rule::{Rule, regularity_of};
use sqlite_items::Items;
use std::alloc::{AllocError, Global};
use std::cmp::Ordering;

/// Low degrees and budgets, by type number.
#[derive(Debug, Drop)]
pub(crate) struct Bounds {
    pub(crate) lows: Items<Degree>,
    pub(crate) mosts: Items<Degree>,
}

fn type_at(k: usize) -> TypeId
    requires { k < 256 }
    ensures { result.0 ≡ k }
{
    TypeId(k as u8)
}

// The regularity of a type, with the k part of its degree.
fn regular_low(eq: &Equation, kind: TypeId) -> Degree
    ensures { result ≡ regular_low eq.now kind.0 }
{
    Degree {
        a: regularity_of(eq, kind).a,
        b: type_degree(&eq.types, kind).b,
    }
}

#[tactic(auto, using(crate::proofs::Regular::few_types))]
fn regular_lows(alloc: Global, eq: &Equation) -> Result<Items<Degree>, AllocError>
    requires { IsEquation eq.now }
    ensures { IfOk result (λ ds. ds ≡ map (regular_low eq.now)
        (range_with_len 0 (length eq.now.types.list))) }
{
    let mut lows = Items::new(alloc);
    for k in 0..eq.types.list.len() {
        lows.push(regular_low(eq, type_at(k)))?;
    }
    Ok(lows)
}

fn minus(d: &Degree, e: &Degree) -> Degree
    requires a_fits { FitsSigned w64 (d.now.a -ℤ e.now.a) }
    requires b_fits { FitsSigned w64 (d.now.b -ℤ e.now.b) }
    ensures { result ≡ degree_minus d.now e.now }
{
    Degree {
        a: d.a - e.a,
        b: d.b - e.b,
    }
}

// By how much the degree of a type is above its regularity.
fn slack(eq: &Equation, kind: TypeId) -> Degree
    requires { IsEquation eq.now }
    ensures { result ≡ slack eq.now kind.0 }
{
    minus(&type_degree(&eq.types, kind), &regular_low(eq, kind))
}

// The greater of two degrees.
#[tactic(auto, using(crate::proofs::Regular::above_other))]
fn greater(d: &Degree, e: &Degree) -> Degree
    ensures is { (result ≡ d.now) ⊎ (result ≡ e.now) }
    ensures d { IsNotAbove d.now result }
    ensures e { IsNotAbove e.now result }
{
    if e.order(d) == Ordering::Greater {
        *e
    } else {
        *d
    }
}

#[tactic(auto, using(crate::proofs::Regular::few_types))]
fn greatest_slack(eq: &Equation) -> Degree
    requires { IsEquation eq.now }
    ensures { IsSlackMost eq.now (length eq.now.types.list) result }
{
    let mut greatest = NO_DEGREE;
    for k in 0..eq.types.list.len() {
        greatest = greater(&greatest, &slack(eq, type_at(k)));
    }
    greatest
}

// What is left of a degree by the slack of a type.
fn regular_most(eq: &Equation, greatest: &Degree, kind: TypeId) -> Degree
    requires equation { IsEquation eq.now }
    requires a { IsWithin greatest.now.a 40000000 }
    requires b { IsWithin greatest.now.b 40000000 }
    ensures { result ≡ regular_most eq.now greatest.now kind.0 }
{
    minus(greatest, &slack(eq, kind))
}

#[tactic(auto, using(crate::proofs::Regular::few_types))]
fn regular_mosts(
    alloc: Global,
    eq: &Equation,
    greatest: &Degree,
) -> Result<Items<Degree>, AllocError>
    requires equation { IsEquation eq.now }
    requires a { IsWithin greatest.now.a 40000000 }
    requires b { IsWithin greatest.now.b 40000000 }
    ensures { IfOk result (λ ds. ds ≡ map (regular_most eq.now greatest.now)
        (range_with_len 0 (length eq.now.types.list))) }
{
    let mut mosts = Items::new(alloc);
    for k in 0..eq.types.list.len() {
        mosts.push(regular_most(eq, greatest, type_at(k)))?;
    }
    Ok(mosts)
}

// The bounds that the inequality of regularities gives.
fn regular_bounds(alloc: Global, eq: &Equation, rule: &Rule) -> Result<Bounds, AllocError>
    requires equation { IsEquation eq.now }
    requires rule { IsRule eq.now rule.now }
    requires holds { IsSubcritical eq.now rule.now }
    ensures { IfOk result (λ b. HasBounds eq.now rule.now b.lows b.mosts) }
{
    let lows = regular_lows(alloc, eq)?;
    let greatest = greatest_slack(eq);
    let mosts = regular_mosts(alloc, eq, &greatest)?;
    Ok(Bounds { lows, mosts })
}

/// Low degrees and budgets of a rule: the least and the greatest degrees that are found, where they
/// are such, and else what the regularities give.
pub(crate) fn make_bounds(alloc: Global, eq: &Equation, rule: &Rule) -> Result<Bounds, AllocError>
    requires equation { IsEquation eq.now }
    requires rule { IsRule eq.now rule.now }
    requires holds { IsSubcritical eq.now rule.now }
    ensures { IfOk result (λ b. HasBounds eq.now rule.now b.lows b.mosts) }
{
    let types = &eq.types;
    let lows = least_degrees(alloc, eq, rule)?;
    if are_low(types, lows.as_slice(), rule) {
        let mosts = greatest_degrees(alloc, types, lows.as_slice(), rule)?;
        if are_enough(types, lows.as_slice(), mosts.as_slice(), rule) {
            return Ok(Bounds { lows, mosts });
        }
    }
    regular_bounds(alloc, eq, rule)
}
