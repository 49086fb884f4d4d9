// The search for bounds and for a charge.
ghost use Rattle.std.specs.Prelude.{◌≡◌, ◌≤◌, map, true, IfOk, IsTrue};
ghost use Rattle.degree_numbers.specs.Degree.{IsWithin};
ghost use Rattle.degree_numbers.specs.Types.{AreTypes};
ghost use Rattle.equations.specs.Accepted.{IsEquation};
ghost use Rattle.large_trees.specs.Charges.{fine, AreBounds, IsLower};
ghost use Rattle.large_trees.specs.Large.{HasNoLarge};

use crate::bounded::are_bounds;
use crate::charges::{Charge, FINE, brought, fine, is_short, node_sum};
use crate::count::Count;
use crate::unit::unit;
use degree_numbers::{TypeId, Types};
use equations::Equation;
use normal_rule::{Rule, RuleRow};
use std::alloc::{AllocError, Global};

const MOST_BOUND: i64 = 10_000_000_000_000;

// How many charges are tried.
const TRIES: usize = 8;

// The degrees of the types.
fn type_bounds(alloc: Global, types: &Types) -> Result<Vec<i64>, AllocError>
    requires { AreTypes types.now }
    ensures { IfOk result (λ v. v.items ≡ map (λ e. fine e.degree.a) types.now.list) }
{
    let mut bounds = Vec::new(alloc);
    for entry in types.list.as_slice() {
        bounds.push(fine(entry.degree.a))?;
    }
    Ok(bounds)
}

// Whether a bound is lower than that of a kernel, and modest.
fn is_lower(types: &Types, bounds: &[i64], kernel: TypeId, bound: i64) -> bool
    requires { AreBounds types.now bounds.now }
    ensures { IsTrue result → IsLower bounds.now kernel.0 bound }
{
    let k = kernel.0 as usize;
    k < bounds.len() && bound < bounds[k] && -MOST_BOUND <= bound
}

// Puts such a bound in the place of that of a kernel. The answer is whether it is one.
fn lower_to(types: &Types, bounds: &mut [i64], kernel: TypeId, bound: i64) -> bool
    requires { AreBounds types.now bounds.old }
    ensures { AreBounds types.now bounds.new }
{
    if !is_lower(types, bounds, kernel, bound) {
        return false;
    }
    bounds[kernel.0 as usize] = bound;
    true
}

// Lowers the bound of the kernel of a row to the least that one of its node types brings. The
// answer is whether that is lower.
fn lower_row(types: &Types, charge: &Charge, bounds: &mut [i64], row: &RuleRow) -> bool
    requires types { AreTypes types.now }
    requires charge { charge.now.each ≤ 10000000000 }
    requires bounds { AreBounds types.now bounds.old }
    ensures { AreBounds types.now bounds.new }
{
    let mut lower = false;
    for node in row.nodes.as_slice() {
        if is_short(node) {
            let bound = brought(types, charge, bounds, row.kernel, node);
            lower |= lower_to(types, bounds, row.kernel, bound);
        }
    }
    lower
}

fn lower_each(types: &Types, charge: &Charge, bounds: &mut [i64], rule: &Rule) -> bool
    requires types { AreTypes types.now }
    requires charge { charge.now.each ≤ 10000000000 }
    requires bounds { AreBounds types.now bounds.old }
    ensures { AreBounds types.now bounds.new }
{
    let mut lower = false;
    for row in rule.rows.as_slice() {
        lower |= lower_row(types, charge, bounds, row);
    }
    lower
}

// For each type a bound of the degree of an edge of it with what stands above it and the charges on
// that, as far as it is found in as many rounds as there are kernels. More are not needed: a tree
// in which a kernel stands twice on a path from the root is not the least, if there is one.
fn bounds(
    alloc: Global,
    types: &Types,
    charge: &Charge,
    rule: &Rule,
) -> Result<Vec<i64>, AllocError>
    requires types { AreTypes types.now }
    requires charge { charge.now.each ≤ 10000000000 }
    ensures { IfOk result (λ v. AreBounds types.now v.items) }
{
    let mut bounds = type_bounds(alloc, types)?;
    for _ in 0..rule.rows.len() {
        if !lower_each(types, charge, bounds.as_mut_slice(), rule) {
            break;
        }
    }
    Ok(bounds)
}

// The least that edges of a node type of a row leave of their bounds at a root, where that is less.
fn least_of_row(types: &Types, charge: &Charge, bounds: &[i64], row: &RuleRow, least: i64) -> i64
    requires types { AreTypes types.now }
    requires charge { charge.now.each ≤ 10000000000 }
    requires bounds { AreBounds types.now bounds.now }
    requires least { IsWithin least 100000000000000000 }
    ensures { IsWithin result 100000000000000000 }
{
    let mut least = least;
    for node in row.nodes.as_slice() {
        if is_short(node) {
            least = least.min(node_sum(types, charge, bounds, node));
        }
    }
    least
}

fn least_sum(types: &Types, charge: &Charge, bounds: &[i64], rule: &Rule) -> i64
    requires types { AreTypes types.now }
    requires charge { charge.now.each ≤ 10000000000 }
    requires bounds { AreBounds types.now bounds.now }
    ensures { IsWithin result 100000000000000000 }
{
    let mut least = 0;
    for row in rule.rows.as_slice() {
        least = least_of_row(types, charge, bounds, row, least);
    }
    least
}

// The least charge for which this least sum would be more than what the least too large tree is
// charged. With it the sum is less, or the same.
fn next_charge(charge: &Charge, least: i64) -> Charge
    ensures { result.count ≡ charge.now.count }
{
    let each = least.unsigned_abs() / charge.count.most() as u64 + 1;
    Charge {
        count: charge.count,
        each,
    }
}

/// Whether lower bounds of degrees show that no candidate of a degree of at most 0 is too large for
/// a count. To that end each that is counted is charged, at most the degree of an entry of a
/// decoration, and some charges are tried: each is the least that the one before leaves possible.
/// Where no charge shows it, there may be one or not. Fails only for want of memory.
pub fn has_none(alloc: Global, eq: &Equation, rule: &Rule, count: Count) -> Result<bool, AllocError>
    requires { IsEquation eq.now }
    ensures { IfOk result (λ none. none ≡ true → HasNoLarge eq.now rule.now count) }
{
    let most = FINE * unit(&eq.types);
    let mut charge = Charge { count, each: 0 };
    for _ in 0..TRIES {
        let bounds = bounds(alloc, &eq.types, &charge, rule)?;
        if are_bounds(&eq.types, &charge, bounds.as_slice(), rule) {
            return Ok(true);
        }
        let least = least_sum(&eq.types, &charge, bounds.as_slice(), rule);
        let next = next_charge(&charge, least);
        if next.each <= charge.each || most < next.each {
            return Ok(false);
        }
        charge = next;
    }
    Ok(false)
}
