// The low degrees of a rule.
ghost use Rattle.std.specs.Prelude.{◌≡◌, IsTrue, map, IfOk};
ghost use Rattle.std.specs.List.{All};
ghost use Rattle.std.specs.declared.option.Option.TheVariants.{Some};
ghost use Rattle.degree_numbers.specs.Degree.{degree_plus};
ghost use Rattle.degree_numbers.specs.Types.{AreTypes, type_degree, kind_of};
ghost use Rattle.degree_numbers.specs.declared.Kind.TheVariants.{Kernel};
ghost use Rattle.conforming_trees.specs.Conforming.{label, labels};
ghost use Rattle.conforming_trees.specs.Budgets.{IsUsable, low_at, lows_of};
ghost use Rattle.equations.specs.Accepted.{IsEquation};
ghost use Rattle.conforming_trees.specs.Conforming.{IsRule};
ghost use Rattle.tree_budgets.specs.Bounds.{IsBounded, AreBounded, AreTypeBounds, IsLowAt, IsLowRow};

use crate::sums::{at, is_usable, lows_of, plus, type_degree};
use degree_numbers::{Degree, TypeId, Types};
use equations::Equation;
use normal_rule::{NodeType, Rule, RuleRow};
use sqlite_items::Items;
use std::alloc::{AllocError, Global};
use std::cmp::Ordering;

const BOUND: i64 = 1_000_000_000;

/// Whether both parts of a degree are small.
pub(crate) fn is_bounded(d: &Degree) -> bool
    ensures { IsTrue result → IsBounded d.now }
{
    -BOUND <= d.a && d.a <= BOUND && -BOUND <= d.b && d.b <= BOUND
}

// What a node type brings above an edge of a kernel, where each of its edges has its low degree.
#[tactic(auto, using(crate::proofs::SumBounds::type_modest, crate::proofs::SumBounds::lows_modest))]
fn brought(types: &Types, lows: &[Degree], kernel: TypeId, node: &NodeType) -> Degree
    requires types { AreTypes types.now }
    requires lows { AreBounded lows.now }
    requires usable { IsUsable (labels node.now) }
    ensures { result ≡ degree_plus (type_degree types.now kernel.0) (lows_of types.now lows.now
        (labels node.now)) }
{
    plus(
        &type_degree(types, kernel),
        &lows_of(types, lows, node.edges.as_slice()),
    )
}

fn is_low_at(types: &Types, lows: &[Degree], kernel: TypeId, node: &NodeType) -> bool
    requires types { AreTypes types.now }
    requires lows { AreBounded lows.now }
    ensures { IsTrue result → IsLowAt types.now lows.now kernel.0 node.now }
{
    if is_usable(node.edges.as_slice()) {
        let least = brought(types, lows, kernel, node);
        at(lows, kernel).order(&least) != Ordering::Greater
    } else {
        true
    }
}

fn is_row_low(types: &Types, lows: &[Degree], row: &RuleRow) -> bool
    requires types { AreTypes types.now }
    requires lows { AreBounded lows.now }
    ensures { IsTrue result → IsLowRow types.now lows.now row.now }
{
    for node in row.nodes.as_slice() {
        if !is_low_at(types, lows, row.kernel, node) {
            return false;
        }
    }
    true
}

/// Whether no low degree is above what a node type of its row brings.
pub(crate) fn are_low(types: &Types, lows: &[Degree], rule: &Rule) -> bool
    requires types { AreTypes types.now }
    requires lows { AreBounded lows.now }
    ensures { IsTrue result → All (IsLowRow types.now lows.now) rule.now.rows }
{
    for row in rule.rows.as_slice() {
        if !is_row_low(types, lows, row) {
            return false;
        }
    }
    true
}

// The degrees of the types.
fn type_degrees(alloc: Global, types: &Types) -> Result<Items<Degree>, AllocError>
    ensures { IfOk result (λ ds. ds ≡ map (λ e. e.degree) types.now.list) }
{
    let mut degrees = Items::new(alloc);
    for entry in types.list.as_slice() {
        degrees.push(entry.degree)?;
    }
    Ok(degrees)
}

// Puts a degree that is lower, and small, in the place of that of a kernel.
#[tactic(auto, using(crate::proofs::TypeLists::known_kind, crate::proofs::TypeLists::set_bounds))]
fn lower_to(types: &Types, least: Degree, kernel: TypeId, lows: &mut Items<Degree>)
    requires kernel { kind_of types.now kernel.0 ≡ Some Kernel }
    requires lows { AreTypeBounds types.now lows.old }
    ensures { AreTypeBounds types.now lows.new }
{
    let lower = least.order(&at(lows.as_slice(), kernel)) == Ordering::Less;
    if lower && is_bounded(&least) {
        lows.set(kernel.0 as usize, least);
    }
}

// Lowers the degree of the kernel of a row to the least that one of its node types brings.
fn lower(types: &Types, row: &RuleRow, lows: &mut Items<Degree>)
    requires types { AreTypes types.now }
    requires kernel { kind_of types.now row.now.kernel.0 ≡ Some Kernel }
    requires lows { AreTypeBounds types.now lows.old }
    ensures { AreTypeBounds types.now lows.new }
{
    for node in row.nodes.as_slice() {
        if is_usable(node.edges.as_slice()) {
            let least = brought(types, lows.as_slice(), row.kernel, node);
            lower_to(types, least, row.kernel, lows);
        }
    }
}

fn lower_each(eq: &Equation, rule: &Rule, lows: &mut Items<Degree>)
    requires equation { IsEquation eq.now }
    requires rule { IsRule eq.now rule.now }
    requires lows { AreTypeBounds eq.now.types lows.old }
    ensures { AreTypeBounds eq.now.types lows.new }
{
    for row in rule.rows.as_slice() {
        lower(&eq.types, row, lows);
    }
}

/// For each type the least degree of an edge of it with what stands above it, as far as it is found
/// in as many rounds as there are kernels. More are not needed: a tree in which a kernel stands
/// twice on a path from the root is not the least, since the part above the second is less than
/// that above the first.
pub(crate) fn least_degrees(
    alloc: Global,
    eq: &Equation,
    rule: &Rule,
) -> Result<Items<Degree>, AllocError>
    requires equation { IsEquation eq.now }
    requires rule { IsRule eq.now rule.now }
    ensures { IfOk result (λ ds. AreTypeBounds eq.now.types ds) }
{
    let mut lows = type_degrees(alloc, &eq.types)?;
    for _ in 0..rule.rows.len() {
        lower_each(eq, rule, &mut lows);
    }
    Ok(lows)
}
