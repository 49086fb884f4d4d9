// The budgets of a rule.
ghost use Rattle.std.specs.Prelude.{◌≡◌, ◌<◌, IsTrue, map, length, IfOk};
ghost use Rattle.std.specs.List.{All};
ghost use Rattle.degree_numbers.specs.Degree.{degree_plus, degree_zero};
ghost use Rattle.degree_numbers.specs.Types.{AreTypes};
ghost use Rattle.conforming_trees.specs.Conforming.{labels};
ghost use Rattle.conforming_trees.specs.Budgets.{IsNotAbove, IsUsable, lows_of};
ghost use Rattle.tree_budgets.specs.Bounds.{IsModest, IsBounded, AreBounded, IsTypeTable, IsEnough, AreEnough, IsEnoughRow};

use crate::lows::is_bounded;
use crate::sums::{NO_DEGREE, at, is_usable, lows_of, type_degree};
use degree_numbers::{Degree, TypeId, Types};
use normal_rule::{EdgeType, NodeType, Rule, RuleRow};
use plain_trees::is_kernel_type;
use sqlite_items::Items;
use std::alloc::{AllocError, Global};
use std::cmp::Ordering;

// Whether most + low is at most next + degree + total.
fn fits(most: &Degree, low: &Degree, next: &Degree, degree: &Degree, total: &Degree) -> bool
    requires most { IsBounded most.now }
    requires low { IsBounded low.now }
    requires next { IsBounded next.now }
    requires degree { IsBounded degree.now }
    requires total { IsModest total.now }
    ensures { IsTrue result →
        IsNotAbove (degree_plus most.now low.now) (degree_plus (degree_plus next.now degree.now)
        total.now) }
{
    let left = most.plus(low);
    let right = next.plus(degree).plus(total);
    left.order(&right) != Ordering::Greater
}

// Whether what edges of a node type leave for a kernel edge of it is at most the most of its
// kernel.
fn is_enough(
    types: &Types,
    lows: &[Degree],
    mosts: &[Degree],
    kernel: TypeId,
    node: &NodeType,
    edge: &EdgeType,
) -> bool
    requires types { AreTypes types.now }
    requires lows { AreBounded lows.now }
    requires mosts { AreBounded mosts.now }
    requires usable { IsUsable (labels node.now) }
    ensures { IsTrue result →
        IsEnough types.now lows.now mosts.now kernel.0 node.now.edges edge.now }
{
    if is_kernel_type(types, edge.kind) {
        let total = lows_of(types, lows, node.edges.as_slice());
        fits(
            &at(mosts, kernel),
            &at(lows, edge.kind),
            &at(mosts, edge.kind),
            &type_degree(types, edge.kind),
            &total,
        )
    } else {
        true
    }
}

fn is_node_enough(
    types: &Types,
    lows: &[Degree],
    mosts: &[Degree],
    kernel: TypeId,
    node: &NodeType,
) -> bool
    requires types { AreTypes types.now }
    requires lows { AreBounded lows.now }
    requires mosts { AreBounded mosts.now }
    ensures { IsTrue result → AreEnough types.now lows.now mosts.now kernel.0 node.now }
{
    if is_usable(node.edges.as_slice()) {
        for edge in node.edges.as_slice() {
            if !is_enough(types, lows, mosts, kernel, node, edge) {
                return false;
            }
        }
    }
    true
}

fn is_row_enough(types: &Types, lows: &[Degree], mosts: &[Degree], row: &RuleRow) -> bool
    requires types { AreTypes types.now }
    requires lows { AreBounded lows.now }
    requires mosts { AreBounded mosts.now }
    ensures { IsTrue result → IsEnoughRow types.now lows.now mosts.now row.now }
{
    for node in row.nodes.as_slice() {
        if !is_node_enough(types, lows, mosts, row.kernel, node) {
            return false;
        }
    }
    NO_DEGREE.order(&at(mosts, row.kernel)) != Ordering::Greater
}

/// Whether each budget is at least 0 and leaves enough for the kernels at its node types.
pub(crate) fn are_enough(types: &Types, lows: &[Degree], mosts: &[Degree], rule: &Rule) -> bool
    requires types { AreTypes types.now }
    requires lows { AreBounded lows.now }
    requires mosts { AreBounded mosts.now }
    ensures { IsTrue result → All (IsEnoughRow types.now lows.now mosts.now) rule.now.rows }
{
    for row in rule.rows.as_slice() {
        if !is_row_enough(types, lows, mosts, row) {
            return false;
        }
    }
    true
}

fn zeros(alloc: Global, types: &Types) -> Result<Items<Degree>, AllocError>
    ensures { IfOk result (λ ds. ds ≡ map (λ e. degree_zero) types.now.list) }
{
    let mut degrees = Items::new(alloc);
    for _ in types.list.as_slice() {
        degrees.push(NO_DEGREE)?;
    }
    Ok(degrees)
}

// most + low - degree - total: what is left for the tree above an edge.
fn left(most: &Degree, low: &Degree, degree: &Degree, total: &Degree) -> Degree
    requires most { IsBounded most.now }
    requires low { IsBounded low.now }
    requires degree { IsBounded degree.now }
    requires total { IsModest total.now }
{
    Degree {
        a: most.a + low.a - degree.a - total.a,
        b: most.b + low.b - degree.b - total.b,
    }
}

// Puts a degree that is greater, and small, in the place of that of a type.
#[tactic(auto, using(crate::proofs::TypeLists::set_table))]
fn raise_to(types: &Types, most: Degree, kind: TypeId, mosts: &mut Items<Degree>)
    requires known { kind.0 < length types.now.list }
    requires mosts { IsTypeTable types.now mosts.old }
    ensures { IsTypeTable types.now mosts.new }
{
    let greater = most.order(&at(mosts.as_slice(), kind)) == Ordering::Greater;
    if greater && is_bounded(&most) {
        mosts.set(kind.0 as usize, most);
    }
}

// Raises the most of each kernel of a node type to what the other edges leave.
#[tactic(auto, using(crate::proofs::TypeLists::kernel_known))]
fn raise(types: &Types, lows: &[Degree], kernel: TypeId, node: &NodeType, mosts: &mut Items<Degree>)
    requires types { AreTypes types.now }
    requires lows { AreBounded lows.now }
    requires usable { IsUsable (labels node.now) }
    requires mosts { IsTypeTable types.now mosts.old }
    ensures { IsTypeTable types.now mosts.new }
{
    let total = lows_of(types, lows, node.edges.as_slice());
    for edge in node.edges.as_slice() {
        if is_kernel_type(types, edge.kind) {
            let most = at(mosts.as_slice(), kernel);
            let left = left(
                &most,
                &at(lows, edge.kind),
                &type_degree(types, edge.kind),
                &total,
            );
            raise_to(types, left, edge.kind, mosts);
        }
    }
}

fn raise_row(types: &Types, lows: &[Degree], row: &RuleRow, mosts: &mut Items<Degree>)
    requires types { AreTypes types.now }
    requires lows { AreBounded lows.now }
    requires mosts { IsTypeTable types.now mosts.old }
    ensures { IsTypeTable types.now mosts.new }
{
    for node in row.nodes.as_slice() {
        if is_usable(node.edges.as_slice()) {
            raise(types, lows, row.kernel, node, mosts);
        }
    }
}

fn raise_each(types: &Types, lows: &[Degree], rule: &Rule, mosts: &mut Items<Degree>)
    requires types { AreTypes types.now }
    requires lows { AreBounded lows.now }
    requires mosts { IsTypeTable types.now mosts.old }
    ensures { IsTypeTable types.now mosts.new }
{
    for row in rule.rows.as_slice() {
        raise_row(types, lows, row, mosts);
    }
}

/// For each kernel the greatest degree of what stands above its edges in a tree of a degree of at
/// most 0, as far as it is found in as many rounds as there are kernels: what is left for a kernel
/// falls where it stands again further from the root.
pub(crate) fn greatest_degrees(
    alloc: Global,
    types: &Types,
    lows: &[Degree],
    rule: &Rule,
) -> Result<Items<Degree>, AllocError>
    requires types { AreTypes types.now }
    requires lows { AreBounded lows.now }
    ensures { IfOk result (λ ds. IsTypeTable types.now ds) }
{
    let mut mosts = zeros(alloc, types)?;
    for _ in 0..rule.rows.len() {
        raise_each(types, lows, rule, &mut mosts);
    }
    Ok(mosts)
}
