// Lower bounds of degrees, where what is counted is charged.
ghost use Rattle.std.specs.Prelude.{◌≡◌, ◌≤◌, ◌*◌, ◌+ℤ◌, ◌≤ℤ◌, IsTrue, pos, map, length, sum};
ghost use Rattle.degree_numbers.specs.Degree.{IsWithin};
ghost use Rattle.degree_numbers.specs.Types.{AreTypes, type_degree, size_in_units};
ghost use Rattle.conforming_trees.specs.Conforming.{label, labels};
ghost use Rattle.large_trees.specs.Classes.{weight_at};
ghost use Rattle.large_trees.specs.Charges.{fine, bound_at, charged_edge, charged_sum, AreLow, AreShort, AreBounds};

use crate::count::Count;
use crate::unit::denominator;
use degree_numbers::{Multi, TypeId, Types};
use normal_rule::{EdgeType, NodeType};

/// What is counted of a tree, and the charge on each, in thousandths of a unit.
#[derive(Clone, Copy, Debug, PartialEq, Eq)]
pub struct Charge {
    pub count: Count,
    pub each: u64,
}

/// A unit in which degrees are bounded finely enough: a thousandth of theirs.
pub const FINE: u64 = 1_000;

// Node types with more edges, or with a greater sum of the entries of a derivative, are not
// bounded.
const MOST_LENGTH: usize = 1_000;

fn are_low(edges: &[EdgeType]) -> bool
    ensures { IsTrue result → AreLow (map label edges.now) }
{
    match edges {
        [] => true,
        [edge, rest @ ..] => { Count::Decorations.weight(&edge.p) <= MOST_LENGTH && are_low(rest) }
    }
}

/// Whether a node type is short enough to be bounded.
pub fn is_short(node: &NodeType) -> bool
    ensures { IsTrue result → AreShort (labels node.now) }
{
    node.edges.len() <= MOST_LENGTH && are_low(node.edges.as_slice())
}

/// The bound of a type.
pub fn bound_at(bounds: &[i64], kind: TypeId) -> i64
    ensures { result ≡ bound_at bounds.now kind.0 }
{
    match bounds.get(kind.0 as usize) {
        Some(bound) => *bound,
        None => 0,
    }
}

// The standard part of the degree of a type.
fn standard_degree(types: &Types, kind: TypeId) -> i64
    ensures { result ≡ (type_degree types.now kind.0).a }
{
    match types.list.get(kind.0 as usize) {
        Some(entry) => entry.degree.a,
        None => 0,
    }
}

/// A standard part of a degree, in thousandths of a unit.
pub fn fine(degree: i64) -> i64
    requires { IsWithin degree 20000000 }
    ensures value { result ≡ fine degree }
    ensures small { IsWithin result 20000000000 }
{
    FINE as i64 * degree
}

// The scaled size of a derivative.
fn fine_size(types: &Types, p: &Multi) -> u64
    requires types { AreTypes types.now }
    requires low { sum p.now.entries ≤ 1000 }
    ensures value { result ≡ 1000 * size_in_units types.now p.now.entries }
    ensures small { result ≤ 10000000000000 }
{
    FINE * (denominator(types) * p.scaled_size(&types.scaling))
}

// The charge on an edge.
fn charge_on(charge: &Charge, p: &Multi) -> u64
    requires charge { charge.now.each ≤ 10000000000 }
    requires low { sum p.now.entries ≤ 1000 }
    ensures value { result ≡ charge.now.each * weight_at charge.now.count p.now.entries }
    ensures small { result ≤ 10000000000000 }
{
    charge.each * charge.count.weight(p) as u64
}

// What is left of the bound of an edge type.
fn charged_edge(types: &Types, charge: &Charge, bounds: &[i64], edge: &EdgeType) -> i64
    requires types { AreTypes types.now }
    requires charge { charge.now.each ≤ 10000000000 }
    requires bounds { AreBounds types.now bounds.now }
    requires low { sum edge.now.p.entries ≤ 1000 }
    ensures value { result ≡ charged_edge types.now charge.now bounds.now (label edge.now) }
    ensures small { IsWithin result 100000000000000 }
{
    let taken = fine_size(types, &edge.p) + charge_on(charge, &edge.p);
    bound_at(bounds, edge.kind) - taken as i64
}

/// What is left of the bounds of edge types together.
pub fn charged_sum(types: &Types, charge: &Charge, bounds: &[i64], edges: &[EdgeType]) -> i64
    requires types { AreTypes types.now }
    requires charge { charge.now.each ≤ 10000000000 }
    requires bounds { AreBounds types.now bounds.now }
    requires few { length edges.now ≤ 1000 }
    requires low { AreLow (map label edges.now) }
    ensures value { result ≡ charged_sum types.now charge.now bounds.now (map label edges.now) }
    ensures small { IsWithin result (100000000000000 * length edges.now) }
{
    match edges {
        [] => 0,
        [edge, rest @ ..] => {
            charged_edge(types, charge, bounds, edge) + charged_sum(types, charge, bounds, rest)
        }
    }
}

/// What edges of a node type leave of their bounds.
pub fn node_sum(types: &Types, charge: &Charge, bounds: &[i64], node: &NodeType) -> i64
    requires types { AreTypes types.now }
    requires charge { charge.now.each ≤ 10000000000 }
    requires bounds { AreBounds types.now bounds.now }
    requires short { AreShort (labels node.now) }
    ensures value { result ≡ charged_sum types.now charge.now bounds.now (labels node.now) }
    ensures small { IsWithin result 100000000000000000 }
{
    charged_sum(types, charge, bounds, node.edges.as_slice())
}

/// What a node type brings above an edge of a kernel.
pub fn brought(
    types: &Types,
    charge: &Charge,
    bounds: &[i64],
    kernel: TypeId,
    node: &NodeType,
) -> i64
    requires types { AreTypes types.now }
    requires charge { charge.now.each ≤ 10000000000 }
    requires bounds { AreBounds types.now bounds.now }
    requires short { AreShort (labels node.now) }
    ensures value { result ≡ fine (type_degree types.now kernel.0).a +ℤ charged_sum types.now
        charge.now bounds.now (labels node.now) }
    ensures small { IsWithin result 200000000000000000 }
{
    fine(standard_degree(types, kernel)) + node_sum(types, charge, bounds, node)
}
