// The inequality of regularities for node types of any length.
ghost use Rattle.std.specs.Prelude.{◌≡◌, ◌≤◌, neg_ℤ, pos, unsigned_abs};
ghost use Rattle.degree_numbers.specs.Types.{size_in_units, type_degree};
ghost use Rattle.degree_numbers.specs.Degree.{IsWithin};
ghost use Rattle.equations.specs.Accepted.{IsEquation};
ghost use Rattle.normal_rule.specs.Regularity.{regularity_of, edge_regularity, node_regularity};
ghost use Rattle.large_trees.specs.Lines.{IsSmall, standard};
ghost use Rattle.large_trees.specs.Sums.{gap_of};

use crate::count::Count;
use crate::excess::Excess;
use degree_numbers::{Multi, TypeId};
use equations::Equation;
use normal_rule::{EdgeType, NodeType, regularity_of};

// The common denominator of the degrees.
fn denominator(eq: &Equation) -> u64
    requires { IsEquation eq.now }
    ensures { result ≡ unsigned_abs eq.now.types.units.den }
{
    eq.types.units.den.unsigned_abs()
}

// The scaled size of a multiindex in the units of the degrees.
fn size_in_units(eq: &Equation, p: &Multi) -> u64
    requires { IsEquation eq.now }
    ensures value { result ≡ size_in_units eq.now.types p.now.entries }
    ensures small { result ≤ 500000000000000000 }
{
    let entries = Count::Decorations.weight(p);
    prove!(entries <= 50_000_000_000);
    denominator(eq) * p.scaled_size(&eq.types.scaling)
}

// What a derivative takes from the regularity.
fn loss(eq: &Equation, p: &Multi) -> Excess
    requires { IsEquation eq.now }
    ensures value { result ≡ standard (neg_ℤ (pos (size_in_units eq.now.types p.now.entries))) }
    ensures small { IsWithin result.a 500000000000000000 }
{
    Excess {
        a: -i128::from(size_in_units(eq, p)),
        b: 0,
    }
}

fn edge_regularity(eq: &Equation, edge: &EdgeType) -> Excess
    requires { IsEquation eq.now }
    ensures value { result ≡ standard (edge_regularity eq.now edge.now) }
    ensures small { IsWithin result.a 1000000000000000000 }
{
    regularity(eq, edge.kind).plus(&loss(eq, &edge.p))
}

/// The regularity of a node type.
pub fn node_regularity(eq: &Equation, node: &NodeType) -> Excess
    requires { IsEquation eq.now }
    ensures value { result ≡ standard (node_regularity eq.now node.now) }
    ensures small { IsWithin result.a 20000000000000000000000000000000000000 }
{
    let mut sum = Excess { a: 0, b: 0 };
    for edge in node.edges.as_slice() {
        sum = sum.plus(&edge_regularity(eq, edge));
    }
    sum
}

/// The degree of a type.
pub fn type_degree(eq: &Equation, kind: TypeId) -> Excess
    ensures { result ≡ record { a = (type_degree eq.now.types kind.0).a; b = (type_degree eq.now.types kind.0).b } }
{
    match eq.types.list.get(kind.0 as usize) {
        Some(entry) => Excess::of(&entry.degree),
        None => Excess { a: 0, b: 0 },
    }
}

fn regularity(eq: &Equation, kind: TypeId) -> Excess
    requires { IsEquation eq.now }
    ensures value { result ≡ standard (regularity_of eq.now kind.0) }
    ensures small { IsWithin result.a 20000000 }
{
    Excess::of(&regularity_of(eq, kind))
}

/// By how much the degree of a kernel and the regularity of a node type lie above the regularity of
/// the kernel.
pub fn gap_of(eq: &Equation, kernel: TypeId, node: &NodeType) -> Excess
    requires { IsEquation eq.now }
    ensures value { result ≡ gap_of eq.now kernel.0 node.now }
    ensures small { IsSmall result }
{
    type_degree(eq, kernel)
        .plus(&node_regularity(eq, node))
        .minus(&regularity(eq, kernel))
}
