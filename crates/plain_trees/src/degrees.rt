// Degrees of trees, and planted trees.
ghost use Rattle.std.specs.Prelude.{◌≡◌, ◌↔◌, ◌<◌, ◌≤◌, ℕ, pos, true, length, sum};
ghost use Rattle.limits.specs.declared.TheConstants.{MOST_DECORATIONS};
ghost use Rattle.degree_numbers.specs.declared.types.Types.{Types};
ghost use Rattle.degree_numbers.specs.Types.{AreTypes, type_degree, size_in_units};
ghost use Rattle.plain_trees.specs.Degree.{degree_of, derivative_degree_of, edge_degree_of, node_degree_of, planted, is_kernel, IsPlanted, HasTypes};
ghost use Rattle.plain_trees.specs.Canon.{IsSame};
ghost use Rattle.plain_trees.specs.Plain.{Plain, IsSmall};
ghost use Rattle.plain_trees.specs.View.{plain};

use crate::tree::Tree;
use degree_numbers::{Degree, Kind, Multi, TypeId, Types};

/// The degree of a type.
#[tactic(auto, using(crate::proofs::DegreeBounds::type_degree_at))]
fn type_degree_of(types: &Types, kind: TypeId) -> Degree
    requires { kind.0 < length types.now.list }
    ensures { result ≡ type_degree types.now kind.0 }
{
    types.list.as_slice()[kind.0 as usize].degree
}

/// The scaled size of a multiindex in the units of the degrees.
#[tactic(auto, using(crate::proofs::DegreeBounds::scaling_most, crate::proofs::DegreeBounds::size_most, crate::proofs::DegreeBounds::product_most))]
fn in_units(types: &Types, m: &Multi) -> i64
    requires types { AreTypes types.now }
    requires small { sum m.now.entries ≤ MOST_DECORATIONS }
    ensures { result ≡ pos (size_in_units types.now m.now.entries) }
{
    (types.units.den.unsigned_abs() * m.scaled_size(&types.scaling)) as i64
}

/// What the derivative decoration of an edge adds to its degree.
#[tactic(auto, using(crate::proofs::DegreeBounds::size_most))]
fn derivative_degree(types: &Types, p: &Multi) -> Degree
    requires types { AreTypes types.now }
    requires small { sum p.now.entries ≤ MOST_DECORATIONS }
    ensures { result ≡ derivative_degree_of types.now p.now.entries }
{
    Degree {
        a: -in_units(types, p),
        b: 0,
    }
}

/// The degree of an edge without the tree above it: that of its type less the scaled size of its
/// derivative decoration.
#[tactic(auto, using(crate::proofs::DegreeBounds::edge_a_fits, crate::proofs::DegreeBounds::edge_b_fits))]
pub fn edge_degree(types: &Types, kind: TypeId, p: &Multi) -> Degree
    requires types { AreTypes types.now }
    requires known { kind.0 < length types.now.list }
    requires small { sum p.now.entries ≤ MOST_DECORATIONS }
    ensures { result ≡ edge_degree_of types.now kind.0 p.now.entries }
{
    type_degree_of(types, kind).plus(&derivative_degree(types, p))
}

/// The degree of a node: the scaled size of its decoration.
pub fn node_degree(types: &Types, n: &Multi) -> Degree
    requires types { AreTypes types.now }
    requires small { sum n.now.entries ≤ MOST_DECORATIONS }
    ensures { result ≡ node_degree_of types.now n.now.entries }
{
    Degree {
        a: in_units(types, n),
        b: 0,
    }
}

/// The degree of a tree (Bruned, Hairer, Zambotti): the sum of |type| - |p|_s over its edges and of
/// |n|_s over its nodes.
pub fn degree(types: &Types, t: &Tree) -> Degree
    requires types { AreTypes types.now }
    requires tree { HasTypes types.now (plain t.now) }
    requires small { IsSmall (plain t.now) }
    ensures { result ≡ degree_of types.now (plain t.now) }
{
    let mut sum = Degree { a: 0, b: 0 };
    for e in t.edges.as_slice() {
        sum = sum.plus(&edge_degree(types, e.kind, &e.p).plus(&degree(types, &e.child)));
    }
    sum.plus(&node_degree(types, &t.n))
}

/// Whether this is the type of a kernel.
pub fn is_kernel_type(types: &Types, kind: TypeId) -> bool
    ensures { result ≡ is_kernel types.now kind.0 }
{
    match types.list.get(kind.0 as usize) {
        Some(entry) => entry.kind == Kind::Kernel,
        None => false,
    }
}

/// Whether a tree is planted: its root has decoration 0 and exactly one edge, of kernel type.
#[tactic(auto, using(crate::proofs::PlantedTrees::planted_many))]
pub fn is_planted(types: &Types, t: &Tree) -> bool
    ensures { result ≡ planted types.now (plain t.now) }
{
    match t.edges.as_slice() {
        [e] => is_kernel_type(types, e.kind) && t.n.is_zero(),
        _ => false,
    }
}

/// What does not depend on the order in which edges are drawn: the degree, whether a tree is
/// planted, and whether it is a tree over these types. And the test of planted trees answers yes
/// exactly where there is one edge at the root, of kernel type, and the root's decoration is 0.
pub fn degree_laws()
    ensures degree { (ty : Types) (s t : Plain) → IsSame s t → degree_of ty s ≡ degree_of ty t }
    ensures planted { (ty : Types) (s t : Plain) → IsSame s t → planted ty s ≡ planted ty t }
    ensures types { (ty : Types) (s t : Plain) → IsSame s t → HasTypes ty s → HasTypes ty t }
    ensures test { (ty : Types) (t : Plain) → HasTypes ty t →
        ((planted ty t ≡ true) ↔ IsPlanted ty t) }
{}
