// Sums over the edge types of a node type.
ghost use Rattle.std.specs.Prelude.{◌≡◌, ◌≤◌, ◌*◌, ◌↔◌, IsTrue, map, length, sum};
ghost use Rattle.degree_numbers.specs.Types.{AreTypes, type_degree};
ghost use Rattle.plain_trees.specs.Degree.{derivative_degree_of};
ghost use Rattle.conforming_trees.specs.Conforming.{label};
ghost use Rattle.conforming_trees.specs.Budgets.{IsUsable, derivative_sum, low_at, edge_low, lows_of};
ghost use Rattle.degree_numbers.specs.Degree.{degree_plus};
ghost use Rattle.tree_budgets.specs.Bounds.{IsModest, AreBounded};

use degree_numbers::{Degree, Multi, TypeId, Types};
use normal_rule::EdgeType;
use plain_trees::node_degree;

const MOST_EDGES: usize = 24;

const MOST_DERIVATIVES: u64 = 64;

pub(crate) const NO_DEGREE: Degree = Degree { a: 0, b: 0 };

fn entry_sum(p: &Multi) -> u64
    ensures sum { result ≡ sum p.now.entries }
    ensures small { result ≤ 21474836475 }
{
    let p = &p.entries;
    p[0] as u64 + p[1] as u64 + p[2] as u64 + p[3] as u64 + p[4] as u64
}

fn derivative_sum(edges: &[EdgeType]) -> u64
    requires { length edges.now ≤ 24 }
    ensures sum { result ≡ derivative_sum (map label edges.now) }
    ensures small { result ≤ 21474836475 * length edges.now }
{
    match edges {
        [] => 0,
        [edge, rest @ ..] => entry_sum(&edge.p) + derivative_sum(rest),
    }
}

/// Whether these edge types can leave a node of a tree that is not too large.
pub(crate) fn is_usable(edges: &[EdgeType]) -> bool
    ensures { IsTrue result ↔ IsUsable (map label edges.now) }
{
    edges.len() <= MOST_EDGES && derivative_sum(edges) <= MOST_DERIVATIVES
}

/// The degree of a type.
pub(crate) fn type_degree(types: &Types, kind: TypeId) -> Degree
    ensures { result ≡ type_degree types.now kind.0 }
{
    match types.list.get(kind.0 as usize) {
        Some(entry) => entry.degree,
        None => NO_DEGREE,
    }
}

/// The degree at the number of a type.
pub(crate) fn at(degrees: &[Degree], kind: TypeId) -> Degree
    ensures { result ≡ low_at degrees.now kind.0 }
{
    match degrees.get(kind.0 as usize) {
        Some(degree) => *degree,
        None => NO_DEGREE,
    }
}

// What a derivative takes.
fn loss(types: &Types, p: &Multi) -> Degree
    requires types { AreTypes types.now }
    requires small { sum p.now.entries ≤ 64 }
    ensures { result ≡ derivative_degree_of types.now p.now.entries }
{
    Degree {
        a: -node_degree(types, p).a,
        b: 0,
    }
}

/// The sum of two degrees that are small enough.
#[tactic(auto, using(crate::proofs::SumBounds::modest_a_fits, crate::proofs::SumBounds::modest_b_fits))]
pub(crate) fn plus(d: &Degree, e: &Degree) -> Degree
    requires d { IsModest d.now }
    requires e { IsModest e.now }
    ensures { result ≡ degree_plus d.now e.now }
{
    d.plus(e)
}

#[tactic(auto, using(crate::proofs::SumBounds::low_modest, crate::proofs::SumBounds::loss_modest))]
fn edge_low(types: &Types, lows: &[Degree], edge: &EdgeType) -> Degree
    requires types { AreTypes types.now }
    requires lows { AreBounded lows.now }
    requires small { sum edge.now.p.entries ≤ 64 }
    ensures { result ≡ edge_low types.now lows.now (label edge.now) }
{
    plus(&at(lows, edge.kind), &loss(types, &edge.p))
}

/// The sum of the low degrees of these edge types.
#[tactic(auto, using(crate::proofs::SumBounds::usable_first, crate::proofs::SumBounds::usable_rest))]
pub(crate) fn lows_of(types: &Types, lows: &[Degree], edges: &[EdgeType]) -> Degree
    requires types { AreTypes types.now }
    requires lows { AreBounded lows.now }
    requires usable { IsUsable (map label edges.now) }
    ensures { result ≡ lows_of types.now lows.now (map label edges.now) }
{
    match edges {
        [] => NO_DEGREE,
        [edge, rest @ ..] => plus(&edge_low(types, lows, edge), &lows_of(types, lows, rest)),
    }
}
