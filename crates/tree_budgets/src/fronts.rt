// Edges in front of a node type.
ghost use Rattle.std.specs.Prelude.{◌≡◌, ◌≢◌, ◌++◌, ◌⊎◌, List, map, MatchOption};
ghost use Rattle.degree_numbers.specs.declared.Degree.{Degree};
ghost use Rattle.degree_numbers.specs.Types.{AreTypes};
ghost use Rattle.normal_rule.specs.declared.EdgeType.{EdgeType};
ghost use Rattle.conforming_trees.specs.Conforming.{label};
ghost use Rattle.conforming_trees.specs.Budgets.{IsNotAbove};
ghost use Rattle.tree_budgets.specs.Bounds.{AreBounded};
ghost use Rattle.tree_budgets.specs.Fronts.{IsFrontLow, IsFrontLeast, IsExtension};

use crate::sums::{is_usable, lows_of};
use degree_numbers::{Degree, Types};
use normal_rule::{EdgeType, NodeType};
use std::cmp::Ordering;

// The edge types in front of `end`, where the edge types end in it.
fn front<'a>(edges: &'a [EdgeType], end: &[EdgeType]) -> Option<&'a [EdgeType]>
    ensures { MatchOption result ((front : List EdgeType) →
        edges.now ≢ front ++ end.now) (λ front. edges.now ≡ front.now ++ end.now) }
{
    edges.strip_suffix(end)
}

// The lesser of two degrees.
fn lesser(d: Degree, e: Degree) -> Degree
    ensures d { IsNotAbove result d }
    ensures e { IsNotAbove result e }
    ensures is { (result ≡ d) ⊎ (result ≡ e) }
{
    if e.order(&d) == Ordering::Less { e } else { d }
}

/// The least of a degree and the sum of the low degrees of the edges that a usable node type has in
/// front of `end`, if it ends so.
pub(crate) fn least_with(
    types: &Types,
    lows: &[Degree],
    node: &NodeType,
    end: &[EdgeType],
    least: Degree,
) -> Degree
    requires types { AreTypes types.now }
    requires lows { AreBounded lows.now }
    ensures lower { IsNotAbove result least }
    ensures node { IsFrontLeast types.now lows.now (map label end.now) result node.now }
    ensures is { (result ≡ least)
        ⊎ IsFrontLow types.now lows.now node.now (map label end.now) result }
{
    let edges = node.edges.as_slice();
    if !is_usable(edges) {
        return least;
    }
    match front(edges, end) {
        Some(front) => lesser(least, lows_of(types, lows, front)),
        None => least,
    }
}

/// The edge type in front of `end`, where the two are this node type, and it is usable.
pub(crate) fn extending(node: &NodeType, end: &[EdgeType]) -> Option<EdgeType>
    ensures { MatchOption result ((e : EdgeType) → IsExtension node.now end.now e →
        ⊥) (λ e. IsExtension node.now end.now e) }
{
    let edges = node.edges.as_slice();
    match front(edges, end) {
        None => None,
        Some([edge]) if is_usable(edges) => Some(*edge),
        Some(_) => None,
    }
}
