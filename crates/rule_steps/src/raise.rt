// Edge types raised unit by unit, with sets of node types.
ghost use Rattle.std.specs.Prelude.{◌≡◌, ◌≤◌, ◌<◌, ◌+◌, ◌^◌, ◌++◌, ℕ, [], length, map, IfOk, OnOk};
ghost use Rattle.std.specs.List.{All};
ghost use Rattle.conforming_trees.specs.Conforming.{label, labels};
ghost use Rattle.rule_stages.specs.Stages.{join};
ghost use Rattle.rule_steps.specs.Sets.{AreSmallEdges};
ghost use Rattle.rule_steps.specs.Units.{bump_label, bumped_at, all_bumped};

use crate::edges::joined;
use normal_rule::{EdgeType, NodeType};
use std::alloc::{AllocError, Global};

/// The edge type with one more derivative in a direction.
fn raised_once(mut edge: EdgeType, direction: usize) -> EdgeType
    requires known { direction < 5 }
    requires small { All (λ m. m ≤ 2 ^ 31) edge.p.entries }
    ensures { label result ≡ bump_label direction (label edge) }
{
    edge.p.entries[direction] += 1;
    edge
}

/// The node type with the edge type at place i raised by one in a direction, in order.
fn bumped(
    alloc: Global,
    node: &NodeType,
    i: usize,
    direction: usize,
) -> Result<NodeType, AllocError>
    requires place { i < length node.now.edges }
    requires known { direction < 5 }
    requires small { AreSmallEdges (2 ^ 31) node.now }
    ensures { IfOk result (λ n. labels n ≡ join (bumped_at direction i (labels node.now)) []) }
{
    let mut edges = Vec::from_slice(alloc, node.edges.as_slice())?;
    edges[i] = raised_once(edges[i], direction);
    joined(alloc, edges.as_slice(), &[])
}

/// Puts the node types behind others of which one edge type is raised by one in a direction.
pub(crate) fn put_bumped(
    alloc: Global,
    node: &NodeType,
    direction: usize,
    into: &mut Vec<NodeType>,
) -> Result<(), AllocError>
    requires known { direction < 5 }
    requires small { AreSmallEdges (2 ^ 31) node.now }
    ensures { OnOk result (map labels into.new.items ≡ map labels into.old.items
        ++ all_bumped direction (labels node.now)) }
{
    for i in 0..node.edges.len() {
        into.push(bumped(alloc, node, i, direction)?)?;
    }
    Ok(())
}
