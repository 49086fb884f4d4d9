// What can be added to the edge types at a node.
ghost use Rattle.std.specs.Prelude.{◌≡◌, ◌++◌, map, IfOk, OnOk};
ghost use Rattle.std.specs.Option.{option_map, is_some};
ghost use Rattle.conforming_trees.specs.Conforming.{label, labels};
ghost use Rattle.rule_steps.specs.Choices.{after};
ghost use Rattle.rule_steps.specs.Sums.{without, nodes_of_kernel, listed_option, options_in, options};

use crate::sets::empty_alone;
use degree_numbers::{Kind, TypeId, Types};
use normal_rule::{EdgeType, NodeType, Rule};
use sqlite_items::Items;
use std::alloc::{AllocError, Global};

/// The node types of the row of a kernel.
fn row_of<'a>(rule: &'a Rule, kernel: TypeId) -> &'a [NodeType]
    ensures { result.now ≡ nodes_of_kernel rule.now.rows kernel.0 }
{
    let rows = rule.rows.as_slice();
    for row in rows {
        if row.kernel.0 == kernel.0 {
            return row.nodes.as_slice();
        }
    }
    &[]
}

/// What stands behind the first edge type of a list, where that is this one.
fn after<'a>(e: &EdgeType, edges: &'a [EdgeType]) -> Option<&'a [EdgeType]>
    ensures { option_map (λ rest. map label rest.now) result ≡ after (label e.now)
        (map label edges.now) }
{
    match edges {
        [first, rest @ ..] => {
            if e.cmp(first).is_eq() {
                Some(rest)
            } else {
                None
            }
        }
        [] => None,
    }
}

/// Whether others all stand in a list of edge types, each as often as there.
fn has_all(edges: &[EdgeType], others: &[EdgeType]) -> bool
    ensures { result ≡ is_some (without (map label edges.now) (map label others.now)) }
{
    if edges.len() < others.len() {
        return false;
    }
    let mut rest = others;
    for e in edges {
        if let Some(tail) = after(e, rest) {
            rest = tail;
        }
    }
    rest.is_empty()
}

/// What is left of a list of edge types without others, where these all stand there. Fails only for
/// want of memory.
fn left_over(
    alloc: Global,
    edges: &[EdgeType],
    others: &[EdgeType],
) -> Result<Option<NodeType>, AllocError>
    ensures { IfOk result (λ left. option_map labels left ≡ without (map label edges.now)
        (map label others.now)) }
{
    if !has_all(edges, others) {
        return Ok(None);
    }
    let mut left = Vec::new(alloc);
    let mut rest = others;
    for e in edges {
        match after(e, rest) {
            Some(tail) => rest = tail,
            None => left.push(*e)?,
        }
    }
    Ok(Some(NodeType {
        edges: Items::from_vec(left),
    }))
}

/// Puts what is left of a node type without edge types behind others, where these edge types all
/// stand there. Fails only for want of memory.
fn put_left_over(
    alloc: Global,
    node: &NodeType,
    edges: &[EdgeType],
    into: &mut Vec<NodeType>,
) -> Result<(), AllocError>
    ensures { OnOk result (map labels into.new.items ≡ map labels into.old.items
        ++ listed_option (without (labels node.now) (map label edges.now))) }
{
    if let Some(left) = left_over(alloc, node.edges.as_slice(), edges)? {
        into.push(left)?;
    }
    Ok(())
}

/// What can be added to edge types so that they are one of some node types. Fails only for want of
/// memory.
pub(crate) fn options_in(
    alloc: Global,
    nodes: &[NodeType],
    edges: &[EdgeType],
) -> Result<Vec<NodeType>, AllocError>
    ensures { IfOk result (λ v. map labels v.items ≡ options_in nodes.now (map label edges.now)) }
{
    let mut found = Vec::new(alloc);
    for node in nodes {
        put_left_over(alloc, node, edges, &mut found)?;
    }
    Ok(found)
}

/// What can be added to edge types so that the rule of a type allows them together: above a noise
/// nothing. Fails only for want of memory.
pub(crate) fn options(
    alloc: Global,
    types: &Types,
    rule: &Rule,
    kind: TypeId,
    edges: &[EdgeType],
) -> Result<Vec<NodeType>, AllocError>
    ensures { IfOk result (λ v. map labels v.items ≡ options types.now rule.now kind.0
        (map label edges.now)) }
{
    match types.list.get(kind.0 as usize) {
        None => Ok(Vec::new(alloc)),
        Some(entry) => match entry.kind {
            Kind::Noise => empty_alone(alloc),
            Kind::Kernel => options_in(alloc, row_of(rule, kind), edges),
        },
    }
}
