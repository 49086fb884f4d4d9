// Sets of node types.
ghost use Rattle.std.specs.Prelude.{◌≡◌, ◌<◌, ◌≤◌, [], ◌∷◌, length, IfOk, IfErr, OnOk};
ghost use Rattle.ordered_lists.specs.Members.{insert_all};
ghost use Rattle.normal_rule.specs.Order.{node_order, empty_node};
ghost use Rattle.normal_rule.specs.declared.rule.RuleRefusal.TheVariants.{RuleTooLarge};

use normal_rule::{NodeType, RuleRefusal};
use std::alloc::{AllocError, Global};
use std::collections::BTreeSet;

/// The greatest number of node types that a rule has.
pub(crate) const MOST_NODE_TYPES: usize = 2000;

/// The empty node type alone. Fails only for want of memory.
pub(crate) fn empty_alone(alloc: Global) -> Result<Vec<NodeType>, AllocError>
    ensures { IfOk result (λ v. v.items ≡ empty_node ∷ []) }
{
    let mut nodes = Vec::new(alloc);
    nodes.push(NodeType::empty(alloc))?;
    Ok(nodes)
}

/// Puts node types into a set. Fails only for want of memory.
fn put_all(nodes: Vec<NodeType>, into: &mut BTreeSet<NodeType>) -> Result<(), AllocError>
    ensures { OnOk result (into.new.keys ≡ insert_all node_order into.old.keys nodes.items) }
{
    for node in nodes {
        into.insert(node)?;
    }
    Ok(())
}

/// Puts node types into a set that may have at most 2,000 (`MOST_NODE_TYPES`). Fails with
/// `RuleTooLarge` only where it would have more, and for want of memory.
pub(crate) fn put_few(
    nodes: Vec<NodeType>,
    into: &mut BTreeSet<NodeType>,
) -> Result<(), RuleRefusal>
    ensures new { OnOk result (into.new.keys ≡ insert_all node_order into.old.keys nodes.items) }
    ensures few { OnOk result (length into.new.keys ≤ 2000) }
    ensures large { IfErr result (λ e. e ≡ RuleTooLarge →
        2000 < length (insert_all node_order into.old.keys nodes.items)) }
{
    put_all(nodes, into)?;
    if into.len() > MOST_NODE_TYPES {
        return Err(RuleRefusal::RuleTooLarge);
    }
    Ok(())
}
