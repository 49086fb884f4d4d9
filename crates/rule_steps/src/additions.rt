// What can be added at a node.
ghost use Rattle.std.specs.Prelude.{◌≡◌, ◌≤◌, ◌<◌, ◌^◌, List, map, sum, length, IfOk, IfErr};
ghost use Rattle.equations.specs.Accepted.{IsEquation};
ghost use Rattle.ordered_lists.specs.Members.{IsIn};
ghost use Rattle.conforming_trees.specs.Conforming.{label, labels, IsRule};
ghost use Rattle.normal_rule.specs.declared.rule.RuleRefusal.TheVariants.{RuleTooLarge};
ghost use Rattle.rule_steps.specs.Sets.{IsSetOf, HasMany, IsAdditionTo, IsSmallRule, AreSmallEntries};
ghost use Rattle.rule_steps.specs.Choices.{AreChoices, IsRaisedOf, IsBumpedOf, IsWithBumped};

use crate::choices::options;
use crate::raise::put_bumped;
use crate::sets::put_few;
use degree_numbers::{Multi, TypeId};
use equations::Equation;
use normal_rule::{EdgeType, NodeType, Rule, RuleRefusal};
use std::alloc::Global;
use std::collections::BTreeSet;

/// Node types in their order, each once.
fn set_of(alloc: Global, nodes: Vec<NodeType>) -> Result<Vec<NodeType>, RuleRefusal>
    ensures set { IfOk result (λ v. IsSetOf (λ es. IsIn es (map labels nodes.items)) v.items) }
    ensures large { IfErr result (λ e. e ≡ RuleTooLarge →
        HasMany (λ es. IsIn es (map labels nodes.items))) }
{
    if nodes.len() < 2 {
        return Ok(nodes);
    }
    let mut found = BTreeSet::new(alloc);
    put_few(nodes, &mut found)?;
    Ok(found.into_iter().collect(alloc)?)
}

/// Node types with one edge type raised by one in a direction.
fn bumped_of(
    alloc: Global,
    nodes: &[NodeType],
    direction: usize,
) -> Result<BTreeSet<NodeType>, RuleRefusal>
    requires known { direction < 5 }
    requires small { AreSmallEntries (2 ^ 31) nodes.now }
    ensures set { IfOk result (λ s. IsSetOf (IsBumpedOf direction nodes.now) s.keys) }
    ensures large { IfErr result (λ e. e ≡ RuleTooLarge →
        HasMany (IsBumpedOf direction nodes.now)) }
{
    let mut found = BTreeSet::new(alloc);
    for node in nodes {
        let mut bumped = Vec::new(alloc);
        put_bumped(alloc, node, direction, &mut bumped)?;
        put_few(bumped, &mut found)?;
    }
    Ok(found)
}

/// Node types together with those of which one edge type is raised by one in a direction.
fn with_bumped(
    alloc: Global,
    nodes: Vec<NodeType>,
    direction: usize,
) -> Result<Vec<NodeType>, RuleRefusal>
    requires known { direction < 5 }
    requires small { AreSmallEntries (2 ^ 31) nodes.items }
    ensures set { IfOk result (λ v. IsSetOf (IsWithBumped direction nodes.items) v.items) }
    ensures large { IfErr result (λ e. e ≡ RuleTooLarge →
        HasMany (IsWithBumped direction nodes.items)) }
{
    let mut found = bumped_of(alloc, nodes.as_slice(), direction)?;
    put_few(nodes, &mut found)?;
    Ok(found.into_iter().collect(alloc)?)
}

/// Node types raised in all ways by at most a multiindex. What is there after some units is there
/// at the end, so what is too large before is so at the end.
fn raised_by(alloc: Global, nodes: Vec<NodeType>, n: Multi) -> Result<Vec<NodeType>, RuleRefusal>
    requires choices { AreChoices nodes.items }
    requires directions { length n.entries ≡ 5 }
    requires decoration { sum n.entries ≤ 4096 }
    ensures set { IfOk result (λ v. IsSetOf (IsRaisedOf n.entries nodes.items) v.items) }
    ensures large { IfErr result (λ e. e ≡ RuleTooLarge →
        HasMany (IsRaisedOf n.entries nodes.items)) }
{
    let mut found = nodes;
    for direction in 0..5 {
        for _unit in 0..n.entries[direction] {
            found = with_bumped(alloc, found, direction)?;
        }
    }
    Ok(found)
}

/// All that can be added at a node with this decoration and these edge types, in their order, above
/// an edge of this type. Fails with `RuleTooLarge` only where that are more than 2,000 lists
/// (`MOST_NODE_TYPES`), and for want of memory.
pub(crate) fn additions_at(
    alloc: Global,
    eq: &Equation,
    rule: &Rule,
    kind: TypeId,
    n: Multi,
    edges: &[EdgeType],
) -> Result<Vec<NodeType>, RuleRefusal>
    requires equation { IsEquation eq.now }
    requires rule { IsRule eq.now rule.now }
    requires directions { length n.entries ≡ 5 }
    requires decoration { sum n.entries ≤ 4096 }
    requires small { IsSmallRule (2 ^ 30) rule.now }
    ensures set { IfOk result (λ v. IsSetOf (IsAdditionTo eq.now.types rule.now kind.0 n.entries
        (map label edges.now)) v.items) }
    ensures large { IfErr result (λ e. e ≡ RuleTooLarge →
        HasMany (IsAdditionTo eq.now.types rule.now kind.0 n.entries (map label edges.now))) }
{
    let choices = set_of(alloc, options(alloc, &eq.types, rule, kind, edges)?)?;
    raised_by(alloc, choices, n)
}
