// The rows of the normal rule.
ghost use Rattle.std.specs.Prelude.{◌≡◌, [], ◌∷◌, ◌<◌, ◌≤◌, map, length, IfOk, IfErr, OnOk};
ghost use Rattle.ordered_lists.specs.Members.{insert_all};
ghost use Rattle.normal_rule.specs.declared.rule.RuleRefusal.TheVariants.{RuleTooLarge};
ghost use Rattle.normal_rule.specs.Order.{node_order, empty_node};
ghost use Rattle.normal_rule.specs.Made.{with_factor, subs_of, nodes_of, row_of, rule_of};
ghost use Rattle.normal_rule.specs.OverTypes.{IsRule};
ghost use Rattle.normal_rule.specs.Regularity.{HasRows, AreMeasured};
ghost use Rattle.normal_rule.specs.Text.{AreKnown};
ghost use Rattle.normal_rule.specs.Rule.{IsNormalRule, IsNormal, nodes_in, node_count};
ghost use Rattle.normal_rule.specs.declared.rule.Rule.{Rule};
ghost use Rattle.equations.specs.Accepted.{IsEquation};

use crate::rule::{NodeType, Rule, RuleRefusal, RuleRow};
use degree_numbers::{Multi, TypeId};
use equations::{Equation, RightTerm, Unknown};
use limits::MOST_NODE_TYPES;
use sqlite_items::Items;
use std::alloc::{AllocError, Global};
use std::collections::BTreeSet;

fn empty_alone(alloc: Global) -> Result<BTreeSet<NodeType>, AllocError>
    ensures { IfOk result (λ s. s.keys ≡ empty_node ∷ []) }
{
    let mut nodes = BTreeSet::new(alloc);
    nodes.insert(NodeType::empty(alloc))?;
    Ok(nodes)
}

fn with_each(
    alloc: Global,
    nodes: &BTreeSet<NodeType>,
    factor: (TypeId, Multi),
) -> Result<Vec<NodeType>, AllocError>
    ensures { IfOk result (λ v. v.items ≡ map (with_factor factor) nodes.now.keys) }
{
    let mut longer = Vec::new(alloc);
    for node in nodes {
        longer.push(node.with(alloc, factor)?)?;
    }
    Ok(longer)
}

fn put_all(nodes: Vec<NodeType>, into: &mut BTreeSet<NodeType>) -> Result<(), AllocError>
    ensures { OnOk result (into.new.keys ≡ insert_all node_order into.old.keys nodes.items) }
{
    for node in nodes {
        into.insert(node)?;
    }
    Ok(())
}

// The sub-multisets of a term's factors. Those of the first factors are sub-multisets of all, so
// what is too large before a factor is so at the end.
fn sub_multisets(alloc: Global, factors: &[(TypeId, Multi)]) -> Result<Vec<NodeType>, RuleRefusal>
    ensures nodes { IfOk result (λ v. v.items ≡ subs_of factors.now) }
    ensures large { IfErr result (λ e. e ≡ RuleTooLarge →
        MOST_NODE_TYPES < length (subs_of factors.now)) }
{
    let mut nodes = empty_alone(alloc)?;
    for factor in factors {
        if nodes.len() > MOST_NODE_TYPES {
            return Err(RuleRefusal::RuleTooLarge);
        }
        put_all(with_each(alloc, &nodes, *factor)?, &mut nodes)?;
    }
    Ok(nodes.into_iter().collect(alloc)?)
}

// The node types that a right side allows.
fn nodes_of(alloc: Global, right: &[RightTerm]) -> Result<Items<NodeType>, RuleRefusal>
    ensures nodes { IfOk result (λ items. items ≡ nodes_of right.now) }
    ensures large { IfErr result (λ e. e ≡ RuleTooLarge →
        MOST_NODE_TYPES < length (nodes_of right.now)) }
{
    let mut nodes = empty_alone(alloc)?;
    for term in right {
        if nodes.len() > MOST_NODE_TYPES {
            return Err(RuleRefusal::RuleTooLarge);
        }
        put_all(sub_multisets(alloc, term.factors.as_slice())?, &mut nodes)?;
    }
    Ok(Items::from_vec(nodes.into_iter().collect(alloc)?))
}

// The rows of the rule, as long as they have few node types together.
fn rows_of(alloc: Global, unknowns: &[Unknown]) -> Result<Items<RuleRow>, RuleRefusal>
    ensures rows { IfOk result (λ rows. rows ≡ map row_of unknowns.now) }
    ensures small { IfOk result (λ rows. nodes_in rows ≤ MOST_NODE_TYPES) }
    ensures large { IfErr result (λ e. e ≡ RuleTooLarge →
        MOST_NODE_TYPES < nodes_in (map row_of unknowns.now)) }
{
    let mut rows = Items::new(alloc);
    let mut count = 0;
    for unknown in unknowns {
        let nodes = nodes_of(alloc, unknown.right.as_slice())?;
        count += nodes.len();
        if count > MOST_NODE_TYPES {
            return Err(RuleRefusal::RuleTooLarge);
        }
        rows.push(RuleRow {
            kernel: unknown.kernel,
            nodes,
        })?;
    }
    Ok(rows)
}

fn made(alloc: Global, eq: &Equation) -> Result<Rule, RuleRefusal>
    ensures rule { IfOk result (λ rule. rule ≡ rule_of eq.now) }
    ensures small { IfOk result (λ rule. node_count rule ≤ MOST_NODE_TYPES) }
    ensures large { IfErr result (λ e. e ≡ RuleTooLarge →
        MOST_NODE_TYPES < node_count (rule_of eq.now)) }
{
    let rows = rows_of(alloc, eq.unknowns.as_slice())?;
    Ok(Rule { rows })
}

/// The normal rule of an equation: for each kernel the empty node type and the sub-multisets of the
/// factors of each term of its right side (after Bruned, Hairer and Zambotti). It is what
/// `list_trees` and `complete` ask of a rule. Fails with `RuleTooLarge` exactly where the rows
/// together have more than 2,000 node types (`MOST_NODE_TYPES`), and for want of memory.
pub fn normal_rule(alloc: Global, eq: &Equation) -> Result<Rule, RuleRefusal>
    requires { IsEquation eq.now }
    ensures rule { IfOk result (λ rule. IsNormalRule eq.now rule) }
    ensures normal { IfOk result (λ rule. IsNormal rule) }
    ensures rows { IfOk result (λ rule. HasRows eq.now rule) }
    ensures measured { IfOk result (λ rule. AreMeasured rule.rows) }
    ensures known { IfOk result (λ rule. AreKnown eq.now.types rule.rows) }
    ensures over_types { IfOk result (λ rule. IsRule eq.now rule) }
    ensures small { IfOk result (λ rule. node_count rule ≤ MOST_NODE_TYPES) }
    ensures large { IfErr result (λ e. e ≡ RuleTooLarge →
        (rule : Rule) × IsNormalRule eq.now rule × (MOST_NODE_TYPES < node_count rule)) }
{
    made(alloc, eq)
}
