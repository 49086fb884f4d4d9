// The step to the next stage, row by row.
ghost use Rattle.std.specs.Prelude.{◌≡◌, ◌<◌, ◌≤◌, ◌^◌, List, map, length, IfOk, IfErr, Some};
ghost use Rattle.std.specs.List.{All};
ghost use Rattle.degree_numbers.specs.declared.types.Kind.TheVariants.{Kernel};
ghost use Rattle.degree_numbers.specs.Types.{kind_of};
ghost use Rattle.equations.specs.Accepted.{IsEquation};
ghost use Rattle.ordered_lists.specs.Members.{IsIn};
ghost use Rattle.tree_pool.specs.Content.{tree_at};
ghost use Rattle.normal_rule.specs.Rule.{nodes_in, node_count};
ghost use Rattle.normal_rule.specs.declared.rule.RuleRefusal.TheVariants.{RuleTooLarge};
ghost use Rattle.normal_rule.specs.declared.rule.RuleRow.{RuleRow};
ghost use Rattle.conforming_trees.specs.Conforming.{ConformsAbove, IsRule};
ghost use Rattle.conforming_trees.specs.Listed.{IsWholeList};
ghost use Rattle.rule_stages.specs.Stages.{IsInNext, IsNextStage, HasTooLargeNext};
ghost use Rattle.rule_steps.specs.Sets.{IsSetOf, HasMany, IsSmallRule};
ghost use Rattle.rule_steps.specs.Steps.{trees_of, IsMadeOf, HasNextRows};

use crate::roots::additions_at_root;
use crate::sets::{MOST_NODE_TYPES, put_few};
use crate::sums::{additions_above, sums_with};
use degree_numbers::TypeId;
use equations::Equation;
use normal_rule::{NodeType, Rule, RuleRefusal, RuleRow};
use sqlite_items::Items;
use std::alloc::{AllocError, Global};
use std::collections::BTreeSet;
use tree_pool::{Pool, TreeId};

/// All that a tree makes for a kernel: the additions at all its nodes together. Fails with
/// `RuleTooLarge` only where that are more than 2,000 node types (`MOST_NODE_TYPES`), and for want
/// of memory.
fn made_of(
    alloc: Global,
    eq: &Equation,
    rule: &Rule,
    pool: &Pool<'_>,
    id: TreeId,
    kernel: TypeId,
) -> Result<Vec<NodeType>, RuleRefusal>
    requires equation { IsEquation eq.now }
    requires rule { IsRule eq.now rule.now }
    requires small { IsSmallRule (2 ^ 30) rule.now }
    requires types { pool.now.types ≡ eq.now.types }
    requires known { id.0 < length pool.now.trees }
    requires conforms { ConformsAbove eq.now.types rule.now (tree_at pool.now id.0) }
    requires kernel { kind_of eq.now.types kernel.0 ≡ Some Kernel }
    ensures set { IfOk result (λ v. IsSetOf (IsMadeOf eq.now.types rule.now kernel.0
        (tree_at pool.now id.0)) v.items) }
    ensures large { IfErr result (λ e. e ≡ RuleTooLarge →
        HasMany (IsMadeOf eq.now.types rule.now kernel.0 (tree_at pool.now id.0))) }
{
    let at = additions_at_root(alloc, eq, rule, pool, kernel, id)?;
    if at.is_empty() {
        return Ok(at);
    }
    let above = additions_above(alloc, eq, rule, pool, id)?;
    sums_with(alloc, at.as_slice(), above)
}

/// Copies of node types. Fails only for want of memory.
fn copies(alloc: Global, nodes: &[NodeType]) -> Result<Vec<NodeType>, AllocError>
    ensures { IfOk result (λ v. v.items ≡ nodes.now) }
{
    let mut copies = Vec::new(alloc);
    for node in nodes {
        copies.push(NodeType {
            edges: Items::from_slice(alloc, node.edges.as_slice())?,
        })?;
    }
    Ok(copies)
}

/// The node types of a row in the next stage: those of the row, and what the listed trees make for
/// its kernel. Fails with `RuleTooLarge` only where they are more than 2,000, and for want of
/// memory.
fn next_nodes(
    alloc: Global,
    eq: &Equation,
    rule: &Rule,
    pool: &Pool<'_>,
    trees: &[TreeId],
    row: &RuleRow,
) -> Result<Vec<NodeType>, RuleRefusal>
    requires equation { IsEquation eq.now }
    requires rule { IsRule eq.now rule.now }
    requires small { IsSmallRule (2 ^ 30) rule.now }
    requires types { pool.now.types ≡ eq.now.types }
    requires known { All (λ id. id.0 < length pool.now.trees) trees.now }
    requires listed { IsWholeList eq.now rule.now (trees_of pool.now trees.now) }
    requires row { IsIn row.now rule.now.rows }
    ensures set { IfOk result (λ v. IsSetOf (IsInNext eq.now rule.now row.now.kernel.0) v.items) }
    ensures few { IfOk result (λ v. length v.items ≤ 2000) }
    ensures large { IfErr result (λ e. e ≡ RuleTooLarge →
        HasMany (IsInNext eq.now rule.now row.now.kernel.0)) }
{
    let mut nodes = BTreeSet::new(alloc);
    put_few(copies(alloc, row.nodes.as_slice())?, &mut nodes)?;
    for id in trees {
        put_few(made_of(alloc, eq, rule, pool, *id, row.kernel)?, &mut nodes)?;
    }
    Ok(nodes.into_iter().collect(alloc)?)
}

/// The rows of the next stage. Fails with `RuleTooLarge` only where they together have more than
/// 2,000 node types (`MOST_NODE_TYPES`), and for want of memory.
fn next_rows(
    alloc: Global,
    eq: &Equation,
    rule: &Rule,
    pool: &Pool<'_>,
    trees: &[TreeId],
) -> Result<Items<RuleRow>, RuleRefusal>
    requires equation { IsEquation eq.now }
    requires rule { IsRule eq.now rule.now }
    requires small { IsSmallRule (2 ^ 30) rule.now }
    requires types { pool.now.types ≡ eq.now.types }
    requires known { All (λ id. id.0 < length pool.now.trees) trees.now }
    requires listed { IsWholeList eq.now rule.now (trees_of pool.now trees.now) }
    ensures rows { IfOk result (λ rows. HasNextRows eq.now rule.now rule.now.rows rows) }
    ensures few { IfOk result (λ rows. nodes_in rows ≤ 2000) }
    ensures large { IfErr result (λ e. e ≡ RuleTooLarge → HasTooLargeNext eq.now rule.now) }
{
    let mut rows = Items::new(alloc);
    let mut count = 0;
    for row in rule.rows.as_slice() {
        let nodes = next_nodes(alloc, eq, rule, pool, trees, row)?;
        count += nodes.len();
        if count > MOST_NODE_TYPES {
            return Err(RuleRefusal::RuleTooLarge);
        }
        rows.push(RuleRow {
            kernel: row.kernel,
            nodes: Items::from_vec(nodes),
        })?;
    }
    Ok(rows)
}

/// The stage of a completion that comes after a rule with these listed trees (after Bruned, Hairer
/// and Zambotti): the rule, and what its listed trees make. Fails with `RuleTooLarge` exactly where
/// that has more than 2,000 node types (`MOST_NODE_TYPES`), and for want of memory.
pub fn next_stage(
    alloc: Global,
    eq: &Equation,
    rule: &Rule,
    pool: &Pool<'_>,
    trees: &[TreeId],
) -> Result<Rule, RuleRefusal>
    requires equation { IsEquation eq.now }
    requires rule { IsRule eq.now rule.now }
    requires small { IsSmallRule (2 ^ 30) rule.now }
    requires types { pool.now.types ≡ eq.now.types }
    requires known { All (λ id. id.0 < length pool.now.trees) trees.now }
    requires listed { IsWholeList eq.now rule.now (trees_of pool.now trees.now) }
    ensures next { IfOk result (λ next. IsNextStage eq.now rule.now next) }
    ensures few { IfOk result (λ next. node_count next ≤ 2000) }
    ensures large { IfErr result (λ e. e ≡ RuleTooLarge → HasTooLargeNext eq.now rule.now) }
{
    let rows = next_rows(alloc, eq, rule, pool, trees)?;
    Ok(Rule { rows })
}
