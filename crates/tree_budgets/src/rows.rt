// What the plan says of rows.
ghost use Rattle.std.specs.Prelude.{IfOk, OnOk, length, ◌<◌, ◌+◌};
ghost use Rattle.equations.specs.Accepted.{IsEquation};
ghost use Rattle.ordered_lists.specs.Members.{IsIn};
ghost use Rattle.conforming_trees.specs.Conforming.{labels};
ghost use Rattle.conforming_trees.specs.Budgets.{IsUsable, IsReserve};
ghost use Rattle.tree_budgets.specs.Bounds.{IsModest, AreBounded};
ghost use Rattle.tree_budgets.specs.Fronts.{AreExtensions};
ghost use Rattle.tree_budgets.specs.Plan.{IsNodePlan, AreNodePlans, IsRowPlan, AreRowPlans};

use crate::fronts::{extending, least_with};
use crate::plan::{Extension, PlanNode, RowPlan};
use crate::sums::{NO_DEGREE, at};
use degree_numbers::Degree;
use equations::Equation;
use normal_rule::{NodeType, Rule, RuleRow};
use sqlite_items::Items;
use std::alloc::{AllocError, Global};

// Adds the node type at place `i` of the row, if it is an extension.
fn extend(
    row: &RuleRow,
    node: &NodeType,
    i: usize,
    extensions: &mut Items<Extension>,
) -> Result<(), AllocError>
    requires place { i < length row.now.nodes }
    requires before { AreExtensions row.now.nodes node.now.edges i extensions.old }
    ensures { OnOk result (AreExtensions row.now.nodes node.now.edges (i + 1) extensions.new) }
{
    match extending(&row.nodes.as_slice()[i], node.edges.as_slice()) {
        Some(edge) => extensions.push(Extension { edge, node: i }),
        None => Ok(()),
    }
}

// The extensions of a node type in its row.
fn extensions(alloc: Global, row: &RuleRow, node: &NodeType) -> Result<Items<Extension>, AllocError>
    ensures { IfOk result (λ xs. AreExtensions row.now.nodes node.now.edges (length row.now.nodes)
        xs) }
{
    let mut extensions = Items::new(alloc);
    for i in 0..row.nodes.len() {
        extend(row, node, i, &mut extensions)?;
    }
    Ok(extensions)
}

// The least sum of low degrees that edges in front of a node type can bring in its row.
fn reserve(eq: &Equation, lows: &[Degree], row: &RuleRow, node: &NodeType) -> Degree
    requires equation { IsEquation eq.now }
    requires lows { AreBounded lows.now }
    requires node { IsIn node.now row.now.nodes }
    ensures reserve { IsUsable (labels node.now) →
        IsReserve eq.now lows.now row.now (labels node.now) result }
    ensures modest { IsModest result }
{
    let mut least = NO_DEGREE;
    for longer in row.nodes.as_slice() {
        least = least_with(&eq.types, lows, longer, node.edges.as_slice(), least);
    }
    least
}

fn plan_node(
    alloc: Global,
    eq: &Equation,
    lows: &[Degree],
    row: &RuleRow,
    node: &NodeType,
) -> Result<PlanNode, AllocError>
    requires equation { IsEquation eq.now }
    requires lows { AreBounded lows.now }
    requires node { IsIn node.now row.now.nodes }
    ensures { IfOk result (λ p. IsNodePlan eq.now lows.now row.now node.now p) }
{
    let extensions = extensions(alloc, row, node)?;
    Ok(PlanNode {
        reserve: reserve(eq, lows, row, node),
        extensions,
    })
}

fn plan_nodes(
    alloc: Global,
    eq: &Equation,
    lows: &[Degree],
    row: &RuleRow,
) -> Result<Items<PlanNode>, AllocError>
    requires equation { IsEquation eq.now }
    requires lows { AreBounded lows.now }
    ensures { IfOk result (λ ps. AreNodePlans eq.now lows.now row.now row.now.nodes ps) }
{
    let mut plans = Items::new(alloc);
    for node in row.nodes.as_slice() {
        plans.push(plan_node(alloc, eq, lows, row, node)?)?;
    }
    Ok(plans)
}

fn plan_row(
    alloc: Global,
    eq: &Equation,
    lows: &[Degree],
    mosts: &[Degree],
    row: &RuleRow,
) -> Result<RowPlan, AllocError>
    requires equation { IsEquation eq.now }
    requires lows { AreBounded lows.now }
    requires mosts { AreBounded mosts.now }
    ensures { IfOk result (λ p. IsRowPlan eq.now lows.now mosts.now row.now p) }
{
    let nodes = plan_nodes(alloc, eq, lows, row)?;
    Ok(RowPlan {
        kernel: row.kernel,
        most: at(mosts, row.kernel),
        nodes,
    })
}

/// What the plan says of each row of a rule.
pub(crate) fn plan_rows(
    alloc: Global,
    eq: &Equation,
    lows: &[Degree],
    mosts: &[Degree],
    rule: &Rule,
) -> Result<Items<RowPlan>, AllocError>
    requires equation { IsEquation eq.now }
    requires lows { AreBounded lows.now }
    requires mosts { AreBounded mosts.now }
    ensures { IfOk result (λ ps. AreRowPlans eq.now lows.now mosts.now rule.now.rows ps) }
{
    let mut plans = Items::new(alloc);
    for row in rule.rows.as_slice() {
        plans.push(plan_row(alloc, eq, lows, mosts, row)?)?;
    }
    Ok(plans)
}
