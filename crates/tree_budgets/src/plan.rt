// The plan of a rule.
ghost use Rattle.std.specs.Prelude.{IfOk};
ghost use Rattle.equations.specs.Accepted.{IsEquation};
ghost use Rattle.normal_rule.specs.Regularity.{IsSubcritical};
ghost use Rattle.conforming_trees.specs.Conforming.{IsRule};
ghost use Rattle.tree_budgets.specs.Plan.{IsPlan};

use crate::bounds::{Bounds, make_bounds};
use crate::rows::plan_rows;
use degree_numbers::{Degree, TypeId};
use equations::Equation;
use normal_rule::{EdgeType, Rule};
use sqlite_items::Items;
use std::alloc::{AllocError, Global};

/// One more edge type in front of a node type, and the place in the row of the node type that they
/// are together.
#[derive(Clone, Copy, Debug, PartialEq, Eq)]
pub struct Extension {
    pub edge: EdgeType,
    pub node: usize,
}

/// What the plan says of a node type of a row: the least sum of low degrees that edges in front can
/// bring, and its extensions to usable node types of the row, by ascending places. A node type is
/// usable where it has at most 24 edges (`MOST_EDGES`) and its derivatives have a sum of entries of
/// at most 64 (`MOST_LISTED_DECORATIONS`); one that isn't has no extension.
#[derive(Debug, Drop)]
pub struct PlanNode {
    pub reserve: Degree,
    pub extensions: Items<Extension>,
}

/// What the plan says of the row of a kernel: an upper bound of the degree of what stands above its
/// edges, or at a root with this row, in a tree of a degree of at most 0; and of each node type of
/// the row, in its order.
#[derive(Debug, Drop)]
pub struct RowPlan {
    pub kernel: TypeId,
    pub most: Degree,
    pub nodes: Items<PlanNode>,
}

/// The plan of a rule: for each type, by number, a lower bound of the degree of an edge of this
/// type with what stands above it, and for each kernel, by its type number, an upper bound of the
/// degree of what stands above it in a tree of a degree of at most 0; and what it says of each row,
/// in the order of the rule. Degrees are in units of one over the common denominator.
#[derive(Debug, Drop)]
pub struct RulePlan {
    pub lows: Items<Degree>,
    pub mosts: Items<Degree>,
    pub rows: Items<RowPlan>,
}

/// The plan of a rule for which the inequality of regularities (Bruned, Hairer and Zambotti,
/// section 5) holds. The low degree of a kernel is that of the least tree above an edge of it, and
/// its most is what a tree of degree 0 leaves for it where all else is the least; where these are
/// not found in as many rounds as there are kernels, the regularities give both. `Err` only where
/// memory is wanted.
pub fn rule_plan(alloc: Global, eq: &Equation, rule: &Rule) -> Result<RulePlan, AllocError>
    requires equation { IsEquation eq.now }
    requires rule { IsRule eq.now rule.now }
    requires holds { IsSubcritical eq.now rule.now }
    ensures { IfOk result (λ plan. IsPlan eq.now rule.now plan) }
{
    let Bounds { lows, mosts } = make_bounds(alloc, eq, rule)?;
    let rows = plan_rows(alloc, eq, lows.as_slice(), mosts.as_slice(), rule)?;
    Ok(RulePlan { lows, mosts, rows })
}
