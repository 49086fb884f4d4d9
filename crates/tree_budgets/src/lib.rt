//! The plan of a rule: bounds of degrees by which its trees of a degree of at most 0 are found. The
//! listing needs that the bounds meet certain inequalities, and not how they are found; so they
//! stand apart.
#![tactic(auto)]

mod bounds;
mod directions;
mod fronts;
mod lows;
mod mosts;
mod plan;
mod rows;
mod sums;

pub use directions::normal_rule_is_rule;
pub use plan::{Extension, PlanNode, RowPlan, RulePlan, rule_plan};
