//! The normal rule of an equation, and the inequality of regularities. They speak of edge types
//! alone, and stand below the trees.
#![tactic(auto)]

mod laws;
mod node;
mod regularity;
mod row;
mod rule;
mod text;

pub use laws::{node_order_laws, normal_rule_fits, normal_rule_laws};
pub use regularity::{NotSubcritical, check_regularity, regularity_of, right_side};
pub use row::normal_rule;
pub use rule::{EdgeType, NodeType, Rule, RuleRefusal, RuleRow};
pub use text::{print_node_type, put_node_type};
