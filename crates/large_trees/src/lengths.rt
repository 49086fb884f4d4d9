// How long the node types of a rule are.
ghost use Rattle.std.specs.Prelude.{◌<◌, length};
ghost use Rattle.ordered_lists.specs.Members.{IsIn};
ghost use Rattle.normal_rule.specs.declared.rule.NodeType.{NodeType};
ghost use Rattle.large_trees.specs.Limits.{AreShort};

use normal_rule::{NodeType, Rule, RuleRow};

fn node_fits(node: &NodeType)
    ensures { length node.now.edges < 18446744073709551616 }
{
    let _length = node.edges.len();
}

fn row_fits(row: &RuleRow)
    ensures { (n : NodeType) → IsIn n row.now.nodes → length n.edges < 18446744073709551616 }
{
    for node in row.nodes.as_slice() {
        node_fits(node);
    }
}

/// Lists that stand in memory have lengths of 64 bits. It changes nothing.
pub fn lengths_fit(rule: &Rule)
    ensures { AreShort rule.now.rows }
{
    for row in rule.rows.as_slice() {
        row_fits(row);
    }
}
