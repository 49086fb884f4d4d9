// Whether bounds show that a rule has no too large tree.
ghost use Rattle.std.specs.Prelude.{◌≡◌, ◌≤◌, ◌*◌, IsTrue};
ghost use Rattle.std.specs.List.{All};
ghost use Rattle.degree_numbers.specs.Types.{AreTypes};
ghost use Rattle.large_trees.specs.Classes.{most_of};
ghost use Rattle.large_trees.specs.Charges.{AreBounds, IsNodeBound, IsRowBound};

use crate::charges::{Charge, bound_at, brought, is_short, node_sum};
use degree_numbers::{TypeId, Types};
use normal_rule::{NodeType, Rule, RuleRow};

// What the least too large tree is charged.
fn most_charged(charge: &Charge) -> u64
    requires { charge.now.each ≤ 10000000000 }
    ensures value { result ≡ charge.now.each * most_of charge.now.count }
    ensures small { result ≤ 1000000000000 }
{
    charge.each * charge.count.most() as u64
}

fn is_node_bound(
    types: &Types,
    charge: &Charge,
    bounds: &[i64],
    kernel: TypeId,
    node: &NodeType,
) -> bool
    requires types { AreTypes types.now }
    requires charge { charge.now.each ≤ 10000000000 }
    requires bounds { AreBounds types.now bounds.now }
    ensures { IsTrue result → IsNodeBound types.now charge.now bounds.now kernel.0 node.now }
{
    if !is_short(node) {
        return false;
    }
    if brought(types, charge, bounds, kernel, node) < bound_at(bounds, kernel) {
        return false;
    }
    0 < node_sum(types, charge, bounds, node) + most_charged(charge) as i64
}

fn is_row_bound(types: &Types, charge: &Charge, bounds: &[i64], row: &RuleRow) -> bool
    requires types { AreTypes types.now }
    requires charge { charge.now.each ≤ 10000000000 }
    requires bounds { AreBounds types.now bounds.now }
    ensures { IsTrue result → IsRowBound types.now charge.now bounds.now row.now }
{
    for node in row.nodes.as_slice() {
        if !is_node_bound(types, charge, bounds, row.kernel, node) {
            return false;
        }
    }
    true
}

/// Whether each node type of a rule keeps these bounds.
pub fn are_bounds(types: &Types, charge: &Charge, bounds: &[i64], rule: &Rule) -> bool
    requires types { AreTypes types.now }
    requires charge { charge.now.each ≤ 10000000000 }
    requires bounds { AreBounds types.now bounds.now }
    ensures { IsTrue result → All (IsRowBound types.now charge.now bounds.now) rule.now.rows }
{
    for row in rule.rows.as_slice() {
        if !is_row_bound(types, charge, bounds, row) {
            return false;
        }
    }
    true
}
