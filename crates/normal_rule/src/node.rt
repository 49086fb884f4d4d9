// Node types in their order.
ghost use Rattle.std.specs.Prelude.{◌≡◌, IfOk};
ghost use Rattle.normal_rule.specs.Order.{empty_node};
ghost use Rattle.normal_rule.specs.Made.{with_factor};

use crate::rule::{EdgeType, NodeType};
use degree_numbers::{Multi, TypeId};
use sqlite_items::Items;
use std::alloc::{AllocError, Global};
use std::cmp::Ordering;

impl PartialEq for NodeType {
    ghost use Rattle.std.specs.Cmp.{partial_equiv_from_equiv, eq_by_cmp_equiv};
    ghost use Rattle.std.specs.Ordering.{eq_by_cmp};
    ghost use Rattle.normal_rule.specs.Order.{node_order, node_order_total};

    ghost eq = { eq_by_cmp node_order };

    ghost laws = { partial_equiv_from_equiv (eq_by_cmp_equiv node_order_total) };

    fn eq(&self, other: &NodeType) -> bool {
        self.cmp(other) == Ordering::Equal
    }
}

impl Eq for NodeType {
    ghost use Rattle.std.specs.Cmp.{eq_by_cmp_equiv};
    ghost use Rattle.normal_rule.specs.Order.{node_order_total};

    ghost laws = { eq_by_cmp_equiv node_order_total };
}

impl PartialOrd for NodeType {
    ghost use Rattle.std.specs.Cmp.{partial_order_from_total};
    ghost use Rattle.std.specs.Ordering.{as_partial_cmp};
    ghost use Rattle.normal_rule.specs.Order.{node_order, node_order_total};

    ghost partial_cmp = { as_partial_cmp node_order };

    ghost laws = { partial_order_from_total node_order_total };

    fn partial_cmp(&self, other: &NodeType) -> Option<Ordering> {
        Some(self.cmp(other))
    }
}

impl Ord for NodeType {
    ghost use Rattle.std.proofs.Common.{refl};
    ghost use Rattle.normal_rule.specs.Order.{node_order, node_order_total};

    ghost cmp = { node_order };

    ghost total = { node_order_total };

    ghost matches_partial_cmp = { λ _ _. refl };

    ghost matches_eq = { λ _ _. refl };

    fn cmp(&self, other: &NodeType) -> Ordering {
        let by_length = self.edges.len().cmp(&other.edges.len());
        by_length.then(self.edges.as_slice().cmp(other.edges.as_slice()))
    }
}

impl NodeType {
    /// The node type without edge types.
    pub fn empty(alloc: Global) -> NodeType
        ensures { result ≡ empty_node }
    {
        NodeType {
            edges: Items::new(alloc),
        }
    }

    // The same with one more factor at the end.
    pub(crate) fn with(
        &self,
        alloc: Global,
        factor: (TypeId, Multi),
    ) -> Result<NodeType, AllocError>
        ensures { IfOk result (λ n. n ≡ with_factor factor self.now) }
    {
        let mut edges = Items::from_slice(alloc, self.edges.as_slice())?;
        edges.push(EdgeType {
            kind: factor.0,
            p: factor.1,
        })?;
        Ok(NodeType { edges })
    }
}
