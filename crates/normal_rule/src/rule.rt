// Edge types, node types and rules.
ghost use Rattle.std.specs.Prelude.{◌≡◌};
ghost use Rattle.normal_rule.specs.declared.rule.RuleRefusal.TheVariants.{Memory};

use degree_numbers::{Multi, TypeId};
use sqlite_items::Items;
use std::alloc::AllocError;

/// A type and the derivative multiindex on it.
#[derive(Clone, Copy, Debug, PartialEq, Eq, PartialOrd, Ord)]
pub struct EdgeType {
    pub kind: TypeId,
    pub p: Multi,
}

/// The edge types of the edges that may leave a node together, in order: by type number, then by
/// multiindex. Node types are ordered by length, then lexicographically.
#[derive(Debug, Drop)]
pub struct NodeType {
    pub edges: Items<EdgeType>,
}

/// The node types that a rule allows above the edges of a kernel, in their order, each once.
#[derive(Debug, Drop)]
pub struct RuleRow {
    pub kernel: TypeId,
    pub nodes: Items<NodeType>,
}

/// A rule: which edge types may leave a node together, by the kernel of the edge below the node.
/// Above an edge of a noise it allows the empty node type alone.
///
/// **Order.** One row for each kernel, in the order of the kernels. In a row node types stand by
/// the number of their edges, then lexicographically by edge types, each once.
///
/// **Units.** None: edge types have type numbers and derivatives, over the types of the equation.
/// **Invariants.** Calls ask for them (`IsNormal` and `IsRule` in contracts): each row has the
/// empty node type, and with a node type each part of it; edge types are those of the equation. A
/// rule that a call answers has at most 2,000 node types (`MOST_NODE_TYPES`).
///
/// **Example.** The normal rule of the KPZ equation has one row, that of `u`, with the node types
/// `1`, `xi`, `u'(0,1)` and `u'(0,1)*u'(0,1)`.
#[derive(Debug, Drop)]
pub struct Rule {
    pub rows: Items<RuleRow>,
}

/// Why there is no rule, or no text of a node type.
#[derive(Clone, Copy, Debug, PartialEq, Eq)]
pub enum RuleRefusal {
    /// The rows together would have more than 2,000 node types (`MOST_NODE_TYPES`).
    RuleTooLarge,
    /// Memory is wanted.
    Memory,
}

impl From<AllocError> for RuleRefusal {
    ghost from_gives = { λ _ e. e ≡ Memory };

    fn from(_e: AllocError) -> RuleRefusal {
        RuleRefusal::Memory
    }
}
