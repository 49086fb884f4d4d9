// Laws of node types and of the normal rule.
ghost use Rattle.std.specs.Prelude.{◌≡◌};
ghost use Rattle.std.specs.Cmp.{IsTotalOrder};
ghost use Rattle.std.specs.FinMap.{IsAntisymmetric};
ghost use Rattle.equations.specs.declared.equation.Equation.{Equation};
ghost use Rattle.equations.specs.Accepted.{IsEquation};
ghost use Rattle.equations.specs.EdgeTypes.{node_type_order};
ghost use Rattle.normal_rule.specs.declared.rule.NodeType.{NodeType};
ghost use Rattle.normal_rule.specs.declared.rule.Rule.{Rule};
ghost use Rattle.normal_rule.specs.OverTypes.{IsRule};
ghost use Rattle.normal_rule.specs.Order.{pairs, edge_order, node_order};
ghost use Rattle.normal_rule.specs.Regularity.{HasRows, AreMeasured};
ghost use Rattle.normal_rule.specs.Rule.{IsNormalRule, IsNormal};
ghost use Rattle.normal_rule.specs.Text.{AreKnown};

/// The orders of edge types and of node types are total and tie only what is equal, and the order
/// of node types is that of their lists of types with multiindices.
pub fn node_order_laws()
    ensures edges { IsTotalOrder edge_order × IsAntisymmetric edge_order }
    ensures nodes { IsTotalOrder node_order × IsAntisymmetric node_order }
    ensures pairs { (n m : NodeType) → node_order n m ≡ node_type_order (pairs n) (pairs m) }
{}

/// Every equation of an accepted file has exactly one normal rule, and it is normal.
pub fn normal_rule_laws()
    ensures exists { (eq : Equation) → IsEquation eq → (rule : Rule) × IsNormalRule eq rule }
    ensures unique { (eq : Equation) (rule other : Rule) → IsNormalRule eq rule →
        IsNormalRule eq other → rule ≡ other }
    ensures normal { (eq : Equation) (rule : Rule) → IsEquation eq → IsNormalRule eq rule →
        IsNormal rule }
{}

/// The normal rule has what the inequality of regularities and the texts of node types ask: one row
/// for each kernel, with the empty node type; node types of at most 24 edges (`MOST_EDGES`) with
/// entries of at most 4,096; types of the list; derivatives in the directions of the scaling.
pub fn normal_rule_fits()
    ensures rows { (eq : Equation) (rule : Rule) → IsEquation eq → IsNormalRule eq rule →
        HasRows eq rule }
    ensures measured { (eq : Equation) (rule : Rule) → IsEquation eq → IsNormalRule eq rule →
        AreMeasured rule.rows }
    ensures known { (eq : Equation) (rule : Rule) → IsEquation eq → IsNormalRule eq rule →
        AreKnown eq.types rule.rows }
    ensures over_types { (eq : Equation) (rule : Rule) → IsEquation eq → IsNormalRule eq rule →
        IsRule eq rule }
{}
