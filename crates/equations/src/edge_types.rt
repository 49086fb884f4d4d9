// Edge types: pairs of a type and a derivative multiindex.
ghost use Rattle.std.specs.Prelude.{◌≡◌};
ghost use Rattle.std.specs.Cmp.{IsTotalOrder};
ghost use Rattle.std.specs.FinMap.{IsAntisymmetric};
ghost use Rattle.equations.specs.EdgeTypes.{edge_type_order, node_type_order};

use degree_numbers::{Multi, TypeId};
use std::cmp::Ordering;

/// The order of edge types: by type number, then by multiindex.
pub fn edge_type_order(a: &(TypeId, Multi), b: &(TypeId, Multi)) -> Ordering
    ensures { result ≡ edge_type_order a.now b.now }
{
    a.0.0.cmp(&b.0.0).then(a.1.order(&b.1))
}

/// Law: the orders of edge types and of node types are total, and tie only what is equal.
pub fn edge_type_laws()
    ensures edge_types { IsTotalOrder edge_type_order × IsAntisymmetric edge_type_order }
    ensures node_types { IsTotalOrder node_type_order × IsAntisymmetric node_type_order }
{}
