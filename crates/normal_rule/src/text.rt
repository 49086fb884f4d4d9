// Texts of node types.
ghost use Rattle.std.specs.Prelude.{◌≡◌, ◌++◌, ◌<◌, length, IfOk, OnOk, IsOkUnless};
ghost use Rattle.std.specs.List.{All};
ghost use Rattle.degree_numbers.specs.Types.{AreTypes};
ghost use Rattle.normal_rule.specs.Text.{further_edges_text, edges_text, node_type_text, IsKnownNode};

use crate::rule::{EdgeType, NodeType, RuleRefusal};
use degree_numbers::{Types, put_edge_type};
use std::alloc::{AllocError, Global};

fn put_further(out: &mut Vec<u8>, types: &Types, edges: &[EdgeType]) -> Result<(), AllocError>
    requires types { AreTypes types.now }
    requires known { All (λ e. e.kind.0 < length types.now.list) edges.now }
    ensures { OnOk result (out.new.items ≡ out.old.items
        ++ further_edges_text types.now edges.now) }
{
    for edge in edges {
        out.push(b'*')?;
        put_edge_type(out, types, edge.kind, &edge.p)?;
    }
    Ok(())
}

fn put_edges(out: &mut Vec<u8>, types: &Types, edges: &[EdgeType]) -> Result<(), AllocError>
    requires types { AreTypes types.now }
    requires known { All (λ e. e.kind.0 < length types.now.list) edges.now }
    ensures { OnOk result (out.new.items ≡ out.old.items ++ edges_text types.now edges.now) }
{
    match edges {
        [] => Ok(out.push(b'1')?),
        [first, further @ ..] => {
            put_edge_type(out, types, first.kind, &first.p)?;
            put_further(out, types, further)
        }
    }
}

/// Appends the text of a node type.
pub fn put_node_type(out: &mut Vec<u8>, types: &Types, node: &NodeType) -> Result<(), AllocError>
    requires types { AreTypes types.now }
    requires known { IsKnownNode types.now node.now }
    ensures { OnOk result (out.new.items ≡ out.old.items ++ node_type_text types.now node.now) }
{
    put_edges(out, types, node.edges.as_slice())
}

/// The text of a node type: `1` where it is empty, else its edge types joined by `*`, each the name
/// of its type, and `'` with the multiindex where that is not
/// 0. Fails only for want of memory.
pub fn print_node_type(
    alloc: Global,
    types: &Types,
    node: &NodeType,
) -> Result<Vec<u8>, RuleRefusal>
    requires types { AreTypes types.now }
    requires known { IsKnownNode types.now node.now }
    ensures text { IfOk result (λ v. v.items ≡ node_type_text types.now node.now) }
    ensures memory { IsOkUnless result RuleRefusal.Memory }
{
    let mut out = Vec::new(alloc);
    put_node_type(&mut out, types, node)?;
    Ok(out)
}
