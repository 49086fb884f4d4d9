// Edge types in their order: two lists together, and one without another.
ghost use Rattle.std.specs.Prelude.{◌≡◌, List, map, IfOk, OnOk};
ghost use Rattle.std.specs.List.{prefix_len};
ghost use Rattle.std.specs.Option.{option_map};
ghost use Rattle.std.specs.Ordering.{is_gt};
ghost use Rattle.conforming_trees.specs.Conforming.{edge_label_order, put_label, label, labels};
ghost use Rattle.rule_stages.specs.Stages.{join};

use normal_rule::{EdgeType, NodeType};
use sqlite_items::Items;
use std::alloc::{AllocError, Global};

/// The number of edge types that are less than this one, from the first on.
fn place(edges: &[EdgeType], e: &EdgeType) -> usize
    ensures { result ≡ prefix_len (λ f. is_gt (edge_label_order (label e.now) f))
        (map label edges.now) }
{
    for i in 0..edges.len() {
        if !e.cmp(&edges[i]).is_gt() {
            return i;
        }
    }
    edges.len()
}

/// Puts an edge type into a list in order.
fn put_edge(edges: &mut Vec<EdgeType>, e: EdgeType) -> Result<(), AllocError>
    ensures { OnOk result (map label edges.new.items ≡ put_label (label e)
        (map label edges.old.items)) }
{
    let at = place(edges.as_slice(), &e);
    edges.insert(at, e)?;
    Ok(())
}

/// The edge types of two lists together, in order where the second is. Fails only for want of
/// memory.
pub(crate) fn joined(
    alloc: Global,
    front: &[EdgeType],
    edges: &[EdgeType],
) -> Result<NodeType, AllocError>
    ensures { IfOk result (λ n. labels n ≡ join (map label front.now) (map label edges.now)) }
{
    let mut all = Vec::from_slice(alloc, edges)?;
    let mut i = front.len();
    while i > 0 {
        i -= 1;
        put_edge(&mut all, front[i])?;
    }
    Ok(NodeType {
        edges: Items::from_vec(all),
    })
}
