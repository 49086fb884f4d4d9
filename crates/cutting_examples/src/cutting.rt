// Cuttings of a tree by the numbers of its nodes: a set of edges, the shifts of the others, and
// what is taken of the decorations.
use crate::flat::{Link, Node};
use crate::numbers::{multinomial, sum, sum_of};
use degree_numbers::Multi;
use std::alloc::Global;

/// A node of a tree that is cut, with the edge into it.
#[derive(Clone, Copy)]
pub struct CutNode {
    /// The edge into it, where it isn't the root.
    pub link: Option<Link>,
    /// Whether that edge is in the set.
    pub is_inside: bool,
    /// Whether an edge of the set meets the node, or it counts as touched.
    pub is_touched: bool,
    /// The lowest node of its component.
    pub base: usize,
    /// The derivatives by which the edge into it is raised.
    pub shift: Multi,
    /// The two parts of its decoration.
    pub taken: Multi,
    pub left: Multi,
}

/// Puts a node behind others, with the edge into it in the set or not.
fn put_node(cut: &mut Vec<CutNode>, node: &Node, is_inside: bool) -> Option<()> {
    let mut base = cut.len();
    if is_inside && let Some(link) = &node.link {
        let below = cut.get_mut(link.from)?;
        below.is_touched = true;
        base = below.base;
    }
    let node = CutNode {
        link: node.link,
        is_inside,
        is_touched: is_inside,
        base,
        shift: Multi::zero(),
        taken: Multi::zero(),
        left: node.n,
    };
    cut.push(node).ok()
}

/// A tree that is cut at the edges of a set, with no shifts and nothing taken. The binary digits of
/// the set's number, from the lowest on, say of each edge in preorder whether it is in the set.
pub fn cut_at(
    alloc: Global,
    nodes: &[Node],
    set: u32,
    is_root_touched: bool,
) -> Option<Vec<CutNode>> {
    let mut cut = Vec::new(alloc);
    let mut digits = set;
    for node in nodes {
        if node.link.is_some() {
            put_node(&mut cut, node, digits % 2 == 1)?;
            digits /= 2;
        } else {
            put_node(&mut cut, node, false)?;
        }
    }
    if is_root_touched {
        cut.first_mut()?.is_touched = true;
    }
    Some(cut)
}

/// Whether this is the lowest node of a component.
pub fn is_lowest(node: &CutNode) -> bool {
    node.is_touched && !node.is_inside
}

/// The parts of the decoration that a node has in its component: the shifts of the edges outside
/// the set that leave it, and what is taken.
fn parts_at(alloc: Global, cut: &[CutNode], v: usize) -> Option<Vec<Multi>> {
    let mut parts = Vec::new(alloc);
    for node in cut {
        if let Some(link) = &node.link
            && link.from == v
            && !node.is_inside
        {
            parts.push(node.shift).ok()?;
        }
    }
    parts.push(cut.get(v)?.taken).ok()?;
    Some(parts)
}

/// What is left at the nodes of which this is the lowest.
fn lefts_at(alloc: Global, cut: &[CutNode], v: usize) -> Option<Vec<Multi>> {
    let mut lefts = Vec::new(alloc);
    for node in cut {
        if node.base == v {
            lefts.push(node.left).ok()?;
        }
    }
    Some(lefts)
}

/// The components, as trees above their lowest nodes.
pub fn components(alloc: Global, cut: &[CutNode]) -> Option<Vec<Node>> {
    let mut nodes = Vec::new(alloc);
    for (v, node) in cut.iter().enumerate() {
        let link = if node.is_inside { node.link } else { None };
        let n = sum_of(parts_at(alloc, cut, v)?.as_slice())?;
        nodes.push(Node { link, n }).ok()?;
    }
    Some(nodes)
}

/// An edge in the quotient: raised by its shift, from the node to which the one that it leaves is
/// contracted.
fn outer_link(cut: &[CutNode], link: &Link, shift: &Multi) -> Option<Link> {
    Some(Link {
        from: cut.get(link.from)?.base,
        kind: link.kind,
        p: sum(&link.p, shift)?,
    })
}

/// The quotient, as the tree above the root.
pub fn quotient(alloc: Global, cut: &[CutNode]) -> Option<Vec<Node>> {
    let mut nodes = Vec::new(alloc);
    for (v, node) in cut.iter().enumerate() {
        let mut outer = None;
        if let Some(link) = &node.link
            && !node.is_inside
        {
            outer = Some(outer_link(cut, link, &node.shift)?);
        }
        let n = sum_of(lefts_at(alloc, cut, v)?.as_slice())?;
        nodes.push(Node { link: outer, n }).ok()?;
    }
    Some(nodes)
}

/// The splitting coefficient: the multinomials of the parts at the touched nodes, and of what is
/// left at the nodes that are contracted to one.
pub fn coefficient(alloc: Global, cut: &[CutNode]) -> Option<i128> {
    let mut ways = 1i128;
    for (v, node) in cut.iter().enumerate() {
        if node.is_touched {
            let parts = parts_at(alloc, cut, v)?;
            ways = ways.checked_mul(multinomial(parts.as_slice())?)?;
        }
        if !node.is_inside {
            let lefts = lefts_at(alloc, cut, v)?;
            ways = ways.checked_mul(multinomial(lefts.as_slice())?)?;
        }
    }
    Some(ways)
}
