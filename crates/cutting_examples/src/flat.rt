// Trees as lists of their nodes, and their codes.
use crate::numbers::{plus, raised, size};
use degree_numbers::{Degree, Multi, TypeId, Types};
use plain_trees::Tree;
use std::alloc::Global;

/// The edge into a node: the number of the node that it leaves, its type and its derivative
/// decoration.
#[derive(Clone, Copy)]
pub struct Link {
    pub from: usize,
    pub kind: TypeId,
    pub p: Multi,
}

/// A node of trees that are written down as lists of nodes, each before those above it: the edge
/// into it, where it isn't a root, and its decoration.
#[derive(Clone, Copy)]
pub struct Node {
    pub link: Option<Link>,
    pub n: Multi,
}

/// The numbers of a tree, in an order that makes their lexicographic order tree order: the number
/// of edges, the decoration of the root, and for each edge, in order, its type, its derivative
/// decoration and the numbers of the tree above it.
pub type Code = Vec<u32>;

/// Puts the nodes of a tree behind others.
fn put_nodes(t: &Tree, link: Option<Link>, nodes: &mut Vec<Node>) -> Option<()> {
    let from = nodes.len();
    nodes.push(Node { link, n: t.n }).ok()?;
    for e in t.edges.as_slice() {
        let link = Link {
            from,
            kind: e.kind,
            p: e.p,
        };
        put_nodes(&e.child, Some(link), nodes)?;
    }
    Some(())
}

/// The nodes of a tree, in preorder.
pub fn nodes_of(alloc: Global, t: &Tree) -> Option<Vec<Node>> {
    let mut nodes = Vec::new(alloc);
    put_nodes(t, None, &mut nodes)?;
    Some(nodes)
}

/// The degree of an edge without the tree above it.
pub fn link_degree(types: &Types, link: &Link) -> Option<Degree> {
    let entry = types.list.get(usize::from(link.kind.0))?;
    raised(&entry.degree, size(types, &link.p)?.checked_neg()?)
}

/// The degrees of the trees above the nodes, each by the number of its root. The edge into that
/// node isn't counted.
pub fn degrees(alloc: Global, types: &Types, nodes: &[Node]) -> Option<Vec<Degree>> {
    let mut degrees = Vec::new(alloc);
    for node in nodes {
        degrees
            .push(raised(&Degree { a: 0, b: 0 }, size(types, &node.n)?)?)
            .ok()?;
    }
    for (i, node) in nodes.iter().enumerate().rev() {
        if let Some(link) = &node.link {
            let above = plus(degrees.get(i)?, &link_degree(types, link)?)?;
            let degree = degrees.get_mut(link.from)?;
            *degree = plus(degree, &above)?;
        }
    }
    Some(degrees)
}

/// A node of which the trees above are being found.
#[derive(Drop)]
struct Open {
    n: Multi,
    edge_count: u32,
    edges: Vec<Code>,
}

impl Open {
    /// Puts an edge to the others, with the tree above it.
    fn put_edge(&mut self, alloc: Global, link: &Link, above: &Code) -> Option<()> {
        let mut edge = Vec::new(alloc);
        edge.push(u32::from(link.kind.0)).ok()?;
        edge.extend_from_slice(&link.p.entries).ok()?;
        edge.extend_from_slice(above.as_slice()).ok()?;
        self.edges.push(edge).ok()?;
        let more = above.first()?.checked_add(1)?;
        self.edge_count = self.edge_count.checked_add(more)?;
        Some(())
    }

    /// The code of the tree.
    fn code(self, alloc: Global) -> Option<Code> {
        let Open {
            n,
            edge_count,
            mut edges,
        } = self;
        edges.sort_unstable();
        let mut code = Vec::new(alloc);
        code.push(edge_count).ok()?;
        code.extend_from_slice(&n.entries).ok()?;
        for edge in edges.as_slice() {
            code.extend_from_slice(edge.as_slice()).ok()?;
        }
        Some(code)
    }
}

/// The nodes, with no edges yet.
fn opened(alloc: Global, nodes: &[Node]) -> Option<Vec<Open>> {
    let mut open = Vec::new(alloc);
    for node in nodes {
        let node = Open {
            n: node.n,
            edge_count: 0,
            edges: Vec::new(alloc),
        };
        open.push(node).ok()?;
    }
    Some(open)
}

/// The codes of the trees above the nodes.
pub fn codes(alloc: Global, nodes: &[Node]) -> Option<Vec<Code>> {
    let mut open = opened(alloc, nodes)?;
    let mut codes = Vec::new(alloc);
    for node in nodes.iter().rev() {
        let code = open.pop()?.code(alloc)?;
        if let Some(link) = &node.link {
            open.get_mut(link.from)?.put_edge(alloc, link, &code)?;
        }
        codes.push(code).ok()?;
    }
    codes.reverse();
    Some(codes)
}
