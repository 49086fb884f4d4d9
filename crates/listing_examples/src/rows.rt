// Trees by their edges in preorder: every small one, by a plain program.
use degree_numbers::{Kind, Multi, TypeId, Types};
use normal_rule::EdgeType;
use plain_trees::Tree;
use std::alloc::{AllocError, Global};

// An edge with what stands above it: how many edges, and the decoration of the node.
#[derive(Clone, Copy, Debug, PartialEq, Eq, PartialOrd, Ord)]
pub struct Row {
    pub edge: EdgeType,
    pub above: usize,
    pub n: Multi,
}

// A tree: the decoration of its root, and its edges in preorder.
#[derive(Debug, PartialEq, Eq, Drop)]
pub struct RowTree {
    pub n: Multi,
    pub rows: Vec<Row>,
}

// What a small tree is made of: the types and derivatives of its edges, the decorations of its nodes, and its greatest number of edges.
#[derive(Clone, Copy)]
pub struct Bounds<'a> {
    pub edge_types: &'a [(u8, Multi)],
    pub decorations: &'a [Multi],
    pub edges: usize,
}

// An edge type and the decoration of the node above it. A noise ends in the empty tree.
#[derive(Clone, Copy)]
struct Label {
    edge: EdgeType,
    n: Multi,
    is_noise: bool,
}

pub fn is_noise(types: &Types, kind: TypeId) -> bool {
    match types.list.as_slice().get(kind.0 as usize) {
        Some(entry) => entry.kind == Kind::Noise,
        None => false,
    }
}

// The labels of an edge type.
fn put_labels(
    labels: &mut Vec<Label>,
    edge: EdgeType,
    is_noise: bool,
    decorations: &[Multi],
) -> Result<(), AllocError> {
    for n in decorations {
        if !is_noise || n.is_zero() {
            labels.push(Label {
                edge,
                n: *n,
                is_noise,
            })?;
        }
    }
    Ok(())
}

fn labels(alloc: Global, types: &Types, bounds: &Bounds<'_>) -> Result<Vec<Label>, AllocError> {
    let mut labels = Vec::new(alloc);
    for (kind, p) in bounds.edge_types {
        let edge = EdgeType {
            kind: TypeId(*kind),
            p: *p,
        };
        put_labels(
            &mut labels,
            edge,
            is_noise(types, edge.kind),
            bounds.decorations,
        )?;
    }
    Ok(labels)
}

// Puts in the edges that begin with this row, if the first edge at the root is not behind the second.
fn put_forest(
    alloc: Global,
    forests: &mut Vec<Vec<Row>>,
    first: Row,
    above: &[Row],
    rest: &[Row],
) -> Result<(), AllocError> {
    let mut rows = Vec::new(alloc);
    rows.push(first)?;
    rows.extend_from_slice(above)?;
    if rest.is_empty() || rows.as_slice().cmp(rest).is_le() {
        rows.extend_from_slice(rest)?;
        forests.push(rows)?;
    }
    Ok(())
}

// Puts in the edges that begin with an edge of each label.
fn put_forests(
    alloc: Global,
    forests: &mut Vec<Vec<Row>>,
    labels: &[Label],
    above: &[Row],
    rest: &[Row],
) -> Result<(), AllocError> {
    for label in labels {
        if !label.is_noise || above.is_empty() {
            let first = Row {
                edge: label.edge,
                above: above.len(),
                n: label.n,
            };
            put_forest(alloc, forests, first, above, rest)?;
        }
    }
    Ok(())
}

// All edges above a root with as many edges as there are levels: a first edge, those above it and those beside it have one less together.
fn next_level(
    alloc: Global,
    labels: &[Label],
    levels: &[Vec<Vec<Row>>],
) -> Result<Vec<Vec<Row>>, AllocError> {
    let mut forests = Vec::new(alloc);
    for (aboves, rests) in levels.iter().zip(levels.iter().rev()) {
        for above in aboves.as_slice() {
            for rest in rests.as_slice() {
                put_forests(
                    alloc,
                    &mut forests,
                    labels,
                    above.as_slice(),
                    rest.as_slice(),
                )?;
            }
        }
    }
    Ok(forests)
}

// All edges above a root, in order at each node, by their number.
pub fn levels(
    alloc: Global,
    types: &Types,
    bounds: &Bounds<'_>,
) -> Result<Vec<Vec<Vec<Row>>>, AllocError> {
    let labels = labels(alloc, types, bounds)?;
    let mut none = Vec::new(alloc);
    none.push(Vec::new(alloc))?;
    let mut levels = Vec::new(alloc);
    levels.push(none)?;
    for _ in 0..bounds.edges {
        let level = next_level(alloc, labels.as_slice(), levels.as_slice())?;
        levels.push(level)?;
    }
    Ok(levels)
}

// The edges of a tree.
pub fn rows_of(alloc: Global, t: &Tree) -> Result<Vec<Row>, AllocError> {
    let mut rows = Vec::new(alloc);
    for e in t.edges.as_slice() {
        let above = rows_of(alloc, &e.child)?;
        let edge = EdgeType {
            kind: e.kind,
            p: e.p,
        };
        rows.push(Row {
            edge,
            above: above.len(),
            n: e.child.n,
        })?;
        rows.extend_from_slice(above.as_slice())?;
    }
    Ok(rows)
}
