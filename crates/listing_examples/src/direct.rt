// The listed trees of a few edges, by trying all trees.
use crate::rows::{Bounds, Row, RowTree, is_noise, levels};
use degree_numbers::{Degree, Multi, TypeId, Types};
use equations::Equation;
use normal_rule::{EdgeType, Rule, RuleRow};
use std::alloc::{AllocError, Global};

// A tree with its degree.
#[derive(Debug, PartialEq, Eq, Drop)]
pub struct Graded {
    pub degree: Degree,
    pub tree: RowTree,
}

// The scaled size of a multiindex, in units.
fn size_in_units(types: &Types, m: &Multi) -> Option<i64> {
    let mut size: i64 = 0;
    for (s, x) in types.scaling.iter().zip(m.entries.iter()) {
        let part = i64::from(*s).checked_mul(i64::from(*x))?;
        size = size.checked_add(part)?;
    }
    size.checked_mul(types.units.den)
}

// The degree of an edge and the node above it.
fn row_degree(types: &Types, row: &Row) -> Option<Degree> {
    let entry = types.list.as_slice().get(row.edge.kind.0 as usize)?;
    let less = size_in_units(types, &row.edge.p)?;
    let more = size_in_units(types, &row.n)?;
    let a = entry.degree.a.checked_sub(less)?.checked_add(more)?;
    Some(Degree {
        a,
        b: entry.degree.b,
    })
}

fn degree(types: &Types, n: &Multi, rows: &[Row]) -> Option<Degree> {
    let mut a = size_in_units(types, n)?;
    let mut b: i64 = 0;
    for row in rows {
        let degree = row_degree(types, row)?;
        a = a.checked_add(degree.a)?;
        b = b.checked_add(degree.b)?;
    }
    Some(Degree { a, b })
}

// The types of the edges at the node below the first so many of these edges.
fn node_type(alloc: Global, rows: &[Row], count: usize) -> Result<Vec<EdgeType>, AllocError> {
    let mut edges = Vec::new(alloc);
    let mut above = 0;
    for row in rows.iter().take(count) {
        if above == 0 {
            edges.push(row.edge)?;
            above = row.above;
        } else {
            above -= 1;
        }
    }
    Ok(edges)
}

fn has_node(row: &RuleRow, edges: &[EdgeType]) -> bool {
    row.nodes
        .as_slice()
        .iter()
        .any(|node| node.edges.as_slice() == edges)
}

// Whether these edges may leave the node above an edge of this type.
fn may_leave(types: &Types, rule: &Rule, kind: TypeId, edges: &[EdgeType]) -> bool {
    if is_noise(types, kind) {
        return edges.is_empty();
    }
    let mut rows = rule.rows.as_slice().iter();
    rows.any(|row| row.kernel == kind && has_node(row, edges))
}

// Whether these edges may leave a root.
fn may_leave_a_root(rule: &Rule, edges: &[EdgeType]) -> bool {
    rule.rows.as_slice().iter().any(|row| has_node(row, edges))
}

// Whether what stands above each of these edges may stand there.
fn may_stand(alloc: Global, types: &Types, rule: &Rule, rows: &[Row]) -> Result<bool, AllocError> {
    let mut rest = rows;
    while let [row, behind @ ..] = rest {
        let edges = node_type(alloc, behind, row.above)?;
        if !may_leave(types, rule, row.edge.kind, edges.as_slice()) {
            return Ok(false);
        }
        rest = behind;
    }
    Ok(true)
}

fn conforms(alloc: Global, types: &Types, rule: &Rule, rows: &[Row]) -> Result<bool, AllocError> {
    let edges = node_type(alloc, rows, rows.len())?;
    Ok(may_leave_a_root(rule, edges.as_slice()) && may_stand(alloc, types, rule, rows)?)
}

// Whether the tree is an edge of a kernel on a root without decoration.
fn is_planted(types: &Types, n: &Multi, rows: &[Row]) -> bool {
    match rows {
        [first, behind @ ..] => {
            first.above == behind.len() && !is_noise(types, first.edge.kind) && n.is_zero()
        }
        [] => false,
    }
}

// The degree of a tree that is listed or is of degree 0.
fn listed_degree(
    alloc: Global,
    types: &Types,
    rule: &Rule,
    n: &Multi,
    rows: &[Row],
) -> Option<Degree> {
    let degree = degree(types, n, rows)?;
    let is_possible = !rows.is_empty() && !is_planted(types, n, rows);
    if is_possible
        && degree <= (Degree { a: 0, b: 0 })
        && conforms(alloc, types, rule, rows).ok()?
    {
        Some(degree)
    } else {
        None
    }
}

// Whether a tree comes before another: by degree, number of edges, decoration of the root, edges.
fn is_before(x: &Graded, y: &Graded) -> bool {
    let by_edges = x.tree.rows.len().cmp(&y.tree.rows.len());
    let by_root = x.tree.n.cmp(&y.tree.n);
    let by_rows = x.tree.rows.as_slice().cmp(y.tree.rows.as_slice());
    x.degree
        .cmp(&y.degree)
        .then(by_edges)
        .then(by_root)
        .then(by_rows)
        .is_lt()
}

// Puts a tree at its place.
fn put(found: &mut Vec<Graded>, new: Graded) -> Result<(), AllocError> {
    match found.as_slice().iter().position(|old| is_before(&new, old)) {
        Some(i) => found.insert(i, new)?,
        None => found.push(new)?,
    }
    Ok(())
}

// Puts in the tree with these edges and each decoration at its root.
fn put_trees(
    alloc: Global,
    found: &mut Vec<Graded>,
    eq: &Equation,
    rule: &Rule,
    decorations: &[Multi],
    rows: &[Row],
) -> Result<(), AllocError> {
    for n in decorations {
        if let Some(degree) = listed_degree(alloc, &eq.types, rule, n, rows) {
            let rows = rows.to_vec(alloc)?;
            put(
                found,
                Graded {
                    degree,
                    tree: RowTree { n: *n, rows },
                },
            )?;
        }
    }
    Ok(())
}

// The small trees that are listed, and behind them those of degree 0.
pub fn small_trees(
    alloc: Global,
    eq: &Equation,
    rule: &Rule,
    bounds: &Bounds<'_>,
) -> Result<Vec<Graded>, AllocError> {
    let mut found = Vec::new(alloc);
    let levels = levels(alloc, &eq.types, bounds)?;
    for level in levels.as_slice() {
        for rows in level.as_slice() {
            put_trees(
                alloc,
                &mut found,
                eq,
                rule,
                bounds.decorations,
                rows.as_slice(),
            )?;
        }
    }
    Ok(found)
}
