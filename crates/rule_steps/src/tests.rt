use crate::choices::options_in;
use crate::sums::sums;
use degree_numbers::{Multi, TypeId};
use normal_rule::{EdgeType, NodeType, RuleRefusal};
use sqlite_items::Items;
use std::alloc::{AllocError, Global};

const ZERO: Multi = Multi { entries: [0; 5] };

const X: EdgeType = EdgeType {
    kind: TypeId(0),
    p: ZERO,
};

const U: EdgeType = EdgeType {
    kind: TypeId(1),
    p: ZERO,
};

fn nodes(alloc: Global, lists: &[&[EdgeType]]) -> Result<Vec<NodeType>, AllocError> {
    let mut nodes = Vec::new(alloc);
    for list in lists {
        let edges = Items::from_slice(alloc, list)?;
        nodes.push(NodeType { edges })?;
    }
    Ok(nodes)
}

// The powers of an edge type, from none on.
fn powers(alloc: Global, edge: EdgeType, count: usize) -> Result<Vec<NodeType>, AllocError> {
    let mut powers = Vec::new(alloc);
    for i in 0..count {
        let edges = Items::from_vec(vec![in alloc; edge; i]?);
        powers.push(NodeType { edges })?;
    }
    Ok(powers)
}

fn have_sums(
    alloc: Global,
    xs: &[&[EdgeType]],
    ys: &[&[EdgeType]],
    want: &[&[EdgeType]],
) -> Result<bool, RuleRefusal> {
    let xs = nodes(alloc, xs)?;
    let ys = nodes(alloc, ys)?;
    let want = nodes(alloc, want)?;
    let found = sums(alloc, xs.as_slice(), ys.as_slice())?;
    Ok(found.as_slice() == want.as_slice())
}

fn count_of_products(alloc: Global, m: usize, n: usize) -> Result<usize, RuleRefusal> {
    let xs = powers(alloc, X, m)?;
    let us = powers(alloc, U, n)?;
    Ok(sums(alloc, us.as_slice(), xs.as_slice())?.len())
}

// Whether these are what can be added to edge types where nothing, X, U, X with U and U with U are
// allowed.
fn are_options(
    alloc: Global,
    edges: &[EdgeType],
    want: &[&[EdgeType]],
) -> Result<bool, AllocError> {
    let allowed = nodes(alloc, &[&[], &[X], &[U], &[X, U], &[U, U]])?;
    let want = nodes(alloc, want)?;
    let found = options_in(alloc, allowed.as_slice(), edges)?;
    Ok(found.as_slice() == want.as_slice())
}

#[test]
fn each_sum_stands_once_and_in_order(rt: HostRuntime) {
    let alloc = rt.alloc();
    assert_eq!(rt; have_sums(alloc, &[], &[&[U]], &[]), Ok(true));
    assert_eq!(rt;
        have_sums(alloc, &[&[]], &[&[U], &[X, U]], &[&[U], &[X, U]]),
        Ok(true)
    );
    assert_eq!(rt;
        have_sums(alloc, &[&[U]], &[&[], &[X]], &[&[U], &[X, U]]),
        Ok(true)
    );
    assert_eq!(rt;
        have_sums(alloc, &[&[], &[U]], &[&[], &[U]], &[&[], &[U], &[U, U]]),
        Ok(true)
    );
}

#[test]
fn more_than_two_thousand_sums_are_too_many(rt: HostRuntime) {
    for (m, n, count) in [
        (40, 50, Ok(2000)),
        (29, 69, Err(RuleRefusal::RuleTooLarge)),
        (45, 45, Err(RuleRefusal::RuleTooLarge)),
    ] {
        assert_eq!(rt; count_of_products(rt.alloc(), m, n), count);
    }
}

#[test]
fn options_are_what_node_types_have_beside_the_edges(rt: HostRuntime) {
    let alloc = rt.alloc();
    assert_eq!(rt;
        are_options(alloc, &[], &[&[], &[X], &[U], &[X, U], &[U, U]]),
        Ok(true)
    );
    assert_eq!(rt; are_options(alloc, &[U], &[&[], &[X], &[U]]), Ok(true));
    assert_eq!(rt; are_options(alloc, &[X, U], &[&[]]), Ok(true));
    assert_eq!(rt; are_options(alloc, &[X, X], &[]), Ok(true));
}
