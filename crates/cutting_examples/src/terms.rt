// The terms of the two coproducts of a tree: the cuttings one by one, sorted and added up.
use crate::choices::{choices_at, count, cutting};
use crate::cutting::{CutNode, coefficient, components, cut_at, is_lowest, quotient};
use crate::flat::{Code, Link, Node, codes, degrees, link_degree, nodes_of};
use crate::numbers::{is_below_zero, minus, plus};
use degree_numbers::{Degree, Types};
use plain_trees::{Tree, is_kernel_type};
use std::alloc::Global;

/// Which of the two coproducts.
#[derive(Clone, Copy)]
pub enum Coproduct {
    Extraction,
    Recentring,
}

/// A term: its trees, as numbers, and its coefficient. The numbers are the length of the forest and
/// the codes of its trees, then the code of the quotient; or the codes of the left and of the right
/// tree. Their lexicographic order is the order of the terms.
#[derive(PartialEq, Debug, Drop)]
pub struct Term {
    pub trees: Vec<u32>,
    pub coefficient: i128,
}

/// The numbers of a forest, its trees in any order, and of a quotient.
pub fn forest_and_quotient(
    alloc: Global,
    mut forest: Vec<Code>,
    quotient: &Code,
) -> Option<Vec<u32>> {
    forest.sort_unstable();
    let mut trees = Vec::new(alloc);
    trees.push(u32::try_from(forest.len()).ok()?).ok()?;
    for tree in forest.as_slice() {
        trees.extend_from_slice(tree.as_slice()).ok()?;
    }
    trees.extend_from_slice(quotient.as_slice()).ok()?;
    Some(trees)
}

/// The numbers of a left and a right tree.
pub fn left_and_right(alloc: Global, left: &Code, right: &Code) -> Option<Vec<u32>> {
    let mut trees = Vec::new(alloc);
    trees.extend_from_slice(left.as_slice()).ok()?;
    trees.extend_from_slice(right.as_slice()).ok()?;
    Some(trees)
}

/// Whether the tree above a node is planted.
fn is_planted(types: &Types, nodes: &[Node], v: usize) -> Option<bool> {
    let mut edges = 0usize;
    let mut kernels = 0usize;
    for link in nodes.iter().filter_map(|node| node.link) {
        if link.from == v {
            edges = edges.checked_add(1)?;
            kernels = kernels.checked_add(usize::from(is_kernel_type(types, link.kind)))?;
        }
    }
    Some(edges == 1 && kernels == 1 && nodes.get(v)?.n.is_zero())
}

/// Whether all components are extracted: they are unplanted and of a degree below 0.
fn are_extracted(alloc: Global, types: &Types, cut: &[CutNode]) -> Option<bool> {
    let nodes = components(alloc, cut)?;
    let degrees = degrees(alloc, types, nodes.as_slice())?;
    for (v, node) in cut.iter().enumerate() {
        if is_lowest(node)
            && (!is_below_zero(degrees.get(v)?) || is_planted(types, nodes.as_slice(), v)?)
        {
            return Some(false);
        }
    }
    Some(true)
}

/// The degree of an edge with the tree above it.
fn branch_degree(types: &Types, link: &Link, above: &Degree) -> Option<Degree> {
    plus(&link_degree(types, link)?, above)
}

/// Whether the set of a cutting hangs together from the root, and each edge of the root of the
/// quotient, with all above it, has a degree above 0.
fn is_recentred(alloc: Global, types: &Types, cut: &[CutNode]) -> Option<bool> {
    if cut.iter().any(|node| node.is_inside && node.base != 0) {
        return Some(false);
    }
    let nodes = quotient(alloc, cut)?;
    let degrees = degrees(alloc, types, nodes.as_slice())?;
    for (node, above) in nodes.iter().zip(degrees.iter()) {
        if let Some(link) = &node.link
            && link.from == 0
            && !is_below_zero(&minus(&branch_degree(types, link, above)?)?)
        {
            return Some(false);
        }
    }
    Some(true)
}

/// For each edge the degree that has to stay below 0 when it is raised, where a shift is not to be
/// in vain: that of the component that it leaves, or that of its branch with the other sign.
fn bounding_degrees(
    alloc: Global,
    types: &Types,
    coproduct: Coproduct,
    nodes: &[Node],
    cut: &[CutNode],
) -> Option<Vec<Degree>> {
    let parts = components(alloc, cut)?;
    let component_degrees = degrees(alloc, types, parts.as_slice())?;
    let tree_degrees = degrees(alloc, types, nodes)?;
    let mut all = Vec::new(alloc);
    for (node, above) in nodes.iter().zip(tree_degrees.iter()) {
        let degree = match (&node.link, coproduct) {
            (None, _) => *above,
            (Some(link), Coproduct::Extraction) => {
                *component_degrees.get(cut.get(link.from)?.base)?
            }
            (Some(link), Coproduct::Recentring) => minus(&branch_degree(types, link, above)?)?,
        };
        all.push(degree).ok()?;
    }
    Some(all)
}

/// The codes of the components.
fn forest(alloc: Global, cut: &[CutNode]) -> Option<Vec<Code>> {
    let nodes = components(alloc, cut)?;
    let mut forest = Vec::new(alloc);
    for (node, code) in cut.iter().zip(codes(alloc, nodes.as_slice())?.into_iter()) {
        if is_lowest(node) {
            forest.push(code).ok()?;
        }
    }
    Some(forest)
}

/// The term that a cutting gives.
fn term_of(alloc: Global, coproduct: Coproduct, cut: &[CutNode]) -> Option<Term> {
    let forest = forest(alloc, cut)?;
    let quotients = codes(alloc, quotient(alloc, cut)?.as_slice())?;
    let quotient = quotients.first()?;
    let trees = match coproduct {
        Coproduct::Extraction => forest_and_quotient(alloc, forest, quotient)?,
        Coproduct::Recentring => left_and_right(alloc, forest.first()?, quotient)?,
    };
    Some(Term {
        trees,
        coefficient: coefficient(alloc, cut)?,
    })
}

/// Puts the terms of the cuttings with this set of edges behind others.
fn put_terms(
    alloc: Global,
    types: &Types,
    coproduct: Coproduct,
    nodes: &[Node],
    set: u32,
    terms: &mut Vec<Term>,
) -> Option<()> {
    let is_root_touched = matches!(coproduct, Coproduct::Recentring);
    let cut = cut_at(alloc, nodes, set, is_root_touched)?;
    let degrees = bounding_degrees(alloc, types, coproduct, nodes, cut.as_slice())?;
    let choices = choices_at(alloc, types, cut.as_slice(), degrees.as_slice())?;
    for number in 0..count(choices.as_slice())? {
        let cutting = cutting(alloc, cut.as_slice(), choices.as_slice(), number)?;
        let counts = match coproduct {
            Coproduct::Extraction => are_extracted(alloc, types, cutting.as_slice())?,
            Coproduct::Recentring => is_recentred(alloc, types, cutting.as_slice())?,
        };
        if counts {
            terms
                .push(term_of(alloc, coproduct, cutting.as_slice())?)
                .ok()?;
        }
    }
    Some(())
}

/// Adds a term to the last one, where they have the same trees, or puts it behind.
fn add_term(terms: &mut Vec<Term>, term: Term) -> Option<()> {
    if let Some(last) = terms.last_mut()
        && last.trees == term.trees
    {
        last.coefficient = last.coefficient.checked_add(term.coefficient)?;
        return Some(());
    }
    terms.push(term).ok()
}

/// The terms, sorted by their trees, and those with the same trees added up.
fn added_up(alloc: Global, mut terms: Vec<Term>) -> Option<Vec<Term>> {
    terms.sort_unstable_by(|s, t| s.trees.cmp(&t.trees));
    let mut sums = Vec::new(alloc);
    for term in terms {
        add_term(&mut sums, term)?;
    }
    Some(sums)
}

/// The terms of a coproduct of a tree: of each set of edges all cuttings, with every part of the
/// decorations of touched nodes and every shift of an edge that leaves a touched node by which
/// the component that it leaves (its branch, where the tree is recentred) keeps its sign by its
/// edges' degrees alone. What the cuttings give is tested when all is chosen. `None` for a tree of
/// more than 31 edges, where a number is out of its range, and for want of memory.
pub fn terms_of(alloc: Global, types: &Types, coproduct: Coproduct, t: &Tree) -> Option<Vec<Term>> {
    let nodes = nodes_of(alloc, t)?;
    let edges = u32::try_from(nodes.len().checked_sub(1)?).ok()?;
    let mut terms = Vec::new(alloc);
    for set in 0..1u32.checked_shl(edges)? {
        put_terms(alloc, types, coproduct, nodes.as_slice(), set, &mut terms)?;
    }
    added_up(alloc, terms)
}
