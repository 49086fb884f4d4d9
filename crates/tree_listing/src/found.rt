// What is found of the listing while trees are made.
ghost use Rattle.std.specs.Prelude.{◌≡◌, ◌<◌, [], length, OnOk, MatchOption};
ghost use Rattle.std.specs.List.Sorted.{IsStrictlySortedBy};
ghost use Rattle.std.specs.declared.option.Option.TheVariants.{Some, None};
ghost use Rattle.tree_pool.specs.declared.node.TreeId.{TreeId};
ghost use Rattle.std.specs.BTreeSet.{insert_key};
ghost use Rattle.std.specs.List.{All};
ghost use Rattle.std.specs.Option.{option_map};
ghost use Rattle.plain_trees.specs.Degree.{planted};
ghost use Rattle.conforming_trees.specs.Listed.{listing_order};
ghost use Rattle.tree_pool.specs.Content.{tree_at};
ghost use Rattle.tree_listing.specs.Levels.{trees};
ghost use Rattle.tree_listing.specs.Gathered.{IsThere, IsPlace, gathered, IsFoundIn, is_possible, first_of, with_tree};

use degree_numbers::Degree;
use plain_trees::is_kernel_type;
use std::alloc::{AllocError, Global};
use std::cmp::Ordering;
use tree_pool::{Pool, TreeId};

/// The numbers of the listed trees that are found, in the order of the listing, and of the first
/// tree of degree 0 in tree order.
#[derive(Drop)]
pub struct Found {
    pub listed: Vec<TreeId>,
    pub zero: Option<TreeId>,
}

impl Found {
    /// Nothing.
    pub fn new(alloc: Global) -> Found
        ensures listed { result.listed.items ≡ [] }
        ensures zero { result.zero ≡ None }
    {
        Found {
            listed: Vec::new(alloc),
            zero: None,
        }
    }
}

/// Whether a tree is planted.
fn is_planted(pool: &Pool<'_>, id: TreeId) -> bool
    requires { id.0 < length pool.now.trees }
    ensures { result ≡ planted pool.now.types (tree_at pool.now id.0) }
{
    let (n, edges) = pool.node(id);
    match edges {
        [e] => is_kernel_type(pool.types(), e.kind) && n.is_zero(),
        _ => false,
    }
}

/// Whether a tree is unplanted and has an edge.
fn is_possible(pool: &Pool<'_>, id: TreeId) -> bool
    requires { id.0 < length pool.now.trees }
    ensures { result ≡ is_possible pool.now.types (tree_at pool.now id.0) }
{
    0 < pool.edge_count(id) && !is_planted(pool, id)
}

/// The order of the listing.
fn order(pool: &Pool<'_>, a: TreeId, b: TreeId) -> Ordering
    requires known_a { a.0 < length pool.now.trees }
    requires known_b { b.0 < length pool.now.trees }
    ensures { result ≡ listing_order pool.now.types (tree_at pool.now a.0) (tree_at pool.now b.0) }
{
    let by_degree = pool.degree(a).order(&pool.degree(b));
    by_degree.then(pool.order(a, b))
}

/// The place of a tree among the listed ones, unless it is there.
fn place(pool: &Pool<'_>, listed: &[TreeId], id: TreeId) -> Option<usize>
    requires listed { All (λ i. i.0 < length pool.now.trees) listed.now }
    requires ascending { IsStrictlySortedBy (listing_order pool.now.types)
        (trees pool.now listed.now) }
    requires known { id.0 < length pool.now.trees }
    ensures { MatchOption result (IsThere pool.now.types (trees pool.now listed.now)
        (tree_at pool.now id.0)) (λ i. IsPlace pool.now.types (trees pool.now listed.now)
        (tree_at pool.now id.0) i) }
{
    let mut low = 0;
    let mut high = listed.len();
    while low < high {
        let middle = low + (high - low) / 2;
        match order(pool, id, listed[middle]) {
            Ordering::Less => high = middle,
            Ordering::Equal => return None,
            Ordering::Greater => low = middle + 1,
        }
    }
    Some(low)
}

/// Puts a tree at its place among the listed ones, unless it is there.
fn put_listed(pool: &Pool<'_>, listed: &mut Vec<TreeId>, id: TreeId) -> Result<(), AllocError>
    requires listed { All (λ i. i.0 < length pool.now.trees) listed.old.items }
    requires ascending { IsStrictlySortedBy (listing_order pool.now.types)
        (trees pool.now listed.old.items) }
    requires known { id.0 < length pool.now.trees }
    ensures trees { OnOk result (trees pool.now listed.new.items
        ≡ insert_key (listing_order pool.now.types) (trees pool.now listed.old.items)
        (tree_at pool.now id.0)) }
    ensures listed { OnOk result (All (λ i. i.0 < length pool.now.trees) listed.new.items) }
{
    if let Some(i) = place(pool, listed.as_slice(), id) {
        listed.insert(i, id)?;
    }
    Ok(())
}

/// The first of the tree of degree 0 that was found and this one.
fn first_of(pool: &Pool<'_>, zero: Option<TreeId>, id: TreeId) -> TreeId
    requires zero { (i : TreeId) → zero ≡ Some i → i.0 < length pool.now.trees }
    requires known { id.0 < length pool.now.trees }
    ensures tree { tree_at pool.now result.0
        ≡ first_of (option_map (λ i. tree_at pool.now i.0) zero) (tree_at pool.now id.0) }
    ensures known { result.0 < length pool.now.trees }
{
    match zero {
        Some(z) if !pool.order(id, z).is_lt() => z,
        _ => id,
    }
}

/// Puts a tree in where it is listed, or of degree 0.
pub fn put(pool: &Pool<'_>, found: &mut Found, id: TreeId) -> Result<(), AllocError>
    requires found { IsFoundIn pool.now found.old }
    requires ascending { IsStrictlySortedBy (listing_order pool.now.types)
        (gathered pool.now found.old).listed }
    requires known { id.0 < length pool.now.trees }
    ensures trees { OnOk result (gathered pool.now found.new ≡ with_tree pool.now.types
        (gathered pool.now found.old) (tree_at pool.now id.0)) }
    ensures found { OnOk result (IsFoundIn pool.now found.new) }
{
    if !is_possible(pool, id) {
        return Ok(());
    }
    match pool.degree(id).order(&Degree { a: 0, b: 0 }) {
        Ordering::Less => put_listed(pool, &mut found.listed, id),
        Ordering::Equal => {
            found.zero = Some(first_of(pool, found.zero, id));
            Ok(())
        }
        Ordering::Greater => Ok(()),
    }
}
