// Trees and forests by number, on the types of the KPZ equation.
ghost use Rattle.std.specs.Prelude.{◌≡◌, ◌∷◌, [], IfOk};
ghost use Rattle.known_types.specs.Known.{kpz};
ghost use Rattle.tree_pool.specs.Content.{Holds};
ghost use Rattle.tree_pool.specs.Forests.{Fits};
ghost use Rattle.tree_examples.specs.Example.{noise_and_slope, IsExample};

use bumpalo::Bump;
use degree_numbers::{Degree, Multi, TypeId};
use known_types::kpz_types;
use std::alloc::Global;
use std::cmp::Ordering;
use tree_pool::{EdgeTo, ForestId, ForestPool, Pool, PoolError, TreeId};

const XI: TypeId = TypeId(0);

const U: TypeId = TypeId(1);

/// The numbers of `[]`, `[xi]` and `[u'(0,1)[xi]]`.
#[derive(Clone, Copy)]
pub struct Example {
    pub empty: TreeId,
    pub noise: TreeId,
    pub slope: TreeId,
}

/// One derivative in space.
fn space() -> Multi
    ensures { result.entries ≡ 0 ∷ 1 ∷ 0 ∷ 0 ∷ 0 ∷ [] }
{
    Multi {
        entries: [0, 1, 0, 0, 0],
    }
}

/// Puts the trees of the example into a pool.
pub fn intern_example(alloc: Global, pool: &mut Pool<'_>) -> Result<Example, PoolError>
    requires { pool.old.types ≡ kpz }
    ensures { IfOk result (λ x. IsExample pool.new x.empty.0 x.noise.0 x.slope.0) }
{
    let empty = pool.intern_node(alloc, Multi::zero(), &[])?;
    let noise = pool.plant(alloc, XI, Multi::zero(), empty)?;
    let slope = pool.plant(alloc, U, space(), noise)?;
    Ok(Example {
        empty,
        noise,
        slope,
    })
}

/// The number of `[xi*u'(0,1)[xi]]`, by its edges in either order.
pub fn intern_by_edges(
    alloc: Global,
    pool: &mut Pool<'_>,
    x: &Example,
    turned: bool,
) -> Result<TreeId, PoolError>
    requires { IsExample pool.old x.now.empty.0 x.now.noise.0 x.now.slope.0 }
    ensures example { IfOk result (λ id. IsExample pool.new x.now.empty.0 x.now.noise.0 x.now.slope.0) }
    ensures tree { IfOk result (λ id. Holds pool.new id.0 noise_and_slope) }
{
    let xi = EdgeTo {
        kind: XI,
        p: Multi::zero(),
        child: x.empty,
    };
    let u = EdgeTo {
        kind: U,
        p: space(),
        child: x.noise,
    };
    if turned {
        pool.intern_node(alloc, Multi::zero(), &[u, xi])
    } else {
        pool.intern_node(alloc, Multi::zero(), &[xi, u])
    }
}

/// The number of the same tree, as a product.
pub fn intern_by_product(
    alloc: Global,
    pool: &mut Pool<'_>,
    x: &Example,
) -> Result<TreeId, PoolError>
    requires { IsExample pool.old x.now.empty.0 x.now.noise.0 x.now.slope.0 }
    ensures example { IfOk result (λ id. IsExample pool.new x.now.empty.0 x.now.noise.0 x.now.slope.0) }
    ensures tree { IfOk result (λ id. Holds pool.new id.0 noise_and_slope) }
{
    pool.product(alloc, x.slope, x.noise)
}

/// The number of the copy of that tree.
pub fn intern_copy(alloc: Global, pool: &mut Pool<'_>, id: TreeId) -> Result<TreeId, PoolError>
    requires types { pool.old.types ≡ kpz }
    requires tree { Holds pool.old id.0 noise_and_slope }
    ensures { IfOk result (λ copy. Holds pool.new copy.0 noise_and_slope) }
{
    let copy = pool.plain(alloc, id)?;
    pool.intern_tree(alloc, &copy)
}

/// The numbers of `[xi*u'(0,1)[xi]]` by its edges in either order and as a product.
pub fn intern_three_ways(
    alloc: Global,
    pool: &mut Pool<'_>,
    x: &Example,
) -> Result<[usize; 3], PoolError>
    requires { IsExample pool.old x.now.empty.0 x.now.noise.0 x.now.slope.0 }
{
    let tree = intern_by_edges(alloc, pool, x, false)?;
    let turned = intern_by_edges(alloc, pool, x, true)?;
    let product = intern_by_product(alloc, pool, x)?;
    Ok([tree.0, turned.0, product.0])
}

/// These numbers in a new pool, and how many trees it then has.
pub fn tree_numbers(alloc: Global) -> Result<([usize; 3], usize), PoolError> {
    let arena = Bump::new(alloc);
    let types = kpz_types(alloc)?;
    let mut pool = Pool::new(alloc, &arena, &types)?;
    let x = intern_example(alloc, &mut pool)?;
    let numbers = intern_three_ways(alloc, &mut pool, &x)?;
    Ok((numbers, pool.len()))
}

/// The number of that tree and of its copy in a new pool, its number of edges and its degree, and how `[u'(0,1)[xi]]` compares with it.
pub fn tree_facts(alloc: Global) -> Result<([usize; 2], u32, Degree, Ordering), PoolError> {
    let arena = Bump::new(alloc);
    let types = kpz_types(alloc)?;
    let mut pool = Pool::new(alloc, &arena, &types)?;
    let x = intern_example(alloc, &mut pool)?;
    let product = intern_by_product(alloc, &mut pool, &x)?;
    let edges = pool.edge_count(product);
    let degree = pool.degree(product);
    let order = pool.order(x.slope, product);
    let copy = intern_copy(alloc, &mut pool, product)?;
    Ok(([product.0, copy.0], edges, degree, order))
}

/// The number of the forest of `[xi]` and `[u'(0,1)[xi]]` by its trees in either order, its trees, and those of its join with itself.
fn pair_of_trees<'a>(
    alloc: Global,
    pool: &Pool<'a>,
    x: &Example,
    forests: &mut ForestPool<'a>,
) -> Result<([usize; 2], Vec<TreeId>, Vec<TreeId>), PoolError>
    requires example { IsExample pool.now x.now.empty.0 x.now.noise.0 x.now.slope.0 }
    requires fits { Fits forests.old pool.now }
{
    let pair = forests.intern(alloc, pool, &[x.slope, x.noise])?;
    let trees = forests.trees(pair).to_vec(alloc)?;
    let twice = forests.join(alloc, pool, pair, pair)?;
    let joined = forests.trees(twice).to_vec(alloc)?;
    let turned = forests.intern(alloc, pool, &[x.noise, x.slope])?;
    Ok(([pair.0, turned.0], trees, joined))
}

/// How the forest of `[xi]` and `[u'(0,1)[xi]]` compares with that of `[u'(0,1)[xi]]` twice and once, and a number of no forest with that of the pair.
fn orders_of_forests<'a>(
    alloc: Global,
    pool: &Pool<'a>,
    x: &Example,
    forests: &mut ForestPool<'a>,
) -> Result<[Ordering; 3], PoolError>
    requires example { IsExample pool.now x.now.empty.0 x.now.noise.0 x.now.slope.0 }
    requires fits { Fits forests.old pool.now }
{
    let pair = forests.intern(alloc, pool, &[x.slope, x.noise])?;
    let twice = forests.intern(alloc, pool, &[x.slope, x.slope])?;
    let once = forests.intern(alloc, pool, &[x.slope])?;
    let none = ForestId(forests.len());
    Ok([
        forests.order(pool, pair, twice),
        forests.order(pool, pair, once),
        forests.order(pool, none, pair),
    ])
}

/// What `pair_of_trees` answers in new pools.
pub fn forest_facts(alloc: Global) -> Result<([usize; 2], Vec<TreeId>, Vec<TreeId>), PoolError> {
    let arena = Bump::new(alloc);
    let types = kpz_types(alloc)?;
    let mut pool = Pool::new(alloc, &arena, &types)?;
    let x = intern_example(alloc, &mut pool)?;
    let mut forests = ForestPool::new(alloc, &arena)?;
    pair_of_trees(alloc, &pool, &x, &mut forests)
}

/// What `orders_of_forests` answers in new pools.
pub fn forest_orders(alloc: Global) -> Result<[Ordering; 3], PoolError> {
    let arena = Bump::new(alloc);
    let types = kpz_types(alloc)?;
    let mut pool = Pool::new(alloc, &arena, &types)?;
    let x = intern_example(alloc, &mut pool)?;
    let mut forests = ForestPool::new(alloc, &arena)?;
    orders_of_forests(alloc, &pool, &x, &mut forests)
}

#[cfg(test)]
mod tests {
    use super::*;
    use crate::beside_a_walk::sizes_beside_a_walk;
    use crate::slices::{edges_without_pool, trees_without_forest_pool};

    #[test]
    fn a_tree_has_one_number(rt: HostRuntime) {
        let (numbers, held) = tree_numbers(rt.alloc()).expect(&rt, "memory");
        assert!(rt; numbers == [3, 3, 3]);
        assert!(rt; held == 4);
    }

    #[test]
    fn edges_degree_and_order(rt: HostRuntime) {
        let (numbers, edges, degree, order) = tree_facts(rt.alloc()).expect(&rt, "memory");
        assert!(rt; numbers == [3, 3]);
        assert!(rt; edges == 3);
        assert!(rt; degree == Degree { a: -4, b: -4 });
        assert!(rt; order == Ordering::Less);
    }

    #[test]
    fn a_forest_has_one_number(rt: HostRuntime) {
        let (numbers, trees, joined) = forest_facts(rt.alloc()).expect(&rt, "memory");
        let noise = TreeId(1);
        let slope = TreeId(2);
        assert!(rt; numbers == [0, 0]);
        assert!(rt; trees.as_slice() == [noise, slope].as_slice());
        assert!(rt; joined.as_slice() == [noise, noise, slope, slope].as_slice());
    }

    #[test]
    fn forests_go_by_length_first(rt: HostRuntime) {
        let orders = forest_orders(rt.alloc()).expect(&rt, "memory");
        assert!(rt; orders == [Ordering::Less, Ordering::Greater, Ordering::Less]);
    }

    #[test]
    fn a_walk_gives_the_same_numbers(rt: HostRuntime) {
        assert!(rt; sizes_beside_a_walk(rt.alloc()) == Some((true, [359, 359])));
    }

    #[test]
    fn slices_are_read_without_their_pools(rt: HostRuntime) {
        assert!(rt; edges_without_pool(rt.alloc()).expect(&rt, "memory") == 2);
        assert!(rt; trees_without_forest_pool(rt.alloc()).expect(&rt, "memory") == 2);
    }
}
