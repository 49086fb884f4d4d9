// Slices of an arena, read when the pool that gave them is gone. None can be kept past its arena: `.ci/loans` tries to.
use crate::pools::{intern_by_product, intern_example};
use bumpalo::Bump;
use known_types::kpz_types;
use std::alloc::Global;
use tree_pool::{ForestPool, Pool, PoolError};

/// The number of edges at the root of `[xi*u'(0,1)[xi]]`, read when the pool is gone.
pub fn edges_without_pool(alloc: Global) -> Result<usize, PoolError> {
    let arena = Bump::new(alloc);
    let types = kpz_types(alloc)?;
    let mut pool = Pool::new(alloc, &arena, &types)?;
    let x = intern_example(alloc, &mut pool)?;
    let product = intern_by_product(alloc, &mut pool, &x)?;
    let (_, edges) = pool.node(product);
    drop(pool);
    Ok(edges.len())
}

/// The number of trees of the forest of `[xi]` and `[u'(0,1)[xi]]`, read when the forest pool is gone.
pub fn trees_without_forest_pool(alloc: Global) -> Result<usize, PoolError> {
    let arena = Bump::new(alloc);
    let types = kpz_types(alloc)?;
    let mut pool = Pool::new(alloc, &arena, &types)?;
    let x = intern_example(alloc, &mut pool)?;
    let mut forests = ForestPool::new(alloc, &arena)?;
    let pair = forests.intern(alloc, &pool, &[x.slope, x.noise])?;
    let trees = forests.trees(pair);
    drop(forests);
    drop(pool);
    Ok(trees.len())
}
