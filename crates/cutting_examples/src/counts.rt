// How many terms the coproducts of all listed trees of a file have.
ghost use Rattle.recentring_coproduct.specs.Held.{FitsPool};

use crate::listed::{Listed, listed_trees};
use bumpalo::Bump;
use coproduct_examples::{asked_extraction, asked_recentring};
use extraction_coproduct::{Tables, Work};
use recentring_coproduct::Recentrer;
use std::alloc::Global;
use tree_pool::{Pool, TreeId};

/// How many trees a file has, and how many terms a coproduct of them has, all together.
#[derive(Clone, Copy, Debug, PartialEq, Eq)]
pub struct Count {
    pub trees: usize,
    pub terms: usize,
}

/// The number of terms of the extraction coproduct of a tree.
fn extraction_count(alloc: Global, tables: &mut Tables<'_>, id: TreeId) -> Option<usize> {
    let mut work = Work { tables: 0 };
    let terms = asked_extraction(alloc, tables, id, &mut work)?.ok()?;
    Some(terms.len())
}

/// The number of terms of the recentring coproduct of a tree.
fn recentring_count<'a>(
    alloc: Global,
    recentrer: &mut Recentrer<'a>,
    pool: &mut Pool<'a>,
    id: TreeId,
) -> Option<usize>
    requires { FitsPool recentrer.old pool.old }
    ensures { FitsPool recentrer.new pool.new }
{
    let terms = asked_recentring(alloc, recentrer, pool, id)?.ok()?;
    Some(terms.len())
}

/// The terms of the extraction coproducts of all listed trees of the completed rule of a file.
pub fn extraction_terms(alloc: Global, file: &[u8]) -> Option<Count> {
    let arena = Bump::new(alloc);
    let Listed { eq, trees, pool } = listed_trees(alloc, &arena, file)?;
    let mut tables = Tables::new(alloc, &arena, &eq.types, pool).ok()?;
    let mut terms = 0usize;
    for id in trees.as_slice() {
        terms = terms.checked_add(extraction_count(alloc, &mut tables, *id)?)?;
    }
    Some(Count {
        trees: trees.as_slice().len(),
        terms,
    })
}

/// The terms of the recentring coproducts of all listed trees of the completed rule of a file.
pub fn recentring_terms(alloc: Global, file: &[u8]) -> Option<Count> {
    let arena = Bump::new(alloc);
    let Listed {
        trees,
        mut pool,
        ..
    } = listed_trees(alloc, &arena, file)?;
    let Ok(mut recentrer) = Recentrer::new(alloc, &arena) else {
        return None;
    };
    let mut terms = 0usize;
    for id in trees.as_slice() {
        let more = recentring_count(alloc, &mut recentrer, &mut pool, *id)?;
        terms = terms.checked_add(more)?;
    }
    Some(Count {
        trees: trees.as_slice().len(),
        terms,
    })
}
