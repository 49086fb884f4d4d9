// The order of the forests of a forest pool.
ghost use Rattle.std.specs.Prelude.{◌≡◌};
ghost use Rattle.tree_pool.specs.Forests.{numbers, list_order, forest_id_order};

use crate::forest::{ForestId, ForestPool};
use crate::node::TreeId;
use crate::pool::Pool;
use std::cmp::Ordering;

/// The order of the lists of trees with these numbers.
fn compared(pool: &Pool<'_>, xs: &[TreeId], ys: &[TreeId]) -> Ordering
    ensures { result ≡ list_order pool.now.trees (numbers xs.now) (numbers ys.now) }
{
    match xs.len().cmp(&ys.len()) {
        Ordering::Equal => {}
        other => return other,
    }
    for i in 0..xs.len() {
        match pool.order(xs[i], ys[i]) {
            Ordering::Equal => {}
            other => return other,
        }
    }
    Ordering::Equal
}

impl<'a> ForestPool<'a> {
    /// The order of two forests, by their numbers: the number of trees, then the lists of trees,
    /// lexicographically in tree order. A number that is that of no forest comes first, so that a
    /// closure over this call has no condition. Takes no memory.
    pub fn order(&self, pool: &Pool<'_>, f: ForestId, g: ForestId) -> Ordering
        ensures { result ≡ forest_id_order pool.now.trees self.now f.0 g.0 }
    {
        match (f.0 < self.len(), g.0 < self.len()) {
            (true, true) => compared(pool, self.trees(f), self.trees(g)),
            (known_f, known_g) => known_f.cmp(&known_g),
        }
    }
}
