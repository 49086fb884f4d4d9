// Tree order of the trees of a pool.
ghost use Rattle.std.specs.Prelude.{◌≡◌, ◌<◌, length};
ghost use Rattle.plain_trees.specs.Plain.{tree_order};
ghost use Rattle.plain_trees.specs.View.{edge_order_of};
ghost use Rattle.tree_pool.specs.Content.{tree_at, edge_over, id_order};

use crate::node::{EdgeTo, TreeId};
use crate::pool::Pool;
use std::cmp::Ordering;

impl<'a> Pool<'a> {
    /// Tree order of two trees, by their numbers: the number of edges, then the root's decoration,
    /// then the lists of edges, lexicographically in edge order. A number that is that of no tree
    /// comes first, so that a closure over this call has no condition. Takes no memory.
    pub fn order(&self, a: TreeId, b: TreeId) -> Ordering
        ensures { result ≡ id_order self.now.trees a.0 b.0 }
    {
        match (a.0 < self.len(), b.0 < self.len()) {
            (true, true) => self.tree_order(a, b),
            (known_a, known_b) => known_a.cmp(&known_b),
        }
    }

    /// Tree order of two trees. A tree that both trees share is not walked.
    #[cycle(tree_order)]
    fn tree_order(&self, a: TreeId, b: TreeId) -> Ordering
        requires known_a { a.0 < length self.now.trees }
        requires known_b { b.0 < length self.now.trees }
        ensures { result ≡ tree_order (tree_at self.now a.0) (tree_at self.now b.0) }
    {
        if a.0 == b.0 {
            return Ordering::Equal;
        }
        match self.edge_count(a).cmp(&self.edge_count(b)) {
            Ordering::Equal => {}
            other => return other,
        }
        let (n, xs) = self.node(a);
        let (m, ys) = self.node(b);
        match n.order(&m) {
            Ordering::Equal => {}
            other => return other,
        }
        for i in 0..xs.len().min(ys.len()) {
            match self.edge_order(&xs[i], &ys[i]) {
                Ordering::Equal => {}
                other => return other,
            }
        }
        xs.len().cmp(&ys.len())
    }

    /// Edge order: the type, then the derivative decoration, then the tree above in tree order.
    #[cycle(tree_order)]
    pub(crate) fn edge_order(&self, x: &EdgeTo, y: &EdgeTo) -> Ordering
        requires known_x { x.now.child.0 < length self.now.trees }
        requires known_y { y.now.child.0 < length self.now.trees }
        ensures { result ≡ edge_order_of (edge_over self.now.trees x.now)
            (edge_over self.now.trees y.now) }
    {
        match x.kind.0.cmp(&y.kind.0) {
            Ordering::Equal => {}
            other => return other,
        }
        match x.p.order(&y.p) {
            Ordering::Equal => {}
            other => return other,
        }
        self.tree_order(x.child, y.child)
    }
}
