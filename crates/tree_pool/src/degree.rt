// Degrees of the trees of a pool.
ghost use Rattle.std.specs.Prelude.{◌≡◌, ◌<◌, length};
ghost use Rattle.degree_numbers.specs.Types.{AreTypes};
ghost use Rattle.plain_trees.specs.Degree.{degree_of, HasTypes};
ghost use Rattle.plain_trees.specs.Plain.{IsSmall};
ghost use Rattle.tree_pool.specs.Content.{tree_at, tree_over, AreBelow};

use crate::node::{EdgeTo, TreeId};
use crate::pool::Pool;
use degree_numbers::{Degree, Multi, Types};
use plain_trees::{edge_degree, node_degree};

impl<'a> Pool<'a> {
    /// The degree of a tree, by the types of the pool (Bruned, Hairer, Zambotti): the sum of |type|
    /// - |p|_s over its edges and of |n|_s over its nodes. Takes no memory and no walk.
    pub fn degree(&self, id: TreeId) -> Degree
        requires { id.0 < length self.now.trees }
        ensures { result ≡ degree_of self.now.types (tree_at self.now id.0) }
    {
        self.measures(id).degree
    }

    /// The degree of the tree with this decoration and these edges at its root, by the types of the
    /// pool, which are passed.
    pub(crate) fn degree_over(&self, types: &Types, n: &Multi, edges: &[EdgeTo]) -> Degree
        requires types { types.now ≡ self.now.types }
        requires accepted { AreTypes types.now }
        requires known { AreBelow (length self.now.trees) edges.now }
        requires tree { HasTypes types.now (tree_over self.now.trees n.now.entries edges.now) }
        requires small { IsSmall (tree_over self.now.trees n.now.entries edges.now) }
        ensures { result ≡ degree_of types.now (tree_over self.now.trees n.now.entries edges.now) }
    {
        let mut sum = Degree { a: 0, b: 0 };
        for e in edges {
            let above = self.degree(e.child);
            sum = sum.plus(&edge_degree(types, e.kind, &e.p).plus(&above));
        }
        sum.plus(&node_degree(types, n))
    }
}
