// What a pool keeps of each of its trees.
ghost use Rattle.std.specs.Prelude.{◌≡◌, ◌<◌, ◌≤◌, [], length};
ghost use Rattle.plain_trees.specs.Plain.{edge_count_of, decoration_sum_of, IsSmall};
ghost use Rattle.tree_pool.specs.Content.{tree_at, tree_over, AreBelow, IsKept};
ghost use Rattle.tree_pool.specs.Nodes.{measure};

use crate::node::{EdgeTo, Measures, TreeId};
use crate::pool::Pool;
use degree_numbers::Multi;

impl<'a> Pool<'a> {
    /// The number of edges of a tree. Takes no memory and no walk.
    pub fn edge_count(&self, id: TreeId) -> u32
        requires { id.0 < length self.now.trees }
        ensures { result ≡ edge_count_of (tree_at self.now id.0) }
    {
        self.measures(id).edges
    }

    /// The sum of all entries of the decorations of a tree. Takes no memory and no walk.
    pub fn decoration_sum(&self, id: TreeId) -> u32
        requires { id.0 < length self.now.trees }
        ensures sum { result ≡ decoration_sum_of (tree_at self.now id.0) }
        ensures most { result ≤ 4096 }
    {
        self.laws();
        self.measures(id).decorations
    }

    /// The measures of a tree.
    #[tactic(auto, using(crate::proofs::Trees::trees_facts))]
    pub(crate) fn measures(&self, id: TreeId) -> Measures
        requires { id.0 < length self.now.trees }
        ensures { result ≡ measure self.now.types (tree_at self.now id.0) }
    {
        self.measures[id.0]
    }

    /// The measures of the tree with this decoration and these edges at its root.
    pub(crate) fn measures_over(&self, n: &Multi, edges: &[EdgeTo]) -> Measures
        requires known { AreBelow (length self.now.trees) edges.now }
        requires kept { IsKept self.now.types (tree_over self.now.trees n.now.entries edges.now) }
        ensures { result ≡ measure self.now.types (tree_over self.now.trees n.now.entries
            edges.now) }
    {
        Measures {
            degree: self.degree_over(self.types(), n, edges),
            edges: self.edges_over(edges),
            decorations: self.decorations_over(n, edges),
        }
    }

    /// Its number of edges.
    fn edges_over(&self, edges: &[EdgeTo]) -> u32
        requires known { AreBelow (length self.now.trees) edges.now }
        requires small { edge_count_of (tree_over self.now.trees [] edges.now) ≤ 24 }
        ensures { result ≡ edge_count_of (tree_over self.now.trees [] edges.now) }
    {
        let mut count = 0;
        for e in edges {
            count += 1 + self.edge_count(e.child);
        }
        count
    }

    /// Its decoration sum.
    fn decorations_over(&self, n: &Multi, edges: &[EdgeTo]) -> u32
        requires known { AreBelow (length self.now.trees) edges.now }
        requires small { IsSmall (tree_over self.now.trees n.now.entries edges.now) }
        ensures { result ≡ decoration_sum_of (tree_over self.now.trees n.now.entries edges.now) }
    {
        let mut sum = 0;
        for e in edges {
            sum += e.p.total() + self.decoration_sum(e.child);
        }
        sum + n.total()
    }
}
