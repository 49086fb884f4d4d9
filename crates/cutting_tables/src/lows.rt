// How low the degrees of components are, for trees of a pool.
ghost use Rattle.std.specs.Prelude.{◌≡◌, ◌<◌, ◌≤◌, ◌+ℤ◌, ℕ, List, FitsSigned, sum, length};
ghost use Rattle.std.specs.Int.{w64};
ghost use Rattle.degree_numbers.specs.declared.types.Types.{Types};
ghost use Rattle.degree_numbers.specs.Types.{AreTypes};
ghost use Rattle.plain_trees.specs.Plain.{Plain, bare, graft, IsSmall};
ghost use Rattle.tree_pool.specs.Content.{tree_at};
ghost use Rattle.cutting_tables.specs.declared.lows.Lows.{Lows};
ghost use Rattle.cutting_tables.specs.PoolLows.{AreLows, AreWithin};

use degree_numbers::{Multi, TypeId, Types};
use plain_trees::edge_degree;
use tree_pool::{Pool, TreeId};

/// The sum of two standard parts.
fn sum_of(x: i64, y: i64) -> i64
    requires { FitsSigned w64 (x +ℤ y) }
    ensures { result ≡ x +ℤ y }
{
    x + y
}

/// How low the degrees of components of a tree can be: standard parts, in units of one over the
/// common denominator.
#[derive(Clone, Copy, Debug, PartialEq, Eq)]
pub struct Lows {
    /// The least degree of a component with the root of the tree as its lowest node.
    pub low: i64,
    /// The least such number of the trees that stand above the nodes of the tree.
    pub lowest: i64,
}

impl Lows {
    /// The lows of a tree with one node.
    pub fn of_node() -> Lows
        ensures within { AreWithin result }
        ensures lows { (ty : Types) (n : List ℕ) → AreLows ty (bare n) result }
    {
        Lows { low: 0, lowest: 0 }
    }

    /// The lows of a tree with one more edge at its root, of this type and derivative decoration,
    /// and with the tree above it whose lows are `above`.
    pub fn with_edge(&self, types: &Types, kind: TypeId, p: &Multi, above: &Lows) -> Lows
        requires types { AreTypes types.now }
        requires known { kind.0 < length types.now.list }
        requires small { sum p.now.entries ≤ 4096 }
        requires within { AreWithin self.now }
        requires within_above { AreWithin above.now }
        ensures { (c t : Plain) → AreLows types.now c above.now → AreLows types.now t self.now →
            AreLows types.now (graft kind.0 p.now.entries c t) result }
    {
        let edge = edge_degree(types, kind, p);
        let taken = sum_of(edge.a, above.low);
        let low = sum_of(taken.min(0), self.low);
        let rest = above.lowest.min(self.lowest);
        Lows {
            low,
            lowest: low.min(rest),
        }
    }
}

/// The lows of a tree of a pool. Takes no memory.
pub fn lows_of(pool: &Pool<'_>, id: TreeId) -> Lows
    requires { id.0 < length pool.now.trees }
    ensures lows { AreLows pool.now.types (tree_at pool.now id.0) result }
    ensures within { AreWithin result }
{
    pool.laws();
    let node = pool.node(id);
    let edges = node.1;
    let mut lows = Lows::of_node();
    let mut i = edges.len();
    while i > 0 {
        i -= 1;
        let e = edges[i];
        let above = lows_of(pool, e.child);
        lows = lows.with_edge(pool.types(), e.kind, &e.p, &above);
    }
    lows
}

/// No low of a small tree is out of the range of these numbers.
pub fn lows_are_within()
    ensures { (ty : Types) (t : Plain) (x : Lows) → AreTypes ty → IsSmall t → AreLows ty t x →
        AreWithin x }
{}
