// The bounds of a tree, from those of its parts.
ghost use Rattle.std.specs.Prelude.{◌≡◌, ◌<◌, ◌≤◌, ◌^◌, ℕ, List, sum, length};
ghost use Rattle.degree_numbers.specs.declared.types.Types.{Types};
ghost use Rattle.degree_numbers.specs.Types.{AreTypes};
ghost use Rattle.exact_sums.specs.Saturating.{saturated};
ghost use Rattle.plain_trees.specs.Plain.{Plain, bare, graft};
ghost use Rattle.cutting_tables.specs.PoolLows.{AreLows, AreWithin};
ghost use Rattle.coefficient_bounds.specs.Bounds.{missed, shift_room, all_sums, sums_within};
ghost use Rattle.coefficient_bounds.specs.PoolSums.{AreTreeSums, AreModest};

use cutting_tables::Lows;
use degree_numbers::{Multi, TypeId, Types};
use exact_sums::Saturated;
use plain_trees::edge_degree;

/// A power, as a value.
fn power(base: u32, exponent: u64) -> Saturated
    ensures { result ≡ saturated (base ^ exponent) }
{
    let base = Saturated::of(u128::from(base));
    let mut value = Saturated::of(1);
    for _ in 0..exponent {
        value = value.times(base);
    }
    value
}

/// By how much, in units, the degree of a component is above the least one at least, where it does
/// not hold the edge of this type and derivative decoration, above which stands a tree with the
/// lows `above`.
fn missed(types: &Types, kind: TypeId, p: &Multi, above: &Lows) -> u64
    requires types { AreTypes types.now }
    requires known { kind.0 < length types.now.list }
    requires small { sum p.now.entries ≤ 4096 }
    requires within { AreWithin above.now }
    ensures { (c : Plain) → AreLows types.now c above.now →
        result ≡ missed types.now kind.0 p.now.entries c }
{
    let edge = edge_degree(types, kind, p);
    let taken = edge.a + above.low;
    taken.min(0).unsigned_abs()
}

/// The most that the entries of a shift of that edge sum up to, in a component of an excess of at
/// most `most` units.
fn shift_room(types: &Types, most: u64, kind: TypeId, p: &Multi, above: &Lows) -> u64
    requires types { AreTypes types.now }
    requires known { kind.0 < length types.now.list }
    requires small { sum p.now.entries ≤ 4096 }
    requires within { AreWithin above.now }
    ensures { (c : Plain) → AreLows types.now c above.now →
        result ≡ shift_room types.now most kind.0 p.now.entries c }
{
    most.saturating_sub(missed(types, kind, p, above)) / types.units.den.unsigned_abs()
}

/// Bounds of the sums of the coefficients of the cuttings of a tree, with what one more edge at its
/// root takes to make those of the new tree.
#[derive(Clone, Copy, Debug, PartialEq, Eq)]
pub struct TreeSums {
    /// Of the cuttings with no edge of the set at the root.
    pub idle: Saturated,
    /// Of those in which the root counts as touched.
    pub touched: Saturated,
    /// The sum of all entries of the decorations of the nodes.
    pub nodes: u32,
    pub lows: Lows,
}

impl TreeSums {
    /// Those of a tree with one node, decorated by `n`.
    pub fn of_node(n: &Multi) -> TreeSums
        requires { sum n.now.entries ≤ 4096 }
        ensures { (ty : Types) (b : ℕ) → AreTreeSums ty b (bare n.now.entries) result }
    {
        let nodes = n.total();
        TreeSums {
            idle: Saturated::of(1),
            touched: power(2, u64::from(nodes)),
            nodes,
            lows: Lows::of_node(),
        }
    }

    /// The bound of the sum over all cuttings.
    pub fn all(&self) -> Saturated
        ensures { (ty : Types) (b : ℕ) (t : Plain) → AreTreeSums ty b t self.now →
            result ≡ saturated (all_sums (sums_within ty b t)) }
    {
        self.idle.plus(self.touched)
    }

    /// Those of a tree with one more edge at its root, of this type and derivative decoration, and
    /// with the tree above it whose bounds are `above`; for components with an excess of at most
    /// `most` units.
    pub fn with_edge(
        &self,
        types: &Types,
        most: u64,
        kind: TypeId,
        p: &Multi,
        above: &TreeSums,
    ) -> TreeSums
        requires types { AreTypes types.now }
        requires known { kind.0 < length types.now.list }
        requires small { sum p.now.entries ≤ 4096 }
        requires modest { AreModest self.now }
        requires modest_above { AreModest above.now }
        ensures { (c t : Plain) → AreTreeSums types.now most c above.now →
            AreTreeSums types.now most t self.now →
            AreTreeSums types.now most (graft kind.0 p.now.entries c t) result }
    {
        let lows = self.lows.with_edge(types, kind, p, &above.lows);
        let room = shift_room(types, most, kind, p, &above.lows);
        let roots = power(1 + above.nodes, u64::from(self.nodes));
        let shifts = power(1 + u32::from(types.dims), room);
        let closed = above.all();
        let opened = roots.times(above.touched).plus(shifts.times(closed));
        TreeSums {
            idle: closed.times(self.idle),
            touched: opened.times(self.touched),
            nodes: above.nodes + self.nodes,
            lows,
        }
    }
}
