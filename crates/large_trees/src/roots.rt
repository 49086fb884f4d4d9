// What the root of a tree adds to its excess.
ghost use Rattle.std.specs.Prelude.{◌≡◌, ◌≤◌, ◌*◌, pos};
ghost use Rattle.degree_numbers.specs.Degree.{IsWithin};
ghost use Rattle.conforming_trees.specs.Conforming.{labels};
ghost use Rattle.large_trees.specs.Lines.{standard, IsSmall};
ghost use Rattle.large_trees.specs.Large.{planted_lack, degree_at_root};

use crate::excess::Excess;
use degree_numbers::{Kind, Types};
use normal_rule::NodeType;

/// The entries of a decoration that a root of a node type needs so that its tree is not planted:
/// one where its only edge is that of a kernel.
pub fn planted_lack(types: &Types, node: &NodeType) -> usize
    ensures value { result ≡ planted_lack types.now (labels node.now) }
    ensures most { result ≤ 1 }
{
    match node.edges.as_slice() {
        [edge] => match types.list.get(edge.kind.0 as usize) {
            Some(entry) if entry.kind == Kind::Kernel => 1,
            _ => 0,
        },
        _ => 0,
    }
}

// What entries of a decoration add.
fn decorations(unit: u64, entries: usize) -> Excess
    requires unit { unit ≤ 10000000 }
    requires entries { entries ≤ 65 }
    ensures value { result ≡ standard (pos (unit * entries)) }
    ensures small { IsWithin result.a 650000000 }
{
    Excess {
        a: i128::from(unit * entries as u64),
        b: 0,
    }
}

/// The degree of a tree, of its excess, the regularity of its node type and the entries of a
/// decoration at its root.
pub fn root_degree(excess: &Excess, regularity: &Excess, unit: u64, entries: usize) -> Excess
    requires excess { IsSmall excess.now }
    requires regularity { IsWithin regularity.now.a 20000000000000000000000000000000000000 }
    requires standard { regularity.now.b ≡ pos 0 }
    requires unit { unit ≤ 10000000 }
    requires entries { entries ≤ 65 }
    ensures { result ≡ degree_at_root regularity.now.a unit excess.now entries }
{
    excess.plus(regularity).plus(&decorations(unit, entries))
}
