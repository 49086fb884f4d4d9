// The trees with one number of edges, by rows of a rule.
use degree_numbers::{Degree, TypeId};
use normal_rule::EdgeType;
use sqlite_items::Items;
use tree_pool::{EdgeTo, TreeId};

/// A stem: its number, and the place of the node type of its root in the plan of its row.
#[derive(Clone, Copy, Debug, PartialEq, Eq)]
pub struct Stem {
    pub id: TreeId,
    pub node: usize,
}

/// The stems and the wholes with one number of edges, on the row of a kernel, and a degree that is
/// at most that of each whole.
#[derive(Debug, Drop)]
pub struct RowLevel {
    pub kernel: TypeId,
    pub stems: Items<Stem>,
    pub wholes: Items<TreeId>,
    pub least: Degree,
}

/// These of all rows, in their order.
#[derive(Debug, Drop)]
pub struct Level {
    pub rows: Items<RowLevel>,
}

/// A place for one more edge: the stem in front of whose edges it is to stand, its type, the place
/// of the node type that the root then has with the reserve of that node type, and the most of the
/// row.
#[derive(Clone, Copy, Debug, PartialEq, Eq)]
pub struct Site {
    pub rest: TreeId,
    pub edge: EdgeType,
    pub node: usize,
    pub reserve: Degree,
    pub most: Degree,
}

/// A stem that is to be made: the edge in front, the stem behind it, and the place of the node type
/// of the root.
#[derive(Clone, Copy, Debug, PartialEq, Eq)]
pub struct Growth {
    pub edge: EdgeTo,
    pub rest: TreeId,
    pub node: usize,
}
