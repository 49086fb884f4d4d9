// The keys of the lines of tables.
use tree_pool::{ForestId, TreeId};

/// What a cutting gives while the component of the root is open: the finished components, the part
/// of the root's component so far, and the quotient. Keys are compared by number.
#[derive(Clone, Copy, Debug, PartialEq, Eq, PartialOrd, Ord)]
pub struct OpenKey {
    pub above: ForestId,
    pub part: TreeId,
    pub quotient: TreeId,
}

/// What a cutting gives: its components and its quotient.
#[derive(Clone, Copy, Debug, PartialEq, Eq, PartialOrd, Ord)]
pub struct ExtractKey {
    pub forest: ForestId,
    pub quotient: TreeId,
}

/// What a cutting gives that recentres: the left and the right tree.
#[derive(Clone, Copy, Debug, PartialEq, Eq, PartialOrd, Ord)]
pub struct RightKey {
    pub left: TreeId,
    pub right: TreeId,
}
