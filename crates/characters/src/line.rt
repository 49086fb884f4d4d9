// Lines of a sum, and how products are summed by tree.
use tree_pool::TreeId;

/// A tree with its coefficient in a sum.
#[derive(Clone, Copy, Debug, PartialEq, Eq)]
pub struct Line {
    pub coefficient: i128,
    pub tree: TreeId,
}
