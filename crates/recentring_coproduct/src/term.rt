// Terms of the recentring coproduct.
use tree_pool::TreeId;

/// A term of the recentring coproduct of a tree: the left tree, which holds the root, the right
/// tree, and the coefficient of the two.
#[derive(Clone, Copy, Debug, PartialEq, Eq)]
pub struct RightTerm {
    pub coefficient: i128,
    pub left: TreeId,
    pub right: TreeId,
}
