// What a sum asks of characters.
use tree_pool::TreeId;

/// What a sum asks of a term: the tree by which is summed, the coefficient, the trees that the
/// first character is asked for, and the tree that the second is asked for.
#[derive(Clone, Copy, Debug)]
pub(crate) struct Asked<'a> {
    pub key: TreeId,
    pub coefficient: i128,
    pub first: &'a [TreeId],
    pub second: Option<TreeId>,
}
