// Characters as tables.
use sqlite_items::Items;
use tree_pool::TreeId;

/// A tree of a pool with the value of a character at it.
#[derive(Clone, Copy, Debug, PartialEq, Eq)]
pub struct CharacterRow {
    pub tree: TreeId,
    pub value: i128,
}

/// A character, by its values at trees of a pool: rows in strictly ascending tree order, with
/// values of at most 2^127-1 in absolute value. On forests it is multiplicative, and 1 at the empty
/// tree, whatever a row says.
#[derive(Drop)]
pub struct Character {
    pub rows: Items<CharacterRow>,
}
