// What goes into a keeper and comes out of it.
use crate::project_name::ProjectName;

/// The value of a tree, both as texts. Rows are in the order of the bytes of their trees, then of
/// their values.
#[derive(Debug, PartialEq, Eq, PartialOrd, Ord, Drop)]
pub struct StoredRow {
    pub tree: Vec<u8>,
    pub value: Vec<u8>,
}

/// A context of an old store, and the context under which its rows are to stand.
#[derive(Debug, PartialEq, Eq, Drop)]
pub struct ContextPair {
    pub old: Vec<u8>,
    pub new: Vec<u8>,
}

/// A project and its file.
#[derive(Debug, PartialEq, Eq, Drop)]
pub struct KeptProject {
    pub name: ProjectName,
    pub file: Vec<u8>,
}

/// The value of a tree in a context, all as texts.
#[derive(Debug, PartialEq, Eq, Drop)]
pub struct KeptRow {
    pub context: Vec<u8>,
    pub tree: Vec<u8>,
    pub value: Vec<u8>,
}
