use crate::name_bytes::NameBytes;

/// What is expected next.
#[derive(Clone, Copy)]
pub enum At {
    /// The first bracket.
    Start,
    /// A factor.
    Factor,
    /// More of a name, or what follows it.
    Name,
    /// The parenthesis of an edge's multiindex.
    Quote,
    /// The first digit of an entry.
    Entry,
    /// More digits, or what follows an entry.
    Digits,
    /// What follows a factor.
    After,
    /// Nothing.
    Done,
}

/// What the bytes so far leave open.
#[derive(Drop)]
pub struct State {
    pub at: At,
    /// No factor stands before this one.
    pub first: bool,
    pub name: NameBytes,
    /// The factor may end here.
    pub ends: bool,
    /// The factor may have a subtree here.
    pub opens: bool,
    /// Entries after this one.
    pub left: u8,
    /// Open brackets.
    pub depth: usize,
}
