// A connection that was taken.

/// A connection that was taken: its number, how many of its bytes were read, and where what was
/// written on it begins and ends.
#[derive(Clone, Copy, Debug, PartialEq, Eq)]
pub struct Mark {
    pub connection: usize,
    pub read: usize,
    pub start: usize,
    pub end: usize,
}
