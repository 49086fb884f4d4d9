// Terms as they are written.
use crate::denominator::Denominator;
use degree_numbers::Name;
use sqlite_items::Items;

/// A factor: a name, the entries of its derivative (none where none is written), and its power,
/// which is not 0. A written number past 2^63-1 counts as 2^63-1.
#[derive(Debug, Drop)]
pub struct WrittenFactor {
    pub name: Name,
    pub entries: Items<u64>,
    pub power: u64,
}

/// A fraction under its sign. A written number past 2^63-1 counts as 2^63-1.
#[derive(Clone, Copy, Debug, PartialEq, Eq)]
pub struct WrittenFraction {
    pub negative: bool,
    pub num: u64,
    pub den: Denominator,
}

/// A term: its coefficient, 1 where none is written, and its factors.
#[derive(Debug, Drop)]
pub struct WrittenTerm {
    pub coefficient: WrittenFraction,
    pub factors: Items<WrittenFactor>,
}
