// Terms whose names are resolved.
use degree_numbers::{Multi, TypeId};
use right_side_text::WrittenFraction;
use sqlite_items::Items;

/// A term as it is written: its coefficient, its parameters by number, ascending, and its noises
/// and kernel variables in the order of edge types. A factor with a power stands as often.
#[derive(Debug, Drop)]
pub struct Product {
    pub coefficient: WrittenFraction,
    pub parameters: Items<u8>,
    pub factors: Items<(TypeId, Multi)>,
}
