// What a file holds.
use crate::degree_entry::DegreeEntry;
use crate::names::Names;
use degree_numbers::Name;
use right_side_text::WrittenTerm;
use sqlite_items::Items;

/// A noise as a file writes it. Without a group of its own it is in the group that is named as it
/// is.
#[derive(Debug, Drop)]
pub struct NoiseEntry {
    pub name: Name,
    pub degree: DegreeEntry,
    pub group: Name,
}

/// An unknown as a file writes it, without its right side. With moment number r, its kernel
/// integrates polynomials of scaled degree up to r to zero.
#[derive(Debug, Drop)]
pub struct UnknownEntry {
    pub name: Name,
    pub degree: DegreeEntry,
    pub regularity: DegreeEntry,
    pub moments: Option<u8>,
}

/// What a file holds: its scaling, the directions that may be reflected, counted from 1, all its
/// names, its noises, its unknowns and their right sides, in file order.
#[derive(Debug, Drop)]
pub struct Document {
    pub scaling: Items<u64>,
    pub reflect: Items<u64>,
    pub names: Names,
    pub noises: Items<NoiseEntry>,
    pub unknowns: Items<UnknownEntry>,
    pub rights: Items<Items<WrittenTerm>>,
}
