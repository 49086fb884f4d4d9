// The types of an equation: its noises, then its kernels.
use crate::degree::{Degree, Units};
use crate::name::Name;
use sqlite_items::Items;

/// The position of a type in the list of types.
#[derive(Clone, Copy, Debug, PartialEq, Eq, PartialOrd, Ord, Hash)]
pub struct TypeId(pub u8);

/// Whether a type is that of a noise or that of the kernel of an unknown.
#[derive(Clone, Copy, Debug, PartialEq, Eq)]
pub enum Kind {
    Noise,
    Kernel,
}

/// One type. The group of a noise is the position of its group's name; that of a kernel is 0. The
/// moments are declared of kernels alone: with moment number r, 0 to 20, the kernel of an unknown
/// integrates polynomials of scaled degree up to r to zero.
#[derive(Clone, Copy, Debug, PartialEq, Eq)]
pub struct TypeEntry {
    pub name: Name,
    pub kind: Kind,
    pub degree: Degree,
    pub group: u8,
    pub moments: Option<u8>,
}

/// The types of an equation file: what may be an edge of a tree, with the directions and the noise
/// groups. Trees, degrees and texts are read over types.
///
/// **Order.** Noises in file order, then kernels in file order; a `TypeId` is a place in `list`.
/// Groups stand in the order of their first noise. The directions in `reflect` count from 1 and
/// ascend: under a reflection of each of them the law of the noises is the same.
///
/// **Units.** Degrees are in units of one over `units.den`, which may be any common denominator of
/// them, that of the file or the least one.
///
/// **Invariants.** Calls ask for what types of accepted files meet (`AreTypes` in contracts): 1 to
/// 5 directions (`MOST_DIMENSIONS`), their scaling from 1 to 10 (`LARGEST_SCALING`) and 0 past
/// them; at most 8 noises and 1 to 8 kernels (`MOST_NAMES`), their names different; kernels of
/// degrees above 0 without `k`; group numbers that stand in the order of the groups.
///
/// **Example.** Of the KPZ equation, in units of one half: 2 directions of scaling `[2, 1]`, the
/// noise `xi` with type 0, degree `-3/2-k` and group 0, which is named `xi`, and the kernel `u`
/// with type 1 and degree 2, that is `Degree { a: 4, b: 0 }`.
#[derive(Debug, Drop)]
pub struct Types {
    pub dims: u8,
    pub scaling: [u32; 5],
    pub units: Units,
    pub list: Items<TypeEntry>,
    pub groups: Items<Name>,
    pub reflect: Items<u8>,
}
