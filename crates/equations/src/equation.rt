// The equation of a file.
use degree_numbers::{Degree, Multi, Name, TypeId, Types};
use sqlite_items::Items;

/// A term of a right side, cleared by the common denominator: its coefficient, which is not 0; its
/// parameters by number, ascending; its noises and kernel variables with their derivatives, in the
/// order of edge types.
#[derive(Debug, Drop)]
pub struct RightTerm {
    pub coefficient: i128,
    pub parameters: Items<u8>,
    pub factors: Items<(TypeId, Multi)>,
}

/// An unknown: its kernel, its regularity in units of one over the common denominator of the
/// degrees, and the terms of its right side, each list of factors once, in the order in which they
/// are first written.
#[derive(Debug, Drop)]
pub struct Unknown {
    pub kernel: TypeId,
    pub regularity: Degree,
    pub right: Items<RightTerm>,
}

/// The equation of a file: its types, the names of its parameters, and its unknowns with their
/// right sides.
///
/// **Order.** Parameters and unknowns stand in file order; a parameter is named by its place. The
/// unknowns stand for the kernels of the types, in their order.
///
/// **Units.** Regularities are in units of one over the common denominator of the types, as degrees
/// are. The coefficients of the right sides are cleared by `denominator`: each is the one that the
/// file gives, times this number.
///
/// **Invariants.** Calls ask for what the equation of every accepted file meets (`IsEquation` in
/// contracts): all names differ; a right side has at most 64 terms (`MOST_TERMS`), a term at most
/// 24 parameters and factors (`MOST_FACTORS`) with at most one noise, and no coefficient is 0; the
/// denominator is from 1 to 1,000,000 (`LARGEST_NUMBER`).
///
/// **Example.** For the right side `1/2*u*xi+u'(0,1)^2` the denominator is 2, and the terms are 1
/// times `xi*u`, in the order of edge types, and 2 times `u'(0,1)*u'(0,1)`.
#[derive(Debug, Drop)]
pub struct Equation {
    pub types: Types,
    pub parameters: Items<Name>,
    pub unknowns: Items<Unknown>,
    pub denominator: i64,
}
