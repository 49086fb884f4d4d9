// What is wrong with a file.
ghost use Rattle.std.specs.Prelude.{◌≡◌};
ghost use Rattle.equation_document.specs.declared.fault.ReadError.TheVariants.{Memory};

use std::alloc::{AllocError, AllocFailed};

/// A top key of a file.
#[derive(Clone, Copy, Debug, PartialEq, Eq)]
pub enum Section {
    Version,
    Scaling,
    Reflect,
    Parameters,
    Noise,
    Unknown,
}

/// A key of a noise or of an unknown.
#[derive(Clone, Copy, Debug, PartialEq, Eq)]
pub enum Field {
    Name,
    Degree,
    Group,
    Regularity,
    Moments,
    Right,
}

/// A place of a file: the file itself, what stands at a top key, an item of a list, counted from 1,
/// or what stands at a key of an item.
#[derive(Clone, Copy, Debug, PartialEq, Eq)]
pub enum Entry {
    File,
    Whole(Section),
    Item(Section, usize),
    Part(Section, usize, Field),
}

/// What is wrong with an entry.
#[derive(Clone, Copy, Debug, PartialEq, Eq)]
pub enum Reason {
    /// It is not there.
    Missing,
    /// It is of another kind: no whole number, text, list or table, where one is wanted.
    Kind,
    /// It is of the right kind, and no value that may stand here.
    Value,
    /// It has a key that no such table has.
    Key,
    /// It is no name.
    Name,
    /// It is a name that stands earlier in the file, or a direction that stands earlier in its
    /// list.
    Repeated,
    /// It is no degree text.
    Degree,
    /// It is no right side: outside the grammar, with a name that is not there, or with a
    /// derivative of a noise or a parameter.
    Polynomial,
    /// A term has more than one noise, counted with powers.
    Noise,
    /// It may not stand in a file of version 1.
    Version,
}

/// What is limited.
#[derive(Clone, Copy, Debug, PartialEq, Eq)]
pub enum Which {
    /// The bytes of the file: 65,536 (`MOST_BYTES`).
    Bytes,
    /// The entries of the scaling: 5 (`MOST_DIMENSIONS`).
    Dimensions,
    /// An entry of the scaling: 10 (`LARGEST_SCALING`).
    Scaling,
    /// The parameters: 8 (`MOST_NAMES`).
    Parameters,
    /// The noises: 8 (`MOST_NAMES`).
    Noises,
    /// The unknowns: 8 (`MOST_NAMES`).
    Unknowns,
    /// A number that is written in a degree, a regularity or a right side: 1,000,000
    /// (`LARGEST_NUMBER`).
    Number,
    /// The size of the standard part or of the k part of a degree or a regularity, rounded up: 20
    /// (`LARGEST_DEGREE`).
    Degree,
    /// The least common denominator of all degrees and regularities: 1,000,000
    /// (`LARGEST_DENOMINATOR`).
    Unit,
    /// The terms of a right side, as they are written: 64 (`MOST_TERMS`).
    Terms,
    /// The factors of a term, counted with their powers: 24 (`MOST_FACTORS`).
    Factors,
    /// An entry of a derivative: 8 (`LARGEST_ENTRY`).
    Derivative,
    /// The least common denominator of all coefficients, as they are written: 1,000,000
    /// (`LARGEST_DENOMINATOR`).
    Denominator,
}

/// Why the bytes are not the file of an equation.
#[derive(Clone, Copy, Debug, PartialEq, Eq)]
pub enum Fault {
    NotUtf8,
    NotToml,
    Malformed(Entry, Reason),
    Limit(Which, u64),
}

/// Why a file is not read: a fault of the file, or want of memory.
#[derive(Clone, Copy, Debug, PartialEq, Eq)]
pub enum ReadError {
    Memory,
    Wrong(Fault),
}

impl From<AllocError> for ReadError {
    ghost from_gives = { λ _ e. e ≡ Memory };

    fn from(_e: AllocError) -> ReadError {
        ReadError::Memory
    }
}

impl<T: Drop> From<AllocFailed<T>> for ReadError {
    ghost from_gives = { λ _ e. e ≡ Memory };

    fn from(_e: AllocFailed<T>) -> ReadError {
        ReadError::Memory
    }
}
