// The limits of a file.

pub const MOST_BYTES: usize = 65_536;

/// Entries of the scaling.
pub const MOST_DIMENSIONS: u64 = 5;

pub const LARGEST_SCALING: u64 = 10;

/// Parameters, and noises, and unknowns.
pub const MOST_NAMES: u64 = 8;

/// A written number.
pub const LARGEST_NUMBER: u64 = 1_000_000;

/// The size of the standard part or of the k part of a degree.
pub const LARGEST_DEGREE: u64 = 20;

/// A least common denominator.
pub const LARGEST_DENOMINATOR: u64 = 1_000_000;

/// A moment number of a kernel.
pub const LARGEST_MOMENT: u64 = 20;

/// Terms of a right side.
pub const MOST_TERMS: u64 = 64;

/// Factors of a term, counted with their powers.
pub const MOST_FACTORS: u64 = 24;

/// An entry of a derivative.
pub const LARGEST_ENTRY: u64 = 8;

/// What a greater number counts as: 2^63-1.
pub const MOST: u64 = i64::MAX as u64;
