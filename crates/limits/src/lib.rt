//! The limits of the workbench, each by its name: contracts, definitions and code cite them from
//! here. A bound that follows from them is written as a product of them where it is used.
#![tactic(auto)]

/// Most edges of a tree.
pub const MOST_EDGES: u32 = 24;

/// Most that the decorations of a tree sum up to, node and edge decorations together, entry by
/// entry.
pub const MOST_DECORATIONS: u32 = 4096;

/// The same for a tree that a user gives or a list shows.
pub const MOST_LISTED_DECORATIONS: u32 = 64;

/// Most that the node decorations of a bounded tree sum up to. Its edge decorations sum up to at
/// most `MOST_LISTED_DECORATIONS`.
pub const MOST_NODE_DECORATIONS: u32 = 1120;

/// Most trees that a list has.
pub const MOST_LISTED_TREES: usize = 4000;

/// Most node types of a rule, all rows together.
pub const MOST_NODE_TYPES: usize = 2000;

/// Most noise edges of a tree whose pairings are listed.
pub const MOST_PAIRED_NOISES: usize = 12;

/// The greatest coefficient, mass and denominator: 2^127-1.
pub const GREATEST: i128 = i128::MAX;

/// Most bytes of an equation file and of a table file.
pub const MOST_FILE_BYTES: usize = 65_536;

/// Most dimensions: entries of the scaling.
pub const MOST_DIMENSIONS: u64 = 5;

/// The greatest entry of the scaling.
pub const LARGEST_SCALING: u64 = 10;

/// Most parameters of a file, most noises and most unknowns.
pub const MOST_NAMES: u64 = 8;

/// The greatest number that a file or a degree text may write, and the greatest least common
/// denominator.
pub const LARGEST_NUMBER: u64 = 1_000_000;

/// The greatest size of the standard part and of the k part of a degree or regularity of a file.
pub const LARGEST_DEGREE: u64 = 20;

/// Most terms of a right side, as they are written.
pub const MOST_TERMS: u64 = 64;

/// Most factors of a term of a right side, counted with their powers.
pub const MOST_FACTORS: u64 = 24;

/// The greatest entry of a derivative in a right side.
pub const LARGEST_DERIVATIVE: u64 = 8;

/// Most bytes of a name of a type or parameter.
pub const MOST_NAME_BYTES: usize = 16;

/// Most bytes of the text of a degree.
pub const MOST_DEGREE_BYTES: usize = 64;

/// Most bytes of a word of the command line that names a file or is a tree text.
pub const MOST_WORD_BYTES: usize = 4096;

/// Most bytes of the name of a project.
pub const MOST_PROJECT_NAME_BYTES: usize = 32;

/// Most projects of a store.
pub const MOST_PROJECTS: usize = 10_000;

/// Most bytes of the body of a request.
pub const MOST_BODY_BYTES: usize = 1_048_576;

/// Most bytes of the head of a request.
pub const MOST_HEAD_BYTES: usize = 16_384;

/// Most header lines of a request.
pub const MOST_HEADER_LINES: usize = 64;
