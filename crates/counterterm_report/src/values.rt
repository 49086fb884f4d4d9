// What is reported.
use degree_numbers::Degree;
use normal_rule::Rule;
use plain_trees::Tree;
use sqlite_items::Items;
use symbol_polys::Poly;

/// The elementary differential of a tree at one kernel, and the number that it is divided by.
#[derive(Drop)]
pub struct DiffValue {
    pub poly: Poly,
    pub denominator: u128,
}

/// A listed tree with its degree, in units of one over the common denominator, its symmetry factor,
/// its constant, and its differential for each unknown, in the order of the unknowns.
#[derive(Drop)]
pub struct TreeValues {
    pub tree: Tree,
    pub degree: Degree,
    pub symmetry: u128,
    pub constant: Poly,
    pub differentials: Items<DiffValue>,
}

/// What is reported of an equation: its normal rule, the completed one, and the listed trees of
/// that with their values.
#[derive(Drop)]
pub struct ReportValues {
    pub base: Rule,
    pub completed: Rule,
    pub trees: Items<TreeValues>,
}
