// The least excesses by class.
ghost use Rattle.std.specs.Prelude.{◌≡◌, ◌<◌, ◌≤◌, ◌+◌};
ghost use Rattle.std.specs.declared.option.Option.TheVariants.{Some};
ghost use Rattle.large_trees.specs.declared.excess.Excess.{Excess};
ghost use Rattle.large_trees.specs.Lines.{Joins, IsLesser, IsLeast, IsNone, IsSmall, AreSmall, IsSmallCell, excess_plus, no_excess};
ghost use Rattle.large_trees.specs.Sums.{IsShifted, IsSum};

use crate::excess::Excess;

/// The greatest excess that a subtree of a tree of a degree of at most 0 has: a kernel's degree is
/// at most 20, and its regularity at least -20.
pub const MOST_EXCESS: i128 = 40_000_000;

// The classes 0 to 65, the last of them "more" where entries are counted.
pub const CLASSES: usize = 66;

/// One cell for each class: the least excess of the trees of the class, if there are any of an
/// excess of at most `MOST_EXCESS`.
#[derive(Clone, Copy, Debug, PartialEq, Eq)]
pub struct Line {
    pub cells: [Option<Excess>; 66],
}

// The lesser of a cell and a value.
fn lesser(cell: Option<Excess>, value: Excess) -> Excess
    ensures { IsLesser cell value result }
{
    match cell {
        Some(least) if least.is_at_most(&value) => least,
        _ => value,
    }
}

impl Line {
    /// No cell has a tree.
    pub fn new() -> Line
        ensures { IsNone result.cells }
    {
        Line { cells: [None; 66] }
    }

    /// The class 0 has the excess 0, and no other has a tree.
    pub fn start() -> Line
        ensures { IsLeast (λ m v. (m ≡ 0) × (v ≡ no_excess)) result.cells }
    {
        let mut line = Line::new();
        line.put(0, Excess { a: 0, b: 0 });
        line
    }

    /// Puts a value into the cell of a class.
    pub fn put(&mut self, class: usize, value: Excess)
        requires { class < 66 }
        ensures { Joins self.old.cells (λ m v. (m ≡ class) × (v ≡ value)) self.new.cells }
    {
        if value.a <= MOST_EXCESS {
            self.cells[class] = Some(lesser(self.cells[class], value));
        }
    }

    // Puts the sum of a value and a cell, if that has one, into the cell of a class.
    fn put_sum(&mut self, class: usize, x: &Excess, cell: Option<Excess>)
        requires class { class < 66 }
        requires x { IsSmall x.now }
        requires cell { IsSmallCell cell }
        ensures { Joins self.old.cells (λ m v. (y : Excess) × (cell ≡ Some y) × (m ≡ class)
            × (v ≡ excess_plus x.now y)) self.new.cells }
    {
        if let Some(y) = cell {
            self.put(class, x.plus(&y));
        }
    }

    /// Puts the sums of a value and each cell of a line into the cells of their classes, which are
    /// greater by `class`.
    pub fn put_shifted(&mut self, most: usize, class: usize, x: &Excess, line: &Line)
        requires most { most < 66 }
        requires class { class ≤ 100000000000 }
        requires x { IsSmall x.now }
        requires line { AreSmall line.now.cells }
        ensures { Joins self.old.cells (IsShifted most class x.now line.now.cells) self.new.cells }
    {
        for above in 0..CLASSES {
            self.put_sum(most.min(class + above), x, line.cells[above]);
        }
    }

    // Puts the sums of a cell, if it has a value, and each cell of a line into the cells of their
    // classes.
    fn put_sums(&mut self, most: usize, class: usize, cell: Option<Excess>, line: &Line)
        requires most { most < 66 }
        requires class { class ≤ 100000000000 }
        requires cell { IsSmallCell cell }
        requires line { AreSmall line.now.cells }
        ensures { Joins self.old.cells (λ m v. (x : Excess) × (cell ≡ Some x)
            × IsShifted most class x line.now.cells m v) self.new.cells }
    {
        if let Some(x) = cell {
            self.put_shifted(most, class, &x, line);
        }
    }

    /// The least sums of a cell of this line and a cell of another, with the weight of the edge
    /// between them.
    pub fn sums(&self, most: usize, weight: usize, line: &Line) -> Line
        requires most { most < 66 }
        requires weight { weight ≤ 50000000000 }
        requires cells { AreSmall self.now.cells }
        requires line { AreSmall line.now.cells }
        ensures { IsLeast (IsSum most weight self.now.cells line.now.cells) result.cells }
    {
        let mut sums = Line::new();
        for class in 0..CLASSES {
            sums.put_sums(most, weight + class, self.cells[class], line);
        }
        sums
    }
}
