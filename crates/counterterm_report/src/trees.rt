// The trees in the report.
ghost use Rattle.std.specs.Prelude.{◌≡◌, ◌++◌, ℕ, List, length, decimal, codes, OnOk};
ghost use Rattle.std.specs.List.{All};
ghost use Rattle.degree_numbers.specs.Types.{AreTypes};
ghost use Rattle.plain_trees.specs.Degree.{HasTypes};
ghost use Rattle.plain_trees.specs.Plain.{IsSmall};
ghost use Rattle.plain_trees.specs.Text.{tree_text};
ghost use Rattle.plain_trees.specs.View.{plain};
ghost use Rattle.counterterm_report.specs.Report.{count_line, named_line, differential_line, differential_lines, tree_lines, IsTreeText, AreTreeTexts};
ghost use Rattle.counterterm_report.specs.Values.{IsPrinted, IsTreeValues};

use crate::text::{degree_text, poly_text, put_line, put_named_line, type_name};
use crate::values::{DiffValue, TreeValues};
use degree_numbers::Types;
use equations::{Equation, Unknown};
use itoa::Buffer;
use plain_trees::{Tree, print_tree};
use std::alloc::{AllocError, Global};

/// The number of trees.
pub(crate) fn put_count(out: &mut Vec<u8>, count: usize) -> Result<(), AllocError>
    ensures { OnOk result (out.new.items ≡ out.old.items ++ count_line count) }
{
    put_line(out, b"trees ", Buffer::new().format(count).as_bytes())
}

// The number of a tree, and its text.
fn put_heading(
    out: &mut Vec<u8>,
    alloc: Global,
    types: &Types,
    number: usize,
    tree: &Tree,
) -> Result<(), AllocError>
    requires types { AreTypes types.now }
    requires tree { HasTypes types.now (plain tree.now) }
    requires small { IsSmall (plain tree.now) }
    ensures { OnOk result (out.new.items ≡ out.old.items
        ++ named_line (codes "tree ") (decimal number) (tree_text types.now (plain tree.now))) }
{
    let Ok(text) = print_tree(alloc, types, tree) else {
        return Err(AllocError);
    };
    put_named_line(
        out,
        b"tree ",
        Buffer::new().format(number).as_bytes(),
        text.as_slice(),
    )
}

fn put_differential(
    out: &mut Vec<u8>,
    alloc: Global,
    eq: &Equation,
    u: &Unknown,
    d: &DiffValue,
) -> Result<(), AllocError>
    requires types { AreTypes eq.now.types }
    requires printed { IsPrinted eq.now d.now.poly }
    ensures { OnOk result (out.new.items ≡ out.old.items ++ differential_line eq.now u.now d.now) }
{
    let text = poly_text(alloc, eq, &d.poly)?;
    put_named_line(
        out,
        b"differential ",
        type_name(&eq.types, u.kernel),
        text.as_slice(),
    )
}

/// Puts the lines of elementary differentials behind what is written, one for each unknown. Refused
/// only for want of memory.
pub fn put_differentials(
    out: &mut Vec<u8>,
    alloc: Global,
    eq: &Equation,
    unknowns: &[Unknown],
    values: &[DiffValue],
) -> Result<(), AllocError>
    requires types { AreTypes eq.now.types }
    requires printed { All (λ d. IsPrinted eq.now d.poly) values.now }
    requires each { length values.now ≡ length unknowns.now }
    ensures { OnOk result (out.new.items ≡ out.old.items
        ++ differential_lines eq.now unknowns.now values.now) }
{
    for i in 0..values.len() {
        put_differential(out, alloc, eq, &unknowns[i], &values[i])?;
    }
    Ok(())
}

// The lines of a tree of this degree.
fn put_tree_lines(
    out: &mut Vec<u8>,
    alloc: Global,
    eq: &Equation,
    number: usize,
    degree: &[u8],
    v: &TreeValues,
) -> Result<(), AllocError>
    requires types { AreTypes eq.now.types }
    requires values { IsTreeValues eq.now v.now }
    ensures { OnOk result (out.new.items ≡ out.old.items
        ++ tree_lines eq.now number degree.now v.now) }
{
    put_heading(out, alloc, &eq.types, number, &v.tree)?;
    put_line(out, b"degree ", degree)?;
    put_line(
        out,
        b"symmetry ",
        Buffer::new().format(v.symmetry).as_bytes(),
    )?;
    let constant = poly_text(alloc, eq, &v.constant)?;
    put_line(out, b"constant ", constant.as_slice())?;
    put_differentials(
        out,
        alloc,
        eq,
        eq.unknowns.as_slice(),
        v.differentials.as_slice(),
    )
}

fn put_tree(
    out: &mut Vec<u8>,
    alloc: Global,
    eq: &Equation,
    number: usize,
    v: &TreeValues,
) -> Result<(), AllocError>
    requires types { AreTypes eq.now.types }
    requires values { IsTreeValues eq.now v.now }
    ensures { OnOk result ((piece : List ℕ) × IsTreeText eq.now number v.now piece
        × (out.new.items ≡ out.old.items ++ piece)) }
{
    let degree = degree_text(&eq.types, v.degree);
    put_tree_lines(out, alloc, eq, number, degree.bytes(), v)?;
    Ok(())
}

/// The lines of the trees, numbered from 1.
pub(crate) fn put_trees(
    out: &mut Vec<u8>,
    alloc: Global,
    eq: &Equation,
    trees: &[TreeValues],
) -> Result<(), AllocError>
    requires types { AreTypes eq.now.types }
    requires values { All (IsTreeValues eq.now) trees.now }
    ensures { OnOk result ((piece : List ℕ) × AreTreeTexts eq.now 1 trees.now piece
        × (out.new.items ≡ out.old.items ++ piece)) }
{
    for i in 0..trees.len() {
        put_tree(out, alloc, eq, i + 1, &trees[i])?;
    }
    Ok(())
}
