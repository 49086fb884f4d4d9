// The renormalised equation in the report.
ghost use Rattle.std.specs.Prelude.{◌≡◌, ◌++◌, ℕ, List, Some, length, slice_get, OnOk};
ghost use Rattle.std.specs.List.{All};
ghost use Rattle.degree_numbers.specs.Types.{AreTypes};
ghost use Rattle.equations.specs.Accepted.{IsEquation};
ghost use Rattle.counterterm_report.specs.Report.{is_zero, product_line, counterterm_line, counterterm_at, counterterm_lines, side_line, IsEquationText, AreEquationTexts};
ghost use Rattle.counterterm_report.specs.Values.{IsPrinted, IsTreeValues};

use crate::right_sides::right_side;
use crate::text::{poly_text, put_line, type_name};
use crate::values::{DiffValue, TreeValues};
use degree_numbers::TypeId;
use equations::{Equation, Unknown};
use itoa::Buffer;
use std::alloc::{AllocError, Global};
use symbol_polys::Poly;

fn is_zero(p: &Poly) -> bool
    ensures { result ≡ is_zero p.now }
{
    match p.terms.as_slice() {
        [] => true,
        [_, ..] => false,
    }
}

fn put_product(
    out: &mut Vec<u8>,
    constant: &[u8],
    differential: &[u8],
    denominator: u128,
) -> Result<(), AllocError>
    ensures { OnOk result (out.new.items ≡ out.old.items
        ++ product_line constant.now differential.now denominator) }
{
    out.extend_from_slice(b"  +(")?;
    out.extend_from_slice(constant)?;
    out.extend_from_slice(b")*(")?;
    out.extend_from_slice(differential)?;
    out.extend_from_slice(b")/")?;
    out.extend_from_slice(Buffer::new().format(denominator).as_bytes())?;
    out.extend_from_slice(b"\n")
}

// The counterterm of a tree; nothing where it is 0.
fn put_counterterm(
    out: &mut Vec<u8>,
    alloc: Global,
    eq: &Equation,
    constant: &Poly,
    d: &DiffValue,
) -> Result<(), AllocError>
    requires types { AreTypes eq.now.types }
    requires constant { IsPrinted eq.now constant.now }
    requires differential { IsPrinted eq.now d.now.poly }
    ensures { OnOk result (out.new.items ≡ out.old.items
        ++ counterterm_line eq.now constant.now (Some d.now)) }
{
    if is_zero(constant) || is_zero(&d.poly) {
        return Ok(());
    }
    let left = poly_text(alloc, eq, constant)?;
    let right = poly_text(alloc, eq, &d.poly)?;
    put_product(out, left.as_slice(), right.as_slice(), d.denominator)
}

// The same for the differential at the unknown with this number.
fn put_counterterm_at(
    out: &mut Vec<u8>,
    alloc: Global,
    eq: &Equation,
    number: usize,
    v: &TreeValues,
) -> Result<(), AllocError>
    requires types { AreTypes eq.now.types }
    requires values { IsTreeValues eq.now v.now }
    ensures { OnOk result (out.new.items ≡ out.old.items ++ counterterm_at eq.now number v.now) }
{
    match v.differentials.get(number) {
        Some(d) => put_counterterm(out, alloc, eq, &v.constant, d),
        None => Ok(()),
    }
}

fn put_counterterms(
    out: &mut Vec<u8>,
    alloc: Global,
    eq: &Equation,
    number: usize,
    trees: &[TreeValues],
) -> Result<(), AllocError>
    requires types { AreTypes eq.now.types }
    requires values { All (IsTreeValues eq.now) trees.now }
    ensures { OnOk result (out.new.items ≡ out.old.items
        ++ counterterm_lines eq.now number trees.now) }
{
    for v in trees {
        put_counterterm_at(out, alloc, eq, number, v)?;
    }
    Ok(())
}

fn put_side(out: &mut Vec<u8>, side: &[u8], denominator: u64) -> Result<(), AllocError>
    ensures { OnOk result (out.new.items ≡ out.old.items ++ side_line side.now denominator) }
{
    out.extend_from_slice(b"  (")?;
    out.extend_from_slice(side)?;
    out.extend_from_slice(b")/")?;
    out.extend_from_slice(Buffer::new().format(denominator).as_bytes())?;
    out.extend_from_slice(b"\n")
}

// The unknown has this number among the unknowns.
fn put_equation(
    out: &mut Vec<u8>,
    alloc: Global,
    eq: &Equation,
    number: usize,
    kernel: TypeId,
    trees: &[TreeValues],
) -> Result<(), AllocError>
    requires equation { IsEquation eq.now }
    requires values { All (IsTreeValues eq.now) trees.now }
    ensures { OnOk result ((piece : List ℕ) × IsEquationText eq.now number kernel.0 trees.now piece
        × (out.new.items ≡ out.old.items ++ piece)) }
{
    let Ok(side) = right_side(alloc, eq, kernel) else {
        return Err(AllocError);
    };
    let text = poly_text(alloc, eq, &side)?;
    put_line(out, b"equation ", type_name(&eq.types, kernel))?;
    put_side(out, text.as_slice(), eq.denominator.unsigned_abs())?;
    put_counterterms(out, alloc, eq, number, trees)?;
    Ok(())
}

/// The renormalised equation of each unknown.
pub(crate) fn put_equations(
    out: &mut Vec<u8>,
    alloc: Global,
    eq: &Equation,
    unknowns: &[Unknown],
    trees: &[TreeValues],
) -> Result<(), AllocError>
    requires equation { IsEquation eq.now }
    requires values { All (IsTreeValues eq.now) trees.now }
    ensures { OnOk result ((piece : List ℕ) × AreEquationTexts eq.now 0 unknowns.now trees.now piece
        × (out.new.items ≡ out.old.items ++ piece)) }
{
    for i in 0..unknowns.len() {
        put_equation(out, alloc, eq, i, unknowns[i].kernel, trees)?;
    }
    Ok(())
}
