// The polynomials in the detail.
ghost use Rattle.std.specs.Prelude.{◌≡◌, ◌++◌, length, OnOk};
ghost use Rattle.std.specs.List.{All};
ghost use Rattle.degree_numbers.specs.Types.{AreTypes};
ghost use Rattle.counterterm_report.specs.Report.{line, printed};
ghost use Rattle.counterterm_report.specs.Values.{IsPrinted};
ghost use Rattle.tree_details.specs.Values.{polynomial_lines};

use crate::detail::Polynomials;
use counterterm_report::{poly_text, put_differentials, put_line};
use equations::Equation;
use std::alloc::{AllocError, Global};
use symbol_polys::Poly;

fn put_poly(
    out: &mut Vec<u8>,
    alloc: Global,
    eq: &Equation,
    label: &[u8],
    p: &Poly,
) -> Result<(), AllocError>
    requires types { AreTypes eq.now.types }
    requires printed { IsPrinted eq.now p.now }
    ensures { OnOk result (out.new.items
        ≡ out.old.items ++ line label.now (printed eq.now p.now)) }
{
    let text = poly_text(alloc, eq, p)?;
    put_line(out, label, text.as_slice())
}

/// The twisted antipode, the constant, and the elementary differential of each unknown.
pub(crate) fn put_polynomials(
    out: &mut Vec<u8>,
    alloc: Global,
    eq: &Equation,
    polynomials: &Polynomials,
) -> Result<(), AllocError>
    requires types { AreTypes eq.now.types }
    requires antipode { IsPrinted eq.now polynomials.now.antipode }
    requires constant { IsPrinted eq.now polynomials.now.constant }
    requires differentials { All (λ d. IsPrinted eq.now d.poly) polynomials.now.differentials }
    requires each { length polynomials.now.differentials ≡ length eq.now.unknowns }
    ensures { OnOk result (out.new.items ≡ out.old.items
        ++ polynomial_lines eq.now polynomials.now) }
{
    put_poly(out, alloc, eq, b"antipode ", &polynomials.antipode)?;
    put_poly(out, alloc, eq, b"constant ", &polynomials.constant)?;
    put_differentials(
        out,
        alloc,
        eq,
        eq.unknowns.as_slice(),
        polynomials.differentials.as_slice(),
    )
}
