// Lines of the report, and what stands in them.
ghost use Rattle.std.specs.Prelude.{◌≡◌, ◌++◌, IfOk, OnOk, unsigned_abs};
ghost use Rattle.degree_numbers.specs.Printing.{IsDegreeText};
ghost use Rattle.degree_numbers.specs.Types.{AreTypes, name_of};
ghost use Rattle.counterterm_report.specs.Report.{line, named_line, printed};
ghost use Rattle.counterterm_report.specs.Values.{IsPrinted};

use degree_numbers::{Degree, SmallText, TypeId, Types, print_degree};
use equations::Equation;
use std::alloc::{AllocError, Global};
use symbol_polys::{Poly, print_poly};

/// Puts a label and a text behind what is written, as a line.
pub fn put_line(out: &mut Vec<u8>, label: &[u8], text: &[u8]) -> Result<(), AllocError>
    ensures { OnOk result (out.new.items ≡ out.old.items ++ line label.now text.now) }
{
    out.extend_from_slice(label)?;
    out.extend_from_slice(text)?;
    out.extend_from_slice(b"\n")
}

/// The same with a name before the text.
pub fn put_named_line(
    out: &mut Vec<u8>,
    label: &[u8],
    name: &[u8],
    text: &[u8],
) -> Result<(), AllocError>
    ensures { OnOk result (out.new.items ≡ out.old.items
        ++ named_line label.now name.now text.now) }
{
    out.extend_from_slice(label)?;
    out.extend_from_slice(name)?;
    out.extend_from_slice(b" ")?;
    out.extend_from_slice(text)?;
    out.extend_from_slice(b"\n")
}

/// The name of a type. Takes no memory.
pub fn type_name(types: &Types, kind: TypeId) -> &[u8]
    ensures { result.now ≡ name_of types.now kind.0 }
{
    match types.list.get(kind.0 as usize) {
        Some(entry) => entry.name.bytes(),
        None => &[],
    }
}

/// The text of a degree. Takes no memory.
pub fn degree_text(types: &Types, degree: Degree) -> SmallText
    requires { AreTypes types.now }
    ensures { IsDegreeText degree (unsigned_abs types.now.units.den) result }
{
    let mut text = SmallText::new();
    print_degree(degree, types.units, &mut text);
    text
}

/// The text of a polynomial over the symbols of an equation. Refused only for want of memory.
pub fn poly_text(alloc: Global, eq: &Equation, p: &Poly) -> Result<Vec<u8>, AllocError>
    requires types { AreTypes eq.now.types }
    requires printed { IsPrinted eq.now p.now }
    ensures { IfOk result (λ v. v.items ≡ printed eq.now p.now) }
{
    match print_poly(alloc, &eq.types, eq.parameters.as_slice(), p) {
        Ok(text) => Ok(text),
        Err(_) => Err(AllocError),
    }
}
