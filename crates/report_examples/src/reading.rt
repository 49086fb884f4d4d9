// What is read of a text.
ghost use Rattle.degree_numbers.specs.Types.{AreTypes};

use counterterm_report::{ReportError, print_value, read_value};
use degree_numbers::Types;
use std::alloc::Global;

/// Whether the text is read as a value with so many terms and this mass, and printed again.
pub fn read_and_print(alloc: Global, types: &Types, text: &[u8], terms: usize, mass: i128) -> bool
    requires { AreTypes types.now }
{
    let Ok(p) = read_value(alloc, types, text) else {
        return false;
    };
    match print_value(alloc, types, &p) {
        Ok(printed) => printed.as_slice() == text && p.terms.len() == terms && p.mass == mass,
        Err(_) => false,
    }
}

/// Whether the text is refused as none that is printed.
pub fn is_refused(alloc: Global, types: &Types, text: &[u8]) -> bool
    requires { AreTypes types.now }
{
    matches!(read_value(alloc, types, text), Err(ReportError::ValueText))
}
