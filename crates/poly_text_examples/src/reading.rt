// What is read of a text, on types without parameters.
ghost use Rattle.std.specs.Prelude.{[], IfOk};
ghost use Rattle.std.specs.List.{AllByRecursion};
ghost use Rattle.degree_numbers.specs.Types.{AreTypes};
ghost use Rattle.symbol_polys.specs.Text.{IsTermOver};
ghost use Rattle.symbol_polys.specs.View.{terms_of};

use degree_numbers::Types;
use std::alloc::Global;
use symbol_polys::{Poly, PolyError, print_poly, read_poly};

fn read(alloc: Global, types: &Types, text: &[u8]) -> Result<Poly, PolyError>
    requires { AreTypes types.now }
    ensures { IfOk result (λ p. AllByRecursion (IsTermOver types.now []) (terms_of p.terms)) }
{
    read_poly(alloc, types, &[], text)
}

/// Whether the text is read as a polynomial with so many terms and this mass, and printed again.
pub fn read_and_print(alloc: Global, types: &Types, text: &[u8], terms: usize, mass: i128) -> bool
    requires { AreTypes types.now }
{
    let Ok(f) = read(alloc, types, text) else {
        return false;
    };
    match print_poly(alloc, types, &[], &f) {
        Ok(printed) => printed.as_slice() == text && f.terms.len() == terms && f.mass == mass,
        Err(_) => false,
    }
}

/// Whether the text is refused as none that is printed.
pub fn is_refused(alloc: Global, types: &Types, text: &[u8]) -> bool
    requires { AreTypes types.now }
{
    matches!(read(alloc, types, text), Err(PolyError::PolyText))
}

/// Whether the text is refused for its size.
pub fn is_too_large(alloc: Global, types: &Types, text: &[u8]) -> bool
    requires { AreTypes types.now }
{
    matches!(
        read(alloc, types, text),
        Err(PolyError::CoefficientTooLarge)
    )
}
