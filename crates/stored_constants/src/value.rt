// Values that are read.
ghost use Rattle.std.specs.Prelude.{◌≡◌, IfOk, MatchOption, ⊤};
ghost use Rattle.degree_numbers.specs.Types.{AreTypes};
ghost use Rattle.symbol_polys.specs.View.{IsPoly};
ghost use Rattle.twisted_antipode.specs.Held.{weighed_of};
ghost use Rattle.counterterm_report.specs.Stored.{IsNoValueText};
ghost use Rattle.stored_constants.specs.Rows.{IsValueText};

use counterterm_report::{ReportError, read_value};
use degree_numbers::Types;
use std::alloc::{AllocError, Global};
use symbol_polys::Poly;

/// The polynomial whose text this is, where it is that of a value.
pub fn value_of(alloc: Global, types: &Types, text: &[u8]) -> Result<Option<Poly>, AllocError>
    requires { AreTypes types.now }
    ensures value { IfOk result (λ o. MatchOption o (IsNoValueText types.now text.now)
        (λ p. IsValueText types.now (weighed_of p) text.now)) }
    ensures poly { IfOk result (λ o. MatchOption o ⊤ IsPoly) }
{
    match read_value(alloc, types, text) {
        Ok(value) => Ok(Some(value)),
        Err(ReportError::ValueText) => Ok(None),
        Err(ReportError::Memory) => Err(AllocError),
    }
}
