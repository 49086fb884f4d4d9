// The right sides of the equation as polynomials.
ghost use Rattle.std.specs.Prelude.{IfOk, IsOkUnless};
ghost use Rattle.equations.specs.Accepted.{IsEquation};
ghost use Rattle.symbol_polys.specs.Polynomials.{IsSumOf};
ghost use Rattle.symbol_polys.specs.View.{terms_of};
ghost use Rattle.elementary_diff.specs.Differentials.{right_terms};
ghost use Rattle.counterterm_report.specs.Values.{IsPrinted};

use degree_numbers::TypeId;
use elementary_diff::side;
use equations::Equation;
use std::alloc::Global;
use symbol_polys::{Poly, PolyError, sum_of_terms};

/// The right side of a kernel, cleared by the common denominator of the coefficients.
pub(crate) fn right_side(alloc: Global, eq: &Equation, kernel: TypeId) -> Result<Poly, PolyError>
    requires { IsEquation eq.now }
    ensures sum { IfOk result (λ p. IsSumOf (right_terms eq.now kernel.0) (terms_of p.terms)) }
    ensures printed { IfOk result (IsPrinted eq.now) }
    ensures memory { IsOkUnless result PolyError.Memory }
{
    let terms = side(alloc, eq, kernel)?;
    sum_of_terms(alloc, terms.as_slice())
}
