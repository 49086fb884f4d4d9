// The report.
ghost use Rattle.std.specs.Prelude.{IfOk, IsOkUnless};
ghost use Rattle.equations.specs.Accepted.{IsEquation};
ghost use Rattle.counterterm_report.specs.Report.{IsReportText};
ghost use Rattle.counterterm_report.specs.Values.{AreReportValues};

use crate::error::ReportError;
use crate::renormalised::put_equations;
use crate::rules::put_rules;
use crate::trees::{put_count, put_trees};
use crate::values::ReportValues;
use equations::Equation;
use std::alloc::Global;

/// The report of an equation with these values: the numbers of node types of both rules and the
/// node types of the completed one; each tree with its degree, its symmetry factor, its constant
/// and its differentials; and for each unknown the renormalised equation (Bruned, Chandra,
/// Chevyrev, Hairer): the right side over the common denominator of its coefficients, and one
/// counterterm for each tree whose constant and differential are not 0. Fails only for want of
/// memory.
pub fn print_report(
    alloc: Global,
    eq: &Equation,
    values: &ReportValues,
) -> Result<Vec<u8>, ReportError>
    requires equation { IsEquation eq.now }
    requires values { AreReportValues eq.now values.now }
    ensures text { IfOk result (λ v. IsReportText eq.now values.now v.items) }
    ensures memory { IsOkUnless result ReportError.Memory }
{
    let base = values.base.rows.as_slice();
    let completed = values.completed.rows.as_slice();
    let trees = values.trees.as_slice();
    let mut out = Vec::from_slice(alloc, b"report 1\n")?;
    put_rules(&mut out, &eq.types, base, completed)?;
    put_count(&mut out, trees.len())?;
    put_trees(&mut out, alloc, eq, trees)?;
    put_equations(&mut out, alloc, eq, eq.unknowns.as_slice(), trees)?;
    Ok(out)
}
