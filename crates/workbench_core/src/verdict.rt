// The verdict on an equation file: its check text, or why it is refused.
ghost use Rattle.std.specs.Prelude.{◌≡◌, ◌≢◌, ◌⊎◌, Ok, Err, IfOk, IfErr};
ghost use Rattle.equations.specs.Accepted.{IsEquation};
ghost use Rattle.workbench_core.specs.Check.{IsVerdict, IsChecked};

use crate::base::base_rule;
use crate::refusal::Refusal;
use crate::text::check_text;
use equation_file::read_equation;
use equations::Equation;
use std::alloc::Global;

/// The check text of a file, or why it is refused.
pub fn check(alloc: Global, file: &[u8]) -> Result<Vec<u8>, Refusal>
    ensures text { IfOk result (λ v. IsChecked file.now (Ok v.items)) }
    ensures refused { IfErr result (λ e. (e ≡ Refusal.Memory) ⊎ IsChecked file.now (Err e)) }
    ensures no_fault { result ≢ Err Refusal.FileFault }
{
    match read_equation(alloc, file) {
        Ok(eq) => verdict_on(alloc, &eq),
        Err(refusal) => Err(Refusal::of_file(refusal)),
    }
}

/// The check text of an equation, or why it is refused.
pub fn verdict_on(alloc: Global, eq: &Equation) -> Result<Vec<u8>, Refusal>
    requires { IsEquation eq.now }
    ensures text { IfOk result (λ v. IsVerdict eq.now (Ok v.items)) }
    ensures refused { IfErr result (λ e. (e ≡ Refusal.Memory) ⊎ IsVerdict eq.now (Err e)) }
    ensures no_fault { result ≢ Err Refusal.FileFault }
{
    let base = base_rule(alloc, eq)?;
    Ok(check_text(alloc, eq, &base.rule, &base.gap)?)
}
