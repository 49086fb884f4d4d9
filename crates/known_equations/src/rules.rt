// Equations with their normal rules.
ghost use Rattle.std.specs.Prelude.{IfSome};
ghost use Rattle.equations.specs.Accepted.{IsEquation};
ghost use Rattle.normal_rule.specs.Regularity.{IsSubcritical};
ghost use Rattle.normal_rule.specs.Rule.{IsNormalRule};

use equation_file::read_equation;
use equations::Equation;
use normal_rule::{Rule, check_regularity, normal_rule};
use std::alloc::Global;

/// An equation and its normal rule, for which the inequality of regularities holds.
#[derive(Drop)]
pub struct SubcriticalEquation {
    pub eq: Equation,
    pub rule: Rule,
}

/// The equation that a file writes down, with its normal rule. `None` where the file is refused, the
/// rule is too large or the inequality of regularities fails for it, and for want of memory.
pub fn subcritical_equation(alloc: Global, file: &[u8]) -> Option<SubcriticalEquation>
    ensures equation { IfSome result (λ s. IsEquation s.eq) }
    ensures normal { IfSome result (λ s. IsNormalRule s.eq s.rule) }
    ensures subcritical { IfSome result (λ s. IsSubcritical s.eq s.rule) }
{
    let Ok(eq) = read_equation(alloc, file) else {
        return None;
    };
    let Ok(rule) = normal_rule(alloc, &eq) else {
        return None;
    };
    if check_regularity(&eq, &rule).is_err() {
        return None;
    }
    Some(SubcriticalEquation { eq, rule })
}
