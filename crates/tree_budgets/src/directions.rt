// The normal rule of an equation as a rule over its types.
ghost use Rattle.equations.specs.Accepted.{IsEquation};
ghost use Rattle.normal_rule.specs.Rule.{IsNormalRule};
ghost use Rattle.conforming_trees.specs.Conforming.{IsRule};

use equations::Equation;
use normal_rule::Rule;

/// The normal rule of an equation is a rule over its types. Nothing is done.
pub fn normal_rule_is_rule(eq: &Equation, rule: &Rule)
    requires equation { IsEquation eq.now }
    requires rule { IsNormalRule eq.now rule.now }
    ensures { IsRule eq.now rule.now }
{
    let _ = &eq.types;
    let _ = &rule.rows;
}
