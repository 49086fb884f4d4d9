// Laws of the answers of a completion.
ghost use Rattle.std.specs.Prelude.{◌≡◌, ◌≤◌, ℕ};
ghost use Rattle.equations.specs.declared.equation.Equation.{Equation};
ghost use Rattle.equations.specs.Accepted.{IsEquation};
ghost use Rattle.normal_rule.specs.declared.rule.Rule.{Rule};
ghost use Rattle.normal_rule.specs.Rule.{node_count};
ghost use Rattle.rule_stages.specs.Stages.{IsNextStage, IsStage, IsCompletion};
ghost use Rattle.rule_completion.specs.Reached.{IsListable, IsReached, IsStageFault};
ghost use Rattle.rule_completion.specs.declared.refusal.StageFault.{StageFault};

/// A rule has at most one next stage, one stage of each number and one completion. At most one
/// stage is the first at which something is too large, and there in one way; and there is none
/// where the completion is reached and neither it nor its listing is too large.
pub fn completion_laws()
    ensures next { (eq : Equation) (rule next other : Rule) → IsEquation eq →
        IsNextStage eq rule next → IsNextStage eq rule other → next ≡ other }
    ensures stages { (eq : Equation) (base rule other : Rule) (j : ℕ) → IsEquation eq →
        IsStage eq base j rule → IsStage eq base j other → rule ≡ other }
    ensures one { (eq : Equation) (base rule other : Rule) (i j : ℕ) → IsEquation eq →
        IsCompletion eq base i rule → IsCompletion eq base j other → (i ≡ j) × (rule ≡ other) }
    ensures fault { (eq : Equation) (base : Rule) (i j : ℕ) (f g : StageFault) → IsEquation eq →
        IsStageFault eq base i f → IsStageFault eq base j g → (i ≡ j) × (f ≡ g) }
    ensures no_fault { (eq : Equation) (base rule : Rule) (i j : ℕ) (f : StageFault) →
        IsEquation eq → IsReached eq base i rule → IsNextStage eq rule rule → IsListable eq rule →
        node_count rule ≤ 2000 → IsStageFault eq base j f → ⊥ }
{}
