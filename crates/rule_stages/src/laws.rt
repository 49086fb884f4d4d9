// Laws of the stages of a completion.
ghost use Rattle.std.specs.Prelude.{ℕ, ℤ, List, ◌⊎◌};
ghost use Rattle.equations.specs.declared.equation.Equation.{Equation};
ghost use Rattle.equations.specs.Accepted.{IsEquation};
ghost use Rattle.plain_trees.specs.Plain.{Plain};
ghost use Rattle.plain_trees.specs.Degree.{HasTypes};
ghost use Rattle.normal_rule.specs.declared.rule.Rule.{Rule};
ghost use Rattle.normal_rule.specs.Regularity.{IsSubcritical, IsGap};
ghost use Rattle.conforming_trees.specs.Conforming.{EdgeLabel, IsInKernelRow, IsConforming, IsRule};
ghost use Rattle.rule_stages.specs.Closure.{IsClosedUnderCutting};
ghost use Rattle.rule_stages.specs.Stages.{IsMade, IsNextStage, IsStage};

/// The next stage is the least normal rule that holds the rule and all that is made. A part of what
/// is made is made as well, so the next stage has nothing else.
pub fn next_stage_laws()
    ensures holds { (eq : Equation) (rule next : Rule) (k : ℕ) (es : List EdgeLabel) →
        IsNextStage eq rule next → IsInKernelRow rule k es → IsInKernelRow next k es }
    ensures least { (eq : Equation) (rule next other : Rule) → IsNextStage eq rule next →
        IsRule eq other →
        ((k : ℕ) (es : List EdgeLabel) → IsInKernelRow rule k es → IsInKernelRow other k es) →
        ((k : ℕ) (rs : List EdgeLabel) → IsMade eq rule k rs → IsInKernelRow other k rs) →
        (k : ℕ) (es : List EdgeLabel) → IsInKernelRow next k es → IsInKernelRow other k es }
    ensures parts { (eq : Equation) (rule next : Rule) (k : ℕ) (es : List EdgeLabel) →
        IsRule eq rule → IsNextStage eq rule next → IsInKernelRow next k es →
        IsInKernelRow rule k es ⊎ IsMade eq rule k es }
{}

/// The inequality of regularities holds for each stage of a completion where it holds for the rule,
/// and its gap is that of the rule: the inequality of what is made of a listed tree is the sum of
/// the inequalities at its nodes, and the degree of the tree is below 0.
pub fn stages_keep_the_gap()
    ensures subcritical { (eq : Equation) (base rule : Rule) (j : ℕ) → IsRule eq base →
        IsSubcritical eq base → IsStage eq base j rule → IsSubcritical eq rule }
    ensures gap { (eq : Equation) (base rule : Rule) (j : ℕ) (g : ℤ) → IsRule eq base →
        IsSubcritical eq base → IsGap eq base g → IsStage eq base j rule → IsGap eq rule g }
{}

/// A rule that equals its next stage is closed under cutting: of a tree over the types that
/// strongly conforms to it, each component of a cutting whose components are all unplanted and of
/// negative degree is, in canonical form, a listed tree, and the quotient strongly conforms.
pub fn completion_is_closed()
    ensures { (eq : Equation) (rule : Rule) (t : Plain) → IsEquation eq → IsRule eq rule →
        IsNextStage eq rule rule → HasTypes eq.types t → IsConforming eq.types rule t →
        IsClosedUnderCutting eq rule t }
{}
