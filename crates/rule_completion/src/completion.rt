// The completion.
ghost use Rattle.std.specs.Prelude.{◌≡◌, ◌≤◌, ◌<◌, ℕ, ℤ, length, unwrap_or, IfOk, IfErr};
ghost use Rattle.std.specs.List.{All};
ghost use Rattle.std.specs.Option.{option_map};
ghost use Rattle.std.specs.declared.option.Option.TheVariants.{Some};
ghost use Rattle.equations.specs.Accepted.{IsEquation};
ghost use Rattle.plain_trees.specs.Plain.{Plain};
ghost use Rattle.normal_rule.specs.Rule.{IsNormalRule, node_count};
ghost use Rattle.normal_rule.specs.Regularity.{IsSubcritical, IsGap};
ghost use Rattle.conforming_trees.specs.Conforming.{IsRule};
ghost use Rattle.conforming_trees.specs.Listed.{IsListed, IsWholeList, IsFirstZero, HasTooManyTrees, HasTooLargeTree};
ghost use Rattle.tree_pool.specs.Content.{IsGrown, tree_at};
ghost use Rattle.tree_pool.specs.declared.node.TreeId.{TreeId};
ghost use Rattle.rule_stages.specs.Closure.{IsClosedUnderCutting};
ghost use Rattle.rule_stages.specs.Stages.{IsCompletion};
ghost use Rattle.rule_steps.specs.Steps.{trees_of};
ghost use Rattle.rule_completion.specs.declared.refusal.StageFault.{StageFault};
ghost use Rattle.rule_completion.specs.Reached.{IsReached, IsStageFault};

use crate::refusal::StageRefusal;
use crate::stage::{list_stage, node_type_count, stage_after};
use equations::Equation;
use normal_rule::Rule;
use std::alloc::Global;
use tree_budgets::normal_rule_is_rule;
use tree_listing::Listing;
use tree_pool::Pool;

/// The completed rule, the first stage that equals its successor, with its listed trees.
#[derive(Debug, Drop)]
pub struct Completion {
    pub rule: Rule,
    /// From 0.
    pub stage: u32,
    pub listing: Listing,
}

// The rule of a stage: that of stage 0 is the base.
fn rule_of<'r>(base: &'r Rule, reached: &'r Option<Rule>) -> &'r Rule
    ensures { result.now ≡ unwrap_or reached.now base.now }
{
    match reached {
        Some(rule) => rule,
        None => base,
    }
}

/// The completion of the normal rule of an equation (after Bruned, Hairer and Zambotti), for which
/// the inequality of regularities holds: stage 0 is the rule, and each stage after it the least
/// normal rule that holds the one before and all that contractions of its listed trees make. Fails
/// with the first stage, from 0, that is too large: the stage whose listing is refused, or the
/// stage, from 1, whose rule has more than 2,000 node types (`MOST_NODE_TYPES`); and for want of
/// memory. The node types of the base are not counted: a base of more than 2,000, which
/// `normal_rule` never answers, is listed, and where that is not refused, stage 1 is too large.
pub fn complete<'a>(
    alloc: Global,
    eq: &Equation,
    base: &Rule,
    pool: &mut Pool<'a>,
) -> Result<Completion, StageRefusal>
    requires equation { IsEquation eq.now }
    requires normal { IsNormalRule eq.now base.now }
    requires subcritical { IsSubcritical eq.now base.now }
    requires types { pool.old.types ≡ eq.now.types }
    ensures completion { IfOk result (λ c. IsCompletion eq.now base.now c.stage c.rule) }
    ensures reached { IfOk result (λ c. IsReached eq.now base.now c.stage c.rule) }
    ensures rule { IfOk result (λ c. IsRule eq.now c.rule) }
    ensures small { IfOk result (λ c. node_count c.rule ≤ 2000) }
    ensures known { IfOk result (λ c. All (λ id. id.0 < length pool.new.trees) c.listing.trees) }
    ensures trees { IfOk result (λ c. IsWholeList eq.now c.rule
        (trees_of pool.new c.listing.trees)) }
    ensures known_zero { IfOk result (λ c. (id : TreeId) → c.listing.zero ≡ Some id →
        id.0 < length pool.new.trees) }
    ensures zero { IfOk result (λ c. IsFirstZero eq.now c.rule
        (option_map (λ id. tree_at pool.new id.0) c.listing.zero)) }
    ensures few { IfOk result (λ c. HasTooManyTrees eq.now c.rule → ⊥) }
    ensures fit { IfOk result (λ c. HasTooLargeTree eq.now c.rule → ⊥) }
    ensures gap { IfOk result (λ c. (g : ℤ) → IsGap eq.now base.now g → IsGap eq.now c.rule g) }
    ensures closed { IfOk result (λ c. (t : Plain) → IsListed eq.now c.rule t →
        IsClosedUnderCutting eq.now c.rule t) }
    ensures refused { IfErr result (λ e. (j : ℕ) (what : StageFault) →
        e ≡ StageRefusal.Stage j what → IsStageFault eq.now base.now j what) }
    ensures grown { IsGrown pool.old pool.new }
{
    normal_rule_is_rule(eq, base);
    let mut stage = 0;
    let mut reached: Option<Rule> = None;
    loop {
        let rule = rule_of(base, &reached);
        let listing = list_stage(alloc, eq, rule, stage, pool)?;
        let next = stage_after(alloc, eq, rule, stage, pool, listing.trees.as_slice())?;
        // the next stage holds the rule, and is the rule where it has no more node types
        if node_type_count(&next) == node_type_count(rule) {
            return Ok(Completion {
                rule: next,
                stage,
                listing,
            });
        }
        reached = Some(next);
        stage += 1;
    }
}
