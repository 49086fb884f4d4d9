// One stage of a completion.
ghost use Rattle.std.specs.Prelude.{◌≡◌, ◌<◌, ◌≤◌, ◌+◌, ◌^◌, ℕ, suc, length, IfOk, IfErr};
ghost use Rattle.std.specs.List.{All};
ghost use Rattle.std.specs.Option.{option_map};
ghost use Rattle.std.specs.declared.option.Option.TheVariants.{Some};
ghost use Rattle.equations.specs.Accepted.{IsEquation};
ghost use Rattle.normal_rule.specs.Regularity.{IsSubcritical};
ghost use Rattle.normal_rule.specs.Rule.{nodes_in, node_count};
ghost use Rattle.conforming_trees.specs.Conforming.{IsRule};
ghost use Rattle.conforming_trees.specs.Listed.{IsWholeList, IsFirstZero, HasTooManyTrees, HasTooLargeTree};
ghost use Rattle.tree_pool.specs.Content.{IsGrown, tree_at};
ghost use Rattle.tree_pool.specs.declared.node.TreeId.{TreeId};
ghost use Rattle.rule_stages.specs.Stages.{IsNextStage, HasTooLargeNext};
ghost use Rattle.rule_steps.specs.Sets.{IsSmallRule};
ghost use Rattle.rule_steps.specs.Steps.{trees_of};
ghost use Rattle.rule_completion.specs.declared.refusal.StageFault.{StageFault};
ghost use Rattle.rule_completion.specs.declared.refusal.StageFault.TheVariants.{RuleTooLarge};
ghost use Rattle.rule_completion.specs.declared.refusal.StageRefusal.TheVariants.{Stage};
ghost use Rattle.rule_completion.specs.Faults.{IsListingFault};

use crate::refusal::{StageFault, StageRefusal};
use equations::Equation;
use normal_rule::{Rule, RuleRefusal, RuleRow};
use rule_steps::next_stage;
use std::alloc::Global;
use tree_listing::{ListRefusal, Listing, list_trees};
use tree_pool::{Pool, TreeId};

// How many node types these rows have together.
fn count_in(rows: &[RuleRow]) -> usize
    requires { nodes_in rows.now ≤ 2000 }
    ensures { result ≡ nodes_in rows.now }
{
    match rows {
        [] => 0,
        [row, rest @ ..] => row.nodes.len() + count_in(rest),
    }
}

/// How many node types the rows of a rule have together.
pub(crate) fn node_type_count(rule: &Rule) -> usize
    requires { node_count rule.now ≤ 2000 }
    ensures { result ≡ node_count rule.now }
{
    count_in(rule.rows.as_slice())
}

/// The listing of the rule of this stage.
pub(crate) fn list_stage(
    alloc: Global,
    eq: &Equation,
    rule: &Rule,
    stage: u32,
    pool: &mut Pool<'_>,
) -> Result<Listing, StageRefusal>
    requires equation { IsEquation eq.now }
    requires rule { IsRule eq.now rule.now }
    requires subcritical { IsSubcritical eq.now rule.now }
    requires types { pool.old.types ≡ eq.now.types }
    ensures known { IfOk result (λ listing. All (λ id. id.0 < length pool.new.trees)
        listing.trees) }
    ensures trees { IfOk result (λ listing. IsWholeList eq.now rule.now
        (trees_of pool.new listing.trees)) }
    ensures known_zero { IfOk result (λ listing. (id : TreeId) → listing.zero ≡ Some id →
        id.0 < length pool.new.trees) }
    ensures zero { IfOk result (λ listing. IsFirstZero eq.now rule.now
        (option_map (λ id. tree_at pool.new id.0) listing.zero)) }
    ensures few { IfOk result (λ listing. HasTooManyTrees eq.now rule.now → ⊥) }
    ensures fit { IfOk result (λ listing. HasTooLargeTree eq.now rule.now → ⊥) }
    ensures refused { IfErr result (λ e. (j : ℕ) (what : StageFault) → e ≡ Stage j what →
        (j ≡ stage) × IsListingFault eq.now rule.now what) }
    ensures grown { IsGrown pool.old pool.new }
{
    match list_trees(alloc, eq, rule, pool) {
        Ok(listing) => Ok(listing),
        Err(ListRefusal::TooManyTrees) => Err(StageRefusal::Stage {
            stage,
            what: StageFault::TooManyTrees,
        }),
        Err(ListRefusal::TreeTooLarge) => Err(StageRefusal::Stage {
            stage,
            what: StageFault::TreeTooLarge,
        }),
        Err(ListRefusal::Memory) => Err(StageRefusal::Memory),
    }
}

/// The rule of the stage after this one, whose listed trees these are.
pub(crate) fn stage_after(
    alloc: Global,
    eq: &Equation,
    rule: &Rule,
    stage: u32,
    pool: &Pool<'_>,
    trees: &[TreeId],
) -> Result<Rule, StageRefusal>
    requires equation { IsEquation eq.now }
    requires rule { IsRule eq.now rule.now }
    requires small { IsSmallRule (2 ^ 30) rule.now }
    requires stage { stage + 1 < 2 ^ 32 }
    requires types { pool.now.types ≡ eq.now.types }
    requires known { All (λ id. id.0 < length pool.now.trees) trees.now }
    requires listed { IsWholeList eq.now rule.now (trees_of pool.now trees.now) }
    ensures next { IfOk result (λ next. IsNextStage eq.now rule.now next) }
    ensures few { IfOk result (λ next. node_count next ≤ 2000) }
    ensures refused { IfErr result (λ e. (j : ℕ) (what : StageFault) → e ≡ Stage j what →
        (j ≡ suc stage) × (what ≡ RuleTooLarge) × HasTooLargeNext eq.now rule.now) }
{
    match next_stage(alloc, eq, rule, pool, trees) {
        Ok(next) => Ok(next),
        Err(RuleRefusal::RuleTooLarge) => Err(StageRefusal::Stage {
            stage: stage + 1,
            what: StageFault::RuleTooLarge,
        }),
        Err(RuleRefusal::Memory) => Err(StageRefusal::Memory),
    }
}
