// The normal rule with which an equation begins.
ghost use Rattle.std.specs.Prelude.{◌≡◌, ◌≢◌, ◌⊎◌, ◌<◌, ◌≤◌, ℕ, List, [], length, pos, IfOk, IfErr, IfSome};
ghost use Rattle.std.specs.List.{find};
ghost use Rattle.std.specs.Option.{option_map, option_and_then};
ghost use Rattle.degree_numbers.specs.Types.{AreTypes};
ghost use Rattle.equations.specs.Accepted.{IsEquation};
ghost use Rattle.normal_rule.specs.Regularity.{IsFirstFailure, IsGap, HasRows, AreMeasured};
ghost use Rattle.normal_rule.specs.Text.{IsKnownNode, AreKnown};
ghost use Rattle.workbench_core.specs.Base.{node_in, node_text_in, IsBase, IsNotSubcritical, IsRefusedRule};

use crate::refusal::Refusal;
use crate::text::{kernel_name, side_text};
use degree_numbers::{Degree, TypeId, Types};
use equations::Equation;
use normal_rule::{
    NodeType, NotSubcritical, Rule, RuleRefusal, RuleRow, check_regularity, normal_rule,
    put_node_type,
};
use sqlite_items::Items;
use std::alloc::{AllocError, Global};

/// The normal rule of an equation for which the inequality of regularities holds, with the gap.
#[derive(Debug, Drop)]
pub struct BaseRule {
    pub rule: Rule,
    pub gap: Degree,
}

/// The normal rule of an equation and its gap. Refused with `RuleTooLarge` of stage 0 where it has
/// more than 2,000 node types (`MOST_NODE_TYPES`), else with `NotSubcritical` where the inequality
/// of regularities does not hold.
pub fn base_rule(alloc: Global, eq: &Equation) -> Result<BaseRule, Refusal>
    requires { IsEquation eq.now }
    ensures base { IfOk result (λ base. IsBase eq.now base.rule) }
    ensures gap { IfOk result (λ base. IsGap eq.now base.rule base.gap.a × (base.gap.b ≡ pos 0)) }
    ensures measured { IfOk result (λ base. AreMeasured base.rule.rows) }
    ensures known { IfOk result (λ base. AreKnown eq.now.types base.rule.rows) }
    ensures refused { IfErr result (λ e. (e ≡ Refusal.Memory) ⊎ IsRefusedRule eq.now e) }
    ensures no_fault { result ≢ Err Refusal.FileFault }
{
    let rule = match normal_rule(alloc, eq) {
        Ok(rule) => rule,
        Err(RuleRefusal::RuleTooLarge) => return Err(Refusal::RuleTooLarge { stage: 0 }),
        Err(RuleRefusal::Memory) => return Err(Refusal::Memory),
    };
    match check_regularity(eq, &rule) {
        Ok(gap) => Ok(BaseRule { rule, gap }),
        Err(failure) => Err(not_subcritical(alloc, eq, &rule, &failure)?),
    }
}

// The refusal, in texts.
fn not_subcritical(
    alloc: Global,
    eq: &Equation,
    rule: &Rule,
    failure: &NotSubcritical,
) -> Result<Refusal, AllocError>
    requires equation { IsEquation eq.now }
    requires rows { HasRows eq.now rule.now }
    requires known { AreKnown eq.now.types rule.now.rows }
    requires failure { IsFirstFailure eq.now rule.now.rows failure.now }
    ensures failing { IfOk result (λ e. IsNotSubcritical eq.now rule.now e) }
    ensures no_fault { IfOk result (λ e. e ≢ Refusal.FileFault) }
{
    let left = side_text(eq, failure.left);
    let right = side_text(eq, failure.right);
    Ok(Refusal::NotSubcritical {
        kernel: Items::from_slice(alloc, kernel_name(&eq.types, failure.kernel))?,
        node: Items::from_vec(node_text(alloc, &eq.types, rule.rows.as_slice(), failure)?),
        left: Items::from_slice(alloc, left.bytes())?,
        right: Items::from_slice(alloc, right.bytes())?,
    })
}

// The text of the node type where the inequality fails.
fn node_text(
    alloc: Global,
    types: &Types,
    rows: &[RuleRow],
    failure: &NotSubcritical,
) -> Result<Vec<u8>, AllocError>
    requires types { AreTypes types.now }
    requires known { AreKnown types.now rows.now }
    ensures { IfOk result (λ v. v.items ≡ node_text_in types.now rows.now failure.now.kernel.0
        failure.now.node) }
{
    let mut text = Vec::new(alloc);
    if let Some(node) = node_at(types, rows, failure.kernel, failure.node) {
        put_node_type(&mut text, types, node)?;
    }
    Ok(text)
}

// A node type of the row of a kernel.
fn node_at<'a>(
    types: &Types,
    rows: &'a [RuleRow],
    kernel: TypeId,
    node: usize,
) -> Option<&'a NodeType>
    requires { AreKnown types.now rows.now }
    ensures node { option_map (λ n. n.now) result ≡ node_in rows.now kernel.0 node }
    ensures known { IfSome result (λ n. IsKnownNode types.now n.now) }
{
    for row in rows {
        if row.kernel == kernel {
            return row.nodes.get(node);
        }
    }
    None
}
