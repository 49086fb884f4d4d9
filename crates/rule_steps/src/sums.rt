// What can be added at the nodes of a tree together.
ghost use Rattle.std.specs.Prelude.{◌≡◌, ◌<◌, ◌^◌, length, map, IfOk, IfErr};
ghost use Rattle.std.specs.List.Sorted.{IsStrictlySortedBy};
ghost use Rattle.equations.specs.Accepted.{IsEquation};
ghost use Rattle.ordered_lists.specs.Members.{IsIn};
ghost use Rattle.tree_pool.specs.Content.{tree_at};
ghost use Rattle.normal_rule.specs.Order.{node_order};
ghost use Rattle.normal_rule.specs.declared.rule.RuleRefusal.TheVariants.{RuleTooLarge};
ghost use Rattle.conforming_trees.specs.Conforming.{labels, IsRule, ConformsAbove};
ghost use Rattle.rule_stages.specs.Stages.{join};
ghost use Rattle.rule_steps.specs.Sets.{IsSetOf, HasMany, IsSumOf, IsSmallRule};
ghost use Rattle.rule_steps.specs.Sums.{additions_above};

use crate::edges::joined;
use crate::roots::additions_at_root;
use crate::sets::{empty_alone, put_few};
use equations::Equation;
use normal_rule::{NodeType, Rule, RuleRefusal};
use std::alloc::{AllocError, Global};
use std::collections::BTreeSet;
use tree_pool::{Pool, TreeId};

/// A node type with each of others together. Fails only for want of memory.
fn with_each(alloc: Global, x: &NodeType, ys: &[NodeType]) -> Result<Vec<NodeType>, AllocError>
    ensures { IfOk result (λ v. map labels v.items ≡ map (join (labels x.now))
        (map labels ys.now)) }
{
    let mut all = Vec::new(alloc);
    for y in ys {
        all.push(joined(alloc, x.edges.as_slice(), y.edges.as_slice())?)?;
    }
    Ok(all)
}

/// Each of some node types with each of others together. Fails with `RuleTooLarge` only where that
/// are more than 2,000, and for want of memory.
pub(crate) fn sums(
    alloc: Global,
    xs: &[NodeType],
    ys: &[NodeType],
) -> Result<Vec<NodeType>, RuleRefusal>
    ensures set { IfOk result (λ v. IsSetOf (IsSumOf xs.now ys.now) v.items) }
    ensures large { IfErr result (λ e. e ≡ RuleTooLarge → HasMany (IsSumOf xs.now ys.now)) }
{
    let mut all = BTreeSet::new(alloc);
    for x in xs {
        put_few(with_each(alloc, x, ys)?, &mut all)?;
    }
    Ok(all.into_iter().collect(alloc)?)
}

/// The same where the others are in their order, each once. They are given back as they are where
/// the first are the empty node type alone.
pub(crate) fn sums_with(
    alloc: Global,
    xs: &[NodeType],
    ys: Vec<NodeType>,
) -> Result<Vec<NodeType>, RuleRefusal>
    requires { IsStrictlySortedBy node_order ys.items }
    ensures set { IfOk result (λ v. IsSetOf (IsSumOf xs.now ys.items) v.items) }
    ensures large { IfErr result (λ e. e ≡ RuleTooLarge → HasMany (IsSumOf xs.now ys.items)) }
{
    match xs {
        [x] if x.edges.is_empty() => Ok(ys),
        _ => sums(alloc, xs, ys.as_slice()),
    }
}

/// All additions above the root of a tree of the pool, together. Fails with `RuleTooLarge` only
/// where that are more than 2,000, and for want of memory.
pub(crate) fn additions_above(
    alloc: Global,
    eq: &Equation,
    rule: &Rule,
    pool: &Pool<'_>,
    id: TreeId,
) -> Result<Vec<NodeType>, RuleRefusal>
    requires equation { IsEquation eq.now }
    requires rule { IsRule eq.now rule.now }
    requires small { IsSmallRule (2 ^ 30) rule.now }
    requires types { pool.now.types ≡ eq.now.types }
    requires known { id.0 < length pool.now.trees }
    requires conforms { ConformsAbove eq.now.types rule.now (tree_at pool.now id.0) }
    ensures set { IfOk result
        (λ v.
        IsSetOf (λ es. IsIn es (additions_above eq.now.types rule.now (tree_at pool.now id.0)))
        v.items) }
    ensures large { IfErr result (λ e. e ≡ RuleTooLarge →
        HasMany (λ es. IsIn es (additions_above eq.now.types rule.now (tree_at pool.now id.0)))) }
{
    let (_, edges) = pool.node(id);
    let mut all = empty_alone(alloc)?;
    let mut i = edges.len();
    while i > 0 {
        i -= 1;
        let e = edges[i];
        let at = additions_at_root(alloc, eq, rule, pool, e.kind, e.child)?;
        let above = additions_above(alloc, eq, rule, pool, e.child)?;
        let inner = sums_with(alloc, above.as_slice(), all)?;
        all = sums_with(alloc, at.as_slice(), inner)?;
    }
    Ok(all)
}
