// The roots of trees of a pool: their node types, and what can be added at them.
ghost use Rattle.std.specs.Prelude.{◌≡◌, ◌<◌, ◌^◌, length, map, IfOk, IfErr};
ghost use Rattle.equations.specs.Accepted.{IsEquation};
ghost use Rattle.tree_pool.specs.Content.{tree_at};
ghost use Rattle.normal_rule.specs.declared.rule.RuleRefusal.TheVariants.{RuleTooLarge};
ghost use Rattle.conforming_trees.specs.Conforming.{labels, node_type_of, IsRule};
ghost use Rattle.rule_steps.specs.Sets.{IsSetOf, HasMany, IsAdditionAt, IsSmallRule};

use crate::additions::additions_at;
use crate::edges::joined;
use degree_numbers::TypeId;
use equations::Equation;
use normal_rule::{EdgeType, NodeType, Rule, RuleRefusal};
use std::alloc::{AllocError, Global};
use tree_pool::{Pool, TreeId};

/// The node type at the root of a tree. Fails only for want of memory.
pub(crate) fn root_type(alloc: Global, pool: &Pool<'_>, id: TreeId) -> Result<NodeType, AllocError>
    requires known { id.0 < length pool.now.trees }
    ensures { IfOk result (λ n. labels n ≡ node_type_of (tree_at pool.now id.0)) }
{
    let (_, edges) = pool.node(id);
    let mut types = Vec::new(alloc);
    for e in edges {
        types.push(EdgeType {
            kind: e.kind,
            p: e.p,
        })?;
    }
    joined(alloc, types.as_slice(), &[])
}

/// All that can be added at the root of a tree that stands above an edge of this type. Fails with
/// `RuleTooLarge` only where that are more than 2,000 lists (`MOST_NODE_TYPES`), and for want of
/// memory.
pub(crate) fn additions_at_root(
    alloc: Global,
    eq: &Equation,
    rule: &Rule,
    pool: &Pool<'_>,
    kind: TypeId,
    id: TreeId,
) -> Result<Vec<NodeType>, RuleRefusal>
    requires equation { IsEquation eq.now }
    requires rule { IsRule eq.now rule.now }
    requires small { IsSmallRule (2 ^ 30) rule.now }
    requires known { id.0 < length pool.now.trees }
    ensures set { IfOk result (λ v. IsSetOf (IsAdditionAt eq.now.types rule.now kind.0
        (tree_at pool.now id.0)) v.items) }
    ensures large { IfErr result (λ e. e ≡ RuleTooLarge →
        HasMany (IsAdditionAt eq.now.types rule.now kind.0 (tree_at pool.now id.0))) }
{
    let (n, _) = pool.node(id);
    let root = root_type(alloc, pool, id)?;
    additions_at(alloc, eq, rule, kind, n, root.edges.as_slice())
}
