// Whether a tree that is too large is found in the cells.
ghost use Rattle.std.specs.Prelude.{◌≡◌, ◌≤◌, ◌≤ℤ◌, ◌+ℤ◌, ℕ, pos, true, false, IfOk};
ghost use Rattle.std.specs.declared.option.Option.TheVariants.{Some};
ghost use Rattle.degree_numbers.specs.Degree.{IsWithin};
ghost use Rattle.equations.specs.Accepted.{IsEquation};
ghost use Rattle.ordered_lists.specs.Members.{IsIn};
ghost use Rattle.normal_rule.specs.declared.rule.NodeType.{NodeType};
ghost use Rattle.normal_rule.specs.Regularity.{IsSubcritical, node_regularity};
ghost use Rattle.conforming_trees.specs.Conforming.{IsRule};
ghost use Rattle.conforming_trees.specs.Listed.{HasTooLargeTree};
ghost use Rattle.large_trees.specs.declared.excess.Excess.{Excess};
ghost use Rattle.large_trees.specs.Lines.{most_excess, IsSmallCell};
ghost use Rattle.large_trees.specs.Limits.{AreLimited};
ghost use Rattle.large_trees.specs.Large.{IsLargeAt, HasLargeNode, HasLargeRow, HasLarge, HasNoLarge};

use crate::cells::cells;
use crate::count::Count;
use crate::excess::Excess;
use crate::gaps::node_regularity;
use crate::line::{CLASSES, Line};
use crate::lower_bounds::has_none;
use crate::nodes::node_line;
use crate::roots::{planted_lack, root_degree};
use crate::unit::unit;
use equations::Equation;
use normal_rule::{NodeType, Rule, RuleRow};
use std::alloc::{AllocError, Global};

// Whether the trees of a cell, with a node type of this regularity at the root and as many entries
// of a decoration as they lack, have a degree of at most 0.
fn is_large_cell(
    count: Count,
    class: usize,
    cell: Option<Excess>,
    regularity: &Excess,
    unit: u64,
    planted: usize,
) -> bool
    requires cell { IsSmallCell cell }
    requires regularity { IsWithin regularity.now.a 20000000000000000000000000000000000000 }
    requires standard { regularity.now.b ≡ pos 0 }
    requires unit { unit ≤ 10000000 }
    requires planted { planted ≤ 1 }
    ensures yes { result ≡ true →
        (v : Excess) × (cell ≡ Some v) × IsLargeAt count regularity.now.a unit planted class v }
    ensures no { result ≡ false → (v : Excess) → cell ≡ Some v →
        IsLargeAt count regularity.now.a unit planted class v → ⊥ }
{
    match (cell, count.lack(class)) {
        (Some(excess), Some(lack)) => {
            let degree = root_degree(&excess, regularity, unit, lack.max(planted));
            degree.is_at_most(&Excess { a: 0, b: 0 })
        }
        _ => false,
    }
}

// Whether there is such a cell for a node type.
fn is_large_node(eq: &Equation, count: Count, cells: &[Line], unit: u64, node: &NodeType) -> bool
    requires equation { IsEquation eq.now }
    requires cells { AreLimited cells.now }
    requires unit { unit ≤ 10000000 }
    requires low { pos 0 ≤ℤ (pos most_excess +ℤ node_regularity eq.now node.now) }
    ensures yes { result ≡ true → HasLargeNode eq.now count cells.now unit node.now }
    ensures no { result ≡ false → HasLargeNode eq.now count cells.now unit node.now → ⊥ }
{
    let line = node_line(count, cells, node);
    let regularity = node_regularity(eq, node);
    let planted = planted_lack(&eq.types, node);
    for class in 0..CLASSES {
        if is_large_cell(count, class, line.cells[class], &regularity, unit, planted) {
            return true;
        }
    }
    false
}

// Whether there is one in a row.
fn is_large_row(eq: &Equation, count: Count, cells: &[Line], unit: u64, row: &RuleRow) -> bool
    requires equation { IsEquation eq.now }
    requires cells { AreLimited cells.now }
    requires unit { unit ≤ 10000000 }
    requires low { (n : NodeType) → IsIn n row.now.nodes →
        pos 0 ≤ℤ (pos most_excess +ℤ node_regularity eq.now n) }
    ensures yes { result ≡ true → HasLargeRow eq.now count cells.now unit row.now }
    ensures no { result ≡ false → HasLargeRow eq.now count cells.now unit row.now → ⊥ }
{
    for node in row.nodes.as_slice() {
        if is_large_node(eq, count, cells, unit, node) {
            return true;
        }
    }
    false
}

// Whether there is one in a rule.
fn is_large_rule(eq: &Equation, rule: &Rule, count: Count, cells: &[Line], unit: u64) -> bool
    requires equation { IsEquation eq.now }
    requires subcritical { IsSubcritical eq.now rule.now }
    requires cells { AreLimited cells.now }
    requires unit { unit ≤ 10000000 }
    ensures yes { result ≡ true → HasLarge eq.now rule.now count cells.now unit }
    ensures no { result ≡ false → HasLarge eq.now rule.now count cells.now unit → ⊥ }
{
    for row in rule.rows.as_slice() {
        if is_large_row(eq, count, cells, unit, row) {
            return true;
        }
    }
    false
}

// Whether a candidate of a degree of at most 0 is too large for a count.
fn has_large(alloc: Global, eq: &Equation, rule: &Rule, count: Count) -> Result<bool, AllocError>
    requires equation { IsEquation eq.now }
    requires rule { IsRule eq.now rule.now }
    requires subcritical { IsSubcritical eq.now rule.now }
    ensures yes { IfOk result (λ large. large ≡ true → HasTooLargeTree eq.now rule.now) }
    ensures no { IfOk result (λ large. large ≡ false → HasNoLarge eq.now rule.now count) }
{
    if has_none(alloc, eq, rule, count)? {
        return Ok(false);
    }
    let cells = cells(alloc, eq, rule, count)?;
    Ok(is_large_rule(eq, rule, count, cells.as_slice(), unit(&eq.types)))
}

/// Whether some canonical tree over the types that strongly conforms to the rule (after Bruned,
/// Hairer and Zambotti), is unplanted, has an edge and a degree of at most 0 has more than 24 edges
/// (`MOST_EDGES`) or a decoration sum of more than 64 (`MOST_LISTED_DECORATIONS`). Such trees are
/// not listed: for each type and each number of edges up to "more than 24", and then for each sum
/// of derivative entries up to "more than 64", the least degree of the trees above its edges is
/// found. There is no bound on the number or the length of the node types. Fails only for want of
/// memory.
pub fn has_too_large_tree(alloc: Global, eq: &Equation, rule: &Rule) -> Result<bool, AllocError>
    requires equation { IsEquation eq.now }
    requires rule { IsRule eq.now rule.now }
    requires subcritical { IsSubcritical eq.now rule.now }
    ensures yes { IfOk result (λ large. large ≡ true → HasTooLargeTree eq.now rule.now) }
    ensures no { IfOk result (λ large. large ≡ false → HasTooLargeTree eq.now rule.now → ⊥) }
{
    let many_edges = has_large(alloc, eq, rule, Count::Edges)?;
    let many_decorations = has_large(alloc, eq, rule, Count::Decorations)?;
    Ok(many_edges || many_decorations)
}
