// The lines of all types, round after round.
ghost use Rattle.std.specs.Prelude.{◌≡◌, ◌<◌, ◌≤ℤ◌, pos};
ghost use Rattle.ordered_lists.specs.Members.{IsIn};
ghost use Rattle.normal_rule.specs.declared.rule.NodeType.{NodeType};
ghost use Rattle.equations.specs.Accepted.{IsEquation};
ghost use Rattle.normal_rule.specs.Regularity.{IsSubcritical};
ghost use Rattle.large_trees.specs.Lines.{Joins, IsLeast};
ghost use Rattle.large_trees.specs.Limits.{AreLimited};
ghost use Rattle.large_trees.specs.Sums.{gap_of, HasNode, HasRow, HasNoise, HasExcess};

use crate::count::Count;
use crate::excess::Excess;
use crate::gaps::gap_of;
use crate::line::{Line, MOST_EXCESS};
use crate::nodes::node_line;
use degree_numbers::{Degree, Kind, TypeId};
use equations::Equation;
use normal_rule::{NodeType, Rule, RuleRow};

// Puts in what a node type allows above an edge of a kernel.
fn put_node(
    line: &mut Line,
    eq: &Equation,
    count: Count,
    cells: &[Line],
    kernel: TypeId,
    node: &NodeType,
)
    requires equation { IsEquation eq.now }
    requires cells { AreLimited cells.now }
    requires gap { pos 1 ≤ℤ (gap_of eq.now kernel.0 node.now).a }
    ensures { Joins line.old.cells (HasNode eq.now count cells.now kernel.0 node.now)
        line.new.cells }
{
    let gap = gap_of(eq, kernel, node);
    if gap.a <= MOST_EXCESS {
        line.put_shifted(count.most(), 0, &gap, &node_line(count, cells, node));
    }
}

// Puts in what the node types of a row allow.
fn put_nodes(line: &mut Line, eq: &Equation, count: Count, cells: &[Line], row: &RuleRow)
    requires equation { IsEquation eq.now }
    requires cells { AreLimited cells.now }
    requires gaps { (n : NodeType) → IsIn n row.now.nodes →
        pos 1 ≤ℤ (gap_of eq.now row.now.kernel.0 n).a }
    ensures { Joins line.old.cells (λ m v. (n : NodeType) × IsIn n row.now.nodes
        × HasNode eq.now count cells.now row.now.kernel.0 n m v) line.new.cells }
{
    for node in row.nodes.as_slice() {
        put_node(line, eq, count, cells, row.kernel, node);
    }
}

// Puts in what a row allows above an edge of a type.
fn put_row(line: &mut Line, eq: &Equation, count: Count, cells: &[Line], kind: usize, row: &RuleRow)
    requires equation { IsEquation eq.now }
    requires cells { AreLimited cells.now }
    requires gaps { (n : NodeType) → IsIn n row.now.nodes →
        pos 1 ≤ℤ (gap_of eq.now row.now.kernel.0 n).a }
    ensures { Joins line.old.cells (HasRow eq.now count cells.now kind row.now) line.new.cells }
{
    if row.kernel.0 as usize == kind {
        put_nodes(line, eq, count, cells, row);
    }
}

// What stands above an edge of a noise.
fn noise_line(eq: &Equation, kind: usize) -> Line
    ensures { IsLeast (HasNoise eq.now kind) result.cells }
{
    let mut line = Line::new();
    if let Some(entry) = eq.types.list.get(kind) {
        if entry.kind == Kind::Noise {
            line.put(
                0,
                Excess::of(&Degree {
                    a: 0,
                    b: entry.degree.b,
                }),
            );
        }
    }
    line
}

// The next line of a type.
pub fn next_line(eq: &Equation, rule: &Rule, count: Count, cells: &[Line], kind: usize) -> Line
    requires equation { IsEquation eq.now }
    requires subcritical { IsSubcritical eq.now rule.now }
    requires cells { AreLimited cells.now }
    ensures { IsLeast (HasExcess eq.now rule.now count cells.now kind) result.cells }
{
    let mut line = noise_line(eq, kind);
    for row in rule.rows.as_slice() {
        put_row(&mut line, eq, count, cells, kind, row);
    }
    line
}
