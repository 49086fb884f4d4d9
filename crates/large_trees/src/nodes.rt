// The least excesses of the trees with a node type at the root.
ghost use Rattle.std.specs.Prelude.{◌≡◌, ◌+◌, ◌<◌};
ghost use Rattle.conforming_trees.specs.Conforming.{labels};
ghost use Rattle.large_trees.specs.Classes.{most_of, weight_at};
ghost use Rattle.large_trees.specs.Lines.{IsLeast, AreSmall};
ghost use Rattle.large_trees.specs.Cells.{line_at};
ghost use Rattle.large_trees.specs.Sums.{IsSum, IsPartial};
ghost use Rattle.large_trees.specs.Limits.{AreLimited};

use crate::count::Count;
use crate::line::Line;
use normal_rule::{EdgeType, NodeType};

// The sums of the cells of some edges with those of one more.
fn with_edge(count: Count, cells: &[Line], edge: &EdgeType, line: &Line) -> Line
    requires cells { AreLimited cells.now }
    requires line { AreSmall line.now.cells }
    ensures { IsLeast (IsSum (most_of count) (weight_at count edge.now.p.entries) line.now.cells
        (line_at cells.now edge.now.kind.0)) result.cells }
{
    match cells.get(edge.kind.0 as usize) {
        Some(above) => line.sums(count.most(), count.weight(&edge.p), above),
        None => Line::new(),
    }
}

/// The least sums of one cell for each edge type of a node type.
pub fn node_line(count: Count, cells: &[Line], node: &NodeType) -> Line
    requires cells { AreLimited cells.now }
    ensures least { IsLeast (IsPartial count cells.now (labels node.now)) result.cells }
    ensures small { AreSmall result.cells }
{
    let edges = node.edges.as_slice();
    let mut line = Line::start();
    let mut left = edges.len();
    while left > 0 {
        left -= 1;
        line = with_edge(count, cells, &edges[left], &line);
    }
    line
}
