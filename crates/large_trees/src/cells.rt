// The cells of all types.
ghost use Rattle.std.specs.Prelude.{◌≡◌, ◌<◌, true, length, IfOk};
ghost use Rattle.equations.specs.Accepted.{IsEquation};
ghost use Rattle.normal_rule.specs.Regularity.{IsSubcritical};
ghost use Rattle.conforming_trees.specs.Conforming.{IsRule};
ghost use Rattle.large_trees.specs.Cells.{AreExact};
ghost use Rattle.large_trees.specs.Limits.{AreLimited, AreShort};
ghost use Rattle.large_trees.specs.Sums.{IsRound};

use crate::count::Count;
use crate::lengths::lengths_fit;
use crate::line::Line;
use crate::rounds::next_line;
use equations::Equation;
use normal_rule::Rule;
use std::alloc::{AllocError, Global};

// A tree whose excess is at most `MOST_EXCESS` is not higher.
const MOST_ROUNDS: usize = 40_000_001;

// The lines after one more round.
fn next_cells(
    alloc: Global,
    eq: &Equation,
    rule: &Rule,
    count: Count,
    cells: &[Line],
) -> Result<Vec<Line>, AllocError>
    requires equation { IsEquation eq.now }
    requires subcritical { IsSubcritical eq.now rule.now }
    requires cells { AreLimited cells.now }
    ensures round { IfOk result (λ v. IsRound eq.now rule.now count cells.now v.items) }
    ensures lines { IfOk result (λ v. length v.items ≡ length eq.now.types.list) }
{
    let mut next = Vec::new(alloc);
    for kind in 0..eq.types.list.len() {
        next.push(next_line(eq, rule, count, cells, kind))?;
    }
    Ok(next)
}

fn are_same(cells: &[Line], next: &[Line]) -> bool
    ensures { result ≡ true → cells.now ≡ next.now }
{
    cells == next
}

/// For each type, noises and kernels, the line of the least excesses of the trees that may stand
/// above its edges. Fails only for want of memory.
pub fn cells(
    alloc: Global,
    eq: &Equation,
    rule: &Rule,
    count: Count,
) -> Result<Vec<Line>, AllocError>
    requires equation { IsEquation eq.now }
    requires rule { IsRule eq.now rule.now }
    requires subcritical { IsSubcritical eq.now rule.now }
    ensures exact { IfOk result (λ v. AreExact eq.now rule.now count v.items) }
    ensures limited { IfOk result (λ v. AreLimited v.items) }
{
    lengths_fit(rule);
    let mut cells = Vec::new(alloc);
    for _round in 0..MOST_ROUNDS {
        let next = next_cells(alloc, eq, rule, count, cells.as_slice())?;
        if are_same(cells.as_slice(), next.as_slice()) {
            return Ok(next);
        }
        cells = next;
    }
    Ok(cells)
}
