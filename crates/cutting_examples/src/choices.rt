// The ways to choose the shifts and the parts of a cutting, by number.
use crate::cutting::CutNode;
use crate::numbers::{below, raises};
use degree_numbers::{Degree, Multi, Types};
use std::alloc::Global;

/// The ways to choose the shift of the edge into a node, and what is taken of its decoration.
#[derive(Drop)]
pub struct Choices {
    shifts: Vec<Multi>,
    parts: Vec<Multi>,
}

/// The multiindex 0 alone.
fn only_zero(alloc: Global) -> Option<Vec<Multi>> {
    below(alloc, &Multi::zero())
}

/// The shifts of the edge into a node. They are 0 unless the edge is outside the set and leaves a
/// touched node; then this degree has to stay below 0.
fn shifts(
    alloc: Global,
    types: &Types,
    cut: &[CutNode],
    node: &CutNode,
    degree: &Degree,
) -> Option<Vec<Multi>> {
    if let Some(link) = &node.link
        && !node.is_inside
        && cut.get(link.from)?.is_touched
    {
        return raises(alloc, types, degree);
    }
    only_zero(alloc)
}

/// The parts of the decoration that may be taken: only 0 unless the node is touched.
fn parts(alloc: Global, node: &CutNode) -> Option<Vec<Multi>> {
    if node.is_touched {
        below(alloc, &node.left)
    } else {
        only_zero(alloc)
    }
}

/// The choices at the nodes of a tree that is cut, with no shifts and nothing taken yet. Of each
/// edge it is known which degree has to stay below 0 when it is raised.
pub fn choices_at(
    alloc: Global,
    types: &Types,
    cut: &[CutNode],
    degrees: &[Degree],
) -> Option<Vec<Choices>> {
    let mut choices = Vec::new(alloc);
    for (node, degree) in cut.iter().zip(degrees.iter()) {
        let at = Choices {
            shifts: shifts(alloc, types, cut, node, degree)?,
            parts: parts(alloc, node)?,
        };
        choices.push(at).ok()?;
    }
    Some(choices)
}

/// How many ways there are.
pub fn count(choices: &[Choices]) -> Option<usize> {
    let mut count = 1usize;
    for at in choices {
        count = count
            .checked_mul(at.shifts.len())?
            .checked_mul(at.parts.len())?;
    }
    Some(count)
}

/// The item that the last digit of a number chooses. The digit is taken away.
fn chosen(items: &[Multi], digits: &mut usize) -> Option<Multi> {
    let digit = digits.checked_rem(items.len())?;
    *digits = digits.checked_div(items.len())?;
    items.get(digit).copied()
}

/// The cutting with this number.
pub fn cutting(
    alloc: Global,
    cut: &[CutNode],
    choices: &[Choices],
    number: usize,
) -> Option<Vec<CutNode>> {
    let mut nodes = Vec::new(alloc);
    let mut digits = number;
    for (node, at) in cut.iter().zip(choices.iter()) {
        let shift = chosen(at.shifts.as_slice(), &mut digits)?;
        let taken = chosen(at.parts.as_slice(), &mut digits)?;
        let left = node.left.minus(&taken)?;
        let node = CutNode {
            shift,
            taken,
            left,
            ..*node
        };
        nodes.push(node).ok()?;
    }
    Some(nodes)
}
