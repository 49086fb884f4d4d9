// The check text.
ghost use Rattle.std.specs.Prelude.{◌≡◌, ◌++◌, ℕ, List, [], ◌∷◌, length, codes, decimal, pos, IfOk, OnOk};
ghost use Rattle.std.specs.List.{All};
ghost use Rattle.degree_numbers.specs.Types.{name_of};
ghost use Rattle.equations.specs.Accepted.{IsEquation};
ghost use Rattle.normal_rule.specs.Regularity.{IsMeasuredNode, AreMeasured};
ghost use Rattle.normal_rule.specs.Text.{node_type_text, IsKnownNode, AreKnown};
ghost use Rattle.workbench_core.specs.CheckText.{line_text, sides_text, heading_text, IsSideText, IsLine, AreLines, IsRowText, AreRowTexts, IsCheckText};

use degree_numbers::{Degree, SmallText, TypeId, Types, print_degree};
use equations::Equation;
use itoa::Buffer;
use normal_rule::{NodeType, Rule, RuleRow, put_node_type, regularity_of, right_side};
use std::alloc::{AllocError, Global};

/// The check text of an equation whose normal rule and gap these are.
pub fn check_text(
    alloc: Global,
    eq: &Equation,
    rule: &Rule,
    gap: &Degree,
) -> Result<Vec<u8>, AllocError>
    requires equation { IsEquation eq.now }
    requires measured { AreMeasured rule.now.rows }
    requires known { AreKnown eq.now.types rule.now.rows }
    requires standard { gap.now.b ≡ pos 0 }
    ensures { IfOk result (λ v. IsCheckText eq.now rule.now gap.now.a v.items) }
{
    let mut text = Vec::from_slice(alloc, b"accepted\n")?;
    push_rows(eq, rule.rows.as_slice(), &mut text)?;
    let gap = side_text(eq, *gap);
    text.extend_from_slice(b"gap ")?;
    text.extend_from_slice(gap.bytes())?;
    text.extend_from_slice(b"\n")?;
    Ok(text)
}

fn push_rows(eq: &Equation, rows: &[RuleRow], text: &mut Vec<u8>) -> Result<(), AllocError>
    requires equation { IsEquation eq.now }
    requires measured { AreMeasured rows.now }
    requires known { AreKnown eq.now.types rows.now }
    ensures { OnOk result ((piece : List ℕ) × AreRowTexts eq.now rows.now piece
        × (text.new.items ≡ text.old.items ++ piece)) }
{
    for row in rows {
        push_row(eq, row, text)?;
    }
    Ok(())
}

fn push_row(eq: &Equation, row: &RuleRow, text: &mut Vec<u8>) -> Result<(), AllocError>
    requires equation { IsEquation eq.now }
    requires measured { All IsMeasuredNode row.now.nodes }
    requires known { All (IsKnownNode eq.now.types) row.now.nodes }
    ensures { OnOk result ((piece : List ℕ) × IsRowText eq.now row.now piece
        × (text.new.items ≡ text.old.items ++ piece)) }
{
    put_heading(kernel_name(&eq.types, row.kernel), row.nodes.len(), text)?;
    push_lines(eq, row.kernel, row.nodes.as_slice(), text)?;
    Ok(())
}

fn put_heading(name: &[u8], count: usize, text: &mut Vec<u8>) -> Result<(), AllocError>
    ensures { OnOk result (text.new.items ≡ text.old.items ++ heading_text name.now count) }
{
    text.extend_from_slice(b"rule ")?;
    text.extend_from_slice(name)?;
    text.extend_from_slice(b" ")?;
    text.extend_from_slice(Buffer::new().format(count).as_bytes())?;
    text.extend_from_slice(b"\n")
}

pub fn kernel_name(types: &Types, kernel: TypeId) -> &[u8]
    ensures { result.now ≡ name_of types.now kernel.0 }
{
    match types.list.get(kernel.0 as usize) {
        Some(entry) => entry.name.bytes(),
        None => &[],
    }
}

fn push_lines(
    eq: &Equation,
    kernel: TypeId,
    nodes: &[NodeType],
    text: &mut Vec<u8>,
) -> Result<(), AllocError>
    requires equation { IsEquation eq.now }
    requires measured { All IsMeasuredNode nodes.now }
    requires known { All (IsKnownNode eq.now.types) nodes.now }
    ensures { OnOk result ((piece : List ℕ) × AreLines eq.now kernel.0 nodes.now piece
        × (text.new.items ≡ text.old.items ++ piece)) }
{
    for node in nodes {
        push_line(eq, kernel, node, text)?;
    }
    Ok(())
}

// The line of a node type.
fn push_line(
    eq: &Equation,
    kernel: TypeId,
    node: &NodeType,
    text: &mut Vec<u8>,
) -> Result<(), AllocError>
    requires equation { IsEquation eq.now }
    requires measured { IsMeasuredNode node.now }
    requires known { IsKnownNode eq.now.types node.now }
    ensures { OnOk result ((piece : List ℕ) × IsLine eq.now kernel.0 node.now piece
        × (text.new.items ≡ text.old.items ++ piece)) }
{
    let left = side_text(eq, regularity_of(eq, kernel));
    let right = side_text(eq, right_side(eq, kernel, node));
    text.extend_from_slice(b"  ")?;
    put_node_type(text, &eq.types, node)?;
    put_sides(left.bytes(), right.bytes(), text)?;
    Ok(())
}

fn put_sides(left: &[u8], right: &[u8], text: &mut Vec<u8>) -> Result<(), AllocError>
    ensures { OnOk result (text.new.items ≡ text.old.items ++ sides_text left.now right.now) }
{
    text.extend_from_slice(b": ")?;
    text.extend_from_slice(left)?;
    text.extend_from_slice(b" < ")?;
    text.extend_from_slice(right)?;
    text.extend_from_slice(b"\n")
}

// The text of a standard part.
pub fn side_text(eq: &Equation, d: Degree) -> SmallText
    requires equation { IsEquation eq.now }
    requires standard { d.b ≡ pos 0 }
    ensures { IsSideText eq.now d.a result }
{
    let mut text = SmallText::new();
    print_degree(d, eq.types.units, &mut text);
    text
}
