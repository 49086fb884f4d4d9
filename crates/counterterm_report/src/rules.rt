// The rules in the report.
ghost use Rattle.std.specs.Prelude.{◌≡◌, ◌++◌, length, OnOk};
ghost use Rattle.std.specs.List.{All};
ghost use Rattle.degree_numbers.specs.Types.{AreTypes};
ghost use Rattle.normal_rule.specs.Text.{IsKnownNode, AreKnown, node_type_text};
ghost use Rattle.counterterm_report.specs.Report.{rule_line, node_line, node_lines, row_lines, rule_lines};

use crate::text::type_name;
use degree_numbers::Types;
use itoa::Buffer;
use normal_rule::{NodeType, RuleRow, put_node_type};
use std::alloc::{AllocError, Global};

fn put_rule_line(
    out: &mut Vec<u8>,
    name: &[u8],
    before: usize,
    now: usize,
) -> Result<(), AllocError>
    ensures { OnOk result (out.new.items ≡ out.old.items ++ rule_line name.now before now) }
{
    out.extend_from_slice(b"rule ")?;
    out.extend_from_slice(name)?;
    out.extend_from_slice(b" ")?;
    out.extend_from_slice(Buffer::new().format(before).as_bytes())?;
    out.extend_from_slice(b" ")?;
    out.extend_from_slice(Buffer::new().format(now).as_bytes())?;
    out.extend_from_slice(b"\n")
}

fn put_node(out: &mut Vec<u8>, types: &Types, node: &NodeType) -> Result<(), AllocError>
    requires types { AreTypes types.now }
    requires known { IsKnownNode types.now node.now }
    ensures { OnOk result (out.new.items ≡ out.old.items ++ node_line types.now node.now) }
{
    out.extend_from_slice(b"  ")?;
    put_node_type(out, types, node)?;
    out.extend_from_slice(b"\n")
}

fn put_nodes(out: &mut Vec<u8>, types: &Types, nodes: &[NodeType]) -> Result<(), AllocError>
    requires types { AreTypes types.now }
    requires known { All (IsKnownNode types.now) nodes.now }
    ensures { OnOk result (out.new.items ≡ out.old.items ++ node_lines types.now nodes.now) }
{
    for node in nodes {
        put_node(out, types, node)?;
    }
    Ok(())
}

// The lines of a completed row, which had this number of node types before.
fn put_row(out: &mut Vec<u8>, types: &Types, before: usize, row: &RuleRow) -> Result<(), AllocError>
    requires types { AreTypes types.now }
    requires known { All (IsKnownNode types.now) row.now.nodes }
    ensures { OnOk result (out.new.items ≡ out.old.items ++ row_lines types.now before row.now) }
{
    put_rule_line(out, type_name(types, row.kernel), before, row.nodes.len())?;
    put_nodes(out, types, row.nodes.as_slice())
}

/// The lines of both rules, kernel by kernel.
pub(crate) fn put_rules(
    out: &mut Vec<u8>,
    types: &Types,
    base: &[RuleRow],
    completed: &[RuleRow],
) -> Result<(), AllocError>
    requires types { AreTypes types.now }
    requires known { AreKnown types.now completed.now }
    requires same { length base.now ≡ length completed.now }
    ensures { OnOk result (out.new.items ≡ out.old.items
        ++ rule_lines types.now base.now completed.now) }
{
    for i in 0..completed.len() {
        put_row(out, types, base[i].nodes.len(), &completed[i])?;
    }
    Ok(())
}
