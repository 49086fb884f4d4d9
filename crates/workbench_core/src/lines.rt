// The lines of refusals.
ghost use Rattle.std.specs.Prelude.{◌≡◌, ◌++◌, codes, decimal, IfOk, IfErr, OnOk};
ghost use Rattle.std.specs.Fmt.{signed_decimal};
ghost use Rattle.workbench_core.specs.Refusals.{reason_text, which_text, field, reason_of_tree, fields_of, line_of};

use crate::refusal::{Refusal, TreeReason};
use equation_file::{Reason, Which};
use itoa::Buffer;
use std::alloc::{AllocError, Global};

/// The line of a refusal, with its line feed. The one refusal is `Memory`.
pub fn print_refusal(alloc: Global, refusal: &Refusal) -> Result<Vec<u8>, Refusal>
    ensures line { IfOk result (λ v. v.items ≡ line_of refusal.now) }
    ensures memory { IfErr result (λ e. e ≡ Refusal.Memory) }
{
    Ok(line(alloc, refusal)?)
}

fn reason_text(reason: Reason) -> &'static [u8]
    ensures { result.now ≡ reason_text reason }
{
    match reason {
        Reason::Missing => b"missing",
        Reason::Kind => b"kind",
        Reason::Value => b"value",
        Reason::Key => b"key",
        Reason::Name => b"name",
        Reason::Repeated => b"repeated",
        Reason::Degree => b"degree",
        Reason::Polynomial => b"polynomial",
        Reason::Noise => b"noise",
        Reason::Version => b"version",
    }
}

fn which_text(which: Which) -> &'static [u8]
    ensures { result.now ≡ which_text which }
{
    match which {
        Which::Bytes => b"bytes",
        Which::Dimensions => b"dimensions",
        Which::Scaling => b"scaling",
        Which::Parameters => b"parameters",
        Which::Noises => b"noises",
        Which::Unknowns => b"unknowns",
        Which::Number => b"number",
        Which::Degree => b"degree",
        Which::Unit => b"unit",
        Which::Terms => b"terms",
        Which::Factors => b"factors",
        Which::Derivative => b"derivative",
        Which::Denominator => b"denominator",
    }
}

fn line(alloc: Global, refusal: &Refusal) -> Result<Vec<u8>, AllocError>
    ensures { IfOk result (λ v. v.items ≡ line_of refusal.now) }
{
    let mut line = Vec::from_slice(alloc, b"refused ")?;
    line.extend_from_slice(Buffer::new().format(refusal.status()).as_bytes())?;
    line.extend_from_slice(b" ")?;
    line.extend_from_slice(refusal.name())?;
    put_fields(refusal, &mut line)?;
    line.extend_from_slice(b"\n")?;
    Ok(line)
}

fn put_text(text: &[u8], line: &mut Vec<u8>) -> Result<(), AllocError>
    ensures { OnOk result (line.new.items ≡ line.old.items ++ field text.now) }
{
    line.extend_from_slice(b" ")?;
    line.extend_from_slice(text)
}

fn put_number(number: u64, line: &mut Vec<u8>) -> Result<(), AllocError>
    ensures { OnOk result (line.new.items ≡ line.old.items ++ field (decimal number)) }
{
    put_text(Buffer::new().format(number).as_bytes(), line)
}

fn put_limit(which: Which, count: i64, line: &mut Vec<u8>) -> Result<(), AllocError>
    ensures { OnOk result (line.new.items ≡ line.old.items ++ field (which_text which)
        ++ field (signed_decimal count)) }
{
    put_text(which_text(which), line)?;
    put_text(Buffer::new().format(count).as_bytes(), line)
}

fn put_two(first: &[u8], second: &[u8], line: &mut Vec<u8>) -> Result<(), AllocError>
    ensures { OnOk result (line.new.items ≡ line.old.items ++ field first.now ++ field second.now) }
{
    put_text(first, line)?;
    put_text(second, line)
}

fn put_numbered(name: &[u8], number: u64, line: &mut Vec<u8>) -> Result<(), AllocError>
    ensures { OnOk result (line.new.items ≡ line.old.items
        ++ field (name.now ++ field (decimal number))) }
{
    put_text(name, line)?;
    put_number(number, line)
}

// Why a tree text is refused.
fn put_reason(reason: TreeReason, line: &mut Vec<u8>) -> Result<(), AllocError>
    ensures { OnOk result (line.new.items ≡ line.old.items ++ field (reason_of_tree reason)) }
{
    match reason {
        TreeReason::TreeText { place } => put_numbered(b"TreeText", place, line),
        TreeReason::UnknownType { place } => put_numbered(b"UnknownType", place, line),
        TreeReason::TooManyEdges { count } => put_numbered(b"TooManyEdges", count, line),
        TreeReason::TooManyDecorations { total } => {
            put_numbered(b"TooManyDecorations", u64::from(total), line)
        }
        TreeReason::NotCanonical => put_text(b"NotCanonical", line),
        TreeReason::NotPositive => put_text(b"NotPositive", line),
    }
}

// A stored value and the computed one, in lines of their own.
fn put_values(stored: &[u8], computed: &[u8], line: &mut Vec<u8>) -> Result<(), AllocError>
    ensures { OnOk result (line.new.items ≡ line.old.items ++ codes "\nstored" ++ field stored.now
        ++ codes "\ncomputed" ++ field computed.now) }
{
    line.extend_from_slice(b"\nstored")?;
    put_text(stored, line)?;
    line.extend_from_slice(b"\ncomputed")?;
    put_text(computed, line)
}

// What the line of a refusal says besides its status and its name.
fn put_fields(refusal: &Refusal, line: &mut Vec<u8>) -> Result<(), AllocError>
    ensures { OnOk result (line.new.items ≡ line.old.items ++ fields_of refusal.now) }
{
    match refusal {
        Refusal::FileFault | Refusal::NotUtf8 | Refusal::NotToml => Ok(()),
        Refusal::Full | Refusal::StoreFault | Refusal::Memory | Refusal::OldStore => Ok(()),
        Refusal::Malformed { entry, reason } => put_two(
            entry.as_slice(),
            reason_text(*reason),
            line,
        ),
        Refusal::Limit { which, count } => put_limit(*which, *count, line),
        Refusal::NotSubcritical {
            kernel,
            node,
            left,
            right,
        } => {
            put_two(kernel.as_slice(), node.as_slice(), line)?;
            put_two(left.as_slice(), right.as_slice(), line)
        }
        Refusal::RuleTooLarge { stage }
        | Refusal::TooManyTrees { stage }
        | Refusal::TreeTooLarge { stage } => put_number(u64::from(*stage), line),
        Refusal::CoefficientTooLarge { tree, quantity } => {
            put_two(tree.as_slice(), quantity.as_slice(), line)
        }
        Refusal::ZeroDegree { tree }
        | Refusal::StoredRow { tree, .. }
        | Refusal::Missing { tree }
        | Refusal::MetTooLarge { tree }
        | Refusal::TooManyTriples { tree } => put_text(tree.as_slice(), line),
        Refusal::NoProject { name } => put_text(name.as_slice(), line),
        Refusal::Differs {
            tree,
            stored,
            computed,
        } => {
            put_text(tree.as_slice(), line)?;
            put_values(stored.as_slice(), computed.as_slice(), line)
        }
        Refusal::TreeRefused { reason } => put_reason(*reason, line),
        Refusal::TableRefused { line: number } => put_number(*number, line),
        Refusal::TooManyNoises { count } => put_number(u64::from(*count), line),
        Refusal::StoredContext { context } => put_text(context.as_slice(), line),
    }
}
