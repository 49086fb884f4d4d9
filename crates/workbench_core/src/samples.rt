// The summary of a sample file.
ghost use Rattle.std.specs.Prelude.{◌≡◌, ◌≢◌, ◌⊎◌, ◌<◌, ◌≤◌, ◌^◌, ◌++◌, not, cond, decimal, Ok, Err, IfOk, IfErr, OnOk};
ghost use Rattle.std.specs.List.{count_by};
ghost use Rattle.counterterm_report.specs.Report.{is_zero};
ghost use Rattle.workbench_core.specs.Sample.{has_differential, constant_count, line_count, counterterm_count, summary_text, IsSampled};

use crate::compute::{Reported, report_of};
use crate::refusal::Refusal;
use counterterm_report::{DiffValue, TreeValues};
use extraction_coproduct::Work;
use itoa::Buffer;
use sample_files::sample_text;
use std::alloc::{AllocError, Global};
use symbol_polys::Poly;

/// The summary of the report of the sample file of a number: how many unknowns and listed trees it
/// has, for how many of these the constant is not 0, and how many counterterms there are. Refused
/// as the report of that file is.
pub fn sample(alloc: Global, number: u32) -> Result<Vec<u8>, Refusal>
    ensures text { IfOk result (λ v. IsSampled number (Ok v.items)) }
    ensures refused { IfErr result (λ e. (e ≡ Refusal.Memory) ⊎ IsSampled number (Err e)) }
    ensures no_fault { result ≢ Err Refusal.FileFault }
{
    let file = sample_text(alloc, number)?;
    let mut work = Work { tables: 0 };
    let reported = report_of(alloc, file.as_slice(), &mut work)?;
    summary(alloc, number, &reported)
}

// The summary of what is reported.
fn summary(alloc: Global, number: u32, reported: &Reported) -> Result<Vec<u8>, Refusal>
    ensures text { IfOk result (λ v. v.items
        ≡ summary_text number reported.now.eq reported.now.values.trees) }
    ensures memory { IfErr result (λ e. e ≡ Refusal.Memory) }
{
    let unknowns = reported.eq.unknowns.as_slice();
    let trees = reported.values.trees.as_slice();
    let mut text = Vec::new(alloc);
    put_counted(b"sample ", number as u128, &mut text)?;
    put_counted(b" unknowns ", unknowns.len() as u128, &mut text)?;
    put_counted(b" trees ", trees.len() as u128, &mut text)?;
    put_counted(b" constants ", constant_count(trees), &mut text)?;
    put_counted(b" counterterms ", counterterm_count(trees), &mut text)?;
    text.extend_from_slice(b"\n")?;
    Ok(text)
}

// A label with a number behind it.
fn put_counted(label: &[u8], count: u128, text: &mut Vec<u8>) -> Result<(), AllocError>
    ensures { OnOk result (text.new.items ≡ text.old.items ++ (label.now ++ decimal count)) }
{
    text.extend_from_slice(label)?;
    text.extend_from_slice(Buffer::new().format(count).as_bytes())
}

// For how many trees the constant is not 0.
fn constant_count(trees: &[TreeValues]) -> u128
    ensures { result ≡ constant_count trees.now }
{
    let mut count = 0;
    for values in trees {
        count += one_unless_zero(&values.constant);
    }
    count
}

// How many counterterms the trees have together.
fn counterterm_count(trees: &[TreeValues]) -> u128
    ensures { result ≡ counterterm_count trees.now }
{
    let mut count = 0;
    for values in trees {
        count += line_count(values);
    }
    count
}

// For how many unknowns a tree has a counterterm.
fn line_count(values: &TreeValues) -> u128
    ensures count { result ≡ line_count values.now }
    ensures fits { result < 2 ^ 64 }
{
    if is_zero(&values.constant) {
        0
    } else {
        differential_count(values.differentials.as_slice())
    }
}

// How many differentials are not 0.
fn differential_count(differentials: &[DiffValue]) -> u128
    ensures count { result ≡ count_by has_differential differentials.now }
    ensures fits { result < 2 ^ 64 }
{
    let mut count = 0;
    for differential in differentials {
        count += one_unless_zero(&differential.poly);
    }
    count
}

// 0 for the polynomial 0, else 1.
fn one_unless_zero(p: &Poly) -> u128
    ensures one { result ≡ cond (not (is_zero p.now)) 1 0 }
    ensures most { result ≤ 1 }
{
    if is_zero(p) { 0 } else { 1 }
}

// Whether a polynomial is 0.
fn is_zero(p: &Poly) -> bool
    ensures { result ≡ is_zero p.now }
{
    match p.terms.as_slice() {
        [] => true,
        [_, ..] => false,
    }
}
