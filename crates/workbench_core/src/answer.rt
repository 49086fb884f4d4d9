// What a request gives for the bytes of its files.
ghost use Rattle.std.specs.Prelude.{◌≡◌, ◌≢◌, ◌⊎◌, ◌<◌, map, length, is_ok, Ok, Err, IfOk, IfErr, OnOk};
ghost use Rattle.workbench_core.specs.declared.refusal.Refusal.{Refusal};
ghost use Rattle.workbench_core.specs.Answers.{of_output, of_refusal, of_result, of_computing, note_text, file_at, IsPrinted, IsGiven, IsComputedWithin, IsCounted};
ghost use Rattle.workbench_core.specs.Characters.{IsActOf, IsMultiplyOf};
ghost use Rattle.workbench_core.specs.Check.{IsChecked};
ghost use Rattle.workbench_core.specs.Compute.{IsComputed};
ghost use Rattle.workbench_core.specs.Detail.{IsDetailOf};
ghost use Rattle.workbench_core.specs.Sample.{IsSampled};
ghost use Rattle.workbench_core.specs.Trees.{IsTreesOf};
ghost use Rattle.workbench_core.specs.Requests.{files_of};

use crate::act::act_of;
use crate::compute::compute_of;
use crate::detail::detail_of;
use crate::multiply::multiply_of;
use crate::refusal::Refusal;
use crate::request::{Request, Word};
use crate::samples::sample;
use crate::trees::trees_of;
use crate::verdict::check;
use extraction_coproduct::Work;
use itoa::Buffer;
use std::alloc::{AllocError, Global};

/// What a command that is not refused writes: on the output, and on the error stream, where most
/// commands write nothing.
#[derive(Debug, Drop)]
pub struct Output {
    pub out: Vec<u8>,
    pub err: Vec<u8>,
}

impl Output {
    /// A text for the output alone.
    pub fn of_text(alloc: Global, text: Vec<u8>) -> Output
        ensures { of_output result ≡ of_result (Ok text.items) }
    {
        Output {
            out: text,
            err: Vec::new(alloc),
        }
    }
}

/// What a request gives, where the files that it reads have these bytes. What `compute` finishes is
/// counted.
pub fn answer_for(
    alloc: Global,
    request: &Request<'_>,
    files: &[Vec<u8>],
    work: &mut Work,
) -> Result<Output, Refusal>
    requires { length files.now ≡ length (files_of request.now) }
    ensures given { IfOk result (λ o. IsGiven request.now (map (λ v. v.items) files.now)
        (of_output o)) }
    ensures refused { IfErr result (λ e. (e ≡ Refusal.Memory)
        ⊎ IsGiven request.now (map (λ v. v.items) files.now) (of_refusal e)) }
    ensures no_fault { result ≢ Err Refusal.FileFault }
    ensures work { OnOk result (IsCounted request.now (map (λ v. v.items) files.now)
        work.old.tables work.new.tables) }
{
    match request {
        Request::Check { .. } => check_output(alloc, file_at(files, 0)),
        Request::Compute { .. } => report_output(alloc, file_at(files, 0), work),
        Request::Trees { .. } => trees_output(alloc, file_at(files, 0)),
        Request::Detail { tree, .. } => detail_output(alloc, file_at(files, 0), tree),
        Request::Act { tree, recentre, .. } => {
            act_output(alloc, file_at(files, 0), tree, file_at(files, 1), *recentre)
        }
        Request::Multiply { tree, .. } => multiply_output(
            alloc,
            file_at(files, 0),
            tree,
            file_at(files, 1),
            file_at(files, 2),
        ),
        Request::Sample { number } => sample_output(alloc, *number),
    }
}

// The bytes of the file with this number.
fn file_at(files: &[Vec<u8>], i: usize) -> &[u8]
    requires { i < length files.now }
    ensures { result.now ≡ file_at (map (λ v. v.items) files.now) i }
{
    &files[i]
}

// The bytes of a word.
fn bytes_of<'a>(word: &Word<'a>) -> &'a [u8]
    ensures { result.now ≡ word.now }
{
    word.as_str().as_bytes()
}

// What `check` writes.
fn check_output(alloc: Global, file: &[u8]) -> Result<Output, Refusal>
    ensures given { IfOk result (λ o. IsPrinted of_result (IsChecked file.now) (of_output o)) }
    ensures refused { IfErr result (λ e. (e ≡ Refusal.Memory)
        ⊎ IsPrinted of_result (IsChecked file.now) (of_refusal e)) }
    ensures no_fault { result ≢ Err Refusal.FileFault }
{
    output_of(alloc, check(alloc, file))
}

// What `trees` writes.
fn trees_output(alloc: Global, file: &[u8]) -> Result<Output, Refusal>
    ensures given { IfOk result (λ o. IsPrinted of_result (IsTreesOf file.now) (of_output o)) }
    ensures refused { IfErr result (λ e. (e ≡ Refusal.Memory)
        ⊎ IsPrinted of_result (IsTreesOf file.now) (of_refusal e)) }
    ensures no_fault { result ≢ Err Refusal.FileFault }
{
    output_of(alloc, trees_of(alloc, file))
}

// What `detail` writes.
fn detail_output(alloc: Global, file: &[u8], tree: &Word<'_>) -> Result<Output, Refusal>
    ensures given { IfOk result (λ o. IsPrinted of_result (IsDetailOf file.now tree.now)
        (of_output o)) }
    ensures refused { IfErr result (λ e. (e ≡ Refusal.Memory)
        ⊎ IsPrinted of_result (IsDetailOf file.now tree.now) (of_refusal e)) }
    ensures no_fault { result ≢ Err Refusal.FileFault }
{
    output_of(alloc, detail_of(alloc, file, bytes_of(tree)))
}

// What `act` writes.
fn act_output(
    alloc: Global,
    file: &[u8],
    tree: &Word<'_>,
    table: &[u8],
    recentre: bool,
) -> Result<Output, Refusal>
    ensures given { IfOk result (λ o. IsPrinted of_result
        (IsActOf file.now tree.now table.now recentre) (of_output o)) }
    ensures refused { IfErr result (λ e. (e ≡ Refusal.Memory)
        ⊎ IsPrinted of_result (IsActOf file.now tree.now table.now recentre) (of_refusal e)) }
    ensures no_fault { result ≢ Err Refusal.FileFault }
{
    output_of(alloc, act_of(alloc, file, bytes_of(tree), table, recentre))
}

// What `multiply` writes.
fn multiply_output(
    alloc: Global,
    file: &[u8],
    tree: &Word<'_>,
    first: &[u8],
    second: &[u8],
) -> Result<Output, Refusal>
    ensures given { IfOk result (λ o. IsPrinted of_result
        (IsMultiplyOf file.now tree.now first.now second.now) (of_output o)) }
    ensures refused { IfErr result (λ e. (e ≡ Refusal.Memory)
        ⊎ IsPrinted of_result (IsMultiplyOf file.now tree.now first.now second.now)
        (of_refusal e)) }
    ensures no_fault { result ≢ Err Refusal.FileFault }
{
    output_of(
        alloc,
        multiply_of(alloc, file, bytes_of(tree), first, second),
    )
}

// What `sample` writes.
fn sample_output(alloc: Global, number: u32) -> Result<Output, Refusal>
    ensures given { IfOk result (λ o. IsPrinted of_result (IsSampled number) (of_output o)) }
    ensures refused { IfErr result (λ e. (e ≡ Refusal.Memory)
        ⊎ IsPrinted of_result (IsSampled number) (of_refusal e)) }
    ensures no_fault { result ≢ Err Refusal.FileFault }
{
    output_of(alloc, sample(alloc, number))
}

// What a command that gives a text writes.
fn output_of(alloc: Global, text: Result<Vec<u8>, Refusal>) -> Result<Output, Refusal>
    ensures text { IfOk result (λ o. IfOk text (λ v. of_output o ≡ of_result (Ok v.items))) }
    ensures given { is_ok result ≡ is_ok text }
    ensures refused { IfErr result (λ e. text ≡ Err e) }
{
    match text {
        Ok(text) => Ok(Output::of_text(alloc, text)),
        Err(refusal) => Err(refusal),
    }
}

// What `compute` writes.
fn report_output(alloc: Global, file: &[u8], work: &mut Work) -> Result<Output, Refusal>
    ensures given { IfOk result (λ o. IsPrinted of_computing (IsComputed file.now) (of_output o)) }
    ensures refused { IfErr result (λ e. (e ≡ Refusal.Memory)
        ⊎ IsPrinted of_computing (IsComputed file.now) (of_refusal e)) }
    ensures no_fault { result ≢ Err Refusal.FileFault }
    ensures work { OnOk result (IsComputedWithin file.now work.old.tables work.new.tables) }
{
    let computed = compute_of(alloc, file, work)?;
    let note = note(alloc, computed.reused, computed.computed)?;
    Ok(Output {
        out: computed.report,
        err: note,
    })
}

// How many constants were held already, and how many were computed.
fn note(alloc: Global, reused: u32, computed: u32) -> Result<Vec<u8>, AllocError>
    ensures { IfOk result (λ v. v.items ≡ note_text reused computed) }
{
    let mut text = Vec::from_slice(alloc, b"reused ")?;
    text.extend_from_slice(Buffer::new().format(reused).as_bytes())?;
    text.extend_from_slice(b" computed ")?;
    text.extend_from_slice(Buffer::new().format(computed).as_bytes())?;
    text.extend_from_slice(b"\n")?;
    Ok(text)
}
