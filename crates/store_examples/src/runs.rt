// Runs of the program over one file in memory.
ghost use Rattle.std.specs.Prelude.{IfOk};
ghost use Rattle.wb_outside.specs.Texts.{AreDistinct};

use extraction_coproduct::Work;
use result_keeper::Keeper;
use std::alloc::{AllocError, Global};
use wb_outside::{MemoryFiles, MemorySink, NamedText, OutsideError};
use workbench_cli::run_command;

// Room for the longest report.
const ROOM: usize = 100_000;

// What a run of the program left.
#[derive(Debug, PartialEq, Eq, Drop)]
pub struct Run {
    pub code: u8,
    pub out: Vec<u8>,
    pub err: Vec<u8>,
}

// One text by its name.
#[tactic(auto, using(wb_outside::proofs::TextLemmas::distinct_one))]
fn one_text(alloc: Global, name: &str, text: &str) -> Result<Vec<NamedText>, AllocError>
    ensures { IfOk result (λ texts. AreDistinct texts.items) }
{
    let name = name.as_bytes().to_vec(alloc)?;
    let bytes = text.as_bytes().to_vec(alloc)?;
    let mut texts = Vec::new(alloc);
    texts.push(NamedText { name, bytes })?;
    Ok(texts)
}

// The words of a command line, which spaces part.
fn words_of(alloc: Global, line: &str) -> Result<Vec<String>, AllocError> {
    let mut words = Vec::new(alloc);
    for word in line.split_whitespace() {
        words.push(String::from_str(alloc, word)?)?;
    }
    Ok(words)
}

// The program over a store and over one file, which is named `file`. The writes on the output with
// these numbers fail.
pub fn run_failing<K: Keeper>(
    alloc: Global,
    keeper: &mut K,
    line: &str,
    file: &str,
    failing_writes: &[u64],
) -> Result<Run, OutsideError> {
    let words = words_of(alloc, line)?;
    let texts = one_text(alloc, "file", file)?;
    let mut files = MemoryFiles::new(alloc, texts, Vec::new(alloc));
    let mut out = MemorySink::new(alloc, ROOM, failing_writes.to_vec(alloc)?)?;
    let mut err = MemorySink::new(alloc, ROOM, Vec::new(alloc))?;
    let mut work = Work { tables: 0 };
    let status = run_command(
        alloc, &words, &mut files, keeper, &mut out, &mut err, &mut work,
    );
    Ok(Run {
        code: status.code,
        out: out.bytes().to_vec(alloc)?,
        err: err.bytes().to_vec(alloc)?,
    })
}

// The same, where no write fails.
pub fn run_line<K: Keeper>(
    alloc: Global,
    keeper: &mut K,
    line: &str,
    file: &str,
) -> Result<Run, OutsideError> {
    run_failing(alloc, keeper, line, file, &[])
}

// A command line, the text of the file that it names, and what is left of the run: the status, the
// output where it is compared, and the error stream.
pub type Case = (
    &'static str,
    &'static str,
    u8,
    Option<&'static str>,
    &'static str,
);

// The first of the command lines, run one after the other, that leaves something else.
pub fn first_other<K: Keeper>(
    alloc: Global,
    keeper: &mut K,
    cases: &[Case],
) -> Result<Option<(u8, String)>, OutsideError> {
    for (line, file, code, out, err) in cases {
        let run = run_line(alloc, keeper, line, file)?;
        let is_out = match out {
            Some(text) => run.out.as_slice() == text.as_bytes(),
            None => true,
        };
        if run.code != *code || !is_out || run.err.as_slice() != err.as_bytes() {
            return Ok(Some((run.code, String::from_str(alloc, line)?)));
        }
    }
    Ok(None)
}
