// The program over a file in memory.
ghost use Rattle.std.specs.Prelude.{IfOk};
ghost use Rattle.wb_outside.specs.Texts.{AreDistinct};

use extraction_coproduct::Work;
use result_keeper::{Keeper, QuietKeeper};
use std::alloc::{AllocError, Global};
use wb_outside::{MemoryFiles, MemorySink, NamedText, OutsideError};
use workbench_cli::run_command;

// Room for a list of 4,000 trees.
const ROOM: usize = 1_000_000;

// What a run of the program left.
#[derive(Debug, PartialEq, Eq, Drop)]
pub struct Run {
    pub code: u8,
    pub out: Vec<u8>,
    pub err: Vec<u8>,
}

// One text by its name.
#[tactic(auto, using(wb_outside::proofs::TextLemmas::distinct_one))]
fn one_text(alloc: Global, name: &str, text: &[u8]) -> Result<Vec<NamedText>, AllocError>
    ensures { IfOk result (λ texts. AreDistinct texts.items) }
{
    let name = name.as_bytes().to_vec(alloc)?;
    let bytes = text.to_vec(alloc)?;
    let mut texts = Vec::new(alloc);
    texts.push(NamedText { name, bytes })?;
    Ok(texts)
}

// The words of a command line, which spaces part.
fn words_of(alloc: Global, line: &str) -> Result<Vec<String>, AllocError> {
    let mut words = Vec::new(alloc);
    for word in line.split_whitespace() {
        words.push(String::from_str(alloc, word)?)?;
    }
    Ok(words)
}

// The program over a store and over one file, which is named `file`.
fn run_line<K: Keeper>(
    alloc: Global,
    keeper: &mut K,
    line: &str,
    file: &[u8],
) -> Result<Run, OutsideError> {
    let words = words_of(alloc, line)?;
    let texts = one_text(alloc, "file", file)?;
    let mut files = MemoryFiles::new(alloc, texts, Vec::new(alloc));
    let mut out = MemorySink::new(alloc, ROOM, Vec::new(alloc))?;
    let mut err = MemorySink::new(alloc, ROOM, Vec::new(alloc))?;
    let mut work = Work { tables: 0 };
    let status = run_command(
        alloc, &words, &mut files, keeper, &mut out, &mut err, &mut work,
    );
    Ok(Run {
        code: status.code,
        out: out.bytes().to_vec(alloc)?,
        err: err.bytes().to_vec(alloc)?,
    })
}

// The check of a file.
pub fn check_of(alloc: Global, file: &[u8]) -> Result<Run, OutsideError> {
    run_line(alloc, &mut QuietKeeper::new(alloc), "check file", file)
}

// The trees of a project with this file; or the refusal of a file that is not added.
pub fn trees_of(alloc: Global, file: &[u8]) -> Result<Run, OutsideError> {
    project_run(alloc, "trees pam", file)
}

// The report of a project with this file; or the refusal of a file that is not added.
pub fn report_of(alloc: Global, file: &[u8]) -> Result<Run, OutsideError> {
    project_run(alloc, "compute pam", file)
}

// A command on a new project `pam` with this file; or the refusal of a file that is not added.
fn project_run(alloc: Global, line: &str, file: &[u8]) -> Result<Run, OutsideError> {
    let mut keeper = QuietKeeper::new(alloc);
    let added = run_line(alloc, &mut keeper, "add pam file", file)?;
    if added.code == 0 {
        run_line(alloc, &mut keeper, line, file)
    } else {
        Ok(added)
    }
}

// A file with the noise xi and the unknown u.
pub fn file_of(
    alloc: Global,
    scaling: &str,
    noise: &str,
    kernel: &str,
    regularity: &str,
    right: &str,
) -> Result<String, AllocError> {
    format!(in alloc;
        "version = 1\nscaling = {scaling}\n[[noise]]\nname = \"xi\"\ndegree = \"{noise}\"\n[[unknown]]\nname = \"u\"\ndegree = \"{kernel}\"\nregularity = \"{regularity}\"\nright = \"{right}\"\n"
    )
}
