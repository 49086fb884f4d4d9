// The program over a store, an equation file and two tables in memory.
ghost use Rattle.std.specs.Prelude.{◌≡◌, ◌++◌, ◌∷◌, [], map, IfOk, OnOk};
ghost use Rattle.wb_outside.specs.Texts.{name_of, AreDistinct};

use extraction_coproduct::Work;
use result_keeper::{Keeper, QuietKeeper};
use std::alloc::{AllocError, Global};
use wb_outside::{MemoryFiles, MemorySink, NamedText, OutsideError};
use workbench_cli::run_command;

// Room for the longest answer.
const ROOM: usize = 1_000;

pub const KPZ: &str =
    "version = 1\nscaling = [2, 1]\n\n[[noise]]\nname = \"xi\"\ndegree = \"-3/2-k\"\n\n[[unknown]]\nname = \"u\"\ndegree = \"2\"\nregularity = \"1/4\"\nright = \"u'(0,1)^2+xi\"\n";

// What a run of the program left.
#[derive(Debug, PartialEq, Eq, Drop)]
pub struct Run {
    pub code: u8,
    pub out: Vec<u8>,
    pub err: Vec<u8>,
}

// Puts a named text behind others.
fn push_text(
    texts: &mut Vec<NamedText>,
    alloc: Global,
    name: &[u8],
    bytes: &[u8],
) -> Result<(), AllocError>
    ensures { OnOk result (map name_of texts.new.items
        ≡ map name_of texts.old.items ++ name.now ∷ []) }
{
    let name = name.to_vec(alloc)?;
    let bytes = bytes.to_vec(alloc)?;
    texts.push(NamedText { name, bytes })?;
    Ok(())
}

// The equation file `kpz`, and the tables `table` and `other`.
#[tactic(auto, using(crate::proofs::Names::distinct_names))]
fn texts_of(
    alloc: Global,
    file: &[u8],
    table: &[u8],
    other: &[u8],
) -> Result<Vec<NamedText>, AllocError>
    ensures { IfOk result (λ texts. AreDistinct texts.items) }
{
    let mut texts = Vec::new(alloc);
    push_text(&mut texts, alloc, b"kpz", file)?;
    push_text(&mut texts, alloc, b"table", table)?;
    push_text(&mut texts, alloc, b"other", other)?;
    Ok(texts)
}

// The words of a command line, which spaces part.
fn words_of(alloc: Global, line: &str) -> Result<Vec<String>, AllocError> {
    let mut words = Vec::new(alloc);
    for word in line.split_whitespace() {
        words.push(String::from_str(alloc, word)?)?;
    }
    Ok(words)
}

// The program with a command line, over a store and these files.
fn run_line<K: Keeper>(
    alloc: Global,
    keeper: &mut K,
    line: &str,
    texts: Vec<NamedText>,
) -> Result<Run, OutsideError>
    requires { AreDistinct texts.items }
{
    let words = words_of(alloc, line)?;
    let mut files = MemoryFiles::new(alloc, texts, Vec::new(alloc));
    let mut out = MemorySink::new(alloc, ROOM, Vec::new(alloc))?;
    let mut err = MemorySink::new(alloc, ROOM, Vec::new(alloc))?;
    let mut work = Work { tables: 0 };
    let status = run_command(
        alloc, &words, &mut files, keeper, &mut out, &mut err, &mut work,
    );
    Ok(Run {
        code: status.code,
        out: out.bytes().to_vec(alloc)?,
        err: err.bytes().to_vec(alloc)?,
    })
}

// A command line over an empty store, without files.
pub fn run_alone(alloc: Global, line: &str) -> Result<Run, OutsideError> {
    let texts = texts_of(alloc, b"", b"", b"")?;
    run_line(alloc, &mut QuietKeeper::new(alloc), line, texts)
}

// A command line over a store with the project `kpz`, which has this file, and over two tables; or
// the refusal of a file that is not added.
pub fn run_on(
    alloc: Global,
    line: &str,
    file: &[u8],
    table: &[u8],
    other: &[u8],
) -> Result<Run, OutsideError> {
    let mut keeper = QuietKeeper::new(alloc);
    let texts = texts_of(alloc, file, table, other)?;
    let added = run_line(alloc, &mut keeper, "add kpz kpz", texts)?;
    if added.code == 0 {
        let texts = texts_of(alloc, file, table, other)?;
        run_line(alloc, &mut keeper, line, texts)
    } else {
        Ok(added)
    }
}
