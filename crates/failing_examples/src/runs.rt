// Runs of the program over objects in memory, of which one call each may fail.
ghost use Rattle.std.specs.Prelude.{◌≡◌, false, IfOk};
ghost use Rattle.wb_outside.specs.Texts.{AreDistinct};

use extraction_coproduct::Work;
use result_keeper::MemoryKeeper;
use std::alloc::{AllocError, Global};
use wb_outside::{MemoryDoor, MemoryFiles, MemorySink, NamedText, OutsideError};
use workbench_cli::workbench;

// Room for the longest answer.
const ROOM: usize = 4_000;

// Most bytes that a read of a connection gives.
const CUT: usize = 100;

/// An object that a run calls.
#[derive(Clone, Copy, Debug, PartialEq, Eq)]
pub enum Object {
    Files,
    Keeper,
    Out,
    ErrorStream,
    Door,
}

/// Which call of each object fails, from 1; none where the number is 0.
#[derive(Clone, Copy, Debug, PartialEq, Eq)]
pub struct Failing {
    pub files: u64,
    pub keeper: u64,
    pub out: u64,
    pub err: u64,
    pub door: u64,
}

/// No call fails.
pub const NONE: Failing = Failing {
    files: 0,
    keeper: 0,
    out: 0,
    err: 0,
    door: 0,
};

impl Failing {
    /// The call of the object with this number fails, and no other.
    pub fn at(object: Object, number: u64) -> Failing {
        let mut failing = NONE;
        match object {
            Object::Files => failing.files = number,
            Object::Keeper => failing.keeper = number,
            Object::Out => failing.out = number,
            Object::ErrorStream => failing.err = number,
            Object::Door => failing.door = number,
        }
        failing
    }
}

/// What a run left: its status, the two streams, and the response to the first peer.
#[derive(Debug, PartialEq, Eq, Drop)]
pub struct Run {
    pub code: u8,
    pub out: Vec<u8>,
    pub err: Vec<u8>,
    pub response: Vec<u8>,
}

impl Run {
    /// Whether it left this status, and these texts on the two streams.
    pub fn leaves(&self, code: u8, out: &str, err: &str) -> bool {
        self.code == code
            && self.out.as_slice() == out.as_bytes()
            && self.err.as_slice() == err.as_bytes()
    }
}

// One text, which is named `file`.
#[tactic(auto, using(wb_outside::proofs::TextLemmas::distinct_one))]
fn one_text(alloc: Global, text: &str) -> Result<Vec<NamedText>, AllocError>
    ensures { IfOk result (λ texts. AreDistinct texts.items) }
{
    let name = b"file".to_vec(alloc)?;
    let bytes = text.as_bytes().to_vec(alloc)?;
    let mut texts = Vec::new(alloc);
    texts.push(NamedText { name, bytes })?;
    Ok(texts)
}

// A door to which two peers come, which send the same.
fn two_peers(alloc: Global, sent: &str, failing: u64) -> Result<MemoryDoor, OutsideError>
    ensures { IfOk result (λ d. d.is_open ≡ false) }
{
    let mut connections = Vec::new(alloc);
    connections.push(sent.as_bytes().to_vec(alloc)?)?;
    connections.push(sent.as_bytes().to_vec(alloc)?)?;
    MemoryDoor::new(alloc, connections, CUT, ROOM, vec![in alloc; failing]?)
}

// The words of a command line, which spaces part.
fn words_of(alloc: Global, line: &str) -> Result<Vec<String>, AllocError> {
    let mut words = Vec::new(alloc);
    for word in line.split_whitespace() {
        words.push(String::from_str(alloc, word)?)?;
    }
    Ok(words)
}

/// The program with a command line over a store. The given text is that of the file `file`, and what
/// each of two peers sends. The store was made with its own failing call.
pub fn run_line(
    alloc: Global,
    keeper: &mut MemoryKeeper,
    line: &str,
    given: &str,
    failing: Failing,
) -> Result<Run, OutsideError> {
    let words = words_of(alloc, line)?;
    let texts = one_text(alloc, given)?;
    let mut files = MemoryFiles::new(alloc, texts, vec![in alloc; failing.files]?);
    let mut door = two_peers(alloc, given, failing.door)?;
    let mut out = MemorySink::new(alloc, ROOM, vec![in alloc; failing.out]?)?;
    let mut err = MemorySink::new(alloc, ROOM, vec![in alloc; failing.err]?)?;
    let mut work = Work { tables: 0 };
    let status = workbench(
        alloc, &words, &mut files, keeper, &mut door, &mut out, &mut err, &mut work,
    );
    Ok(Run {
        code: status.code,
        out: out.bytes().to_vec(alloc)?,
        err: err.bytes().to_vec(alloc)?,
        response: door.written(0).to_vec(alloc)?,
    })
}
