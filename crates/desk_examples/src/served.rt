// The program that serves, over a door and a store in memory.
ghost use Rattle.std.specs.Prelude.{◌≡◌, false, IfOk};
ghost use Rattle.wb_outside.specs.Texts.{AreDistinct};

use crate::asked::{empty_keeper, put_pam};
use extraction_coproduct::Work;
use std::alloc::{AllocError, Global};
use std::test::Fail;
use wb_outside::{MemoryDoor, MemoryFiles, MemorySink, NamedText, OutsideError};
use workbench_cli::workbench;

// A door to which two peers come, of which the first asks for a report. This call of it fails, from
// 1.
fn two_peers(alloc: Global, failing: u64) -> Result<MemoryDoor, OutsideError>
    ensures { IfOk result (λ d. d.is_open ≡ false) }
{
    let mut connections = Vec::new(alloc);
    connections.push(b"GET /projects/pam/report HTTP/1.1\r\n\r\n".to_vec(alloc)?)?;
    connections.push(b"GET /projects/kpz HTTP/1.1\r\n\r\n".to_vec(alloc)?)?;
    let mut calls = Vec::new(alloc);
    calls.push(failing)?;
    MemoryDoor::new(alloc, connections, 65536, 4096, calls)
}

// One text, which is named `file`.
#[tactic(auto, using(wb_outside::proofs::TextLemmas::distinct_one))]
fn one_text(alloc: Global, text: &str) -> Result<Vec<NamedText>, AllocError>
    ensures { IfOk result (λ texts. AreDistinct texts.items) }
{
    let name = b"file".to_vec(alloc)?;
    let bytes = text.as_bytes().to_vec(alloc)?;
    let mut texts = Vec::new(alloc);
    texts.push(NamedText { name, bytes })?;
    Ok(texts)
}

// The words of a command line, which spaces part.
fn words_of(alloc: Global, line: &str) -> Result<Vec<String>, AllocError> {
    let mut words = Vec::new(alloc);
    for word in line.split_whitespace() {
        words.push(String::from_str(alloc, word)?)?;
    }
    Ok(words)
}

// Whether the program ends with this status, and writes this, where these calls of the store and of
// the door fail, and the output has so much room. The call that keeps `pam` is the first one.
fn is_served(
    alloc: Global,
    line: &str,
    failing: (u64, u64),
    room: usize,
    code: u8,
    texts: (&str, &str),
) -> Result<bool, OutsideError> {
    let mut calls = Vec::new(alloc);
    calls.push(failing.0)?;
    let mut keeper = empty_keeper(alloc, calls);
    let _ = put_pam(alloc, &mut keeper);
    let mut door = two_peers(alloc, failing.1)?;
    let words = words_of(alloc, line)?;
    let mut files = MemoryFiles::new(alloc, one_text(alloc, "")?, Vec::new(alloc));
    let mut out = MemorySink::new(alloc, room, Vec::new(alloc))?;
    let mut err = MemorySink::new(alloc, 100, Vec::new(alloc))?;
    let mut work = Work { tables: 0 };
    let status = workbench(
        alloc,
        &words,
        &mut files,
        &mut keeper,
        &mut door,
        &mut out,
        &mut err,
        &mut work,
    );
    Ok(
        status.code == code
            && out.bytes() == texts.0.as_bytes()
            && err.bytes() == texts.1.as_bytes(),
    )
}

const WORDS: &str = "refused 2 Words\n";

const DOOR: &str = "refused 16 DoorFault\n";

const WRITE: &str = "refused 15 WriteFault\n";

const ROWS: &[(&str, (u64, u64), usize, u8, (&str, &str))] = &[
    (
        "serve 2 8080",
        (0, 0),
        100,
        0,
        ("answered 200\nanswered 404\n", ""),
    ),
    ("serve 1 8080", (0, 0), 100, 0, ("answered 200\n", "")),
    (
        "serve 3 8080",
        (0, 0),
        100,
        16,
        ("answered 200\nanswered 404\n", DOOR),
    ),
    ("serve 1 8080", (0, 1), 100, 16, ("", DOOR)),
    ("serve 1 8080", (0, 2), 100, 16, ("", DOOR)),
    (
        "serve 2 8080",
        (0, 3),
        100,
        0,
        ("dropped\nanswered 404\n", ""),
    ),
    (
        "serve 2 8080",
        (0, 4),
        100,
        0,
        ("dropped\nanswered 404\n", ""),
    ),
    ("serve 1 8080", (3, 0), 100, 0, ("answered 500\n", "")),
    ("serve 2 8080", (0, 0), 13, 15, ("answered 200\n", WRITE)),
    ("serve 2 8080", (0, 0), 0, 15, ("", WRITE)),
    ("names", (0, 1), 100, 0, ("pam\n", "")),
    ("serve 0 8080", (0, 0), 100, 2, ("", WORDS)),
    ("serve 1000001 8080", (0, 0), 100, 2, ("", WORDS)),
    ("serve 1 0", (0, 0), 100, 2, ("", WORDS)),
    ("serve 1 65536", (0, 0), 100, 2, ("", WORDS)),
    ("serve 01 8080", (0, 0), 100, 2, ("", WORDS)),
    ("serve 1", (0, 0), 100, 2, ("", WORDS)),
    ("serve 1 8080 8080", (0, 0), 100, 2, ("", WORDS)),
];

#[test]
fn lines_of_serving(rt: HostRuntime) -> Result<(), Fail> {
    for (line, failing, room, code, texts) in ROWS {
        let served = is_served(rt.alloc(), line, *failing, *room, *code, *texts)?;
        assert!(rt; served, "{} {} {} {}", line, failing.0, failing.1, room);
    }
    Ok(())
}
