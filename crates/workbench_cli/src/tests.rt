ghost use Rattle.std.specs.Prelude.{IfOk};
ghost use Rattle.wb_outside.specs.Texts.{AreDistinct};

use super::*;
use extraction_coproduct::Work;
use result_keeper::QuietKeeper;
use std::alloc::{AllocError, Global};
use std::test::Fail;
use wb_outside::{MemoryFiles, MemorySink, NamedText, OutsideError};

const PHI4_2D: &str =
    "version = 1\nscaling = [2, 1, 1]\n[[noise]]\nname = \"xi\"\ndegree = \"-2-k\"\n[[unknown]]\nname = \"u\"\ndegree = \"2\"\nregularity = \"-1/2\"\nright = \"-u^3+xi\"\n";

const PHI4_2D_TEXT: &str =
    "accepted\nrule u 5\n  1: -1/2 < 2\n  xi: -1/2 < 0\n  u: -1/2 < 3/2\n  u*u: -1/2 < 1\n  u*u*u: -1/2 < 1/2\ngap 1/2\n";

// In four dimensions the cubic term is too rough for any regularity.
const PHI4_4D: &str =
    "version = 1\nscaling = [2, 1, 1, 1, 1]\n[[noise]]\nname = \"xi\"\ndegree = \"-3-k\"\n[[unknown]]\nname = \"u\"\ndegree = \"2\"\nregularity = \"REGULARITY\"\nright = \"-u^3+xi\"\n";

const KPZ: &str =
    "version = 1\nscaling = [2, 1]\n[[noise]]\nname = \"xi\"\ndegree = \"-3/2-k\"\n[[unknown]]\nname = \"u\"\ndegree = \"2\"\nregularity = \"1/2\"\nright = \"u'(0,1)^2+xi\"\n";

// Room for a check text of 2,000 lines.
const ROOM: usize = 400_000;

// What a run of the program left.
#[derive(Debug, PartialEq, Eq, Drop)]
pub struct Run {
    pub code: u8,
    pub out: Vec<u8>,
    pub err: Vec<u8>,
}

// One text by its name.
#[tactic(auto, using(wb_outside::proofs::TextLemmas::distinct_one))]
fn one_text(alloc: Global, name: &str, text: &[u8]) -> Result<Vec<NamedText>, AllocError>
    ensures { IfOk result (λ texts. AreDistinct texts.items) }
{
    let name = name.as_bytes().to_vec(alloc)?;
    let bytes = text.to_vec(alloc)?;
    let mut texts = Vec::new(alloc);
    texts.push(NamedText { name, bytes })?;
    Ok(texts)
}

// The words of a command line, which spaces part.
fn words_of(alloc: Global, line: &str) -> Result<Vec<String>, AllocError> {
    let mut words = Vec::new(alloc);
    for word in line.split_whitespace() {
        words.push(String::from_str(alloc, word)?)?;
    }
    Ok(words)
}

// The program over one file, which is named `file`, and an empty store. The calls with these
// numbers fail.
pub fn run_program(
    alloc: Global,
    line: &str,
    text: &[u8],
    failing_reads: &[u64],
    failing_writes: &[u64],
) -> Result<Run, OutsideError> {
    let words = words_of(alloc, line)?;
    let texts = one_text(alloc, "file", text)?;
    let mut files = MemoryFiles::new(alloc, texts, failing_reads.to_vec(alloc)?);
    let mut out = MemorySink::new(alloc, ROOM, failing_writes.to_vec(alloc)?)?;
    let mut err = MemorySink::new(alloc, ROOM, Vec::new(alloc))?;
    let mut keeper = QuietKeeper::new(alloc);
    let mut work = Work { tables: 0 };
    let status = run_command(
        alloc,
        &words,
        &mut files,
        &mut keeper,
        &mut out,
        &mut err,
        &mut work,
    );
    Ok(Run {
        code: status.code,
        out: out.bytes().to_vec(alloc)?,
        err: err.bytes().to_vec(alloc)?,
    })
}

#[test]
fn equations_are_accepted_or_refused(rt: HostRuntime) -> Result<(), Fail> {
    for (text, regularity, code, out, err) in [
        (PHI4_2D, "", 0, PHI4_2D_TEXT, ""),
        (
            PHI4_4D,
            "-1",
            6,
            "",
            "refused 6 NotSubcritical u xi -1 -1\n",
        ),
        (
            PHI4_4D,
            "-3/2",
            6,
            "",
            "refused 6 NotSubcritical u u*u*u -3/2 -5/2\n",
        ),
        (KPZ, "", 6, "", "refused 6 NotSubcritical u xi 1/2 1/2\n"),
        ("scalin", "", 4, "", "refused 4 NotToml\n"),
    ] {
        let text = text.replace(rt.alloc(), "REGULARITY", regularity)?;
        let run = run_program(rt.alloc(), "check file", text.as_bytes(), &[], &[])?;
        assert_eq!(rt; run.code, code);
        assert_eq!(rt; run.out.as_slice(), out.as_bytes());
        assert_eq!(rt; run.err.as_slice(), err.as_bytes());
    }
    Ok(())
}

#[test]
fn other_words_are_refused(rt: HostRuntime) -> Result<(), Fail> {
    for line in [
        "",
        "check",
        "chek file",
        "check -file",
        "check file file",
        "add",
        "add file",
        "add file -file",
        "add file file file",
        "show",
        "show file file",
        "names file",
        "compute",
        "compute file --fast",
        "compute --fresh",
        "trees file --fresh",
        "audit file",
        "migrate file",
        "detail file",
        "detail file -t",
        "detail file [xi] [xi]",
        "act file [xi]",
        "act file [xi] t --recenter",
        "act file [xi] t t",
        "act file -t t",
        "act file [xi] -t",
        "multiply file [xi] t",
        "multiply file [xi] t -t",
        "multiply file [xi] t t --recentre",
        "sample",
        "sample 04",
        "sample 1000001",
        "sample -1",
        "sample 4 4",
        "serve 1 8080",
    ] {
        let run = run_program(rt.alloc(), line, PHI4_2D.as_bytes(), &[], &[])?;
        assert_eq!(rt; (run.code, run.out.len()), (2, 0), "{line}");
        assert_eq!(rt; run.err.as_slice(), b"refused 2 Words\n".as_slice());
    }
    Ok(())
}

#[test]
fn numbers_are_digits_without_leading_zeros(rt: HostRuntime) -> Result<(), Fail> {
    for (word, number) in [
        ("1", Some(1)),
        ("65535", Some(65535)),
        ("8080", Some(8080)),
        ("0", None),
        ("65536", None),
        ("08080", None),
        ("+8080", None),
        ("-1", None),
        ("", None),
        ("8 0", None),
        ("4294967297", None),
        ("99999999999999999999", None),
    ] {
        assert_eq!(rt; read_number(word, 1, 65535), number, "{word}");
    }
    assert_eq!(rt; read_number("0", 0, 1_000_000), Some(0));
    Ok(())
}

#[test]
fn commands_take_the_names_of_projects(rt: HostRuntime) -> Result<(), Fail> {
    for (line, code) in [
        ("trees", 2),
        ("trees pam pam", 2),
        ("trees -pam", 2),
        ("trees _pam", 2),
        ("trees Pam", 2),
        ("trees pam.toml", 2),
        ("trees pam", 10),
        ("trees 2d_pam-", 10),
        ("trees a2345678901234567890123456789012", 10),
        ("trees a23456789012345678901234567890123", 2),
        ("compute pam", 10),
        ("compute pam --fresh", 10),
        ("compute Pam --fresh", 2),
        ("show pam", 10),
        ("remove pam", 10),
        ("add pam file", 0),
        ("add pam other", 3),
        ("add Pam file", 2),
        ("detail pam [xi]", 10),
        ("detail Pam [xi]", 2),
        ("act pam [xi] file", 10),
        ("act pam [xi] file --recentre", 10),
        ("act pam [xi] other", 3),
        ("act Pam [xi] file", 2),
        ("multiply pam [xi] file file", 10),
        ("multiply pam [xi] file other", 3),
        ("multiply Pam [xi] file file", 2),
        ("names", 0),
        ("audit", 0),
        ("migrate", 0),
    ] {
        let run = run_program(rt.alloc(), line, PHI4_2D.as_bytes(), &[], &[])?;
        assert_eq!(rt; (run.code, run.err.is_empty()), (code, code == 0), "{line}");
    }
    Ok(())
}

#[test]
fn files_that_are_not_added(rt: HostRuntime) -> Result<(), Fail> {
    for (text, err) in [
        ("scalin", "refused 4 NotToml\n"),
        (KPZ, "refused 6 NotSubcritical u xi 1/2 1/2\n"),
    ] {
        let run = run_program(rt.alloc(), "add file file", text.as_bytes(), &[], &[])?;
        assert_eq!(rt; run.out.len(), 0);
        assert_eq!(rt; run.err.as_slice(), err.as_bytes());
    }
    Ok(())
}

#[test]
fn faults_of_files_and_sinks_are_told(rt: HostRuntime) -> Result<(), Fail> {
    let unread = run_program(rt.alloc(), "check file", PHI4_2D.as_bytes(), &[1], &[])?;
    assert_eq!(rt; (unread.code, unread.out.len()), (3, 0));
    assert_eq!(rt; unread.err.as_slice(), b"refused 3 FileFault\n".as_slice());
    let absent = run_program(rt.alloc(), "check other", PHI4_2D.as_bytes(), &[], &[])?;
    assert_eq!(rt; absent.code, 3);
    let unwritten = run_program(rt.alloc(), "check file", PHI4_2D.as_bytes(), &[], &[1])?;
    assert_eq!(rt; (unwritten.code, unwritten.out.len()), (15, 0));
    assert_eq!(rt;
        unwritten.err.as_slice(),
        b"refused 15 WriteFault\n".as_slice()
    );
    Ok(())
}
