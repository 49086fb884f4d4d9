// Words that are long or deep, and rows that somebody else wrote.
use crate::kept::content_of;
use crate::runs::{NONE, run_line};
use crate::stores::Store;
use std::alloc::{AllocError, Global};
use std::test::Fail;

// A command line in pieces, each with how often it stands there; the store; and the refusal.
struct Row {
    line: &'static [(&'static str, usize)],
    store: Store,
    code: u8,
    refusal: &'static str,
}

const ROWS: &[Row] = &[
    Row {
        line: &[("detail pam ", 1), ("[", 4096)],
        store: Store::Bare,
        code: 14,
        refusal: "refused 14 TreeRefused TreeText 1\n",
    },
    Row {
        line: &[("detail pam ", 1), ("[", 4097)],
        store: Store::Bare,
        code: 2,
        refusal: "refused 2 Words\n",
    },
    Row {
        line: &[("detail pam [", 1), ("u[", 1000), ("]", 1001)],
        store: Store::Bare,
        code: 14,
        refusal: "refused 14 TreeRefused TooManyEdges 1000\n",
    },
    Row {
        line: &[("detail pam [X(99999999999,0,0)]", 1)],
        store: Store::Bare,
        code: 14,
        refusal: "refused 14 TreeRefused TooManyDecorations 2147483647\n",
    },
    Row {
        line: &[("compute pam", 1)],
        store: Store::Valued { value: "0 0 " },
        code: 12,
        refusal: "refused 12 StoredRow [xi]\n",
    },
    Row {
        line: &[("compute pam", 1)],
        store: Store::Valued { value: "00 0" },
        code: 12,
        refusal: "refused 12 StoredRow [xi]\n",
    },
];

// The pieces, each as often as it says.
fn joined(alloc: Global, pieces: &[(&str, usize)]) -> Result<String, AllocError> {
    let mut line = String::new(alloc);
    for (piece, copies) in pieces {
        for _ in 0..*copies {
            line.push_str(piece)?;
        }
    }
    Ok(line)
}

// Whether a command line is refused as its row says, and leaves the store as it was.
fn is_refused(alloc: Global, row: &Row) -> Result<bool, Fail> {
    let line = joined(alloc, row.line)?;
    let mut keeper = row.store.keeper(alloc, 0)?;
    let before = content_of(alloc, &mut keeper)?;
    let refused = run_line(alloc, &mut keeper, &line, "", NONE)?;
    let after = content_of(alloc, &mut keeper)?;
    Ok(refused.leaves(row.code, "", row.refusal) && before == after)
}

#[test]
fn hostile_words_and_rows_are_refused(rt: HostRuntime) -> Result<(), Fail> {
    for row in ROWS {
        assert!(rt; is_refused(rt.alloc(), row)?, "{}", row.refusal);
    }
    Ok(())
}
