// Single calls that fail, and what stands in the store afterwards.
use crate::kept::{Content, content_of};
use crate::runs::{Failing, NONE, run_line};
use crate::stores::{PAM, Store};
use std::alloc::Global;
use std::test::Fail;

const REPORT: &str =
    "report 1\nrule u 4 6\n  1\n  xi\n  u\n  u'(0,0,1)\n  u'(0,1,0)\n  xi*u\ntrees 4\ntree 1 [xi]\ndegree -1-k\nsymmetry 1\nconstant 0\ndifferential u u\ntree 2 [xi*u[xi]]\ndegree -2*k\nsymmetry 1\nconstant -E[xi*u[xi]]\ndifferential u u\ntree 3 [X(0,0,1)*xi]\ndegree -k\nsymmetry 1\nconstant 0\ndifferential u u'(0,0,1)\ntree 4 [X(0,1,0)*xi]\ndegree -k\nsymmetry 1\nconstant 0\ndifferential u u'(0,1,0)\nequation u\n  (u*xi)/1\n  +(-E[xi*u[xi]])*(u)/1\n";

const STORE_FAULT: &str = "refused 11 StoreFault\n";

const ALL_NEW: &str = "reused 0 computed 4\n";

// A command over a store without rows, what it is given, and the calls that fail; what the run
// leaves; and what `compute pam` says of the rows afterwards.
struct Row {
    line: &'static str,
    given: &'static str,
    failing: Failing,
    code: u8,
    out: &'static str,
    err: &'static str,
    response: &'static str,
    next: &'static str,
}

const ROWS: &[Row] = &[
    Row {
        line: "compute pam",
        given: "",
        failing: Failing { keeper: 1, ..NONE },
        code: 11,
        out: "",
        err: STORE_FAULT,
        response: "",
        next: ALL_NEW,
    },
    Row {
        line: "compute pam",
        given: "",
        failing: Failing { keeper: 3, ..NONE },
        code: 11,
        out: "",
        err: STORE_FAULT,
        response: "",
        next: ALL_NEW,
    },
    Row {
        line: "compute pam",
        given: "",
        failing: Failing { err: 1, ..NONE },
        code: 15,
        out: REPORT,
        err: "",
        response: "",
        next: "reused 4 computed 0\n",
    },
    Row {
        line: "check file",
        given: PAM,
        failing: Failing { files: 1, ..NONE },
        code: 3,
        out: "",
        err: "refused 3 FileFault\n",
        response: "",
        next: ALL_NEW,
    },
    Row {
        line: "add new file",
        given: PAM,
        failing: Failing { keeper: 1, ..NONE },
        code: 11,
        out: "",
        err: STORE_FAULT,
        response: "",
        next: ALL_NEW,
    },
    Row {
        line: "remove none",
        given: "",
        failing: Failing { err: 1, ..NONE },
        code: 10,
        out: "",
        err: "",
        response: "",
        next: ALL_NEW,
    },
    Row {
        line: "audit",
        given: "",
        failing: Failing { keeper: 1, ..NONE },
        code: 11,
        out: "",
        err: STORE_FAULT,
        response: "",
        next: ALL_NEW,
    },
    Row {
        line: "serve 1 8080",
        given: "GET /projects/pam/report HTTP/1.1\r\n\r\n",
        failing: Failing { keeper: 2, ..NONE },
        code: 0,
        out: "answered 500\n",
        err: "",
        response: "HTTP/1.1 500 Internal Server Error\r\nContent-Type: text/plain; charset=utf-8\r\nContent-Length: 22\r\nConnection: close\r\n\r\nrefused 11 StoreFault\n",
        next: ALL_NEW,
    },
];

// What the store holds after the report was computed.
fn computed(alloc: Global) -> Result<Content, Fail> {
    let mut keeper = Store::Bare.keeper(alloc, 0)?;
    run_line(alloc, &mut keeper, "compute pam", "", NONE)?;
    Ok(content_of(alloc, &mut keeper)?)
}

// Whether a run leaves what its row says, and `compute pam` then leaves what it always leaves.
fn is_told(alloc: Global, row: &Row, after: &Content) -> Result<bool, Fail> {
    let mut keeper = Store::Bare.keeper(alloc, row.failing.keeper)?;
    let failed = run_line(alloc, &mut keeper, row.line, row.given, row.failing)?;
    let next = run_line(alloc, &mut keeper, "compute pam", "", NONE)?;
    let content = content_of(alloc, &mut keeper)?;
    Ok(
        failed.leaves(row.code, row.out, row.err)
            && failed.response.as_slice() == row.response.as_bytes()
            && next.leaves(0, REPORT, row.next)
            && content == *after,
    )
}

#[test]
fn a_single_fault_is_told_and_done_whole_or_not_at_all(rt: HostRuntime) -> Result<(), Fail> {
    let after = computed(rt.alloc())?;
    for row in ROWS {
        assert!(rt; is_told(rt.alloc(), row, &after)?, "{}", row.line);
    }
    Ok(())
}
