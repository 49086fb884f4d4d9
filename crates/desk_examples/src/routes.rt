// Each route of the desk, over a store.
use crate::asked::{Case, empty_keeper, first_other, old_keeper, put_pam};
use result_keeper::{Keeper, KeeperError, StoredRow};
use std::alloc::Global;
use std::test::Fail;

// A project from its first to its last request.
const KEPT: &[Case] = &[
    (
        "GET /projects HTTP/1.1\r\n\r\n",
        "HTTP/1.1 200 OK\r\nContent-Type: application/json\r\nContent-Length: 3\r\nConnection: close\r\n\r\n[]\n",
    ),
    (
        "PUT /projects/pam HTTP/1.1\r\nContent-Length: 173\r\n\r\n{\"file\":\"version = 1\\nscaling = [2, 1, 1]\\n[[noise]]\\nname = \\\"xi\\\"\\ndegree = \\\"-1-k\\\"\\n[[unknown]]\\nname = \\\"u\\\"\\ndegree = \\\"2\\\"\\nregularity = \\\"1/2\\\"\\nright = \\\"u*xi\\\"\\n\"}",
        "HTTP/1.1 201 Created\r\nContent-Type: text/plain; charset=utf-8\r\nContent-Length: 10\r\nConnection: close\r\n\r\nadded pam\n",
    ),
    (
        "PUT /projects/pam HTTP/1.1\r\nContent-Length: 173\r\n\r\n{\"file\":\"version = 1\\nscaling = [2, 1, 1]\\n[[noise]]\\nname = \\\"xi\\\"\\ndegree = \\\"-1-k\\\"\\n[[unknown]]\\nname = \\\"u\\\"\\ndegree = \\\"2\\\"\\nregularity = \\\"1/2\\\"\\nright = \\\"u*xi\\\"\\n\"}",
        "HTTP/1.1 200 OK\r\nContent-Type: text/plain; charset=utf-8\r\nContent-Length: 13\r\nConnection: close\r\n\r\nreplaced pam\n",
    ),
    (
        "PUT /projects/a HTTP/1.1\r\nContent-Length: 173\r\n\r\n{\"file\":\"version = 1\\nscaling = [2, 1, 1]\\n[[noise]]\\nname = \\\"xi\\\"\\ndegree = \\\"-1-k\\\"\\n[[unknown]]\\nname = \\\"u\\\"\\ndegree = \\\"2\\\"\\nregularity = \\\"1/2\\\"\\nright = \\\"u*xi\\\"\\n\"}",
        "HTTP/1.1 201 Created\r\nContent-Type: text/plain; charset=utf-8\r\nContent-Length: 8\r\nConnection: close\r\n\r\nadded a\n",
    ),
    (
        "GET /projects HTTP/1.1\r\n\r\n",
        "HTTP/1.1 200 OK\r\nContent-Type: application/json\r\nContent-Length: 12\r\nConnection: close\r\n\r\n[\"a\",\"pam\"]\n",
    ),
    (
        "GET /projects/pam HTTP/1.1\r\n\r\n",
        "HTTP/1.1 200 OK\r\nContent-Type: text/plain; charset=utf-8\r\nContent-Length: 140\r\nConnection: close\r\n\r\nversion = 1\nscaling = [2, 1, 1]\n[[noise]]\nname = \"xi\"\ndegree = \"-1-k\"\n[[unknown]]\nname = \"u\"\ndegree = \"2\"\nregularity = \"1/2\"\nright = \"u*xi\"\n",
    ),
    (
        "GET /projects/pam/report HTTP/1.1\r\n\r\n",
        "HTTP/1.1 200 OK\r\nContent-Type: text/plain; charset=utf-8\r\nContent-Length: 417\r\nConnection: close\r\n\r\nreport 1\nrule u 4 6\n  1\n  xi\n  u\n  u'(0,0,1)\n  u'(0,1,0)\n  xi*u\ntrees 4\ntree 1 [xi]\ndegree -1-k\nsymmetry 1\nconstant 0\ndifferential u u\ntree 2 [xi*u[xi]]\ndegree -2*k\nsymmetry 1\nconstant -E[xi*u[xi]]\ndifferential u u\ntree 3 [X(0,0,1)*xi]\ndegree -k\nsymmetry 1\nconstant 0\ndifferential u u'(0,0,1)\ntree 4 [X(0,1,0)*xi]\ndegree -k\nsymmetry 1\nconstant 0\ndifferential u u'(0,1,0)\nequation u\n  (u*xi)/1\n  +(-E[xi*u[xi]])*(u)/1\n",
    ),
    (
        "GET /projects/pam/report HTTP/1.1\r\n\r\n",
        "HTTP/1.1 200 OK\r\nContent-Type: text/plain; charset=utf-8\r\nContent-Length: 417\r\nConnection: close\r\n\r\nreport 1\nrule u 4 6\n  1\n  xi\n  u\n  u'(0,0,1)\n  u'(0,1,0)\n  xi*u\ntrees 4\ntree 1 [xi]\ndegree -1-k\nsymmetry 1\nconstant 0\ndifferential u u\ntree 2 [xi*u[xi]]\ndegree -2*k\nsymmetry 1\nconstant -E[xi*u[xi]]\ndifferential u u\ntree 3 [X(0,0,1)*xi]\ndegree -k\nsymmetry 1\nconstant 0\ndifferential u u'(0,0,1)\ntree 4 [X(0,1,0)*xi]\ndegree -k\nsymmetry 1\nconstant 0\ndifferential u u'(0,1,0)\nequation u\n  (u*xi)/1\n  +(-E[xi*u[xi]])*(u)/1\n",
    ),
    (
        "POST /projects/pam/detail HTTP/1.1\r\nContent-Length: 14\r\n\r\n{\"tree\":\"[xi\"}",
        "HTTP/1.1 422 Unprocessable Content\r\nContent-Type: text/plain; charset=utf-8\r\nContent-Length: 34\r\nConnection: close\r\n\r\nrefused 14 TreeRefused TreeText 3\n",
    ),
    (
        "POST /projects/pam/detail HTTP/1.1\r\nContent-Length: 11\r\n\r\n{\"tree\":\"\"}",
        "HTTP/1.1 422 Unprocessable Content\r\nContent-Type: text/plain; charset=utf-8\r\nContent-Length: 34\r\nConnection: close\r\n\r\nrefused 14 TreeRefused TreeText 0\n",
    ),
    (
        "DELETE /projects/pam HTTP/1.1\r\n\r\n",
        "HTTP/1.1 200 OK\r\nContent-Type: text/plain; charset=utf-8\r\nContent-Length: 12\r\nConnection: close\r\n\r\nremoved pam\n",
    ),
    (
        "DELETE /projects/pam HTTP/1.1\r\n\r\n",
        "HTTP/1.1 404 Not Found\r\nContent-Type: text/plain; charset=utf-8\r\nContent-Length: 25\r\nConnection: close\r\n\r\nrefused 10 NoProject pam\n",
    ),
    (
        "GET /projects/pam HTTP/1.1\r\n\r\n",
        "HTTP/1.1 404 Not Found\r\nContent-Type: text/plain; charset=utf-8\r\nContent-Length: 25\r\nConnection: close\r\n\r\nrefused 10 NoProject pam\n",
    ),
    (
        "GET /projects/pam/report HTTP/1.1\r\n\r\n",
        "HTTP/1.1 404 Not Found\r\nContent-Type: text/plain; charset=utf-8\r\nContent-Length: 25\r\nConnection: close\r\n\r\nrefused 10 NoProject pam\n",
    ),
    (
        "GET /projects/pam/trees HTTP/1.1\r\n\r\n",
        "HTTP/1.1 404 Not Found\r\nContent-Type: text/plain; charset=utf-8\r\nContent-Length: 25\r\nConnection: close\r\n\r\nrefused 10 NoProject pam\n",
    ),
    (
        "POST /projects/pam/detail HTTP/1.1\r\nContent-Length: 15\r\n\r\n{\"tree\":\"[xi]\"}",
        "HTTP/1.1 404 Not Found\r\nContent-Type: text/plain; charset=utf-8\r\nContent-Length: 25\r\nConnection: close\r\n\r\nrefused 10 NoProject pam\n",
    ),
    (
        "GET /projects HTTP/1.1\r\n\r\n",
        "HTTP/1.1 200 OK\r\nContent-Type: application/json\r\nContent-Length: 6\r\nConnection: close\r\n\r\n[\"a\"]\n",
    ),
];

// Requests that leave the store as it is.
const REFUSED: &[Case] = &[
    (
        "PUT /projects/pam HTTP/1.1\r\nContent-Length: 17\r\n\r\n{\"file\":\"scalin\"}",
        "HTTP/1.1 422 Unprocessable Content\r\nContent-Type: text/plain; charset=utf-8\r\nContent-Length: 18\r\nConnection: close\r\n\r\nrefused 4 NotToml\n",
    ),
    (
        "PUT /projects/kpz HTTP/1.1\r\nContent-Length: 180\r\n\r\n{\"file\":\"version = 1\\nscaling = [2, 1]\\n[[noise]]\\nname = \\\"xi\\\"\\ndegree = \\\"-3/2-k\\\"\\n[[unknown]]\\nname = \\\"u\\\"\\ndegree = \\\"2\\\"\\nregularity = \\\"1/2\\\"\\nright = \\\"u'(0,1)^2+xi\\\"\\n\"}",
        "HTTP/1.1 422 Unprocessable Content\r\nContent-Type: text/plain; charset=utf-8\r\nContent-Length: 38\r\nConnection: close\r\n\r\nrefused 6 NotSubcritical u xi 1/2 1/2\n",
    ),
    (
        "PATCH /projects HTTP/1.1\r\n\r\n",
        "HTTP/1.1 405 Method Not Allowed\r\nContent-Type: text/plain; charset=utf-8\r\nContent-Length: 12\r\nAllow: GET\r\nConnection: close\r\n\r\nrefused 405\n",
    ),
    (
        "PATCH /projects/pam HTTP/1.1\r\n\r\n",
        "HTTP/1.1 405 Method Not Allowed\r\nContent-Type: text/plain; charset=utf-8\r\nContent-Length: 12\r\nAllow: GET, PUT, DELETE\r\nConnection: close\r\n\r\nrefused 405\n",
    ),
    (
        "PUT /projects/pam HTTP/1.1\r\nContent-Length: 10\r\n\r\n{\"file\":1}",
        "HTTP/1.1 400 Bad Request\r\nContent-Type: text/plain; charset=utf-8\r\nContent-Length: 12\r\nConnection: close\r\n\r\nrefused 400\n",
    ),
    (
        "",
        "HTTP/1.1 400 Bad Request\r\nContent-Type: text/plain; charset=utf-8\r\nContent-Length: 12\r\nConnection: close\r\n\r\nrefused 400\n",
    ),
    (
        "GET /projects HTTP/1.1\r\n\r\n",
        "HTTP/1.1 200 OK\r\nContent-Type: application/json\r\nContent-Length: 3\r\nConnection: close\r\n\r\n[]\n",
    ),
];

// A store of version 1, which holds `pam`.
const OLD: &[Case] = &[
    (
        "GET /projects/pam/report HTTP/1.1\r\n\r\n",
        "HTTP/1.1 409 Conflict\r\nContent-Type: text/plain; charset=utf-8\r\nContent-Length: 20\r\nConnection: close\r\n\r\nrefused 19 OldStore\n",
    ),
    (
        "GET /projects/kpz/report HTTP/1.1\r\n\r\n",
        "HTTP/1.1 404 Not Found\r\nContent-Type: text/plain; charset=utf-8\r\nContent-Length: 25\r\nConnection: close\r\n\r\nrefused 10 NoProject kpz\n",
    ),
    (
        "GET /projects/pam HTTP/1.1\r\n\r\n",
        "HTTP/1.1 200 OK\r\nContent-Type: text/plain; charset=utf-8\r\nContent-Length: 140\r\nConnection: close\r\n\r\nversion = 1\nscaling = [2, 1, 1]\n[[noise]]\nname = \"xi\"\ndegree = \"-1-k\"\n[[unknown]]\nname = \"u\"\ndegree = \"2\"\nregularity = \"1/2\"\nright = \"u*xi\"\n",
    ),
    (
        "GET /projects HTTP/1.1\r\n\r\n",
        "HTTP/1.1 200 OK\r\nContent-Type: application/json\r\nContent-Length: 8\r\nConnection: close\r\n\r\n[\"pam\"]\n",
    ),
];

// A store with a row that is not in the grammar.
const OUTSIDE: &[Case] = &[(
    "GET /projects/pam/report HTTP/1.1\r\n\r\n",
    "HTTP/1.1 409 Conflict\r\nContent-Type: text/plain; charset=utf-8\r\nContent-Length: 26\r\nConnection: close\r\n\r\nrefused 12 StoredRow [xi]\n",
)];

// A store whose second call fails, the first being that which keeps `pam`.
const FAILING: &[Case] = &[
    (
        "GET /projects/pam HTTP/1.1\r\n\r\n",
        "HTTP/1.1 500 Internal Server Error\r\nContent-Type: text/plain; charset=utf-8\r\nContent-Length: 22\r\nConnection: close\r\n\r\nrefused 11 StoreFault\n",
    ),
    (
        "GET /projects/pam HTTP/1.1\r\n\r\n",
        "HTTP/1.1 200 OK\r\nContent-Type: text/plain; charset=utf-8\r\nContent-Length: 140\r\nConnection: close\r\n\r\nversion = 1\nscaling = [2, 1, 1]\n[[noise]]\nname = \"xi\"\ndegree = \"-1-k\"\n[[unknown]]\nname = \"u\"\ndegree = \"2\"\nregularity = \"1/2\"\nright = \"u*xi\"\n",
    ),
];

#[test]
fn projects_over_their_routes(rt: HostRuntime) -> Result<(), Fail> {
    for cut in [65536, 1] {
        for cases in [KEPT, REFUSED] {
            let mut keeper = empty_keeper(rt.alloc(), Vec::new(rt.alloc()));
            assert_eq!(rt; first_other(rt.alloc(), &mut keeper, cut, cases)?, None);
        }
    }
    Ok(())
}

#[test]
fn stores_of_version_1(rt: HostRuntime) -> Result<(), Fail> {
    let mut keeper = old_keeper(rt.alloc());
    put_pam(rt.alloc(), &mut keeper)?;
    assert_eq!(rt; first_other(rt.alloc(), &mut keeper, 100, OLD)?, None);
    Ok(())
}

// Keeps a row of the context of `pam`.
fn put_row<K: Keeper>(
    alloc: Global,
    keeper: &mut K,
    tree: &str,
    value: &str,
) -> Result<(), KeeperError> {
    let mut rows = Vec::new(alloc);
    rows.push(StoredRow {
        tree: tree.as_bytes().to_vec(alloc)?,
        value: value.as_bytes().to_vec(alloc)?,
    })?;
    keeper.put_results(alloc, CONTEXT.as_bytes(), &rows)
}

const CONTEXT: &str = "context 2|scaling 2,1,1|reflect -|noise xi -1-k xi|kernel u 2 -";

#[test]
fn rows_outside_the_grammar(rt: HostRuntime) -> Result<(), Fail> {
    let mut keeper = empty_keeper(rt.alloc(), Vec::new(rt.alloc()));
    put_pam(rt.alloc(), &mut keeper)?;
    put_row(rt.alloc(), &mut keeper, "[xi]", "0 0 ")?;
    assert_eq!(rt; first_other(rt.alloc(), &mut keeper, 100, OUTSIDE)?, None);
    Ok(())
}

#[test]
fn stores_that_fail(rt: HostRuntime) -> Result<(), Fail> {
    let mut failing = Vec::new(rt.alloc());
    failing.push(2)?;
    let mut keeper = empty_keeper(rt.alloc(), failing);
    put_pam(rt.alloc(), &mut keeper)?;
    assert_eq!(rt; first_other(rt.alloc(), &mut keeper, 100, FAILING)?, None);
    Ok(())
}
