// Why there is no sum of characters, and the order in which causes are looked for.
use crate::runs::{KPZ, run_on};
use std::test::Fail;

// In one dimension, so that decorations are large beside degrees.
const FLAT: &str =
    "version = 1\nscaling = [1]\n\n[[noise]]\nname = \"xi\"\ndegree = \"-1/2\"\n\n[[unknown]]\nname = \"u\"\ndegree = \"1/10\"\nregularity = \"-1/2\"\nright = \"xi\"\n";

const GREATEST: &str = "[xi] -170141183460469231731687303715884105727\n[X(0,1)*xi] 0\n";

// Words, the equation file, two tables, and the refusal.
const REFUSED: [(&str, &str, &str, &str, &str); 17] = [
    // A tree lacks a row: of two tables, the first such tree is named.
    (
        "act kpz [X(0,1)*xi] table",
        KPZ,
        "[X(0,1)*xi] 5\n",
        "",
        "14 Missing [xi]",
    ),
    (
        "act kpz [X(0,1)*xi] table --recentre",
        KPZ,
        "[xi] 2\n",
        "",
        "14 Missing [X(0,1)]",
    ),
    (
        "multiply kpz [X(0,1)*xi] table other",
        KPZ,
        "",
        "[X(0,1)] 7",
        "14 Missing [xi]",
    ),
    (
        "multiply kpz [X(0,1)*xi] table other",
        KPZ,
        "",
        "",
        "14 Missing [X(0,1)]",
    ),
    // A 0 in the same product is no excuse.
    (
        "multiply kpz [X(0,1)*xi] table other",
        KPZ,
        "[xi] 0\n[X(0,1)*xi] 5\n",
        "[X(0,1)*xi] 3\n",
        "14 Missing [X(0,1)]",
    ),
    // The absolute products are added up.
    (
        "act kpz [X(0,1)*xi] table",
        KPZ,
        GREATEST,
        "",
        "9 CoefficientTooLarge [X(0,1)*xi] act",
    ),
    (
        "multiply kpz [X(0,1)*xi] table other",
        KPZ,
        GREATEST,
        "[X(0,1)] 1\n[X(0,1)*xi] 1\n",
        "9 CoefficientTooLarge [X(0,1)*xi] product",
    ),
    // Of such a sum, that a tree lacks a row is said first.
    (
        "multiply kpz [X(0,1)*xi] table other",
        KPZ,
        GREATEST,
        "[X(0,1)] 1\n",
        "14 Missing [X(0,1)*xi]",
    ),
    // 64!/(12!*13!^4) is past 2^127, and no tree has a row.
    (
        "act kpz [X(12)*xi*u[X(13)*u[X(13)*u[X(13)*u[X(13)]]]]] table",
        FLAT,
        "",
        "",
        "9 CoefficientTooLarge [X(12)*xi*u[X(13)*u[X(13)*u[X(13)*u[X(13)]]]]] extraction",
    ),
    (
        "act kpz [X(12)*xi*u[X(13)*u[X(13)*u[X(13)*u[X(13)]]]]] table --recentre",
        FLAT,
        "",
        "",
        "9 CoefficientTooLarge [X(12)*xi*u[X(13)*u[X(13)*u[X(13)*u[X(13)]]]]] recentring",
    ),
    (
        "multiply kpz [X(12)*xi*u[X(13)*u[X(13)*u[X(13)*u[X(13)]]]]] table other",
        FLAT,
        "",
        "",
        "9 CoefficientTooLarge [X(12)*xi*u[X(13)*u[X(13)*u[X(13)*u[X(13)]]]]] extraction",
    ),
    // The tables, in the order of the words, before any sum.
    (
        "act kpz [X(0,1)*xi] table",
        KPZ,
        "[xi] 2\n[xi] 2\n",
        "",
        "14 TableRefused 2",
    ),
    (
        "multiply kpz [X(0,1)*xi] table other",
        KPZ,
        "[xi] 2\n[X(0,1)*xi] 05\n",
        "[]",
        "14 TableRefused 2",
    ),
    // The tree, before the tables.
    (
        "act kpz [xi table",
        KPZ,
        "[xi] 2\n[xi] 2\n",
        "",
        "14 TreeRefused TreeText 3",
    ),
    (
        "multiply kpz [u[xi]*xi] table other",
        KPZ,
        "[]",
        "",
        "14 TreeRefused NotCanonical",
    ),
    // The project, before the tree; the files of tables, before the project.
    (
        "act pam [xi table",
        KPZ,
        "[xi] 2\n[xi] 2\n",
        "",
        "10 NoProject pam",
    ),
    ("multiply pam [xi] table absent", KPZ, "", "", "3 FileFault"),
];

#[test]
fn sums_that_are_refused(rt: HostRuntime) -> Result<(), Fail> {
    for (line, file, table, other, cause) in REFUSED {
        let run = run_on(
            rt.alloc(),
            line,
            file.as_bytes(),
            table.as_bytes(),
            other.as_bytes(),
        )?;
        let refusal = format!(in rt.alloc(); "refused {cause}\n")?;
        assert_eq!(rt; run.err.as_slice(), refusal.as_bytes(), "{line}");
        assert_eq!(rt; run.out.len(), 0, "{line}");
    }
    Ok(())
}

// A table of so many bytes, none of which is a line of a table; the limit is tested first.
#[test]
fn tables_that_are_too_long(rt: HostRuntime) -> Result<(), Fail> {
    for (size, refusal) in [
        (65536, "refused 14 TableRefused 1\n"),
        (65537, "refused 5 Limit bytes 65537\n"),
        (70000, "refused 5 Limit bytes 65537\n"),
    ] {
        let mut long = Vec::new(rt.alloc());
        long.resize(size, b'x')?;
        for (line, table, other) in [
            ("act kpz [xi] table", long.as_slice(), b"".as_slice()),
            (
                "multiply kpz [xi] table other",
                b"[xi] 2".as_slice(),
                long.as_slice(),
            ),
        ] {
            let run = run_on(rt.alloc(), line, KPZ.as_bytes(), table, other)?;
            assert_eq!(rt; run.err.as_slice(), refusal.as_bytes(), "{size} {line}");
            assert_eq!(rt; run.out.len(), 0);
        }
    }
    Ok(())
}
