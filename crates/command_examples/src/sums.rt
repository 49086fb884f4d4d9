// Sums of characters over the coproducts of trees of the KPZ equation.
use crate::runs::{KPZ, run_on};
use std::test::Fail;

// Words, two tables, and the answer.
const SUMS: [(&str, &str, &str, &str); 9] = [
    (
        "act kpz [X(0,1)*xi] table",
        "[xi] 2\n[X(0,1)*xi] 5\n",
        "",
        "act 3\n5 []\n2 [X(0,1)]\n1 [X(0,1)*xi]\n",
    ),
    (
        "act kpz [X(0,1)*xi] table --recentre",
        "[X(0,1)] 7",
        "",
        "act 2\n7 [xi]\n1 [X(0,1)*xi]\n",
    ),
    (
        "multiply kpz [X(0,1)*xi] table other",
        "[xi] 2\n[X(0,1)*xi] 5\n",
        "[X(0,1)] 7\n[X(0,1)*xi] 3\n",
        "product 22\n",
    ),
    (
        "act kpz [X(0,1)*xi] table",
        "[xi] 0\n[X(0,1)*xi] -5",
        "",
        "act 2\n-5 []\n1 [X(0,1)*xi]\n",
    ),
    (
        "multiply kpz [X(0,1)*xi] table other",
        "[xi] -2\n[X(0,1)*xi] 5\n",
        "[X(0,1)] 7\n[X(0,1)*xi] 3\n",
        "product -6\n",
    ),
    (
        "act kpz [X(0,1)*xi] table",
        "[xi] 170141183460469231731687303715884105726\n[X(0,1)*xi] 0\n",
        "",
        "act 2\n170141183460469231731687303715884105726 [X(0,1)]\n1 [X(0,1)*xi]\n",
    ),
    ("act kpz [] table", "", "", "act 1\n1 []\n"),
    ("act kpz [] table --recentre", "", "", "act 1\n1 []\n"),
    ("multiply kpz [] table other", "", "", "product 1\n"),
];

#[test]
fn sums_of_characters(rt: HostRuntime) -> Result<(), Fail> {
    for (line, table, other, text) in SUMS {
        let run = run_on(
            rt.alloc(),
            line,
            KPZ.as_bytes(),
            table.as_bytes(),
            other.as_bytes(),
        )?;
        assert_eq!(rt; run.out.as_slice(), text.as_bytes(), "{line}");
        assert_eq!(rt; (run.code, run.err.len()), (0, 0), "{line}");
    }
    Ok(())
}
