// Files that are refused after their normal rule was found, and what is just not refused.
use crate::runs::{check_of, file_of, trees_of};
use std::test::Fail;

// Scaling, degrees of the noise and of the kernel, regularity and right side; and the refusal.
const REFUSED: [(&str, &str, &str, &str, &str, &str); 6] = [
    (
        "[2, 1, 1]",
        "-1",
        "2",
        "1/2",
        "u*xi",
        "refused 8 ZeroDegree [X(0,0,1)*xi]\n",
    ),
    (
        "[1]",
        "-19/20",
        "1",
        "0",
        "u*xi",
        "refused 7 TreeTooLarge 0\n",
    ),
    (
        "[1]",
        "-12/13",
        "1",
        "0",
        "u*xi",
        "refused 7 TreeTooLarge 0\n",
    ),
    (
        "[1]",
        "-12/13-k",
        "1",
        "0",
        "u*xi",
        "refused 7 TreeTooLarge 0\n",
    ),
    (
        "[1, 1, 1, 1, 1]",
        "-20",
        "2",
        "-19",
        "xi",
        "refused 7 TooManyTrees 0\n",
    ),
    (
        "[1, 1, 1, 1, 1]",
        "-3-k",
        "10",
        "6",
        "u^20*xi",
        "refused 7 RuleTooLarge 1\n",
    ),
];

#[test]
fn files_that_are_refused(rt: HostRuntime) -> Result<(), Fail> {
    for (scaling, noise, kernel, regularity, right, line) in REFUSED {
        let file = file_of(rt.alloc(), scaling, noise, kernel, regularity, right)?;
        let run = trees_of(rt.alloc(), file.as_bytes())?;
        assert_eq!(rt; run.err.as_slice(), line.as_bytes(), "{noise} {right}");
        assert_eq!(rt; run.out.len(), 0);
        let checked = check_of(rt.alloc(), file.as_bytes())?;
        assert_eq!(rt; checked.code, 0);
    }
    Ok(())
}

// Two kernels; contractions of the trees of stage 0 make rough node types for the second.
const ROUGH: &[u8] =
    b"version = 1\nscaling = [1, 1, 1]\n[[noise]]\nname = \"a\"\ndegree = \"-3/2-k\"\n[[noise]]\nname = \"b\"\ndegree = \"-4-k\"\n[[unknown]]\nname = \"v\"\ndegree = \"2\"\nregularity = \"1/4\"\nright = \"a\"\n[[unknown]]\nname = \"u\"\ndegree = \"11\"\nregularity = \"1\"\nright = \"v'(1,0,0)^2*b\"\n";

#[test]
fn too_many_trees_at_stage_1(rt: HostRuntime) -> Result<(), Fail> {
    let run = trees_of(rt.alloc(), ROUGH)?;
    assert_eq!(rt;
        run.err.as_slice(),
        b"refused 7 TooManyTrees 1\n".as_slice()
    );
    let checked = check_of(rt.alloc(), ROUGH)?;
    assert_eq!(rt; checked.code, 0);
    Ok(())
}

// One noise edge less, or a k that makes the largest tree too heavy.
#[test]
fn files_that_are_just_not_refused(rt: HostRuntime) -> Result<(), Fail> {
    for noise in ["-12/13+k", "-23/25-k"] {
        let file = file_of(rt.alloc(), "[1]", noise, "1", "0", "u*xi")?;
        let run = trees_of(rt.alloc(), file.as_bytes())?;
        assert!(rt;
            run.out.as_slice().starts_with(b"trees 12\n".as_slice()),
            "{noise}"
        );
        assert_eq!(rt; (run.code, run.err.len()), (0, 0));
    }
    Ok(())
}
