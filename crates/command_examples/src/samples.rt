// Summaries of sample files: one to four coupled equations of KPZ type.
use crate::runs::run_alone;
use std::test::Fail;

#[test]
fn summaries(rt: HostRuntime) -> Result<(), Fail> {
    for (line, summary) in [
        (
            "sample 4",
            "sample 4 unknowns 1 trees 9 constants 5 counterterms 4\n",
        ),
        (
            "sample 5",
            "sample 5 unknowns 2 trees 64 constants 26 counterterms 34\n",
        ),
        (
            "sample 1000000",
            "sample 1000000 unknowns 1 trees 9 constants 5 counterterms 4\n",
        ),
        (
            "sample 7",
            "sample 7 unknowns 4 trees 756 constants 116 counterterms 172\n",
        ),
        (
            "sample 7",
            "sample 7 unknowns 4 trees 756 constants 116 counterterms 172\n",
        ),
    ] {
        let run = run_alone(rt.alloc(), line)?;
        assert_eq!(rt; run.out.as_slice(), summary.as_bytes());
        assert_eq!(rt; (run.code, run.err.len()), (0, 0));
    }
    Ok(())
}
