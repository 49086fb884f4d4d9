// Equations that people know.
use crate::runs::{file_of, trees_of};
use std::test::Fail;

// Scaling, degree of the noise, regularity and right side, where the kernel has degree 2; and the tree list.
const LISTS: [(&str, &str, &str, &str, &str); 5] = [
    (
        "[2, 1, 1]",
        "-1-k",
        "1/2",
        "u*xi",
        "trees 4\n1 -1-k [xi]\n2 -2*k [xi*u[xi]]\n3 -k [X(0,0,1)*xi]\n4 -k [X(0,1,0)*xi]\n",
    ),
    (
        "[2, 1, 1]",
        "-1-k",
        "1/2",
        "u^2*xi",
        "trees 4\n1 -1-k [xi]\n2 -2*k [xi*u[xi]]\n3 -k [X(0,0,1)*xi]\n4 -k [X(0,1,0)*xi]\n",
    ),
    (
        "[2, 1, 1]",
        "-2-k",
        "-1/2",
        "-u^3+xi",
        "trees 9\n1 -2-k [xi]\n2 -1-k [X(0,0,1)*xi]\n3 -1-k [X(0,1,0)*xi]\n4 -3*k [u[xi]*u[xi]*u[xi]]\n5 -2*k [u[xi]*u[xi]]\n6 -k [X(0,0,2)*xi]\n7 -k [X(0,1,1)*xi]\n8 -k [X(0,2,0)*xi]\n9 -k [X(1,0,0)*xi]\n",
    ),
    (
        "[2, 1]",
        "-3/2-k",
        "1/4",
        "u'(0,1)^2+xi",
        "trees 9\n1 -3/2-k [xi]\n2 -1-2*k [u'(0,1)[xi]*u'(0,1)[xi]]\n3 -1/2-3*k [u'(0,1)[xi]*u'(0,1)[u'(0,1)[xi]*u'(0,1)[xi]]]\n4 -1/2-k [X(0,1)*xi]\n5 -4*k [u'(0,1)[xi]*u'(0,1)[u'(0,1)[xi]*u'(0,1)[u'(0,1)[xi]*u'(0,1)[xi]]]]\n6 -4*k [u'(0,1)[u'(0,1)[xi]*u'(0,1)[xi]]*u'(0,1)[u'(0,1)[xi]*u'(0,1)[xi]]]\n7 -2*k [u'(0,1)[xi]*u'(0,1)[X(0,1)*xi]]\n8 -2*k [X(0,1)*u'(0,1)[xi]*u'(0,1)[xi]]\n9 -2*k [u'(0,1)[xi]*u'(0,1)[u'(0,1)[xi]]]\n",
    ),
    ("[2, 1, 1]", "-2-k", "-1/2", "", "trees 0\n"),
];

#[test]
fn tree_lists(rt: HostRuntime) -> Result<(), Fail> {
    for (scaling, noise, regularity, right, list) in LISTS {
        let file = file_of(rt.alloc(), scaling, noise, "2", regularity, right)?;
        let run = trees_of(rt.alloc(), file.as_bytes())?;
        assert_eq!(rt; run.err.as_slice(), b"".as_slice(), "{right}");
        assert_eq!(rt; run.out.as_slice(), list.as_bytes(), "{right}");
        assert_eq!(rt; run.code, 0);
    }
    Ok(())
}

// The normal rule alone would list 28 trees.
#[test]
fn phi4_in_three_dimensions(rt: HostRuntime) -> Result<(), Fail> {
    let file = file_of(rt.alloc(), "[2, 1, 1, 1]", "-5/2-k", "2", "-3/4", "-u^3+xi")?;
    let run = trees_of(rt.alloc(), file.as_bytes())?;
    let begins = b"trees 43\n1 -5/2-k [xi]\n2 -3/2-3*k [u[xi]*u[xi]*u[xi]]\n".as_slice();
    assert!(rt; run.out.as_slice().starts_with(begins));
    assert_eq!(rt;
        run.out.as_slice().iter().filter(|b| **b == b'\n').count(),
        44
    );
    assert_eq!(rt; (run.code, run.err.len()), (0, 0));
    Ok(())
}
