// The tree lists of files of examples/.
use crate::files::{BURGERS_SYSTEM, KPZ_FOUR_COMPONENTS, KPZ_GENERALISED, PAM_3D};
use crate::runs::trees_of;
use std::test::Fail;

const BURGERS_SYSTEM_LIST: &str =
    "trees 8\n1 -3/2-k [xi]\n2 -3/2-k [eta]\n3 -1/2-k [X(0,1)*xi]\n4 -1/2-k [X(0,1)*eta]\n5 -2*k [u[xi]*u'(0,1)[xi]]\n6 -2*k [u[xi]*v'(0,1)[eta]]\n7 -2*k [u'(0,1)[xi]*v[eta]]\n8 -2*k [v[eta]*v'(0,1)[eta]]\n";

const PAM_3D_LIST: &str =
    "trees 16\n1 -3/2-k [xi]\n2 -1-2*k [xi*u[xi]]\n3 -1/2-3*k [xi*u[xi*u[xi]]]\n4 -1/2-k [X(0,0,0,1)*xi]\n5 -1/2-k [X(0,0,1,0)*xi]\n6 -1/2-k [X(0,1,0,0)*xi]\n7 -4*k [xi*u[xi*u[xi*u[xi]]]]\n8 -2*k [xi*u[X(0,0,0,1)*xi]]\n9 -2*k [xi*u[X(0,0,1,0)*xi]]\n10 -2*k [xi*u[X(0,1,0,0)*xi]]\n11 -2*k [X(0,0,0,1)*xi*u[xi]]\n12 -2*k [X(0,0,1,0)*xi*u[xi]]\n13 -2*k [X(0,1,0,0)*xi*u[xi]]\n14 -2*k [xi*u[u'(0,0,0,1)[xi]]]\n15 -2*k [xi*u[u'(0,0,1,0)[xi]]]\n16 -2*k [xi*u[u'(0,1,0,0)[xi]]]\n";

#[test]
fn tree_lists_of_a_system_and_of_a_completed_rule(rt: HostRuntime) -> Result<(), Fail> {
    for (file, list) in [(BURGERS_SYSTEM, BURGERS_SYSTEM_LIST), (PAM_3D, PAM_3D_LIST)] {
        let run = trees_of(rt.alloc(), file.as_bytes())?;
        assert_eq!(rt; run.out.as_slice(), list.as_bytes());
        assert_eq!(rt; (run.code, run.err.len()), (0, 0));
    }
    Ok(())
}

#[test]
fn numbers_of_trees(rt: HostRuntime) -> Result<(), Fail> {
    for (file, begins, lines) in [
        (KPZ_GENERALISED, "trees 40\n", 41),
        (KPZ_FOUR_COMPONENTS, "trees 756\n", 757),
    ] {
        let run = trees_of(rt.alloc(), file.as_bytes())?;
        assert!(rt;
            run.out.as_slice().starts_with(begins.as_bytes()),
            "{begins}"
        );
        assert_eq!(rt;
            run.out.as_slice().iter().filter(|b| **b == b'\n').count(),
            lines
        );
        assert_eq!(rt; (run.code, run.err.len()), (0, 0));
    }
    Ok(())
}
