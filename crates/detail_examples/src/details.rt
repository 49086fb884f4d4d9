// Whole texts of details.
use std::test::Fail;
use workbench_core::detail_of;

const KPZ: &str =
    "version = 1\nscaling = [2, 1]\n\n[[noise]]\nname = \"xi\"\ndegree = \"-3/2-k\"\n\n[[unknown]]\nname = \"u\"\ndegree = \"2\"\nregularity = \"1/4\"\nright = \"u'(0,1)^2+xi\"\n";

const TWO_NOISES: &str =
    "version = 1\nscaling = [2, 1, 1]\n\n[[noise]]\nname = \"xi\"\ndegree = \"-2-k\"\n\n[[noise]]\nname = \"eta\"\ndegree = \"-2-k\"\n\n[[unknown]]\nname = \"u\"\ndegree = \"2\"\nregularity = \"-1/2\"\nright = \"-u^3+xi+eta\"\n";

const ONE_GROUP: &str =
    "version = 1\nscaling = [2, 1, 1]\n\n[[noise]]\nname = \"xi\"\ndegree = \"-2-k\"\ngroup = \"g\"\n\n[[noise]]\nname = \"eta\"\ndegree = \"-2-k\"\ngroup = \"g\"\n\n[[unknown]]\nname = \"u\"\ndegree = \"2\"\nregularity = \"-1/2\"\nright = \"-u^3+xi+eta\"\n";

// Files with a tree, and its detail.
const DETAILS: [(&str, &str, &str); 4] = [
    (
        KPZ,
        "[X(0,1)*xi]",
        "tree [X(0,1)*xi]\ndegree -1/2-k\nedges 1\nsymmetry 1\nvanishes yes\npairings 0\nextraction 3\n  1 {} | [X(0,1)*xi]\n  1 {[xi]} | [X(0,1)]\n  1 {[X(0,1)*xi]} | []\nrecentring 2\n  1 [xi] | [X(0,1)]\n  1 [X(0,1)*xi] | []\nantipode -T[X(0,1)*xi]+T[X(0,1)]*T[xi]\nconstant 0\ndifferential u 0\n",
    ),
    (
        TWO_NOISES,
        "[u[xi]*u[eta]]",
        "tree [u[xi]*u[eta]]\ndegree -2*k\nedges 4\nsymmetry 1\nvanishes yes\npairings 0\nextraction 5\n  1 {} | [u[xi]*u[eta]]\n  1 {[xi]} | [u[]*u[eta]]\n  1 {[eta]} | [u[]*u[xi]]\n  1 {[u[xi]*u[eta]]} | []\n  1 {[xi][eta]} | [u[]*u[]]\nrecentring 1\n  1 [u[xi]*u[eta]] | []\nantipode -T[u[xi]*u[eta]]+T[xi]*T[u[]*u[eta]]+T[eta]*T[u[]*u[xi]]-T[xi]*T[eta]*T[u[]*u[]]\nconstant 0\ndifferential u -6*u\n",
    ),
    (
        ONE_GROUP,
        "[u[xi]*u[eta]]",
        "tree [u[xi]*u[eta]]\ndegree -2*k\nedges 4\nsymmetry 1\nvanishes no\npairings 1\n  (1,2)\nextraction 5\n  1 {} | [u[xi]*u[eta]]\n  1 {[xi]} | [u[]*u[eta]]\n  1 {[eta]} | [u[]*u[xi]]\n  1 {[u[xi]*u[eta]]} | []\n  1 {[xi][eta]} | [u[]*u[]]\nrecentring 1\n  1 [u[xi]*u[eta]] | []\nantipode -T[u[xi]*u[eta]]+T[xi]*T[u[]*u[eta]]+T[eta]*T[u[]*u[xi]]-T[xi]*T[eta]*T[u[]*u[]]\nconstant -E[u[xi]*u[eta]]\ndifferential u -6*u\n",
    ),
    (
        KPZ,
        "[]",
        "tree []\ndegree 0\nedges 0\nsymmetry 1\nvanishes no\npairings 1\n  none\nextraction 1\n  1 {} | []\nrecentring 1\n  1 [] | []\nantipode 1\nconstant 1\ndifferential u u'(0,1)^2\n",
    ),
];

#[test]
fn details(rt: HostRuntime) -> Result<(), Fail> {
    for (file, tree, text) in DETAILS {
        match detail_of(rt.alloc(), file.as_bytes(), tree.as_bytes()) {
            Ok(detail) => assert_eq!(rt; detail.as_slice(), text.as_bytes(), "{tree}"),
            Err(_) => assert!(rt; false, "{tree}"),
        }
    }
    Ok(())
}
