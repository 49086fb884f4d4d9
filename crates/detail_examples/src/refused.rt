// Trees that have no detail.
use std::test::Fail;
use workbench_core::{detail_of, print_refusal};

const PAM: &str =
    "version = 1\nscaling = [2, 1, 1]\n\n[[noise]]\nname = \"xi\"\ndegree = \"-1-k\"\n\n[[unknown]]\nname = \"u\"\ndegree = \"2\"\nregularity = \"1/2\"\nright = \"u*xi\"\n";

// Tree texts, and their refusals.
const REFUSED: [(&str, &str); 5] = [
    ("[u[xi]*xi]", "refused 14 TreeRefused NotCanonical\n"),
    ("[xi", "refused 14 TreeRefused TreeText 3\n"),
    ("[", "refused 14 TreeRefused TreeText 1\n"),
    (
        "[X(0,0,65)*xi]",
        "refused 14 TreeRefused TooManyDecorations 65\n",
    ),
    (
        "[xi*xi*xi*xi*xi*xi*xi*xi*xi*xi*xi*xi*xi]",
        "refused 14 TooManyNoises 13\n",
    ),
];

#[test]
fn refused_trees(rt: HostRuntime) -> Result<(), Fail> {
    for (tree, line) in REFUSED {
        match detail_of(rt.alloc(), PAM.as_bytes(), tree.as_bytes()) {
            Ok(_) => assert!(rt; false, "{tree}"),
            Err(refusal) => match print_refusal(rt.alloc(), &refusal) {
                Ok(text) => assert_eq!(rt; text.as_slice(), line.as_bytes(), "{tree}"),
                Err(_) => assert!(rt; false, "{tree}"),
            },
        }
    }
    Ok(())
}
