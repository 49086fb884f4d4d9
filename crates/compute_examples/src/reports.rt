// Reports of files, whole and in part.
use extraction_coproduct::Work;
use std::alloc::{AllocError, Global};
use std::test::Fail;
use workbench_core::{Computed, Refusal, compute_of, print_refusal};

// A file with the noise xi and the unknown u, whose kernel has degree 2.
fn file_of(
    alloc: Global,
    scaling: &str,
    noise: &str,
    regularity: &str,
    right: &str,
) -> Result<String, AllocError> {
    format!(in alloc;
        "version = 1\nscaling = {scaling}\n[[noise]]\nname = \"xi\"\ndegree = \"{noise}\"\n[[unknown]]\nname = \"u\"\ndegree = \"2\"\nregularity = \"{regularity}\"\nright = \"{right}\"\n"
    )
}

// What `compute` answers for the KPZ equation with this right side.
fn kpz(alloc: Global, right: &str) -> Result<Computed, Refusal> {
    let mut work = Work { tables: 0 };
    let file = file_of(alloc, "[2, 1]", "-3/2-k", "1/4", right)?;
    compute_of(alloc, file.as_bytes(), &mut work)
}

const PAM: &str =
    "report 1\nrule u 4 6\n  1\n  xi\n  u\n  u'(0,0,1)\n  u'(0,1,0)\n  xi*u\ntrees 4\ntree 1 [xi]\ndegree -1-k\nsymmetry 1\nconstant 0\ndifferential u u\ntree 2 [xi*u[xi]]\ndegree -2*k\nsymmetry 1\nconstant -E[xi*u[xi]]\ndifferential u u\ntree 3 [X(0,0,1)*xi]\ndegree -k\nsymmetry 1\nconstant 0\ndifferential u u'(0,0,1)\ntree 4 [X(0,1,0)*xi]\ndegree -k\nsymmetry 1\nconstant 0\ndifferential u u'(0,1,0)\nequation u\n  (u*xi)/1\n  +(-E[xi*u[xi]])*(u)/1\n";

const NOTHING: &str = "report 1\nrule u 1 1\n  1\ntrees 0\nequation u\n  (0)/1\n";

// Right side, the whole report, and the number of trees.
#[test]
fn whole_reports(rt: HostRuntime) -> Result<(), Fail> {
    for (noise, regularity, right, report, trees) in [
        ("-1-k", "1/2", "u*xi", PAM, 4),
        ("-2-k", "-1/2", "", NOTHING, 0),
    ] {
        let mut work = Work { tables: 0 };
        let file = file_of(rt.alloc(), "[2, 1, 1]", noise, regularity, right)?;
        let Ok(computed) = compute_of(rt.alloc(), file.as_bytes(), &mut work) else {
            assert!(rt; false, "{right}");
            return Ok(());
        };
        assert_eq!(rt; computed.report.as_slice(), report.as_bytes(), "{right}");
        assert_eq!(rt; (computed.reused, computed.computed), (0, trees));
        assert!(rt; work.tables <= 4);
    }
    Ok(())
}

const COUNTERTERMS: &str =
    "equation u\n  (xi+u'(0,1)^2)/1\n  +(-E[u'(0,1)[xi]*u'(0,1)[xi]])*(2)/2\n  +(-E[u'(0,1)[xi]*u'(0,1)[u'(0,1)[xi]*u'(0,1)[u'(0,1)[xi]*u'(0,1)[xi]]]]+E[u'(0,1)[xi]*u'(0,1)[xi]]*E[u'(0,1)[xi]*u'(0,1)[u'(0,1)[]*u'(0,1)[xi]]]+2*E[u'(0,1)[xi]*u'(0,1)[u'(0,1)[xi]]]^2+E[u'(0,1)[xi]*u'(0,1)[u'(0,1)[xi]]]*E[u'(0,1)[u'(0,1)[xi]*u'(0,1)[xi]]]-E[u'(0,1)[]]*E[u'(0,1)[xi]*u'(0,1)[xi]]*E[u'(0,1)[xi]*u'(0,1)[u'(0,1)[xi]]])*(8)/2\n  +(-E[u'(0,1)[u'(0,1)[xi]*u'(0,1)[xi]]*u'(0,1)[u'(0,1)[xi]*u'(0,1)[xi]]]+2*E[u'(0,1)[xi]*u'(0,1)[xi]]*E[u'(0,1)[]*u'(0,1)[u'(0,1)[xi]*u'(0,1)[xi]]]-E[u'(0,1)[]*u'(0,1)[]]*E[u'(0,1)[xi]*u'(0,1)[xi]]^2)*(8)/8\n  +(-E[u'(0,1)[xi]*u'(0,1)[u'(0,1)[xi]]])*(4*u'(0,1))/1\n";

// Components that overlap are never cut together, and a planted tree is not extracted.
#[test]
fn renormalised_kpz_equation(rt: HostRuntime) -> Result<(), Fail> {
    match kpz(rt.alloc(), "u'(0,1)^2+xi") {
        Ok(computed) => {
            assert!(rt;
                computed
                    .report
                    .as_slice()
                    .ends_with(COUNTERTERMS.as_bytes())
            );
            assert_eq!(rt; (computed.reused, computed.computed), (0, 9));
        }
        Err(_) => assert!(rt; false),
    }
    Ok(())
}

// 8 * 10^18 * 67909^4 is below 2^127, and 8 * 10^18 * 67910^4 is not; a tree with six kernel edges
// and the symmetry factor 2 has the denominator 2 * 10^42.
const TOO_LARGE: [(&str, &str); 2] = [
    (
        "1000000*u'(0,1)^2+67910*xi",
        "refused 9 CoefficientTooLarge [u'(0,1)[xi]*u'(0,1)[u'(0,1)[xi]*u'(0,1)[u'(0,1)[xi]*u'(0,1)[xi]]]] differential u\n",
    ),
    (
        "1/1000000*u'(0,1)^2+xi",
        "refused 9 CoefficientTooLarge [u'(0,1)[xi]*u'(0,1)[u'(0,1)[xi]*u'(0,1)[u'(0,1)[xi]*u'(0,1)[xi]]]] denominator u\n",
    ),
];

#[test]
fn quantities_that_are_too_large(rt: HostRuntime) -> Result<(), Fail> {
    assert!(rt; kpz(rt.alloc(), "1000000*u'(0,1)^2+67909*xi").is_ok());
    for (right, wanted) in TOO_LARGE {
        match kpz(rt.alloc(), right) {
            Err(refusal) => {
                let line = print_refusal(rt.alloc(), &refusal)?;
                assert_eq!(rt; line.as_slice(), wanted.as_bytes());
            }
            Ok(_) => assert!(rt; false, "{right}"),
        }
    }
    Ok(())
}
