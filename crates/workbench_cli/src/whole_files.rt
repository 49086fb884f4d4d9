// The check of the parabolic Anderson model in two dimensions, and of files that differ from it.
use crate::tests::run_program;
use std::alloc::{AllocError, Global};
use std::test::Fail;

const PAM: &str =
    "version = 1\nscaling = [2, 1, 1]\n[[noise]]\nname = \"xi\"\ndegree = \"-1-k\"\n[[unknown]]\nname = \"u\"\ndegree = \"2\"\nregularity = \"1/2\"\nright = \"u*xi\"\n";

const TEXT: &str =
    "accepted\nrule u 4\n  1: 1/2 < 2\n  xi: 1/2 < 1\n  u: 1/2 < 5/2\n  xi*u: 1/2 < 3/2\ngap 1/2\n";

// A text in the place of another, and the answer.
const ACCEPTED: [(&str, &str, &str); 9] = [
    ("u*xi", "u*xi", TEXT),
    (
        "u*xi",
        "1/2*u^2*xi+1/3*u*xi",
        "accepted\nrule u 6\n  1: 1/2 < 2\n  xi: 1/2 < 1\n  u: 1/2 < 5/2\n  xi*u: 1/2 < 3/2\n  u*u: 1/2 < 3\n  xi*u*u: 1/2 < 2\ngap 1/2\n",
    ),
    (
        "u*xi",
        "1/2 * u - 1/2 * u + xi",
        "accepted\nrule u 2\n  1: 1/2 < 2\n  xi: 1/2 < 1\ngap 1/2\n",
    ),
    ("u*xi", "u*xi + 0 * u^24", TEXT),
    ("u*xi", "2/3*xi*u'(0,0,0)", TEXT),
    ("\"-1-k\"", "\"-1 - 1/2*k\"\ngroup = \"white\"", TEXT),
    ("scaling", "parameters = [\"a\"]\nscaling", TEXT),
    (
        "scaling = [2, 1, 1]\n",
        "scaling = [2, 1, 1]\n[[noise]]\nname = \"eta\"\ndegree = \"-3/2-k\"\n",
        "accepted\nrule u 4\n  1: 1/2 < 2\n  xi: 1/2 < 1\n  u: 1/2 < 5/2\n  xi*u: 1/2 < 3/2\ngap 1/2\n",
    ),
    (
        "right = \"u*xi\"\n",
        "right = \"u*v + xi\"\n[[unknown]]\nname = \"v\"\ndegree = \"2\"\nregularity = \"1/4\"\nright = \"u'(0,1,0)*v'(0,1,0) + xi\"\n",
        "accepted\nrule u 5\n  1: 1/2 < 2\n  xi: 1/2 < 1\n  u: 1/2 < 5/2\n  v: 1/2 < 9/4\n  u*v: 1/2 < 11/4\nrule v 5\n  1: 1/4 < 2\n  xi: 1/4 < 1\n  u'(0,1,0): 1/4 < 3/2\n  v'(0,1,0): 1/4 < 5/4\n  u'(0,1,0)*v'(0,1,0): 1/4 < 3/4\ngap 1/2\n",
    ),
];

const REFUSED: [(&str, &str, u8, &str); 20] = [
    ("version = 1", "version = 3", 4, "Malformed version value"),
    (
        "right = \"u*xi\"\n",
        "right = \"u*xi\"\n[[unknown]]\nname = \"u\"\ndegree = \"2\"\nregularity = \"1/2\"\nright = \"u*xi\"\n",
        4,
        "Malformed unknown[2].name repeated",
    ),
    ("u*xi", "xi*xi", 4, "Malformed unknown[1].right noise"),
    (
        "u*xi",
        "xi'(0,0,1)",
        4,
        "Malformed unknown[1].right polynomial",
    ),
    (
        "version = 1",
        "version = 1\ncolour = 1",
        4,
        "Malformed file key",
    ),
    ("[2, 1, 1]", "[2, 1, 11]", 5, "Limit scaling 11"),
    ("u*xi", "u^25", 5, "Limit factors 25"),
    ("u*xi", "1000001*u", 5, "Limit number 1000001"),
    ("u*xi", "u'(0,0,9)", 5, "Limit derivative 9"),
    ("\"u*xi\"\n", "", 4, "NotToml"),
    ("version = 1", "version = 1\nversion = 1", 4, "NotToml"),
    (
        "\"-1-k\"",
        "\"-3/2+20*k\"",
        6,
        "NotSubcritical u xi 1/2 1/2",
    ),
    ("\"1/2\"", "\"1\"", 6, "NotSubcritical u xi 1 1"),
    (
        "right = \"u*xi\"\n",
        "right = \"u*xi\"\n[[unknown]]\nname = \"v\"\ndegree = \"2\"\nregularity = \"1/2\"\nright = \"u'(0,1,0)*v'(0,1,0)*xi\"\n",
        6,
        "NotSubcritical v xi*u'(0,1,0) 1/2 1/2",
    ),
    (
        "u*xi",
        "xi*xi + v",
        4,
        "Malformed unknown[1].right polynomial",
    ),
    (
        "u*xi",
        "1/2*u - 1/2*u + 1/1000*xi + 1/1001",
        5,
        "Limit denominator 1001000",
    ),
    ("\"-1-k\"", "\"-41/2\"", 5, "Limit degree 21"),
    ("\"-1-k\"", "\"-21\"", 5, "Limit degree 21"),
    ("u*xi", "u^1000001", 5, "Limit number 1000001"),
    ("u*xi", "u*xi ", 4, "Malformed unknown[1].right polynomial"),
];

#[test]
fn files_that_are_accepted(rt: HostRuntime) -> Result<(), Fail> {
    for (old, new, wanted) in ACCEPTED {
        let file = PAM.replace(rt.alloc(), old, new)?;
        let run = run_program(rt.alloc(), "check file", file.as_bytes(), &[], &[])?;
        assert_eq!(rt; (run.code, run.err.len()), (0, 0), "{new}");
        assert_eq!(rt; run.out.as_slice(), wanted.as_bytes(), "{new}");
    }
    Ok(())
}

#[test]
fn files_that_are_refused(rt: HostRuntime) -> Result<(), Fail> {
    for (old, new, code, cause) in REFUSED {
        let file = PAM.replace(rt.alloc(), old, new)?;
        let run = run_program(rt.alloc(), "check file", file.as_bytes(), &[], &[])?;
        let line = format!(in rt.alloc(); "refused {code} {cause}\n")?;
        assert_eq!(rt; (run.code, run.out.len()), (code, 0), "{new}");
        assert_eq!(rt; run.err.as_slice(), line.as_bytes(), "{new}");
    }
    Ok(())
}

#[test]
fn bytes_after_the_text(rt: HostRuntime) -> Result<(), Fail> {
    for (size, byte, wanted) in [
        (1, 255, "refused 4 NotUtf8\n"),
        (65536, b'#', ""),
        (65537, b'#', "refused 5 Limit bytes 65537\n"),
        (70000, b'#', "refused 5 Limit bytes 65537\n"),
    ] {
        let mut file = PAM.as_bytes().to_vec(rt.alloc())?;
        file.push(byte)?;
        let size = size.max(file.len());
        file.resize(size, byte)?;
        let run = run_program(rt.alloc(), "check file", &file, &[], &[])?;
        assert_eq!(rt; run.err.as_slice(), wanted.as_bytes(), "{size} bytes");
    }
    Ok(())
}

// A file over two space directions of scaling 1, without noises, with this regularity and this right side.
fn noiseless(alloc: Global, regularity: &str, right: &str) -> Result<String, AllocError> {
    format!(in alloc;
        "version = 1\nscaling = [1, 1]\n[[unknown]]\nname = \"u\"\ndegree = \"20\"\nregularity = \"{regularity}\"\nright = \"{right}\"\n"
    )
}

// Right sides with their regularities, and the status. The first has 2,048 sub-multisets, the second 2^24, the third 2,000, the fourth one more.
const RULES: [(&str, &str, u8, &str); 4] = [
    (
        "-20",
        "u*u'(0,1)*u'(0,2)*u'(0,3)*u'(0,4)*u'(0,5)*u'(0,6)*u'(0,7)*u'(0,8)*u'(1,0)*u'(1,1)",
        7,
        "refused 7 RuleTooLarge 0\n",
    ),
    (
        "10",
        "u*u'(0,1)*u'(0,2)*u'(0,3)*u'(0,4)*u'(0,5)*u'(0,6)*u'(0,7)*u'(0,8)*u'(1,0)*u'(1,1)*u'(1,2)*u'(1,3)*u'(1,4)*u'(1,5)*u'(1,6)*u'(1,7)*u'(1,8)*u'(2,0)*u'(2,1)*u'(2,2)*u'(2,3)*u'(2,4)*u'(2,5)",
        7,
        "refused 7 RuleTooLarge 0\n",
    ),
    (
        "10",
        "u^4*u'(0,1)^4*u'(0,2)^4*u'(0,3)*u'(0,4)*u'(0,5)*u'(0,6)",
        0,
        "",
    ),
    (
        "10",
        "u^4*u'(0,1)^4*u'(0,2)^4*u'(0,3)*u'(0,4)*u'(0,5)*u'(0,6)+u^5",
        7,
        "refused 7 RuleTooLarge 0\n",
    ),
];

#[test]
fn rules_of_2000_node_types(rt: HostRuntime) -> Result<(), Fail> {
    for (regularity, right, code, err) in RULES {
        let file = noiseless(rt.alloc(), regularity, right)?;
        let run = run_program(rt.alloc(), "check file", file.as_bytes(), &[], &[])?;
        assert_eq!(rt; run.code, code, "{right}");
        assert_eq!(rt; run.err.as_slice(), err.as_bytes(), "{right}");
    }
    Ok(())
}
