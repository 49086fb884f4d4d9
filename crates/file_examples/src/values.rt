// What stands at a key of a file, at its limits and one past them.
use crate::files::is_told;
use Part::{Degree, Group, Name, NoiseDegree, NoiseName, Regularity, Right, Scaling, Version};
use std::alloc::{AllocError, Global};

#[derive(Clone, Copy, PartialEq, Eq)]
enum Part {
    Version,
    Scaling,
    NoiseName,
    NoiseDegree,
    Group,
    Name,
    Degree,
    Regularity,
    Right,
}

// A file with an empty right side: what stands before each value, and the value.
const FILE: [(Part, &str, &str); 9] = [
    (Version, "version = ", "1"),
    (Scaling, "\nscaling = ", "[2, 1, 1]"),
    (
        NoiseName,
        "\nparameters = [\"a\", \"b\"]\n[[noise]]\nname = \"",
        "xi",
    ),
    (NoiseDegree, "\"\ndegree = \"", "-2-k"),
    (Group, "\"\ngroup = \"", "g"),
    (
        Name,
        "\"\n[[noise]]\nname = \"eta\"\ndegree = \"-1\"\n[[unknown]]\nname = \"",
        "u",
    ),
    (Degree, "\"\ndegree = \"", "2"),
    (Regularity, "\"\nregularity = \"", "-1/2"),
    (Right, "\"\nright = \"", ""),
];

// The file with another value.
fn file_with(alloc: Global, changed: Part, text: &str) -> Result<Vec<u8>, AllocError> {
    let mut file = Vec::new(alloc);
    for (part, before, value) in FILE {
        file.extend_from_slice(before.as_bytes())?;
        let value = if part == changed { text } else { value };
        file.extend_from_slice(value.as_bytes())?;
    }
    file.extend_from_slice(b"\"\n")?;
    Ok(file)
}

// Whether the file with this value is answered by these words.
fn is_told_at(alloc: Global, changed: Part, text: &str, words: &str) -> bool {
    match file_with(alloc, changed, text) {
        Ok(file) => is_told(alloc, &file, words),
        Err(_) => false,
    }
}

// Right sides over three directions with parameters `a` and `b`, noises `xi` and `eta` and an unknown `u`, whose files are read.
const READ: [(&str, &str); 37] = [
    ("", ""),
    ("   ", ""),
    ("u+u-u", ""),
    ("1-u+0*u^2-2*u^3+xi", ""),
    ("+u", ""),
    ("-u", ""),
    ("0", ""),
    ("u + xi", ""),
    ("1 / 2 * u ' ( 0 , 1 , 0 ) ^ 2", ""),
    ("1/2*u", ""),
    ("1/1*u", ""),
    ("u*a", ""),
    ("a^3*b", ""),
    ("a^23*b", ""),
    ("u'(0,0,0)", ""),
    ("u'(0,1,0)", ""),
    ("u^04", ""),
    ("u^1", ""),
    ("xi", ""),
    ("xi^1", ""),
    ("xi+2*xi", ""),
    ("u^3*xi", ""),
    ("1000000*u", ""),
    ("01000000*u", ""),
    ("-1000000", ""),
    ("1000000*u+1000000*u", ""),
    ("u^24", ""),
    ("u^12*u'(0,1,0)^12", ""),
    ("u^23*xi", ""),
    ("a^24", ""),
    ("u'(0,0,8)", ""),
    ("u'(8,8,8)", ""),
    ("1/1000000*u", ""),
    ("2/4*u-3/9*xi", ""),
    ("1/1000*u+1/999*xi", ""),
    ("0/1000000*u+1/999999", ""),
    ("0/7+1/1000000", ""),
];

#[test]
fn right_sides_that_are_read(rt: HostRuntime) {
    for (text, wanted) in READ {
        assert!(rt; is_told_at(rt.alloc(), Right, text, wanted), "at {text}");
    }
}

// Right sides that are malformed, and why.
const MALFORMED: [(&str, &str); 40] = [
    (" u", "4 Malformed unknown[1].right polynomial"),
    ("u ", "4 Malformed unknown[1].right polynomial"),
    ("u\t", "4 Malformed unknown[1].right polynomial"),
    ("--u", "4 Malformed unknown[1].right polynomial"),
    ("u+-u", "4 Malformed unknown[1].right polynomial"),
    ("u+", "4 Malformed unknown[1].right polynomial"),
    ("*u", "4 Malformed unknown[1].right polynomial"),
    ("2*", "4 Malformed unknown[1].right polynomial"),
    ("2u", "4 Malformed unknown[1].right polynomial"),
    ("u*2", "4 Malformed unknown[1].right polynomial"),
    ("u/2", "4 Malformed unknown[1].right polynomial"),
    ("1/0*u", "4 Malformed unknown[1].right polynomial"),
    ("-1/-2*u", "4 Malformed unknown[1].right polynomial"),
    ("v", "4 Malformed unknown[1].right polynomial"),
    ("U", "4 Malformed unknown[1].right polynomial"),
    ("X", "4 Malformed unknown[1].right polynomial"),
    ("k*u", "4 Malformed unknown[1].right polynomial"),
    ("u^0", "4 Malformed unknown[1].right polynomial"),
    ("u^", "4 Malformed unknown[1].right polynomial"),
    ("u^-1", "4 Malformed unknown[1].right polynomial"),
    ("u^2'(0,1,0)", "4 Malformed unknown[1].right polynomial"),
    ("u'(0,1)", "4 Malformed unknown[1].right polynomial"),
    ("u'(0,1,0,0)", "4 Malformed unknown[1].right polynomial"),
    ("u'()", "4 Malformed unknown[1].right polynomial"),
    ("u'", "4 Malformed unknown[1].right polynomial"),
    ("u'(0,,0)", "4 Malformed unknown[1].right polynomial"),
    ("u'(0,1,0", "4 Malformed unknown[1].right polynomial"),
    ("u'(0,-1,0)", "4 Malformed unknown[1].right polynomial"),
    ("xi'(0,0,1)", "4 Malformed unknown[1].right polynomial"),
    ("xi'(0,0,0)", "4 Malformed unknown[1].right polynomial"),
    ("a'(0,0,0)", "4 Malformed unknown[1].right polynomial"),
    ("xi^2", "4 Malformed unknown[1].right noise"),
    ("xi*xi", "4 Malformed unknown[1].right noise"),
    ("xi*u*xi", "4 Malformed unknown[1].right noise"),
    ("0*xi*xi", "4 Malformed unknown[1].right noise"),
    ("u+xi*xi", "4 Malformed unknown[1].right noise"),
    ("xi*eta", "4 Malformed unknown[1].right noise"),
    ("xi*xi+v", "4 Malformed unknown[1].right polynomial"),
    ("v+xi*xi", "4 Malformed unknown[1].right polynomial"),
    ("xi*xi'(0,0,0)", "4 Malformed unknown[1].right polynomial"),
];

#[test]
fn right_sides_that_are_malformed(rt: HostRuntime) {
    for (text, wanted) in MALFORMED {
        assert!(rt; is_told_at(rt.alloc(), Right, text, wanted), "at {text}");
    }
}

// Right sides past a limit, and which.
const TOO_LARGE: [(&str, &str); 32] = [
    ("1000001*u", "5 Limit number 1000001"),
    ("-1000001", "5 Limit number 1000001"),
    ("0*u-1000001*u+1000002", "5 Limit number 1000001"),
    ("1/1000001*u", "5 Limit number 1000001"),
    ("1000002/1000001*u", "5 Limit number 1000002"),
    ("1000001*u^1000002", "5 Limit number 1000001"),
    ("u'(1000001,0,1000002)^1000003", "5 Limit number 1000001"),
    ("u^1000001*u'(1000002,0,0)", "5 Limit number 1000001"),
    ("u^1000001", "5 Limit number 1000001"),
    (
        "9223372036854775807*u",
        "5 Limit number 9223372036854775807",
    ),
    (
        "9223372036854775808*u",
        "5 Limit number 9223372036854775807",
    ),
    (
        "18446744073709551617*u",
        "5 Limit number 9223372036854775807",
    ),
    (
        "u^18446744073709551617",
        "5 Limit number 9223372036854775807",
    ),
    ("u^25", "5 Limit factors 25"),
    ("0*u^25", "5 Limit factors 25"),
    ("u-u^25+u^26", "5 Limit factors 25"),
    ("u^12*u'(0,1,0)^13", "5 Limit factors 25"),
    ("u^24*xi", "5 Limit factors 25"),
    ("a^13*u^12", "5 Limit factors 25"),
    ("u^1000000*u^1000000", "5 Limit factors 2000000"),
    ("u'(0,0,9)", "5 Limit derivative 9"),
    ("u'(9,0,10)", "5 Limit derivative 9"),
    ("0*u'(9,0,0)", "5 Limit derivative 9"),
    ("u'(1000000,0,0)", "5 Limit derivative 1000000"),
    ("u*u'(0,0,9)+u^25", "5 Limit factors 25"),
    ("1/1000000*u+1/3*xi", "5 Limit denominator 3000000"),
    ("1/1000*u+1/1001*xi", "5 Limit denominator 1001000"),
    ("1/1000*u-1/1000*u+1/1001", "5 Limit denominator 1001000"),
    ("2/1000000*u+3/9*xi", "5 Limit denominator 1500000"),
    ("1/999983*u+1/999979*xi", "5 Limit denominator 999962000357"),
    (
        "1/999983+1/999979*u+1/999961*u^2+1/999959*u^3",
        "5 Limit denominator 9223372036854775807",
    ),
    ("1/1000000*u'(0,0,9)+1/3*u", "5 Limit derivative 9"),
];

#[test]
fn right_sides_past_their_limits(rt: HostRuntime) {
    for (text, wanted) in TOO_LARGE {
        assert!(rt; is_told_at(rt.alloc(), Right, text, wanted), "at {text}");
    }
}

// Values at the first keys, and why their files are refused.
const VERSIONS_AND_SCALINGS: [(Part, &str, &str); 27] = [
    (Version, "1", ""),
    (Version, "+1", ""),
    (Version, "2", ""),
    (Version, "3", "4 Malformed version value"),
    (Version, "0", "4 Malformed version value"),
    (Version, "-1", "4 Malformed version value"),
    (Version, "1.0", "4 Malformed version kind"),
    (Version, "\"1\"", "4 Malformed version kind"),
    (Version, "true", "4 Malformed version kind"),
    (Scaling, "[10, 1, 1]", ""),
    (Scaling, "[1, 1, 10]", ""),
    (Scaling, "[1]", ""),
    (Scaling, "[2, 1, 1,]", ""),
    (Scaling, "[1, 1, 1, 1, 1]", ""),
    (Scaling, "[11, 1, 1]", "5 Limit scaling 11"),
    (Scaling, "[1, 1, 11]", "5 Limit scaling 11"),
    (Scaling, "[1, 12, 11]", "5 Limit scaling 12"),
    (
        Scaling,
        "[9223372036854775807]",
        "5 Limit scaling 9223372036854775807",
    ),
    (Scaling, "[1, 1, 1, 1, 1, 1]", "5 Limit dimensions 6"),
    (Scaling, "[11, 1, 1, 1, 1, 1, 1]", "5 Limit dimensions 7"),
    (Scaling, "[0, 1, 1]", "4 Malformed scaling[1] value"),
    (Scaling, "[2, -1]", "4 Malformed scaling[2] value"),
    (Scaling, "[0, \"x\"]", "4 Malformed scaling[1] value"),
    (Scaling, "[\"x\", 0]", "4 Malformed scaling[1] kind"),
    (Scaling, "[2, 1.0]", "4 Malformed scaling[2] kind"),
    (Scaling, "[]", "4 Malformed scaling value"),
    (Scaling, "2", "4 Malformed scaling kind"),
];

#[test]
fn versions_and_scalings_at_their_limits(rt: HostRuntime) {
    for (part, text, wanted) in VERSIONS_AND_SCALINGS {
        assert!(rt; is_told_at(rt.alloc(), part, text, wanted), "at {text}");
    }
}

// Names and groups of noises, and why their files are refused.
const NOISES: [(Part, &str, &str); 34] = [
    (NoiseName, "abcdefghijklmnop", ""),
    (
        NoiseName,
        "abcdefghijklmnopq",
        "4 Malformed noise[1].name name",
    ),
    (NoiseName, "A_0123456789_Bcd", ""),
    (
        NoiseName,
        "A_0123456789_Bcde",
        "4 Malformed noise[1].name name",
    ),
    (NoiseName, "X", "4 Malformed noise[1].name name"),
    (NoiseName, "E", "4 Malformed noise[1].name name"),
    (NoiseName, "T", "4 Malformed noise[1].name name"),
    (NoiseName, "k", "4 Malformed noise[1].name name"),
    (NoiseName, "x", ""),
    (NoiseName, "K", ""),
    (NoiseName, "X1", ""),
    (NoiseName, "kk", ""),
    (NoiseName, "1a", "4 Malformed noise[1].name name"),
    (NoiseName, "_a", "4 Malformed noise[1].name name"),
    (NoiseName, "a-b", "4 Malformed noise[1].name name"),
    (NoiseName, "a b", "4 Malformed noise[1].name name"),
    (NoiseName, " a", "4 Malformed noise[1].name name"),
    (NoiseName, "\u{e9}", "4 Malformed noise[1].name name"),
    (NoiseName, "", "4 Malformed noise[1].name name"),
    (Group, "abcdefghijklmnop", ""),
    (
        Group,
        "abcdefghijklmnopq",
        "4 Malformed noise[1].group name",
    ),
    (Group, "X", "4 Malformed noise[1].group name"),
    (Group, "E", "4 Malformed noise[1].group name"),
    (Group, "T", "4 Malformed noise[1].group name"),
    (Group, "k", "4 Malformed noise[1].group name"),
    (Group, "X1", ""),
    (Group, "1a", "4 Malformed noise[1].group name"),
    (Group, "a-b", "4 Malformed noise[1].group name"),
    (Group, " a", "4 Malformed noise[1].group name"),
    (Group, "\u{e9}", "4 Malformed noise[1].group name"),
    (Group, "", "4 Malformed noise[1].group name"),
    (NoiseName, "u", "4 Malformed unknown[1].name repeated"),
    (Group, "u", ""),
    (Group, "xi", ""),
];

#[test]
fn names_and_groups_of_noises(rt: HostRuntime) {
    for (part, text, wanted) in NOISES {
        assert!(rt; is_told_at(rt.alloc(), part, text, wanted), "at {text}");
    }
}

// Degrees of noises, and why their files are refused.
const DEGREES: [(Part, &str, &str); 44] = [
    (NoiseDegree, "20", ""),
    (NoiseDegree, "-20", ""),
    (NoiseDegree, "-20-20*k", ""),
    (NoiseDegree, "20*k+1/2", ""),
    (NoiseDegree, "400/20", ""),
    (NoiseDegree, "k", ""),
    (NoiseDegree, "- k", ""),
    (NoiseDegree, "-2 -k", ""),
    (NoiseDegree, "-2 - 1 / 2 * k", ""),
    (NoiseDegree, "21", "5 Limit degree 21"),
    (NoiseDegree, "-21", "5 Limit degree 21"),
    (NoiseDegree, "-22-21*k", "5 Limit degree 22"),
    (NoiseDegree, "21*k-22", "5 Limit degree 22"),
    (NoiseDegree, "-20-21*k", "5 Limit degree 21"),
    (NoiseDegree, "20*k+41/2", "5 Limit degree 21"),
    (NoiseDegree, "41/2*k", "5 Limit degree 21"),
    (NoiseDegree, "401/20", "5 Limit degree 21"),
    (NoiseDegree, "20000001/1000000", "5 Limit number 20000001"),
    (NoiseDegree, "1000000", "5 Limit degree 1000000"),
    (NoiseDegree, "1000001", "5 Limit number 1000001"),
    (NoiseDegree, "2000000/1000000", "5 Limit number 2000000"),
    (NoiseDegree, "1/1000001", "5 Limit number 1000001"),
    (NoiseDegree, "1000001*k-1000002", "5 Limit number 1000001"),
    (NoiseDegree, "0*k+1/1000001", "5 Limit number 1000001"),
    (
        NoiseDegree,
        "99999999999999999999",
        "5 Limit number 9223372036854775807",
    ),
    (NoiseDegree, "1/1000000", ""),
    (NoiseDegree, "1/999983", "5 Limit unit 1999966"),
    (
        NoiseDegree,
        "1/999983-1/999979*k",
        "5 Limit unit 1999924000714",
    ),
    (NoiseDegree, "1/1000-1/999*k", ""),
    (NoiseDegree, "1/1000-1/1001*k", "5 Limit unit 1001000"),
    (NoiseDegree, "500000/1000000-1/499999*k", ""),
    (
        NoiseDegree,
        "500000/1000000-1/999999*k",
        "5 Limit unit 1999998",
    ),
    (NoiseDegree, "0/999983", ""),
    (NoiseDegree, "1/999983-21*k", "5 Limit degree 21"),
    (NoiseDegree, "1/0", "4 Malformed noise[1].degree degree"),
    (NoiseDegree, "1-2", "4 Malformed noise[1].degree degree"),
    (NoiseDegree, "k-k", "4 Malformed noise[1].degree degree"),
    (NoiseDegree, "2k", "4 Malformed noise[1].degree degree"),
    (NoiseDegree, "k/2", "4 Malformed noise[1].degree degree"),
    (NoiseDegree, "1.5", "4 Malformed noise[1].degree degree"),
    (NoiseDegree, "", "4 Malformed noise[1].degree degree"),
    (NoiseDegree, " 1", "4 Malformed noise[1].degree degree"),
    (NoiseDegree, "1 ", "4 Malformed noise[1].degree degree"),
    (NoiseDegree, "2*", "4 Malformed noise[1].degree degree"),
];

#[test]
fn degrees_of_noises_at_their_limits(rt: HostRuntime) {
    for (part, text, wanted) in DEGREES {
        assert!(rt; is_told_at(rt.alloc(), part, text, wanted), "at {text}");
    }
}

// Values of unknowns, and why their files are refused.
const UNKNOWNS: [(Part, &str, &str); 39] = [
    (Name, "abcdefghijklmnop", ""),
    (
        Name,
        "abcdefghijklmnopq",
        "4 Malformed unknown[1].name name",
    ),
    (Name, "X", "4 Malformed unknown[1].name name"),
    (Name, "E", "4 Malformed unknown[1].name name"),
    (Name, "T", "4 Malformed unknown[1].name name"),
    (Name, "k", "4 Malformed unknown[1].name name"),
    (Name, "X1", ""),
    (Name, "1a", "4 Malformed unknown[1].name name"),
    (Name, "a-b", "4 Malformed unknown[1].name name"),
    (Name, " a", "4 Malformed unknown[1].name name"),
    (Name, "\u{e9}", "4 Malformed unknown[1].name name"),
    (Name, "", "4 Malformed unknown[1].name name"),
    (Name, "xi", "4 Malformed unknown[1].name repeated"),
    (Name, "Xi", ""),
    (Degree, "20", ""),
    (Degree, "1/20", ""),
    (Degree, "2-0*k", ""),
    (Degree, "21", "5 Limit degree 21"),
    (Degree, "0", "4 Malformed unknown[1].degree value"),
    (Degree, "-1", "4 Malformed unknown[1].degree value"),
    (Degree, "2+k", "4 Malformed unknown[1].degree value"),
    (Degree, "k", "4 Malformed unknown[1].degree value"),
    (Degree, "0*k", "4 Malformed unknown[1].degree value"),
    (
        Degree,
        "2+99999999999999999999*k",
        "4 Malformed unknown[1].degree value",
    ),
    (
        Degree,
        "0/99999999999999999999",
        "4 Malformed unknown[1].degree value",
    ),
    (Degree, "1/1000001", "5 Limit number 1000001"),
    (Degree, " 2", "4 Malformed unknown[1].degree degree"),
    (Degree, "two", "4 Malformed unknown[1].degree degree"),
    (Regularity, "20", ""),
    (Regularity, "-20", ""),
    (Regularity, "1/2+0*k", ""),
    (Regularity, "0*k", ""),
    (Regularity, "1/999983", ""),
    (Regularity, "-21", "5 Limit degree 21"),
    (Regularity, "-401/20", "5 Limit degree 21"),
    (
        Regularity,
        "1/2-k",
        "4 Malformed unknown[1].regularity value",
    ),
    (
        Regularity,
        "1/1000001-k",
        "4 Malformed unknown[1].regularity value",
    ),
    (
        Regularity,
        "1/2 ",
        "4 Malformed unknown[1].regularity degree",
    ),
    (Regularity, "", "4 Malformed unknown[1].regularity degree"),
];

#[test]
fn unknowns_at_their_limits(rt: HostRuntime) {
    for (part, text, wanted) in UNKNOWNS {
        assert!(rt; is_told_at(rt.alloc(), part, text, wanted), "at {text}");
    }
}
