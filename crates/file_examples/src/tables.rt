// Each reason of each entry, in the order in which faults are sought.
use crate::files::Line::{Noise, Parameters, Scaling, Top, Unknown, Version};
use crate::files::{Line, file_with, is_told, joined, line_of};
use std::alloc::Global;

// A line in the place of another, and the entry and the reason of the fault.
const FAULTS: [(Line, &str, &str); 51] = [
    (Top, "colour = 1", "file key"),
    (Top, "[colour]\nred = 1", "file key"),
    (Version, "", "version missing"),
    (Version, "version = '1'", "version kind"),
    (Version, "version = 3", "version value"),
    (Scaling, "", "scaling missing"),
    (Scaling, "scaling = 2", "scaling kind"),
    (Scaling, "scaling = []", "scaling value"),
    (Scaling, "scaling = [2, '1']", "scaling[2] kind"),
    (Scaling, "scaling = [2, 0]", "scaling[2] value"),
    (Parameters, "parameters = 'a'", "parameters kind"),
    (Parameters, "parameters = [1]", "parameters[1] kind"),
    (Parameters, "parameters = ['a', 'k']", "parameters[2] name"),
    (
        Parameters,
        "parameters = ['a', 'b', 'a']",
        "parameters[3] repeated",
    ),
    (Noise, "noise = 'xi'", "noise kind"),
    (Noise, "[noise]\nname = 'xi'\ndegree = '-1'", "noise kind"),
    (Noise, "noise = ['xi']", "noise[1] kind"),
    (
        Noise,
        "noise = [{ name = 'xi', degree = '-1', colour = 1 }]",
        "noise[1] key",
    ),
    (
        Noise,
        "noise = [{ degree = '-1' }]",
        "noise[1].name missing",
    ),
    (
        Noise,
        "noise = [{ name = 1, degree = '-1' }]",
        "noise[1].name kind",
    ),
    (
        Noise,
        "noise = [{ name = 'X', degree = '-1' }]",
        "noise[1].name name",
    ),
    (
        Noise,
        "noise = [{ name = 'a', degree = '-1' }]",
        "noise[1].name repeated",
    ),
    (
        Noise,
        "noise = [{ name = 'xi', degree = '-1' }, { name = 'xi', degree = '-1' }]",
        "noise[2].name repeated",
    ),
    (
        Noise,
        "noise = [{ name = 'xi' }]",
        "noise[1].degree missing",
    ),
    (
        Noise,
        "noise = [{ name = 'xi', degree = -1 }]",
        "noise[1].degree kind",
    ),
    (
        Noise,
        "noise = [{ name = 'xi', degree = 'one' }]",
        "noise[1].degree degree",
    ),
    (
        Noise,
        "noise = [{ name = 'xi', degree = '-1', group = 1 }]",
        "noise[1].group kind",
    ),
    (
        Noise,
        "noise = [{ name = 'xi', degree = '-1', group = '1' }]",
        "noise[1].group name",
    ),
    (Unknown, "", "unknown missing"),
    (Unknown, "unknown = 'u'", "unknown kind"),
    (Unknown, "unknown = []", "unknown value"),
    (Unknown, "unknown = ['u']", "unknown[1] kind"),
    (
        Unknown,
        "unknown = [{ name = 'u', degree = '2', regularity = '0', right = '', group = 'u' }]",
        "unknown[1] key",
    ),
    (
        Unknown,
        "unknown = [{ degree = '2', regularity = '0', right = '' }]",
        "unknown[1].name missing",
    ),
    (
        Unknown,
        "unknown = [{ name = ['u'], degree = '2', regularity = '0', right = '' }]",
        "unknown[1].name kind",
    ),
    (
        Unknown,
        "unknown = [{ name = '', degree = '2', regularity = '0', right = '' }]",
        "unknown[1].name name",
    ),
    (
        Unknown,
        "unknown = [{ name = 'a', degree = '2', regularity = '0', right = '' }]",
        "unknown[1].name repeated",
    ),
    (
        Unknown,
        "unknown = [{ name = 'xi', degree = '2', regularity = '0', right = '' }]",
        "unknown[1].name repeated",
    ),
    (
        Unknown,
        "unknown = [{ name = 'u', degree = '2', regularity = '0', right = '' }, { name = 'u', degree = '2', regularity = '0', right = '' }]",
        "unknown[2].name repeated",
    ),
    (
        Unknown,
        "unknown = [{ name = 'u', regularity = '0', right = '' }]",
        "unknown[1].degree missing",
    ),
    (
        Unknown,
        "unknown = [{ name = 'u', degree = 2, regularity = '0', right = '' }]",
        "unknown[1].degree kind",
    ),
    (
        Unknown,
        "unknown = [{ name = 'u', degree = '', regularity = '0', right = '' }]",
        "unknown[1].degree degree",
    ),
    (
        Unknown,
        "unknown = [{ name = 'u', degree = '0', regularity = '0', right = '' }]",
        "unknown[1].degree value",
    ),
    (
        Unknown,
        "unknown = [{ name = 'u', degree = '2', right = '' }]",
        "unknown[1].regularity missing",
    ),
    (
        Unknown,
        "unknown = [{ name = 'u', degree = '2', regularity = 0.5, right = '' }]",
        "unknown[1].regularity kind",
    ),
    (
        Unknown,
        "unknown = [{ name = 'u', degree = '2', regularity = '0.5', right = '' }]",
        "unknown[1].regularity degree",
    ),
    (
        Unknown,
        "unknown = [{ name = 'u', degree = '2', regularity = 'k', right = '' }]",
        "unknown[1].regularity value",
    ),
    (
        Unknown,
        "unknown = [{ name = 'u', degree = '2', regularity = '0' }]",
        "unknown[1].right missing",
    ),
    (
        Unknown,
        "unknown = [{ name = 'u', degree = '2', regularity = '0', right = 1 }]",
        "unknown[1].right kind",
    ),
    (
        Unknown,
        "unknown = [{ name = 'u', degree = '2', regularity = '0', right = 'v' }]",
        "unknown[1].right polynomial",
    ),
    (
        Unknown,
        "unknown = [{ name = 'u', degree = '2', regularity = '0', right = 'xi^2' }]",
        "unknown[1].right noise",
    ),
];

// Whether the file is refused as malformed, with this entry and reason.
fn is_line_of(alloc: Global, file: &[u8], fault: &str) -> bool {
    match (
        line_of(alloc, file),
        joined(alloc, &["refused 4 Malformed ", fault, "\n"]),
    ) {
        (Ok(line), Ok(wanted)) => line == wanted,
        _ => false,
    }
}

fn is_malformed(alloc: Global, changed: Line, text: &str, fault: &str) -> bool {
    match file_with(alloc, &[(changed, text)], false) {
        Ok(file) => is_line_of(alloc, &file, fault),
        Err(_) => false,
    }
}

#[test]
fn each_reason_of_each_entry(rt: HostRuntime) {
    for (changed, text, fault) in FAULTS {
        assert!(rt; is_malformed(rt.alloc(), changed, text, fault), "{text}");
    }
}

const TOP: &str = "version = 1\nscaling = [2, 1]\n";

const TOP_2: &str = "version = 2\nscaling = [2, 1]\n";

const NOISE: &str = "[[noise]]\nname = \"xi\"\ndegree = \"-3/2-k\"\n";

const ETA: &str = "[[noise]]\nname = \"eta\"\ndegree = \"-3/2-k\"\n";

const U: &str =
    "[[unknown]]\nname = \"u\"\ndegree = \"2\"\nregularity = \"1/4\"\nright = \"u'(0,1)^2\"\n";

const V: &str =
    "[[unknown]]\nname = \"v\"\ndegree = \"2\"\nregularity = \"1/4\"\nright = \"u*v\"\n";

// Tables in other orders, keys twice, keys that may be missing.
const FILES: [(&[&str], &str); 26] = [
    (&[TOP, NOISE, U], ""),
    (&[TOP, U, NOISE], ""),
    (&[TOP, NOISE, U, "# end"], ""),
    (&[TOP, NOISE, U, "#\u{e9}"], ""),
    (&[TOP, "parameters = [\"a\"]\n", NOISE, U], ""),
    (&[TOP, "parameters = []\n", NOISE, U], ""),
    (&[TOP, NOISE, "group = \"g\"\n", U], ""),
    (&[TOP, NOISE, "group = \"xi\"\n", U], ""),
    (&[TOP, NOISE, "group = \"eta\"\n", ETA, U], ""),
    (&[TOP, NOISE, ETA, U], ""),
    (&[TOP, U], ""),
    (&[TOP, "noise = []\n", U], ""),
    (&[TOP, NOISE, U, V], ""),
    (&[TOP, NOISE, V, U], ""),
    (&[TOP, NOISE, V], "4 Malformed unknown[1].right polynomial"),
    (&[TOP_2, NOISE, U, "moments = 0\n"], ""),
    (&[TOP_2, "reflect = [2]\n", NOISE, U], ""),
    (
        &[TOP, "reflect = [2]\n", NOISE, U],
        "4 Malformed reflect version",
    ),
    (
        &[TOP_2, "reflect = [3]\n", NOISE, U],
        "4 Malformed reflect[1] value",
    ),
    (
        &[TOP, NOISE, U, "moments = 0\n"],
        "4 Malformed unknown[1].moments version",
    ),
    (&[], "4 Malformed version missing"),
    (&["scalin"], "4 NotToml"),
    (&[TOP, "version = 1\n", NOISE, U], "4 NotToml"),
    (&[TOP, NOISE, U, "right = \"\"\n"], "4 NotToml"),
    (&[TOP, "version = 3\n", NOISE, U], "4 NotToml"),
    (&[TOP, NOISE, U, "right = "], "4 NotToml"),
];

fn is_told_of_pieces(alloc: Global, pieces: &[&str], words: &str) -> bool {
    match joined(alloc, pieces) {
        Ok(file) => is_told(alloc, &file, words),
        Err(_) => false,
    }
}

#[test]
fn keys_and_tables(rt: HostRuntime) {
    for (pieces, wanted) in FILES {
        assert!(rt; is_told_of_pieces(rt.alloc(), pieces, wanted), "{wanted}");
    }
}
