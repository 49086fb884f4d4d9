// Files that declare reflections and moments, and files that do so wrongly.
use crate::{Equation, FileRefusal, Reason, read_equation};
use std::alloc::{AllocError, Global};

// What stands at the version, behind the scaling `[2, 1, 1]` and behind the regularity of the
// unknown, and the entry and the reason of the fault.
const FAULTS: [(&str, &str, &str, &[u8], Reason); 17] = [
    ("0", "", "", b"version", Reason::Value),
    ("3", "", "", b"version", Reason::Value),
    ("1", "reflect = [2]", "", b"reflect", Reason::Version),
    ("1", "reflect = []", "", b"reflect", Reason::Version),
    ("1", "reflect = 2", "", b"reflect", Reason::Version),
    ("2", "reflect = 2", "", b"reflect", Reason::Kind),
    ("2", "reflect = ['2']", "", b"reflect[1]", Reason::Kind),
    ("2", "reflect = [0]", "", b"reflect[1]", Reason::Value),
    ("2", "reflect = [-1]", "", b"reflect[1]", Reason::Value),
    ("2", "reflect = [2, 4]", "", b"reflect[2]", Reason::Value),
    (
        "2",
        "reflect = [3, 2, 3]",
        "",
        b"reflect[3]",
        Reason::Repeated,
    ),
    (
        "1",
        "",
        "moments = 0",
        b"unknown[1].moments",
        Reason::Version,
    ),
    (
        "1",
        "",
        "moments = '0'",
        b"unknown[1].moments",
        Reason::Version,
    ),
    (
        "2",
        "",
        "moments = '0'",
        b"unknown[1].moments",
        Reason::Kind,
    ),
    (
        "2",
        "",
        "moments = 21",
        b"unknown[1].moments",
        Reason::Value,
    ),
    (
        "2",
        "",
        "moments = -1",
        b"unknown[1].moments",
        Reason::Value,
    ),
    (
        "2",
        "reflect = [4]",
        "moments = 21",
        b"reflect[1]",
        Reason::Value,
    ),
];

// What stands there in files that are read, the moment number and the directions, ascending.
const FILES: [(&str, &str, &str, Option<u8>, &[u8]); 7] = [
    ("1", "", "", None, &[]),
    ("2", "", "", None, &[]),
    ("2", "reflect = []", "", None, &[]),
    ("2", "reflect = [1]", "moments = 0", Some(0), &[1]),
    ("2", "reflect = [3, 2]", "moments = 20", Some(20), &[2, 3]),
    ("2", "reflect = [2, 1, 3]", "", None, &[1, 2, 3]),
    ("2", "", "moments = 7", Some(7), &[]),
];

fn file_with(
    alloc: Global,
    version: &str,
    reflect: &str,
    moments: &str,
) -> Result<Vec<u8>, AllocError> {
    let pieces = [
        "version = ",
        version,
        "\nscaling = [2, 1, 1]\n",
        reflect,
        "\n[[unknown]]\nname = 'u'\ndegree = '2'\nregularity = '1'\n",
        moments,
        "\nright = 'u^2'\n",
    ];
    let mut file = Vec::new(alloc);
    for piece in pieces {
        file.extend_from_slice(piece.as_bytes())?;
    }
    Ok(file)
}

fn is_malformed(read: &Result<Equation, FileRefusal>, at: &[u8], why: Reason) -> bool {
    match read {
        Err(FileRefusal::Malformed { entry, reason }) => entry.as_slice() == at && *reason == why,
        _ => false,
    }
}

fn declares(read: &Result<Equation, FileRefusal>, moments: Option<u8>, reflect: &[u8]) -> bool {
    match read {
        Ok(eq) => {
            eq.types.reflect.as_slice() == reflect
                && eq
                    .types
                    .list
                    .as_slice()
                    .iter()
                    .all(|e| e.moments == moments)
        }
        Err(_) => false,
    }
}

#[test]
fn declarations_that_are_wrong(rt: HostRuntime) {
    for (version, reflect, moments, entry, reason) in FAULTS {
        let file = file_with(rt.alloc(), version, reflect, moments).expect(&rt, "file");
        let read = read_equation(rt.alloc(), file.as_slice());
        assert!(rt; is_malformed(&read, entry, reason), "{reflect} {moments}");
    }
}

#[test]
fn declarations_that_are_read(rt: HostRuntime) {
    for (version, reflect, moments, number, directions) in FILES {
        let file = file_with(rt.alloc(), version, reflect, moments).expect(&rt, "file");
        let read = read_equation(rt.alloc(), file.as_slice());
        assert!(rt; declares(&read, number, directions), "{reflect} {moments}");
    }
}
