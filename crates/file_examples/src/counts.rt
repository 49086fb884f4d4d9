// How much a file may have, and one more.
use crate::files::{is_told, joined};
use std::alloc::{AllocError, Global};

const TOP: &str = "version = 1\nscaling = [2, 1]\n";

const UNKNOWN: &str = "unknown = [{ name = 'u', degree = '2', regularity = '0', right = '' }]\n";

// An item `count` times, each time with another number for `#`.
fn numbered(alloc: Global, item: &str, count: u64) -> Result<String, AllocError> {
    let mut text = String::new(alloc);
    for i in 0..count {
        let number = i.to_string(alloc)?;
        text.push_str(&item.replace(alloc, "#", &number)?)?;
    }
    Ok(text)
}

// What stands before the items, an item, what stands behind them; how many there may be; and what more of them are.
const COUNTS: [(&str, &str, &str, u64, &str); 4] = [
    ("parameters = [", "'a#', ", "]\n", 8, "parameters"),
    (
        "noise = [",
        "{ name = 'x#', degree = '-1' }, ",
        "]\n",
        8,
        "noises",
    ),
    (
        "unknown = [",
        "{ name = 'u#', degree = '2', regularity = '0', right = '' }, ",
        "]\n",
        8,
        "unknowns",
    ),
    (
        "unknown = [{ name = 'u', degree = '2', regularity = '0', right = '1",
        "-#*u",
        "' }]\n",
        63,
        "terms",
    ),
];

// A file with so many items.
fn file_of(
    alloc: Global,
    before: &str,
    item: &str,
    behind: &str,
    count: u64,
) -> Result<Vec<u8>, AllocError> {
    let rest = if before.starts_with("unknown") {
        ""
    } else {
        UNKNOWN
    };
    let items = numbered(alloc, item, count)?;
    joined(alloc, &[TOP, before, &items, behind, rest])
}

// The words that refuse one more than there may be.
fn words_of(alloc: Global, which: &str, count: u64) -> Result<String, AllocError> {
    let measured = if which == "terms" {
        count.saturating_add(1)
    } else {
        count
    };
    format!(in alloc; "5 Limit {which} {measured}")
}

fn are_read(alloc: Global, before: &str, item: &str, behind: &str, count: u64) -> bool {
    match file_of(alloc, before, item, behind, count) {
        Ok(file) => is_told(alloc, &file, ""),
        Err(_) => false,
    }
}

fn are_too_many(
    alloc: Global,
    before: &str,
    item: &str,
    behind: &str,
    count: u64,
    which: &str,
) -> bool {
    match (
        file_of(alloc, before, item, behind, count),
        words_of(alloc, which, count),
    ) {
        (Ok(file), Ok(words)) => is_told(alloc, &file, words.as_str()),
        _ => false,
    }
}

#[test]
fn counts_at_their_limits(rt: HostRuntime) {
    for (before, item, behind, most, which) in COUNTS {
        assert!(rt; are_read(rt.alloc(), before, item, behind, most), "{which}");
        let more = most.saturating_add(1);
        assert!(rt;
            are_too_many(rt.alloc(), before, item, behind, more, which),
            "{which}"
        );
    }
}

// Bytes after a file, and why it is refused.
const ENDS: [(&[u8], &str); 3] = [
    (b"# end", ""),
    (b"\xff", "4 NotUtf8"),
    (b"# \xff", "4 NotUtf8"),
];

fn ended(alloc: Global, end: &[u8]) -> Result<Vec<u8>, AllocError> {
    let mut file = joined(alloc, &[TOP, UNKNOWN])?;
    file.extend_from_slice(end)?;
    Ok(file)
}

fn filled(alloc: Global, size: usize, byte: u8) -> Result<Vec<u8>, AllocError> {
    let mut file = joined(alloc, &[TOP, UNKNOWN, "#"])?;
    file.resize(size, byte)?;
    Ok(file)
}

#[test]
fn bytes_of_a_file(rt: HostRuntime) {
    for (end, wanted) in ENDS {
        let file = ended(rt.alloc(), end).expect(&rt, "memory");
        assert!(rt; is_told(rt.alloc(), &file, wanted));
    }
    for (size, byte, wanted) in [
        (65536, b'x', ""),
        (65537, b'x', "5 Limit bytes 65537"),
        (70000, b'x', "5 Limit bytes 65537"),
        (65536, 255, "4 NotUtf8"),
        (65537, 255, "5 Limit bytes 65537"),
    ] {
        let file = filled(rt.alloc(), size, byte).expect(&rt, "memory");
        assert!(rt; is_told(rt.alloc(), &file, wanted), "at {size}");
    }
}
