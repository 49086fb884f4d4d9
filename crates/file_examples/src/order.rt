// Which of two faults is told.
use crate::files::Line::{Noise, Parameters, Scaling, Top, Unknown, Version};
use crate::files::{Line, file_with, is_told};
use std::alloc::Global;

// Lines with a fault, in the order in which faults are sought.
const FAULTS: [(Line, &str, &str); 20] = [
    (Top, "colour = 1", "4 Malformed file key"),
    (Version, "version = 3", "4 Malformed version value"),
    (Scaling, "scaling = 2", "4 Malformed scaling kind"),
    (
        Parameters,
        "parameters = ['1']",
        "4 Malformed parameters[1] name",
    ),
    (
        Noise,
        "noise = [{ name = 'xi' }]",
        "4 Malformed noise[1].degree missing",
    ),
    (Unknown, "unknown = []", "4 Malformed unknown value"),
    (
        Unknown,
        "unknown = [{ name = 'u', degree = '2', regularity = '0', right = '*' }]",
        "4 Malformed unknown[1].right polynomial",
    ),
    (
        Scaling,
        "scaling = [11, 1, 1, 1, 1, 1]",
        "5 Limit dimensions 6",
    ),
    (Scaling, "scaling = [2, 11]", "5 Limit scaling 11"),
    (
        Parameters,
        "parameters = ['a', 'b', 'c', 'd', 'e', 'f', 'g', 'h', 'i']",
        "5 Limit parameters 9",
    ),
    (
        Noise,
        "noise = [{ name = 'xi', degree = '-1000001-k' }]",
        "5 Limit number 1000001",
    ),
    (
        Unknown,
        "unknown = [{ name = 'u', degree = '1000002', regularity = '1000003', right = '' }]",
        "5 Limit number 1000002",
    ),
    (
        Unknown,
        "unknown = [{ name = 'u', degree = '2', regularity = '1000003', right = '1000004' }]",
        "5 Limit number 1000003",
    ),
    (
        Unknown,
        "unknown = [{ name = 'u', degree = '2', regularity = '0', right = '1000004' }]",
        "5 Limit number 1000004",
    ),
    (
        Noise,
        "noise = [{ name = 'xi', degree = '-21' }]",
        "5 Limit degree 21",
    ),
    (
        Unknown,
        "unknown = [{ name = 'u', degree = '22', regularity = '-23', right = '' }]",
        "5 Limit degree 22",
    ),
    (
        Unknown,
        "unknown = [{ name = 'u', degree = '2', regularity = '-23', right = '' }]",
        "5 Limit degree 23",
    ),
    (
        Noise,
        "noise = [{ name = 'xi', degree = '1/1000' }, { name = 'eta', degree = '1/1001*k' }]",
        "5 Limit unit 1001000",
    ),
    (
        Unknown,
        "unknown = [{ name = 'u', degree = '2', regularity = '0', right = 'u^25' }]",
        "5 Limit factors 25",
    ),
    (
        Unknown,
        "unknown = [{ name = 'u', degree = '2', regularity = '0', right = '1/1000*u+1/1001' }]",
        "5 Limit denominator 1001000",
    ),
];

// Whether the file with two faults is answered by these words.
fn is_told_of_two(
    alloc: Global,
    first: (Line, &str),
    second: (Line, &str),
    backwards: bool,
    words: &str,
) -> bool {
    match file_with(alloc, &[first, second], backwards) {
        Ok(file) => is_told(alloc, &file, words),
        Err(_) => false,
    }
}

// The lines in both orders.
fn is_told_both_ways(
    alloc: Global,
    first: (Line, &str),
    second: (Line, &str),
    words: &str,
) -> bool {
    is_told_of_two(alloc, first, second, false, words)
        && is_told_of_two(alloc, first, second, true, words)
}

#[test]
fn the_first_of_two_faults_is_told(rt: HostRuntime) {
    for (i, (first, earlier, wanted)) in FAULTS.into_iter().enumerate() {
        for (j, (second, later, _)) in FAULTS.into_iter().enumerate() {
            if i <= j {
                assert!(rt;
                    is_told_both_ways(rt.alloc(), (first, earlier), (second, later), wanted),
                    "{earlier} and {later}"
                );
            }
        }
    }
}
