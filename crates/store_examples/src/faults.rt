// Faults of a database in which another table stands in the place of `result`.
use crate::files::{PAM, PAM_REPORT};
use crate::keepers::{database, put_pam, reopened};
use crate::runs::{Case, first_other};
use std::test::Fail;

const DROP: &str = "DROP TABLE result";

// The first has no column of trees. The second takes no value of more than three bytes, and one of
// the four trees has such a value.
const OTHER_TABLES: [&str; 2] = [
    "CREATE TABLE result(context BLOB NOT NULL) STRICT",
    "CREATE TABLE result(context BLOB NOT NULL, tree BLOB NOT NULL, \
        value BLOB NOT NULL CHECK (length(value) < 4), UNIQUE(context, tree)) STRICT",
];

const FAULTS: [Case; 5] = [
    ("compute pam", "", 11, Some(""), "refused 11 StoreFault\n"),
    (
        "compute pam --fresh",
        "",
        11,
        Some(""),
        "refused 11 StoreFault\n",
    ),
    ("names", "", 0, Some("pam\n"), ""),
    ("show pam", "", 0, Some(PAM), ""),
    ("audit", "", 0, Some("audit rows 0\n"), ""),
];

const MADE_ANEW: [Case; 2] = [
    ("names", "", 0, Some("pam\n"), ""),
    (
        "compute pam",
        "",
        0,
        Some(PAM_REPORT),
        "reused 0 computed 4\n",
    ),
];

#[test]
fn another_table_of_results_is_a_fault_and_a_missing_one_is_made(
    rt: HostRuntime,
) -> Result<(), Fail> {
    let alloc = rt.alloc();
    for table in OTHER_TABLES {
        let mut kept = database(alloc)?;
        put_pam(alloc, &mut kept, PAM)?;
        let mut faulty = reopened(alloc, kept, &[DROP, table])?;
        assert_eq!(rt; first_other(alloc, &mut faulty, &FAULTS)?, None);
        let mut whole = reopened(alloc, faulty, &[DROP])?;
        assert_eq!(rt; first_other(alloc, &mut whole, &MADE_ANEW)?, None);
    }
    Ok(())
}
