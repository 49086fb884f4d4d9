// Stores of version 1, and what a migration makes of them.
use crate::files::{PAM, PAM_OLD_CONTEXT, PAM_REPORT};
use crate::keepers::{database, old_keeper, put_pam, put_rows, reopened};
use crate::runs::{Case, first_other};
use result_keeper::{Keeper, KeeperError};
use std::alloc::Global;
use std::test::Fail;

const ROWS: [(&str, &str); 4] = [
    ("[xi]", "0 0"),
    ("[xi*u[xi]]", "1 -E[xi*u[xi]]"),
    ("[X(0,0,1)*xi]", "0 0"),
    ("[X(0,1,0)*xi]", "0 0"),
];

const MIGRATED: [Case; 6] = [
    ("compute pam", "", 19, Some(""), "refused 19 OldStore\n"),
    ("audit", "", 19, Some(""), "refused 19 OldStore\n"),
    ("migrate", "", 0, Some("migrated 1\n"), ""),
    (
        "compute pam",
        "",
        0,
        Some(PAM_REPORT),
        "reused 4 computed 0\n",
    ),
    ("audit", "", 0, Some("audit rows 4\n"), ""),
    ("migrate", "", 0, Some("migrated 0\n"), ""),
];

// A store that has rows and no version is one of version 1.
const WITHOUT_VERSION: &str = "DELETE FROM store";

// The project `pam` with its rows under the old context.
fn put_old<K: Keeper>(alloc: Global, keeper: &mut K) -> Result<(), KeeperError> {
    put_pam(alloc, keeper, PAM)?;
    put_rows(alloc, keeper, PAM_OLD_CONTEXT, &ROWS)
}

#[test]
fn a_migration_keeps_projects_and_rows(rt: HostRuntime) -> Result<(), Fail> {
    let alloc = rt.alloc();
    let mut memory = old_keeper(alloc, Vec::new(alloc));
    put_old(alloc, &mut memory)?;
    assert_eq!(rt; first_other(alloc, &mut memory, &MIGRATED)?, None);
    let mut kept = database(alloc)?;
    put_old(alloc, &mut kept)?;
    let mut old = reopened(alloc, kept, &[WITHOUT_VERSION])?;
    assert_eq!(rt; first_other(alloc, &mut old, &MIGRATED)?, None);
    Ok(())
}

const UNMIGRATED: Case = ("migrate", "", 11, Some(""), "refused 11 StoreFault\n");

#[test]
fn a_fault_leaves_the_old_store(rt: HostRuntime) -> Result<(), Fail> {
    let alloc = rt.alloc();
    let mut keeper = old_keeper(alloc, vec![in alloc; 4]?);
    put_old(alloc, &mut keeper)?;
    assert_eq!(rt; first_other(alloc, &mut keeper, &[UNMIGRATED])?, None);
    assert_eq!(rt; keeper.version(), 1);
    assert_eq!(rt; first_other(alloc, &mut keeper, &MIGRATED)?, None);
    Ok(())
}

const NO_CONTEXT: Case = (
    "migrate",
    "",
    21,
    Some(""),
    "refused 21 StoredContext scaling\n",
);

#[test]
fn a_context_of_no_types_is_refused(rt: HostRuntime) -> Result<(), Fail> {
    let alloc = rt.alloc();
    let mut keeper = old_keeper(alloc, Vec::new(alloc));
    put_rows(alloc, &mut keeper, "scaling", &[("[xi]", "0 0")])?;
    assert_eq!(rt; first_other(alloc, &mut keeper, &[NO_CONTEXT])?, None);
    assert_eq!(rt; keeper.version(), 1);
    Ok(())
}
