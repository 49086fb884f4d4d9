// Projects: what is added, shown and removed, and when the store is full.
use crate::files::{EMPTY, KPZ, NO_TOML, PAM, PAM_QUADRATIC, PAM_REPORT};
use crate::keepers::{database, empty_keeper, filled_database};
use crate::runs::{Case, first_other, run_line};
use result_keeper::Keeper;
use std::test::Fail;

const PROJECTS: [Case; 12] = [
    ("names", "", 0, Some(""), ""),
    ("add pam file", PAM, 0, Some("added pam\n"), ""),
    ("add pam file", PAM, 0, Some("replaced pam\n"), ""),
    ("names", "", 0, Some("pam\n"), ""),
    ("show pam", "", 0, Some(PAM), ""),
    ("add kpz file", NO_TOML, 4, Some(""), "refused 4 NotToml\n"),
    ("add kpz other", KPZ, 3, Some(""), "refused 3 FileFault\n"),
    ("add kpz file", KPZ, 0, Some("added kpz\n"), ""),
    ("names", "", 0, Some("kpz\npam\n"), ""),
    ("remove pam", "", 0, Some("removed pam\n"), ""),
    ("remove pam", "", 10, Some(""), "refused 10 NoProject pam\n"),
    (
        "compute pam",
        "",
        10,
        Some(""),
        "refused 10 NoProject pam\n",
    ),
];

#[test]
fn projects_are_kept_under_their_names(rt: HostRuntime) -> Result<(), Fail> {
    let alloc = rt.alloc();
    let mut memory = empty_keeper(alloc, Vec::new(alloc));
    assert_eq!(rt; first_other(alloc, &mut memory, &PROJECTS)?, None);
    assert_eq!(rt; first_other(alloc, &mut database(alloc)?, &PROJECTS)?, None);
    Ok(())
}

#[test]
fn words_that_are_no_command(rt: HostRuntime) -> Result<(), Fail> {
    let alloc = rt.alloc();
    let mut keeper = empty_keeper(alloc, Vec::new(alloc));
    for line in ["compute", "compute pam --fast", "add pam", "names pam"] {
        let case = (line, "", 2, Some(""), "refused 2 Words\n");
        assert_eq!(rt; first_other(alloc, &mut keeper, &[case])?, None);
    }
    Ok(())
}

const ANSWERED: [Case; 2] = [
    ("trees pam", "", 0, Some("trees 0\n"), ""),
    ("compute pam", "", 0, None, "reused 0 computed 0\n"),
];

// An equation without a right side has no trees, and puts no rows.
#[test]
fn nothing_is_listed(rt: HostRuntime) -> Result<(), Fail> {
    let alloc = rt.alloc();
    let mut keeper = empty_keeper(alloc, Vec::new(alloc));
    run_line(alloc, &mut keeper, "add pam file", EMPTY)?;
    assert_eq!(rt; first_other(alloc, &mut keeper, &ANSWERED)?, None);
    assert_eq!(rt; keeper.contexts(alloc)?.len(), 0);
    Ok(())
}

const FAULT: [Case; 2] = [
    ("compute pam", "", 11, Some(""), "refused 11 StoreFault\n"),
    (
        "compute pam",
        "",
        0,
        Some(PAM_REPORT),
        "reused 0 computed 4\n",
    ),
];

#[test]
fn a_fault_of_the_store_changes_nothing(rt: HostRuntime) -> Result<(), Fail> {
    let alloc = rt.alloc();
    let mut keeper = empty_keeper(alloc, vec![in alloc; 3]?);
    run_line(alloc, &mut keeper, "add pam file", PAM)?;
    assert_eq!(rt; first_other(alloc, &mut keeper, &FAULT)?, None);
    Ok(())
}

const FULL: [Case; 3] = [
    ("add new file", PAM, 10, Some(""), "refused 10 Full\n"),
    ("add p7 file", PAM_QUADRATIC, 0, Some("replaced p7\n"), ""),
    ("show p7", "", 0, Some(PAM_QUADRATIC), ""),
];

#[test]
fn a_store_takes_ten_thousand_projects(rt: HostRuntime) -> Result<(), Fail> {
    let alloc = rt.alloc();
    let mut keeper = filled_database(alloc, 10_000)?;
    assert_eq!(rt; first_other(alloc, &mut keeper, &FULL)?, None);
    Ok(())
}
