// Rows: what is reused, what is made anew, and what an audit says.
use crate::files::{
    KPZ, KPZ_CONTEXT, KPZ_SYMMETRIC, PAM, PAM_CONTEXT, PAM_QUADRATIC, PAM_REPORT,
    PAM_WITHOUT_ITS_CONSTANT, PHI4_2D,
};
use crate::keepers::{database, empty_keeper, put_pam, put_rows};
use crate::runs::{Case, first_other, run_failing, run_line};
use result_keeper::{Keeper, KeeperError};
use std::alloc::Global;
use std::test::Fail;

const REUSED: [Case; 6] = [
    ("add pam file", PAM, 0, None, ""),
    (
        "compute pam",
        "",
        0,
        Some(PAM_REPORT),
        "reused 0 computed 4\n",
    ),
    ("add pam file", PAM_QUADRATIC, 0, None, ""),
    ("compute pam", "", 0, None, "reused 4 computed 0\n"),
    ("add pam file", PAM, 0, None, ""),
    (
        "compute pam",
        "",
        0,
        Some(PAM_REPORT),
        "reused 4 computed 0\n",
    ),
];

// The names and the scaling are the same, and the degree of the noise is another.
const OTHER_NOISE: [Case; 4] = [
    ("add pam file", PAM, 0, None, ""),
    ("compute pam", "", 0, None, "reused 0 computed 4\n"),
    ("add phi4 file", PHI4_2D, 0, None, ""),
    ("compute phi4", "", 0, None, "reused 0 computed 9\n"),
];

const DECLARED: [Case; 5] = [
    ("add kpz file", KPZ, 0, None, ""),
    ("compute kpz", "", 0, None, "reused 0 computed 9\n"),
    ("add kpz file", KPZ_SYMMETRIC, 0, None, ""),
    ("compute kpz", "", 0, None, "reused 0 computed 9\n"),
    ("audit", "", 0, Some("audit rows 18\n"), ""),
];

#[test]
fn rows_are_reused_for_the_same_types(rt: HostRuntime) -> Result<(), Fail> {
    let alloc = rt.alloc();
    for cases in [
        REUSED.as_slice(),
        OTHER_NOISE.as_slice(),
        DECLARED.as_slice(),
    ] {
        let mut memory = empty_keeper(alloc, Vec::new(alloc));
        assert_eq!(rt; first_other(alloc, &mut memory, cases)?, None);
        assert_eq!(rt; first_other(alloc, &mut database(alloc)?, cases)?, None);
    }
    Ok(())
}

const TREE: &str = "[xi*u[xi]]";

// The answer of an audit where this value is kept for the tree.
fn is_audited<K: Keeper>(
    alloc: Global,
    keeper: &mut K,
    value: &str,
    case: Case,
) -> Result<bool, Fail> {
    put_rows(alloc, keeper, PAM_CONTEXT, &[(TREE, value)])?;
    Ok(first_other(alloc, keeper, &[case])?.is_none())
}

const AUDITS: [(&str, Case); 3] = [
    (
        "1 0",
        (
            "audit",
            "",
            13,
            Some(""),
            "refused 13 Differs [xi*u[xi]]\nstored 1 0\ncomputed 1 -E[xi*u[xi]]\n",
        ),
    ),
    (
        "1 -E[xi*u[xi]]",
        ("audit", "", 0, Some("audit rows 1\n"), ""),
    ),
    (
        "one",
        (
            "audit",
            "",
            12,
            Some(""),
            "refused 12 StoredRow [xi*u[xi]]\n",
        ),
    ),
];

#[test]
fn audits_make_each_row_anew(rt: HostRuntime) -> Result<(), Fail> {
    let alloc = rt.alloc();
    let mut memory = empty_keeper(alloc, Vec::new(alloc));
    let mut database = database(alloc)?;
    for (value, case) in AUDITS {
        assert!(rt; is_audited(alloc, &mut memory, value, case)?, "{value}");
        assert!(rt; is_audited(alloc, &mut database, value, case)?, "{value}");
    }
    Ok(())
}

const HELD: [Case; 3] = [
    (
        "compute pam",
        "",
        0,
        Some(PAM_WITHOUT_ITS_CONSTANT),
        "reused 1 computed 3\n",
    ),
    (
        "compute pam --fresh",
        "",
        0,
        Some(PAM_REPORT),
        "reused 0 computed 4\n",
    ),
    (
        "compute pam",
        "",
        0,
        Some(PAM_REPORT),
        "reused 4 computed 0\n",
    ),
];

#[test]
fn a_row_is_used_as_it_stands(rt: HostRuntime) -> Result<(), Fail> {
    let alloc = rt.alloc();
    let mut keeper = empty_keeper(alloc, Vec::new(alloc));
    put_pam(alloc, &mut keeper, PAM)?;
    put_rows(alloc, &mut keeper, PAM_CONTEXT, &[(TREE, "1 0")])?;
    assert_eq!(rt; first_other(alloc, &mut keeper, &HELD)?, None);
    Ok(())
}

const SQUARE: &str = "[u'(0,1)[xi]*u'(0,1)[xi]]";

const SQUARE_OF_SQUARES: &str =
    "[u'(0,1)[u'(0,1)[xi]*u'(0,1)[xi]]*u'(0,1)[u'(0,1)[xi]*u'(0,1)[xi]]]";

// The value that is kept for a tree of the KPZ equation.
fn kept_value<K: Keeper>(
    alloc: Global,
    keeper: &mut K,
    tree: &str,
) -> Result<Option<Vec<u8>>, KeeperError> {
    for row in keeper.results(alloc, KPZ_CONTEXT.as_bytes())? {
        if row.tree.as_slice() == tree.as_bytes() {
            return Ok(Some(row.value));
        }
    }
    Ok(None)
}

// Other constants are made of the ones that are held.
#[test]
fn constants_are_made_of_held_ones(rt: HostRuntime) -> Result<(), Fail> {
    let alloc = rt.alloc();
    let mut keeper = empty_keeper(alloc, Vec::new(alloc));
    run_line(alloc, &mut keeper, "add kpz file", KPZ)?;
    put_rows(alloc, &mut keeper, KPZ_CONTEXT, &[(SQUARE, "0 0")])?;
    let case = ("compute kpz", "", 0, None, "reused 1 computed 8\n");
    assert_eq!(rt; first_other(alloc, &mut keeper, &[case])?, None);
    let value = kept_value(alloc, &mut keeper, SQUARE_OF_SQUARES)?;
    let wanted = format!(in alloc; "1 -E{SQUARE_OF_SQUARES}")?;
    assert_eq!(rt; value.as_deref(), Some(wanted.as_bytes()));
    Ok(())
}

#[test]
fn rows_stand_where_the_report_is_not_written(rt: HostRuntime) -> Result<(), Fail> {
    let alloc = rt.alloc();
    let mut keeper = empty_keeper(alloc, Vec::new(alloc));
    run_line(alloc, &mut keeper, "add pam file", PAM)?;
    let unwritten = run_failing(alloc, &mut keeper, "compute pam", "", &[1])?;
    assert_eq!(rt; (unwritten.code, unwritten.out.len()), (15, 0));
    assert_eq!(rt;
        unwritten.err.as_slice(),
        b"refused 15 WriteFault\n".as_slice()
    );
    let case = (
        "compute pam",
        "",
        0,
        Some(PAM_REPORT),
        "reused 4 computed 0\n",
    );
    assert_eq!(rt; first_other(alloc, &mut keeper, &[case])?, None);
    Ok(())
}
