use super::*;
use std::alloc::{AllocError, Global};
use std::process::Abort;
use std::test::Fail;

// A keeper without projects and rows.
#[tactic(auto, using(crate::proofs::Short::one_project, crate::proofs::Short::one_row))]
fn empty_keeper(alloc: Global, failing: Vec<u64>) -> MemoryKeeper {
    MemoryKeeper::new(Vec::new(alloc), Vec::new(alloc), failing)
}

fn name(rt: &impl Abort, text: &str) -> ProjectName {
    ProjectName::new(text.as_bytes()).expect(rt, "a name")
}

fn row(alloc: Global, tree: &str, value: &str) -> Result<StoredRow, AllocError> {
    Ok(StoredRow {
        tree: tree.as_bytes().to_vec(alloc)?,
        value: value.as_bytes().to_vec(alloc)?,
    })
}

#[test]
fn names_of_projects(rt: HostRuntime) -> Result<(), Fail> {
    for (text, is_name) in [
        ("pam", true),
        ("3d-phi_4", true),
        ("abcdefghijklmnopqrstuvwxyz012345", true),
        ("abcdefghijklmnopqrstuvwxyz0123456", false),
        ("", false),
        ("Pam", false),
        ("-pam", false),
        ("pam.toml", false),
    ] {
        let name = ProjectName::new(text.as_bytes());
        assert_eq!(rt; name.is_some(), is_name, "{text}");
    }
    assert_eq!(rt; name(&rt, "pam").bytes(), b"pam".as_slice());
    Ok(())
}

#[test]
fn calls_fail_where_they_are_told(rt: HostRuntime) -> Result<(), Fail> {
    let alloc = rt.alloc();
    let mut keeper = empty_keeper(alloc, vec![in alloc; 2, 5]?);
    let pam = name(&rt, "pam");
    for (file, answer) in [
        ("one", Ok(Put::Added)),
        ("two", Err(KeeperError::Failed)),
        ("three", Ok(Put::Replaced)),
    ] {
        assert_eq!(rt;
            keeper.put_project(alloc, &pam, file.as_bytes()),
            answer,
            "{file}"
        );
    }
    let kept = keeper.project(alloc, &pam)?;
    assert_eq!(rt; kept.as_deref(), Some(b"three".as_slice()));
    for answer in [Err(KeeperError::Failed), Ok(true), Ok(false)] {
        assert_eq!(rt; keeper.remove_project(alloc, &pam), answer);
    }
    assert_eq!(rt; (keeper.version(), keeper.names(alloc)?.len()), (2, 0));
    Ok(())
}

#[test]
fn the_last_of_two_rows_of_a_tree_stands(rt: HostRuntime) -> Result<(), Fail> {
    let alloc = rt.alloc();
    let mut keeper = QuietKeeper::new(alloc);
    let mut rows = Vec::new(alloc);
    for (tree, value) in [("[xi]", "0 0"), ("[X]", "1 0"), ("[xi]", "2 0")] {
        rows.push(row(alloc, tree, value)?)?;
    }
    keeper.put_results(alloc, b"second", &rows)?;
    keeper.put_results(alloc, b"first", &[])?;
    let contexts = keeper.contexts(alloc)?;
    assert_eq!(rt; contexts, vec![in alloc; b"second".to_vec(alloc)?]?);
    let found = keeper.results(alloc, b"second")?;
    let last = vec![in alloc; row(alloc, "[X]", "1 0")?, row(alloc, "[xi]", "2 0")?]?;
    assert_eq!(rt; found, last);
    assert_eq!(rt; keeper.results(alloc, b"first")?.len(), 0);
    Ok(())
}

#[test]
fn a_keeper_takes_ten_thousand_projects(rt: HostRuntime) -> Result<(), Fail> {
    let alloc = rt.alloc();
    let mut keeper = QuietKeeper::new(alloc);
    for number in 0..10_000u32 {
        let text = format!(in alloc; "p{number}")?;
        let added = keeper.put_project(alloc, &name(&rt, &text), b"")?;
        assert_eq!(rt; added, Put::Added);
    }
    for (text, answer) in [("new", Put::Full), ("p7", Put::Replaced)] {
        assert_eq!(rt;
            keeper.put_project(alloc, &name(&rt, text), b"file")?,
            answer
        );
    }
    Ok(())
}
