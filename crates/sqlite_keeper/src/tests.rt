mod calls;
mod migration;

use super::*;
use result_keeper::{Keeper, KeeperError, ProjectName, Put, QuietKeeper, StoredRow};
use sqlite::{Connection, Error, MemStore, params};
use std::alloc::{AllocError, Global};
use std::process::Abort;
use std::test::Fail;

const NAMES: [&str; 4] = ["pam", "kpz", "phi4", "burgers"];

const TREES: [&str; 4] = ["[xi]", "[X(0,1)*xi]", "[u[xi]*u[xi]]", "[]"];

fn name(rt: &impl Abort, text: &str) -> ProjectName {
    ProjectName::new(text.as_bytes()).expect(rt, "a name")
}

fn row(alloc: Global, tree: &str, number: u32) -> Result<StoredRow, AllocError> {
    Ok(StoredRow {
        tree: tree.as_bytes().to_vec(alloc)?,
        value: format!(in alloc; "{number} 0")?.into_bytes(),
    })
}

fn rows_of(alloc: Global, draw: u32) -> Result<Vec<StoredRow>, AllocError> {
    let mut rows = Vec::new(alloc);
    for i in 0..draw % 7 {
        let at = (draw / 7 + 3 * i) % 4;
        rows.push(row(alloc, TREES[at as usize], draw % 10 + i)?)?;
    }
    Ok(rows)
}

// Whether two keepers answer a call alike that changes something, and is drawn by its number.
fn change_alike<K: Keeper, L: Keeper>(
    alloc: Global,
    one: &mut K,
    other: &mut L,
    name: &ProjectName,
    draw: u32,
) -> Result<bool, KeeperError> {
    let text = NAMES[(draw / 8 % 4) as usize].as_bytes();
    Ok(match draw % 3 {
        0 => one.put_project(alloc, name, text)? == other.put_project(alloc, name, text)?,
        1 => one.remove_project(alloc, name)? == other.remove_project(alloc, name)?,
        _ => {
            let rows = rows_of(alloc, draw)?;
            one.put_results(alloc, text, &rows)? == other.put_results(alloc, text, &rows)?
        }
    })
}

// The same of a call that reads.
fn read_alike<K: Keeper, L: Keeper>(
    alloc: Global,
    one: &mut K,
    other: &mut L,
    name: &ProjectName,
    draw: u32,
) -> Result<bool, KeeperError> {
    let context = NAMES[(draw / 8 % 4) as usize].as_bytes();
    Ok(match draw % 4 {
        0 => one.project(alloc, name)? == other.project(alloc, name)?,
        1 => one.names(alloc)? == other.names(alloc)?,
        2 => one.contexts(alloc)? == other.contexts(alloc)?,
        _ => one.results(alloc, context)? == other.results(alloc, context)?,
    })
}

#[test]
fn calls_over_memory_and_over_a_database_answer_alike(rt: HostRuntime) -> Result<(), Fail> {
    let alloc = rt.alloc();
    let mut memory = QuietKeeper::new(alloc);
    let mut database = SqliteKeeper::new(alloc, Connection::open_in_memory(alloc)?)?;
    for number in 0..300u32 {
        let draw = number.wrapping_mul(2_654_435_761) >> 12;
        let name = name(&rt, NAMES[(draw / 64 % 4) as usize]);
        let alike = if draw % 2 == 0 {
            change_alike(alloc, &mut memory, &mut database, &name, draw / 2)?
        } else {
            read_alike(alloc, &mut memory, &mut database, &name, draw / 2)?
        };
        assert!(rt; alike, "{number}");
    }
    assert_eq!(rt; database.version(), 2);
    Ok(())
}

const PROJECT: &str =
    "CREATE TABLE project(name TEXT PRIMARY KEY NOT NULL, file BLOB NOT NULL) STRICT";

const RESULT: &str =
    "CREATE TABLE result(context BLOB NOT NULL, tree BLOB NOT NULL, value BLOB NOT NULL CHECK (length(value) < 6), UNIQUE(context, tree)) STRICT";

const INSERT_PROJECT: &str = "INSERT INTO project(name, file) VALUES (?1, x'66')";

const INSERT_RESULT: &str = "INSERT INTO result(context, tree, value) VALUES (x'63', x'74', x'76')";

// A keeper over a database that these statements made.
fn keeper_over(alloc: Global, statements: &[&str]) -> Result<SqliteKeeper<MemStore>, KeeperError> {
    let mut conn = Connection::open_in_memory(alloc)?;
    for text in statements {
        if conn.execute(text, &[]).is_err() {
            return Err(KeeperError::Failed);
        }
    }
    SqliteKeeper::new(alloc, conn)
}

#[test]
fn a_store_with_results_and_no_version_is_of_version_1(rt: HostRuntime) -> Result<(), Fail> {
    for (statements, version) in [
        ([].as_slice(), 2),
        (
            [
                PROJECT,
                "INSERT INTO project(name, file) VALUES ('pam', x'66')",
            ]
            .as_slice(),
            2,
        ),
        ([RESULT, INSERT_RESULT].as_slice(), 1),
    ] {
        let keeper = keeper_over(rt.alloc(), statements)?;
        assert_eq!(rt; keeper.version(), version);
    }
    Ok(())
}

#[test]
fn a_failure_among_many_rows_leaves_none(rt: HostRuntime) -> Result<(), Fail> {
    let alloc = rt.alloc();
    let mut keeper = keeper_over(alloc, &[RESULT])?;
    let mut rows = Vec::new(alloc);
    for number in 0..100u32 {
        let tree = format!(in alloc; "[X({number})]")?;
        rows.push(row(alloc, &tree, if number == 50 { 99_999 } else { number })?)?;
    }
    assert_eq!(rt;
        keeper.put_results(alloc, b"kpz", &rows),
        Err(KeeperError::Failed)
    );
    assert_eq!(rt; keeper.contexts(alloc)?.len(), 0);
    rows.truncate(50);
    assert_eq!(rt; keeper.put_results(alloc, b"kpz", &rows), Ok(()));
    assert_eq!(rt; keeper.results(alloc, b"kpz")?.len(), 50);
    Ok(())
}

// A database with a name that is no project name, and so many projects.
fn many_projects(alloc: Global, count: u32) -> Result<Connection<MemStore>, Error> {
    let mut conn = Connection::open_in_memory(alloc)?;
    conn.execute(PROJECT, &[])?;
    conn.execute(INSERT_PROJECT, params!["No Name"])?;
    for number in 0..count {
        let text = format!(in alloc; "p{number}")?;
        conn.execute(INSERT_PROJECT, params![&text])?;
    }
    Ok(conn)
}

#[test]
fn a_keeper_takes_ten_thousand_projects(rt: HostRuntime) -> Result<(), Fail> {
    let alloc = rt.alloc();
    let conn = many_projects(alloc, 9_999).expect(&rt, "a database");
    let mut keeper = SqliteKeeper::new(alloc, conn)?;
    for (text, answer) in [("new", Put::Full), ("p7", Put::Replaced)] {
        assert_eq!(rt;
            keeper.put_project(alloc, &name(&rt, text), b"file")?,
            answer
        );
    }
    assert_eq!(rt; keeper.names(alloc)?.len(), 9_999);
    Ok(())
}
