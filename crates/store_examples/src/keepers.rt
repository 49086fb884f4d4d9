// Keepers in memory and over a database, with what is put into them.
use result_keeper::{Keeper, KeeperError, MemoryKeeper, ProjectName, StoredRow};
use sqlite::{Connection, MemStore, params};
use sqlite_keeper::SqliteKeeper;
use std::alloc::{AllocError, Global};

const INSERT_PROJECT: &str = "INSERT INTO project(name, file) VALUES (?1, x'66')";

// A keeper without projects and rows. The calls with these numbers fail.
#[tactic(auto, using(result_keeper::proofs::Short::one_project, result_keeper::proofs::Short::one_row))]
pub fn empty_keeper(alloc: Global, failing: Vec<u64>) -> MemoryKeeper {
    MemoryKeeper::new(Vec::new(alloc), Vec::new(alloc), failing)
}

// The same in version 1.
#[tactic(auto, using(result_keeper::proofs::Short::one_project, result_keeper::proofs::Short::one_row))]
pub fn old_keeper(alloc: Global, failing: Vec<u64>) -> MemoryKeeper {
    MemoryKeeper::old(Vec::new(alloc), Vec::new(alloc), failing)
}

// A keeper over an empty database.
pub fn database(alloc: Global) -> Result<SqliteKeeper<MemStore>, KeeperError> {
    SqliteKeeper::new(alloc, Connection::open_in_memory(alloc)?)
}

// A keeper over a database with so many projects: `p0`, `p1` and so on.
pub fn filled_database(alloc: Global, count: u32) -> Result<SqliteKeeper<MemStore>, KeeperError> {
    let mut connection = database(alloc)?.into_connection();
    for number in 0..count {
        let name = format!(in alloc; "p{number}")?;
        if connection.execute(INSERT_PROJECT, params![&name]).is_err() {
            return Err(KeeperError::Failed);
        }
    }
    SqliteKeeper::new(alloc, connection)
}

// The store after statements on its database, opened anew.
pub fn reopened(
    alloc: Global,
    keeper: SqliteKeeper<MemStore>,
    statements: &[&str],
) -> Result<SqliteKeeper<MemStore>, KeeperError> {
    let mut connection = keeper.into_connection();
    for statement in statements {
        if connection.execute(statement, &[]).is_err() {
            return Err(KeeperError::Failed);
        }
    }
    SqliteKeeper::new(alloc, connection)
}

// Keeps a file under the name `pam`.
pub fn put_pam<K: Keeper>(alloc: Global, keeper: &mut K, file: &str) -> Result<(), KeeperError> {
    let Some(name) = ProjectName::new(b"pam") else {
        return Err(KeeperError::Failed);
    };
    keeper.put_project(alloc, &name, file.as_bytes())?;
    Ok(())
}

fn row(alloc: Global, tree: &str, value: &str) -> Result<StoredRow, AllocError> {
    Ok(StoredRow {
        tree: tree.as_bytes().to_vec(alloc)?,
        value: value.as_bytes().to_vec(alloc)?,
    })
}

// Keeps rows of a context.
pub fn put_rows<K: Keeper>(
    alloc: Global,
    keeper: &mut K,
    context: &str,
    rows: &[(&str, &str)],
) -> Result<(), KeeperError> {
    let mut put = Vec::new(alloc);
    for (tree, value) in rows {
        put.push(row(alloc, tree, value)?)?;
    }
    keeper.put_results(alloc, context.as_bytes(), &put)
}
