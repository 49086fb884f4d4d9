// The statements on the table `project`.
ghost use Rattle.std.specs.Prelude.{◌≡◌, ℕ, pos, if◌then◌else◌, is_some, false, nat_le, [], ◌∷◌, ◌++◌, slice_get, slice_index_or, IfOk, OnOk, OnErr, IsTrue};
ghost use Rattle.std.specs.Option.{option_map};
ghost use Rattle.std.specs.List.{filter_map};
ghost use Rattle.std.specs.FinMap.{get, contains_key, len};
ghost use Rattle.sqlite.specs.State.{HasCleanDisk};
ghost use Rattle.sqlite.specs.Held.{state};
ghost use Rattle.sqlite.specs.Order.{column};
ghost use Rattle.sqlite.specs.declared.types.Value.TheVariants.{Int};
ghost use Rattle.result_keeper.specs.Entries.{file_bytes};
ghost use Rattle.result_keeper.specs.Kept.{most_projects, put_answer, names_of, without_project, after_put};
ghost use Rattle.sqlite_keeper.specs.Tables.{IsStore, projects_in, shown_name, shown_text};
ghost use Rattle.sqlite_keeper.specs.Told.{kept_in};
ghost use Rattle.sqlite_keeper.specs.Changes.{HasTables, RunsWithin, IsRead, AnswersBy, Turns, TurnsWithin, FailsAlone};

use crate::autocommit::{execute, query};
use result_keeper::{ProjectName, Put};
use sqlite::types::ValueRef;
use sqlite::{Alter, Connection, Error, ErrorCode, Row, Transaction};
use std::alloc::Global;

const SELECT_FILE: &str = "SELECT file FROM project WHERE name = ?1";

const COUNT_PROJECTS: &str = "SELECT COUNT(*) FROM project";

const INSERT_PROJECT: &str = "INSERT INTO project(name, file) VALUES (?1, ?2)";

const DELETE_PROJECT: &str = "DELETE FROM project WHERE name = ?1";

const SELECT_NAMES: &str = "SELECT name FROM project ORDER BY name";

// How many projects a keeper takes.
const MOST_PROJECTS: i64 = 10_000;

// The rows with the file of a project: one at most.
fn rows_named<S: Alter>(conn: &mut Connection<S>, name: &ProjectName) -> Result<Vec<Row>, Error>
    ensures rows { AnswersBy
        (λ k rows. option_map shown_text (slice_get rows.items 0) ≡ get k.projects name.now)
        (state S.Store conn.old) (state S.Store conn.new) result }
    ensures stays { IsRead (state S.Store conn.old) (state S.Store conn.new) }
{
    query(conn, SELECT_FILE, &[ValueRef::Text(name.bytes())])
}

fn first_blob(rows: &[Row]) -> Result<Option<Vec<u8>>, Error>
    ensures { IfOk result (λ file. file_bytes file ≡ option_map shown_text (slice_get rows.now 0)) }
{
    match rows.first() {
        Some(row) => Ok(Some(row.get(0)?)),
        None => Ok(None),
    }
}

// The file of a project.
pub fn find_file<S: Alter>(
    conn: &mut Connection<S>,
    name: &ProjectName,
) -> Result<Option<Vec<u8>>, Error>
    ensures file { AnswersBy (λ k file. file_bytes file ≡ get k.projects name.now)
        (state S.Store conn.old) (state S.Store conn.new) result }
    ensures stays { IsRead (state S.Store conn.old) (state S.Store conn.new) }
{
    let rows = rows_named(conn, name)?;
    first_blob(&rows)
}

pub fn has_row(rows: &[Row]) -> bool
    ensures { result ≡ is_some (slice_get rows.now 0) }
{
    rows.first().is_some()
}

// Whether a file is kept under a name.
fn is_kept<S: Alter>(tx: &mut Transaction<'_, S>, name: &ProjectName) -> Result<bool, Error>
    ensures same_reference { tx.new.conn.ghost_name ≡ tx.old.conn.ghost_name }
    ensures clean { HasCleanDisk (state S.Store tx.new.conn.now)
        → HasCleanDisk (state S.Store tx.old.conn.now) }
    ensures kept { AnswersBy (λ k kept. kept ≡ contains_key k.projects name.now)
        (state S.Store tx.old.conn.now) (state S.Store tx.new.conn.now) result }
    ensures stays { HasCleanDisk (state S.Store tx.new.conn.now)
        → IsStore (state S.Store tx.old.conn.now).now
        → OnOk result ((state S.Store tx.new.conn.now).now ≡ (state S.Store tx.old.conn.now).now) }
    ensures within { IsStore (state S.Store tx.old.conn.now).now
        → RunsWithin (state S.Store tx.old.conn.now) (state S.Store tx.new.conn.now) result }
{
    let rows = tx.query_all(SELECT_FILE, &[ValueRef::Text(name.bytes())])?;
    Ok(has_row(&rows))
}

// The number in the first row.
pub fn count_in(rows: &[Row]) -> Result<i64, Error>
    ensures { IfOk result (λ count. column (slice_index_or rows.now 0 []) 0 ≡ Int count) }
{
    match rows.first() {
        Some(row) => row.get(0),
        None => Err(Error::QueryReturnedNoRows),
    }
}

// Whether these are as many projects as a keeper takes.
fn are_most(count: i64) -> bool
    ensures { (n : ℕ) → count ≡ pos n → result ≡ nat_le most_projects n }
{
    count >= MOST_PROJECTS
}

// Whether as many projects are kept as a keeper takes.
fn is_full<S: Alter>(tx: &mut Transaction<'_, S>) -> Result<bool, Error>
    ensures same_reference { tx.new.conn.ghost_name ≡ tx.old.conn.ghost_name }
    ensures clean { HasCleanDisk (state S.Store tx.new.conn.now)
        → HasCleanDisk (state S.Store tx.old.conn.now) }
    ensures full { AnswersBy (λ k full. full ≡ nat_le most_projects (len k.projects))
        (state S.Store tx.old.conn.now) (state S.Store tx.new.conn.now) result }
    ensures stays { HasCleanDisk (state S.Store tx.new.conn.now)
        → IsStore (state S.Store tx.old.conn.now).now
        → OnOk result ((state S.Store tx.new.conn.now).now ≡ (state S.Store tx.old.conn.now).now) }
    ensures within { IsStore (state S.Store tx.old.conn.now).now
        → RunsWithin (state S.Store tx.old.conn.now) (state S.Store tx.new.conn.now) result }
{
    let rows = tx.query_all(COUNT_PROJECTS, &[])?;
    let count = count_in(&rows)?;
    Ok(are_most(count))
}

fn put_by(kept: bool, full: bool) -> Put
    ensures { result ≡ (if kept then Put.Replaced else (if full then Put.Full else Put.Added)) }
{
    if kept {
        Put::Replaced
    } else if full {
        Put::Full
    } else {
        Put::Added
    }
}

// What becomes of a file that is put under a name.
fn put_of<S: Alter>(tx: &mut Transaction<'_, S>, name: &ProjectName) -> Result<Put, Error>
    ensures same_reference { tx.new.conn.ghost_name ≡ tx.old.conn.ghost_name }
    ensures answer { AnswersBy (λ k put. put ≡ put_answer k.projects name.now)
        (state S.Store tx.old.conn.now) (state S.Store tx.new.conn.now) result }
    ensures stays { HasCleanDisk (state S.Store tx.new.conn.now)
        → IsStore (state S.Store tx.old.conn.now).now
        → OnOk result ((state S.Store tx.new.conn.now).now ≡ (state S.Store tx.old.conn.now).now) }
    ensures within { IsStore (state S.Store tx.old.conn.now).now
        → RunsWithin (state S.Store tx.old.conn.now) (state S.Store tx.new.conn.now) result }
{
    let kept = is_kept(tx, name)?;
    let full = is_full(tx)?;
    Ok(put_by(kept, full))
}

fn delete_file<S: Alter>(tx: &mut Transaction<'_, S>, name: &ProjectName) -> Result<usize, Error>
    ensures same_reference { tx.new.conn.ghost_name ≡ tx.old.conn.ghost_name }
    ensures removed { TurnsWithin (without_project name.now)
        (state S.Store tx.old.conn.now) (state S.Store tx.new.conn.now) result }
    ensures within { RunsWithin
        (state S.Store tx.old.conn.now) (state S.Store tx.new.conn.now) result }
{
    tx.execute(DELETE_PROJECT, &[ValueRef::Text(name.bytes())])
}

fn insert_file<S: Alter>(
    tx: &mut Transaction<'_, S>,
    name: &ProjectName,
    file: &[u8],
) -> Result<usize, Error>
    ensures same_reference { tx.new.conn.ghost_name ≡ tx.old.conn.ghost_name }
    ensures added { contains_key (projects_in (state S.Store tx.old.conn.now).now) name.now ≡ false
        → TurnsWithin (after_put Put.Added name.now file.now)
        (state S.Store tx.old.conn.now) (state S.Store tx.new.conn.now) result }
    ensures within { RunsWithin
        (state S.Store tx.old.conn.now) (state S.Store tx.new.conn.now) result }
{
    tx.execute(
        INSERT_PROJECT,
        &[ValueRef::Text(name.bytes()), ValueRef::Blob(file)],
    )
}

// Puts a file under a name, in place of the one that is kept there.
fn replace_file<S: Alter>(
    tx: &mut Transaction<'_, S>,
    name: &ProjectName,
    file: &[u8],
) -> Result<usize, Error>
    ensures same_reference { tx.new.conn.ghost_name ≡ tx.old.conn.ghost_name }
    ensures put { TurnsWithin (after_put Put.Replaced name.now file.now)
        (state S.Store tx.old.conn.now) (state S.Store tx.new.conn.now) result }
    ensures within { RunsWithin
        (state S.Store tx.old.conn.now) (state S.Store tx.new.conn.now) result }
{
    delete_file(tx, name)?;
    insert_file(tx, name, file)
}

fn put_within<S: Alter>(
    tx: &mut Transaction<'_, S>,
    name: &ProjectName,
    file: &[u8],
) -> Result<Put, Error>
    ensures same_reference { tx.new.conn.ghost_name ≡ tx.old.conn.ghost_name }
    ensures answer { AnswersBy (λ k put. put ≡ put_answer k.projects name.now)
        (state S.Store tx.old.conn.now) (state S.Store tx.new.conn.now) result }
    ensures put { HasCleanDisk (state S.Store tx.new.conn.now)
        → IsTrue (state S.Store tx.old.conn.now).in_transaction
        → IsStore (state S.Store tx.old.conn.now).now
        → IfOk result (λ put. HasTables
        (after_put put name.now file.now (kept_in (state S.Store tx.old.conn.now).now))
        (state S.Store tx.new.conn.now).now) }
    ensures within { IsStore (state S.Store tx.old.conn.now).now
        → RunsWithin (state S.Store tx.old.conn.now) (state S.Store tx.new.conn.now) result }
{
    let put = put_of(tx, name)?;
    if put == Put::Full {
        return Ok(put);
    }
    replace_file(tx, name, file)?;
    Ok(put)
}

// Keeps a file under a name, unless the name is new and as many are kept as a keeper takes.
pub fn keep_file<S: Alter>(
    conn: &mut Connection<S>,
    name: &ProjectName,
    file: &[u8],
) -> Result<Put, Error>
    ensures answer { AnswersBy (λ k put. put ≡ put_answer k.projects name.now)
        (state S.Store conn.old) (state S.Store conn.new) result }
    ensures put { HasCleanDisk (state S.Store conn.new) → IsStore (state S.Store conn.old).now
        → IfOk result (λ put. HasTables
        (after_put put name.now file.now (kept_in (state S.Store conn.old).now))
        (state S.Store conn.new).now) }
    ensures err { HasCleanDisk (state S.Store conn.new) → IsTrue (state S.Store conn.new).is_open
        → IsStore (state S.Store conn.old).now
        → OnErr result ((state S.Store conn.new).now ≡ (state S.Store conn.old).now) }
{
    if !conn.is_autocommit() {
        return Err(Error::SqliteFailure(ErrorCode::TransactionState));
    }
    let mut tx = conn.transaction();
    let put = put_within(&mut tx, name, file)?;
    tx.commit()?;
    Ok(put)
}

// Gives up a project, and says whether it was kept.
pub fn remove_file<S: Alter>(conn: &mut Connection<S>, name: &ProjectName) -> Result<bool, Error>
    ensures kept { AnswersBy (λ k kept. kept ≡ contains_key k.projects name.now)
        (state S.Store conn.old) (state S.Store conn.new) result }
    ensures removed { Turns (without_project name.now)
        (state S.Store conn.old) (state S.Store conn.new) result }
    ensures err { FailsAlone (state S.Store conn.old) (state S.Store conn.new) result }
{
    let removed = execute(conn, DELETE_PROJECT, &[ValueRef::Text(name.bytes())])?;
    Ok(removed > 0)
}

// The name in a row of names, where it is the name of a project.
fn name_in(row: &Row) -> Result<Option<ProjectName>, Error>
    ensures { IfOk result (λ name. name ≡ shown_name row.now) }
{
    Ok(match row.get_ref(0)? {
        ValueRef::Text(text) => ProjectName::new(text),
        _ => None,
    })
}

// The rows of the projects by their names.
fn named_rows<S: Alter>(conn: &mut Connection<S>) -> Result<Vec<Row>, Error>
    ensures rows { AnswersBy (λ k rows. filter_map shown_name rows.items ≡ names_of k)
        (state S.Store conn.old) (state S.Store conn.new) result }
    ensures stays { IsRead (state S.Store conn.old) (state S.Store conn.new) }
{
    query(conn, SELECT_NAMES, &[])
}

fn push_name(names: &mut Vec<ProjectName>, row: &Row) -> Result<(), Error>
    ensures { OnOk result
        (names.new.items ≡ names.old.items ++ filter_map shown_name (row.now ∷ [])) }
{
    match name_in(row)? {
        Some(name) => Ok(names.push(name)?),
        None => Ok(()),
    }
}

fn names_shown(alloc: Global, rows: &[Row]) -> Result<Vec<ProjectName>, Error>
    ensures { IfOk result (λ names. names.items ≡ filter_map shown_name rows.now) }
{
    let mut names = Vec::new(alloc);
    for row in rows {
        push_name(&mut names, row)?;
    }
    Ok(names)
}

// The names of the projects in order. A row whose name is no project name is passed over.
pub fn names_in_order<S: Alter>(
    alloc: Global,
    conn: &mut Connection<S>,
) -> Result<Vec<ProjectName>, Error>
    ensures names { AnswersBy (λ k names. names.items ≡ names_of k)
        (state S.Store conn.old) (state S.Store conn.new) result }
    ensures stays { IsRead (state S.Store conn.old) (state S.Store conn.new) }
{
    let rows = named_rows(conn)?;
    names_shown(alloc, &rows)
}
