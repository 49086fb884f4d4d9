// The statements on the table `result`.
ghost use Rattle.std.specs.Prelude.{◌≡◌, false, map, IfOk, [], ◌∷◌};
ghost use Rattle.std.specs.FinMap.{contains_key};
ghost use Rattle.sqlite.specs.Held.{state};
ghost use Rattle.result_keeper.specs.Entries.{pair_of};
ghost use Rattle.result_keeper.specs.Kept.{within, contexts_of, results_of, with_rows};
ghost use Rattle.sqlite_keeper.specs.Tables.{results_in, shown_text, shown_pair};
ghost use Rattle.sqlite_keeper.specs.Changes.{RunsWithin, IsRead, AnswersBy, Turns, TurnsWithin, FailsAlone, without_row};

use crate::autocommit::query;
use result_keeper::StoredRow;
use sqlite::types::ValueRef;
use sqlite::{Alter, Connection, Error, ErrorCode, Row, Transaction};
use std::alloc::Global;

const SELECT_CONTEXTS: &str = "SELECT DISTINCT context FROM result ORDER BY context";

const SELECT_RESULTS: &str = "SELECT tree, value FROM result WHERE context = ?1 ORDER BY tree";

const DELETE_RESULT: &str = "DELETE FROM result WHERE context = ?1 AND tree = ?2";

const INSERT_RESULT: &str = "INSERT INTO result(context, tree, value) VALUES (?1, ?2, ?3)";

// A row for each context, in order.
fn context_rows<S: Alter>(conn: &mut Connection<S>) -> Result<Vec<Row>, Error>
    ensures rows { AnswersBy (λ k rows. map shown_text rows.items ≡ contexts_of k)
        (state S.Store conn.old) (state S.Store conn.new) result }
    ensures stays { IsRead (state S.Store conn.old) (state S.Store conn.new) }
{
    query(conn, SELECT_CONTEXTS, &[])
}

fn blob_in(row: &Row) -> Result<Vec<u8>, Error>
    ensures { IfOk result (λ blob. blob.items ≡ shown_text row.now) }
{
    row.get(0)
}

fn blobs_shown(alloc: Global, rows: &[Row]) -> Result<Vec<Vec<u8>>, Error>
    ensures { IfOk result (λ blobs. map (λ b. b.items) blobs.items ≡ map shown_text rows.now) }
{
    let mut blobs = Vec::new(alloc);
    for row in rows {
        blobs.push(blob_in(row)?)?;
    }
    Ok(blobs)
}

// The contexts that have a row, in order.
pub fn contexts_in_order<S: Alter>(
    alloc: Global,
    conn: &mut Connection<S>,
) -> Result<Vec<Vec<u8>>, Error>
    ensures contexts { AnswersBy (λ k contexts. map (λ c. c.items) contexts.items ≡ contexts_of k)
        (state S.Store conn.old) (state S.Store conn.new) result }
    ensures stays { IsRead (state S.Store conn.old) (state S.Store conn.new) }
{
    let rows = context_rows(conn)?;
    blobs_shown(alloc, &rows)
}

// The rows of a context, in the order of their trees.
fn rows_within<S: Alter>(conn: &mut Connection<S>, context: &[u8]) -> Result<Vec<Row>, Error>
    ensures rows { AnswersBy (λ k rows. map shown_pair rows.items ≡ results_of k context.now)
        (state S.Store conn.old) (state S.Store conn.new) result }
    ensures stays { IsRead (state S.Store conn.old) (state S.Store conn.new) }
{
    query(conn, SELECT_RESULTS, &[ValueRef::Blob(context)])
}

fn stored_row(row: &Row) -> Result<StoredRow, Error>
    ensures { IfOk result (λ stored. pair_of stored ≡ shown_pair row.now) }
{
    let tree: Vec<u8> = row.get(0)?;
    let value: Vec<u8> = row.get(1)?;
    Ok(StoredRow { tree, value })
}

fn rows_shown(alloc: Global, rows: &[Row]) -> Result<Vec<StoredRow>, Error>
    ensures { IfOk result (λ found. map pair_of found.items ≡ map shown_pair rows.now) }
{
    let mut found = Vec::new(alloc);
    for row in rows {
        found.push(stored_row(row)?)?;
    }
    Ok(found)
}

// The rows of a context with their values, in the order of their trees.
pub fn results_in_order<S: Alter>(
    alloc: Global,
    conn: &mut Connection<S>,
    context: &[u8],
) -> Result<Vec<StoredRow>, Error>
    ensures rows { AnswersBy (λ k found. map pair_of found.items ≡ results_of k context.now)
        (state S.Store conn.old) (state S.Store conn.new) result }
    ensures stays { IsRead (state S.Store conn.old) (state S.Store conn.new) }
{
    let rows = rows_within(conn, context)?;
    rows_shown(alloc, &rows)
}

fn delete_row<S: Alter>(
    tx: &mut Transaction<'_, S>,
    context: &[u8],
    tree: &[u8],
) -> Result<usize, Error>
    ensures same_reference { tx.new.conn.ghost_name ≡ tx.old.conn.ghost_name }
    ensures removed { TurnsWithin (without_row context.now tree.now)
        (state S.Store tx.old.conn.now) (state S.Store tx.new.conn.now) result }
    ensures within { RunsWithin
        (state S.Store tx.old.conn.now) (state S.Store tx.new.conn.now) result }
{
    tx.execute(
        DELETE_RESULT,
        &[ValueRef::Blob(context), ValueRef::Blob(tree)],
    )
}

fn insert_row<S: Alter>(
    tx: &mut Transaction<'_, S>,
    context: &[u8],
    tree: &[u8],
    value: &[u8],
) -> Result<usize, Error>
    ensures same_reference { tx.new.conn.ghost_name ≡ tx.old.conn.ghost_name }
    ensures added { contains_key
        (results_in (state S.Store tx.old.conn.now).now) (context.now, tree.now) ≡ false
        → TurnsWithin (with_rows context.now ((tree.now, value.now) ∷ []))
        (state S.Store tx.old.conn.now) (state S.Store tx.new.conn.now) result }
    ensures within { RunsWithin
        (state S.Store tx.old.conn.now) (state S.Store tx.new.conn.now) result }
{
    tx.execute(
        INSERT_RESULT,
        &[
            ValueRef::Blob(context),
            ValueRef::Blob(tree),
            ValueRef::Blob(value),
        ],
    )
}

// Puts a value under a tree of a context, in place of the one that is kept there.
fn replace_row<S: Alter>(
    tx: &mut Transaction<'_, S>,
    context: &[u8],
    tree: &[u8],
    value: &[u8],
) -> Result<usize, Error>
    ensures same_reference { tx.new.conn.ghost_name ≡ tx.old.conn.ghost_name }
    ensures put { TurnsWithin (with_rows context.now ((tree.now, value.now) ∷ []))
        (state S.Store tx.old.conn.now) (state S.Store tx.new.conn.now) result }
    ensures within { RunsWithin
        (state S.Store tx.old.conn.now) (state S.Store tx.new.conn.now) result }
{
    delete_row(tx, context, tree)?;
    insert_row(tx, context, tree, value)
}

fn put_each<S: Alter>(
    tx: &mut Transaction<'_, S>,
    context: &[u8],
    rows: &[StoredRow],
) -> Result<(), Error>
    ensures same_reference { tx.new.conn.ghost_name ≡ tx.old.conn.ghost_name }
    ensures put { TurnsWithin (with_rows context.now (map pair_of rows.now))
        (state S.Store tx.old.conn.now) (state S.Store tx.new.conn.now) result }
    ensures within { RunsWithin
        (state S.Store tx.old.conn.now) (state S.Store tx.new.conn.now) result }
{
    for row in rows {
        replace_row(tx, context, &row.tree, &row.value)?;
    }
    Ok(())
}

// Puts rows of a context, all or none.
pub fn keep_rows<S: Alter>(
    conn: &mut Connection<S>,
    context: &[u8],
    rows: &[StoredRow],
) -> Result<(), Error>
    ensures put { Turns (with_rows context.now (map pair_of rows.now))
        (state S.Store conn.old) (state S.Store conn.new) result }
    ensures err { FailsAlone (state S.Store conn.old) (state S.Store conn.new) result }
{
    if !conn.is_autocommit() {
        return Err(Error::SqliteFailure(ErrorCode::TransactionState));
    }
    let mut tx = conn.transaction();
    put_each(&mut tx, context, rows)?;
    tx.commit()
}
