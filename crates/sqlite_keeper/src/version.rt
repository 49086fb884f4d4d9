// The version of the store: 1 exactly where the table `store` is empty.
ghost use Rattle.std.specs.Prelude.{◌≡◌, ℕ, true, pos, [], ◌∷◌, map, nat_lt, length, if◌then◌else◌, IfOk, OnOk, IsTrue};
ghost use Rattle.sqlite.specs.State.{HasCleanDisk};
ghost use Rattle.sqlite.specs.Held.{state};
ghost use Rattle.result_keeper.specs.Entries.{context_pair};
ghost use Rattle.result_keeper.specs.Kept.{CanMigrate, migrated};
ghost use Rattle.sqlite_keeper.specs.Tables.{IsStore, result_rows, version_in};
ghost use Rattle.sqlite_keeper.specs.Told.{kept_in};
ghost use Rattle.sqlite_keeper.specs.Changes.{HasTables, HasResults, HasMoved, Opens, IsStill, RunsWithin, Turns, TurnsWithin, FailsAlone, in_version_2, with_moved};

use crate::autocommit::{execute, query};
use crate::project_table::{count_in, has_row};
use crate::steady::Steady;
use result_keeper::ContextPair;
use sqlite::types::ValueRef;
use sqlite::{Alter, Connection, Error, ErrorCode, Transaction};

const SELECT_VERSION: &str = "SELECT version FROM store";

const COUNT_RESULTS: &str = "SELECT COUNT(*) FROM result";

const INSERT_VERSION: &str = "INSERT INTO store(one, version) VALUES (1, 2)";

const MOVE_RESULTS: &str = "UPDATE result SET context = ?2 WHERE context = ?1";

fn has_version<S: Steady>(conn: &mut Connection<S>) -> Result<bool, Error>
    ensures has { S.is_steady ≡ true → IsStore (state S.Store conn.old).now
        → IfOk result (λ has. (if has then 2 else 1) ≡ version_in (state S.Store conn.old).now) }
    ensures stays { S.is_steady ≡ true
        → IsStill (state S.Store conn.old).now (state S.Store conn.new).now }
{
    let rows = query(conn, SELECT_VERSION, &[])?;
    Ok(has_row(&rows))
}

fn has_results<S: Steady>(conn: &mut Connection<S>) -> Result<bool, Error>
    ensures has { S.is_steady ≡ true → IsStore (state S.Store conn.old).now
        → IfOk result (λ has. has ≡ nat_lt 0 (length (result_rows (state S.Store conn.old).now))) }
    ensures stays { S.is_steady ≡ true
        → IsStill (state S.Store conn.old).now (state S.Store conn.new).now }
{
    let rows = query(conn, COUNT_RESULTS, &[])?;
    let count = count_in(&rows)?;
    Ok(are_some(count))
}

fn are_some(count: i64) -> bool
    ensures { (n : ℕ) → count ≡ pos n → result ≡ nat_lt 0 n }
{
    count > 0
}

fn put_version<S: Steady>(conn: &mut Connection<S>) -> Result<(), Error>
    ensures { S.is_steady ≡ true → IsStore (state S.Store conn.old).now
        → OnOk result (HasTables
        (in_version_2 (kept_in (state S.Store conn.old).now)) (state S.Store conn.new).now) }
{
    execute(conn, INSERT_VERSION, &[])?;
    Ok(())
}

// Whether the store has results and no version. One that has neither is made one of version 2.
pub fn is_old<S: Steady>(conn: &mut Connection<S>) -> Result<bool, Error>
    ensures { S.is_steady ≡ true → IsStore (state S.Store conn.old).now
        → IfOk result (λ is_old.
        Opens is_old (state S.Store conn.old).now (state S.Store conn.new).now) }
{
    if has_version(conn)? {
        return Ok(false);
    }
    if has_results(conn)? {
        return Ok(true);
    }
    put_version(conn)?;
    Ok(false)
}

fn move_context<S: Alter>(tx: &mut Transaction<'_, S>, pair: &ContextPair) -> Result<usize, Error>
    ensures same_reference { tx.new.conn.ghost_name ≡ tx.old.conn.ghost_name }
    ensures moved { HasCleanDisk (state S.Store tx.new.conn.now)
        → IsTrue (state S.Store tx.old.conn.now).in_transaction
        → HasResults (state S.Store tx.old.conn.now).now
        → OnOk result (HasMoved (context_pair pair.now ∷ [])
        (state S.Store tx.old.conn.now).now (state S.Store tx.new.conn.now).now) }
    ensures within { RunsWithin
        (state S.Store tx.old.conn.now) (state S.Store tx.new.conn.now) result }
{
    tx.execute(
        MOVE_RESULTS,
        &[ValueRef::Blob(&pair.old), ValueRef::Blob(&pair.new)],
    )
}

// Puts the rows of each old context under its new one.
fn move_each<S: Alter>(tx: &mut Transaction<'_, S>, pairs: &[ContextPair]) -> Result<(), Error>
    ensures same_reference { tx.new.conn.ghost_name ≡ tx.old.conn.ghost_name }
    ensures moved { CanMigrate (map context_pair pairs.now)
        (kept_in (state S.Store tx.old.conn.now).now)
        → TurnsWithin (with_moved (map context_pair pairs.now))
        (state S.Store tx.old.conn.now) (state S.Store tx.new.conn.now) result }
    ensures within { RunsWithin
        (state S.Store tx.old.conn.now) (state S.Store tx.new.conn.now) result }
{
    for pair in pairs {
        move_context(tx, pair)?;
    }
    Ok(())
}

fn put_version_within<S: Alter>(tx: &mut Transaction<'_, S>) -> Result<usize, Error>
    ensures same_reference { tx.new.conn.ghost_name ≡ tx.old.conn.ghost_name }
    ensures put { TurnsWithin in_version_2
        (state S.Store tx.old.conn.now) (state S.Store tx.new.conn.now) result }
    ensures within { RunsWithin
        (state S.Store tx.old.conn.now) (state S.Store tx.new.conn.now) result }
{
    tx.execute(INSERT_VERSION, &[])
}

fn migrate_within<S: Alter>(
    tx: &mut Transaction<'_, S>,
    pairs: &[ContextPair],
) -> Result<usize, Error>
    ensures same_reference { tx.new.conn.ghost_name ≡ tx.old.conn.ghost_name }
    ensures migrated { CanMigrate (map context_pair pairs.now)
        (kept_in (state S.Store tx.old.conn.now).now)
        → TurnsWithin (migrated (map context_pair pairs.now))
        (state S.Store tx.old.conn.now) (state S.Store tx.new.conn.now) result }
    ensures within { RunsWithin
        (state S.Store tx.old.conn.now) (state S.Store tx.new.conn.now) result }
{
    move_each(tx, pairs)?;
    put_version_within(tx)
}

// Puts the rows of each old context under its new one, and the version into the store, or nothing.
pub fn migrate<S: Alter>(conn: &mut Connection<S>, pairs: &[ContextPair]) -> Result<(), Error>
    ensures migrated { CanMigrate (map context_pair pairs.now)
        (kept_in (state S.Store conn.old).now)
        → Turns (migrated (map context_pair pairs.now))
        (state S.Store conn.old) (state S.Store conn.new) result }
    ensures err { FailsAlone (state S.Store conn.old) (state S.Store conn.new) result }
{
    if !conn.is_autocommit() {
        return Err(Error::SqliteFailure(ErrorCode::TransactionState));
    }
    let mut tx = conn.transaction();
    migrate_within(&mut tx, pairs)?;
    tx.commit()
}
