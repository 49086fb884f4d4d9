// Statements outside a transaction. One that fails changes nothing.
ghost use Rattle.std.specs.Prelude.{Ok, IfOk};
ghost use Rattle.sqlite.specs.State.{HasCleanDisk, Executes, Shown};
ghost use Rattle.sqlite.specs.Held.{state};
ghost use Rattle.sqlite.specs.Values.{bound};
ghost use Rattle.sqlite_keeper.specs.Changes.{FailsAlone};

use sqlite::types::ValueRef;
use sqlite::{Alter, Connection, Error, ErrorCode, Row};

// The rows that a query answers.
pub fn query<S: Alter>(
    conn: &mut Connection<S>,
    text: &str,
    params: &[ValueRef<'_>],
) -> Result<Vec<Row>, Error>
    ensures shown { HasCleanDisk (state S.Store conn.new)
        → IfOk result (λ rows. Shown text.now (bound params.now)
        (state S.Store conn.old) (state S.Store conn.new) rows.items) }
    ensures err { FailsAlone (state S.Store conn.old) (state S.Store conn.new) result }
{
    if !conn.is_autocommit() {
        return Err(Error::SqliteFailure(ErrorCode::TransactionState));
    }
    conn.query_all(text, params)
}

// Runs a statement that answers no rows, and says how many it changed.
pub fn execute<S: Alter>(
    conn: &mut Connection<S>,
    text: &str,
    params: &[ValueRef<'_>],
) -> Result<usize, Error>
    ensures runs { HasCleanDisk (state S.Store conn.new)
        → IfOk result (λ count. Executes text.now (bound params.now)
        (state S.Store conn.old) (state S.Store conn.new) (Ok count)) }
    ensures err { FailsAlone (state S.Store conn.old) (state S.Store conn.new) result }
{
    if !conn.is_autocommit() {
        return Err(Error::SqliteFailure(ErrorCode::TransactionState));
    }
    conn.execute(text, params)
}
