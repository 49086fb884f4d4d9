// The tables of the store.
ghost use Rattle.std.specs.Prelude.{◌≡◌, ℕ, true, false, Ok, OnOk, []};
ghost use Rattle.sqlite.specs.State.{Executes};
ghost use Rattle.sqlite.specs.Held.{state};
ghost use Rattle.sqlite_keeper.specs.Schema.{has_table, no_schema, first_schema, store_schema};
ghost use Rattle.sqlite_keeper.specs.Changes.{IsEmptyStore, IsGrown};

use crate::autocommit::execute;
use crate::steady::Steady;
use sqlite::{Connection, Error};

const PROJECT_TABLE: &str =
    "CREATE TABLE project(name TEXT PRIMARY KEY NOT NULL, file BLOB NOT NULL) STRICT";

const RESULT_TABLE: &str =
    "CREATE TABLE result(context BLOB NOT NULL, tree BLOB NOT NULL, value BLOB NOT NULL, UNIQUE(context, tree)) STRICT";

const STORE_TABLE: &str =
    "CREATE TABLE store(one INTEGER PRIMARY KEY NOT NULL CHECK (one = 1), version INTEGER NOT NULL) STRICT";

fn has_table<S: Steady>(conn: &Connection<S>, name: &[u8]) -> bool
    ensures { result ≡ has_table name.now (state S.Store conn.now).now.schema }
{
    conn.schema()
        .tables
        .as_slice()
        .iter()
        .any(|table| table.name.as_slice() == name)
}

// Makes a table where it is not there. The text is kept as it is written.
fn make_table<S: Steady>(conn: &mut Connection<S>, name: &[u8], text: &str) -> Result<(), Error>
    ensures made { S.is_steady ≡ true
        → has_table name.now (state S.Store conn.old).now.schema ≡ false
        → OnOk result ((count : ℕ)
        × Executes text.now [] (state S.Store conn.old) (state S.Store conn.new) (Ok count)) }
    ensures there { has_table name.now (state S.Store conn.old).now.schema ≡ true
        → (state S.Store conn.new).now ≡ (state S.Store conn.old).now }
{
    if !has_table(conn, name) {
        execute(conn, text, &[])?;
    }
    Ok(())
}

pub fn make_tables<S: Steady>(conn: &mut Connection<S>) -> Result<(), Error>
    ensures made { S.is_steady ≡ true → (state S.Store conn.old).now.schema ≡ no_schema
        → OnOk result (IsEmptyStore (state S.Store conn.new).now) }
    ensures grown { S.is_steady ≡ true → (state S.Store conn.old).now.schema ≡ first_schema
        → OnOk result (IsGrown (state S.Store conn.old).now (state S.Store conn.new).now) }
    ensures there { (state S.Store conn.old).now.schema ≡ store_schema
        → (state S.Store conn.new).now ≡ (state S.Store conn.old).now }
{
    make_table(conn, b"project", PROJECT_TABLE)?;
    make_table(conn, b"result", RESULT_TABLE)?;
    make_table(conn, b"store", STORE_TABLE)?;
    Ok(())
}
