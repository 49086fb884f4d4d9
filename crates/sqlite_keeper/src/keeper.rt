// A keeper over a `sqlite` database.
ghost use Rattle.std.specs.Prelude.{◌≡◌, true, Some, IfOk};
ghost use Rattle.std.specs.FinMap.{empty};
ghost use Rattle.sqlite.specs.Held.{state};
ghost use Rattle.sqlite_keeper.specs.Told.{version_of, told_of, opened, opened_first, first_version};
ghost use Rattle.result_keeper.specs.Kept.{nothing_kept};
ghost use Rattle.sqlite_keeper.specs.Schema.{no_schema, first_schema};
ghost use Rattle.sqlite_keeper.specs.Tables.{IsStore, IsStoreUnder};
ghost use Rattle.sqlite_keeper.specs.Changes.{HasTables, Opens};

use crate::failure::{counted, uncounted};
use crate::project_table::{find_file, keep_file, names_in_order, remove_file};
use crate::result_table::{contexts_in_order, keep_rows, results_in_order};
use crate::schema::make_tables;
use crate::steady::Steady;
use crate::version::{is_old, migrate};
use result_keeper::{ContextPair, Keeper, KeeperError, ProjectName, Put, StoredRow};
use sqlite::{Alter, Connection, Error};
use std::alloc::Global;

/// A keeper over a database.
#[derive(Drop)]
pub struct SqliteKeeper<S: Alter> {
    conn: Connection<S>,
    is_old: bool,
    faults: u64,
}

// Makes the tables that are not there, and says whether the store is of version 1.
fn prepare<S: Steady>(conn: &mut Connection<S>) -> Result<bool, Error>
    ensures made { S.is_steady ≡ true → (state S.Store conn.old).now.schema ≡ no_schema
        → IfOk result (λ is_old. (version_of is_old ≡ 2)
        × HasTables nothing_kept (state S.Store conn.new).now) }
    ensures grown { S.is_steady ≡ true → IsStoreUnder first_schema (state S.Store conn.old).now
        → IfOk result (λ is_old.
        HasTables (opened_first (state S.Store conn.old).now) (state S.Store conn.new).now
        × (first_version (state S.Store conn.old).now ≡ version_of is_old)) }
    ensures there { S.is_steady ≡ true → IsStore (state S.Store conn.old).now
        → IfOk result (λ is_old.
        Opens is_old (state S.Store conn.old).now (state S.Store conn.new).now) }
{
    make_tables(conn)?;
    is_old(conn)
}

impl<S: Steady + Drop> SqliteKeeper<S> {
    /// Makes the tables where they are not there. The version is 1 exactly where there are
    /// results and none is kept. Fails only where the database refuses a statement: as `Memory`
    /// for want of memory, else as `Failed`.
    ///
    /// Over a store that is clean and open at all times an empty database is told as tables of
    /// version 2 with nothing in them. One that has these tables, or the first two of them, and
    /// rows as a keeper makes them is told as what its rows say.
    pub fn new(_alloc: Global, connection: Connection<S>) -> Result<SqliteKeeper<S>, KeeperError>
        ensures faults { IfOk result (λ k. k.faults ≡ 0) }
        ensures empty { S.is_steady ≡ true → (state S.Store connection).now.schema ≡ no_schema
            → IfOk result (λ k. told_of S.is_steady k.is_old (state S.Store k.conn).now
            ≡ Some nothing_kept) }
        ensures first { S.is_steady ≡ true
            → IsStoreUnder first_schema (state S.Store connection).now
            → IfOk result (λ k. told_of S.is_steady k.is_old (state S.Store k.conn).now
            ≡ Some (opened_first (state S.Store connection).now)) }
        ensures kept { S.is_steady ≡ true → IsStore (state S.Store connection).now
            → IfOk result (λ k. told_of S.is_steady k.is_old (state S.Store k.conn).now
            ≡ Some (opened (state S.Store connection).now)) }
    {
        let mut conn = connection;
        match prepare(&mut conn) {
            Ok(is_old) => Ok(SqliteKeeper {
                conn,
                is_old,
                faults: 0,
            }),
            Err(error) => Err(uncounted(error)),
        }
    }

    /// The connection.
    pub fn into_connection(self) -> Connection<S> {
        let SqliteKeeper {
            conn,
            is_old: _,
            faults: _,
        } = self;
        conn
    }
}

impl<S: Steady> Keeper for SqliteKeeper<S> {
    ghost version = { λ k. version_of k.is_old };

    ghost told = { λ k. told_of S.is_steady k.is_old (state S.Store k.conn).now };

    ghost faults = { λ k. k.faults };

    fn version(&self) -> u8 {
        if self.is_old { 1 } else { 2 }
    }

    fn project(
        &mut self,
        _alloc: Global,
        name: &ProjectName,
    ) -> Result<Option<Vec<u8>>, KeeperError> {
        match find_file(&mut self.conn, name) {
            Ok(file) => Ok(file),
            Err(error) => Err(counted(&mut self.faults, error)),
        }
    }

    fn put_project(
        &mut self,
        _alloc: Global,
        name: &ProjectName,
        file: &[u8],
    ) -> Result<Put, KeeperError> {
        match keep_file(&mut self.conn, name, file) {
            Ok(put) => Ok(put),
            Err(error) => Err(counted(&mut self.faults, error)),
        }
    }

    fn remove_project(&mut self, _alloc: Global, name: &ProjectName) -> Result<bool, KeeperError> {
        match remove_file(&mut self.conn, name) {
            Ok(kept) => Ok(kept),
            Err(error) => Err(counted(&mut self.faults, error)),
        }
    }

    fn names(&mut self, alloc: Global) -> Result<Vec<ProjectName>, KeeperError> {
        match names_in_order(alloc, &mut self.conn) {
            Ok(names) => Ok(names),
            Err(error) => Err(counted(&mut self.faults, error)),
        }
    }

    fn contexts(&mut self, alloc: Global) -> Result<Vec<Vec<u8>>, KeeperError> {
        match contexts_in_order(alloc, &mut self.conn) {
            Ok(contexts) => Ok(contexts),
            Err(error) => Err(counted(&mut self.faults, error)),
        }
    }

    fn results(&mut self, alloc: Global, context: &[u8]) -> Result<Vec<StoredRow>, KeeperError> {
        match results_in_order(alloc, &mut self.conn, context) {
            Ok(rows) => Ok(rows),
            Err(error) => Err(counted(&mut self.faults, error)),
        }
    }

    fn put_results(
        &mut self,
        _alloc: Global,
        context: &[u8],
        rows: &[StoredRow],
    ) -> Result<(), KeeperError> {
        match keep_rows(&mut self.conn, context, rows) {
            Ok(()) => Ok(()),
            Err(error) => Err(counted(&mut self.faults, error)),
        }
    }

    fn migrate(&mut self, _alloc: Global, pairs: &[ContextPair]) -> Result<(), KeeperError> {
        match migrate(&mut self.conn, pairs) {
            Ok(()) => {
                self.is_old = false;
                Ok(())
            }
            Err(error) => Err(counted(&mut self.faults, error)),
        }
    }
}
