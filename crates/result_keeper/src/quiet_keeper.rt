// A keeper in memory that never fails.
ghost use Rattle.std.specs.Prelude.{◌≡◌, ◌≢◌, ◌≤◌, map, IfOk, OnOk, OnErr, Some, Err};
ghost use Rattle.std.specs.FinMap.{get, contains_key};
ghost use Rattle.result_keeper.specs.Kept.{nothing_kept, put_answer, after_put, without_project, names_of, contexts_of, results_of, with_rows, migrated, CanMigrate};
ghost use Rattle.result_keeper.specs.Entries.{file_bytes, pair_of, context_pair};

use crate::error::KeeperError;
use crate::keeper::Keeper;
use crate::parts::{ContextPair, StoredRow};
use crate::project_name::ProjectName;
use crate::put::Put;
use crate::tables::Tables;
use std::alloc::Global;
use std::marker::Model;

/// A keeper in memory that never fails. It tells its tables.
#[derive(Drop)]
pub struct QuietKeeper {
    tables: Tables,
}

impl Model for QuietKeeper {
    ghost use Rattle.result_keeper.specs.Kept.{Kept, kept_code};

    ghost Value = { Kept };

    ghost coded = { kept_code };

    ghost view = { λ s. s.tables };
}

impl QuietKeeper {
    /// Version 2 without projects and rows. Takes no memory.
    pub fn new(alloc: Global) -> QuietKeeper
        ensures { result ≡ nothing_kept }
    {
        QuietKeeper {
            tables: Tables::new(2, Vec::new(alloc), Vec::new(alloc)),
        }
    }
}

impl Keeper for QuietKeeper {
    ghost version = { λ s. s.version };

    ghost told = { λ s. Some s };

    ghost faults = { λ _. 0 };

    fn version(&self) -> u8
        ensures value { result ≡ self.now.version }
        ensures at_least { 1 ≤ result }
        ensures at_most { result ≤ 2 }
    {
        self.tables.version()
    }

    fn project(&mut self, alloc: Global, name: &ProjectName) -> Result<Option<Vec<u8>>, KeeperError>
        ensures file { IfOk result (λ file. file_bytes file ≡ get self.old.projects name.now) }
        ensures stays { self.new ≡ self.old }
        ensures never { result ≢ Err KeeperError.Failed }
    {
        Ok(self.tables.project(alloc, name)?)
    }

    fn put_project(
        &mut self,
        alloc: Global,
        name: &ProjectName,
        file: &[u8],
    ) -> Result<Put, KeeperError>
        ensures answer { IfOk result (λ put. put ≡ put_answer self.old.projects name.now) }
        ensures put { IfOk result (λ put. self.new ≡ after_put put name.now file.now self.old) }
        ensures err { OnErr result (self.new ≡ self.old) }
        ensures never { result ≢ Err KeeperError.Failed }
    {
        self.tables.put_project(alloc, name, file)
    }

    fn remove_project(&mut self, _alloc: Global, name: &ProjectName) -> Result<bool, KeeperError>
        ensures kept { IfOk result (λ kept. kept ≡ contains_key self.old.projects name.now) }
        ensures removed { OnOk result (self.new ≡ without_project name.now self.old) }
        ensures err { OnErr result (self.new ≡ self.old) }
        ensures never { result ≢ Err KeeperError.Failed }
    {
        Ok(self.tables.remove_project(name))
    }

    fn names(&mut self, alloc: Global) -> Result<Vec<ProjectName>, KeeperError>
        ensures names { IfOk result (λ names. names.items ≡ names_of self.old) }
        ensures stays { self.new ≡ self.old }
        ensures never { result ≢ Err KeeperError.Failed }
    {
        Ok(self.tables.names(alloc)?)
    }

    fn contexts(&mut self, alloc: Global) -> Result<Vec<Vec<u8>>, KeeperError>
        ensures contexts { IfOk result (λ contexts. map (λ c. c.items) contexts.items
            ≡ contexts_of self.old) }
        ensures stays { self.new ≡ self.old }
        ensures never { result ≢ Err KeeperError.Failed }
    {
        Ok(self.tables.contexts(alloc)?)
    }

    fn results(&mut self, alloc: Global, context: &[u8]) -> Result<Vec<StoredRow>, KeeperError>
        ensures rows { IfOk result (λ rows. map pair_of rows.items
            ≡ results_of self.old context.now) }
        ensures stays { self.new ≡ self.old }
        ensures never { result ≢ Err KeeperError.Failed }
    {
        Ok(self.tables.results(alloc, context)?)
    }

    fn put_results(
        &mut self,
        alloc: Global,
        context: &[u8],
        rows: &[StoredRow],
    ) -> Result<(), KeeperError>
        ensures put { OnOk result (self.new ≡ with_rows context.now (map pair_of rows.now)
            self.old) }
        ensures err { OnErr result (self.new ≡ self.old) }
        ensures never { result ≢ Err KeeperError.Failed }
    {
        Ok(self.tables.put_results(alloc, context, rows)?)
    }

    fn migrate(&mut self, alloc: Global, pairs: &[ContextPair]) -> Result<(), KeeperError>
        requires old { self.old.version ≡ 1 }
        requires pairs { CanMigrate (map context_pair pairs.now) self.old }
        ensures migrated { OnOk result (self.new ≡ migrated (map context_pair pairs.now) self.old) }
        ensures err { OnErr result (self.new ≡ self.old) }
        ensures never { result ≢ Err KeeperError.Failed }
    {
        Ok(self.tables.migrate(alloc, pairs)?)
    }
}
