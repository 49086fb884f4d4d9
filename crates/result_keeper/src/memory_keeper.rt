// A keeper in memory, which fails at the calls that it is given.
ghost use Rattle.std.specs.Prelude.{◌≡◌, ◌≤◌, ◌↔◌, List, map, IfOk, OnOk, OnErr, Some, Err, IsErr, IsTrue, IfErr};
ghost use Rattle.std.specs.FinMap.{get, contains_key};
ghost use Rattle.wb_outside.specs.Causes.{Rose};
ghost use Rattle.result_keeper.specs.Kept.{bytes_cmp, row_cmp, put_answer, after_put, without_project, names_of, contexts_of, results_of, with_rows, migrated, CanMigrate};
ghost use Rattle.result_keeper.specs.Entries.{AreApart, file_bytes, pair_of, context_pair, project_entry, row_entry, tables_of};
ghost use Rattle.result_keeper.specs.Memory.{call_fails, after_call};

use crate::error::KeeperError;
use crate::keeper::Keeper;
use crate::parts::{ContextPair, KeptProject, KeptRow, StoredRow};
use crate::project_name::ProjectName;
use crate::put::Put;
use crate::tables::Tables;
use std::alloc::Global;
use std::marker::Model;

/// A keeper in memory. It tells its tables, and the calls whose numbers are listed fail. `version`
/// is no such call.
#[derive(Drop)]
pub struct MemoryKeeper {
    tables: Tables,
    failing: Vec<u64>,
    calls: u64,
    faults: u64,
}

impl Model for MemoryKeeper {
    ghost use Rattle.result_keeper.specs.Memory.{HeldKeeper, held_code};

    ghost Value = { HeldKeeper };

    ghost coded = { held_code };

    ghost view = { λ s. record { kept = s.tables; failing = s.failing.items; calls = s.calls; faults = s.faults } };
}

impl MemoryKeeper {
    /// Version 2 with these projects and rows. `failing` lists the numbers of the calls that fail,
    /// from 1. Takes no memory.
    pub fn new(projects: Vec<KeptProject>, rows: Vec<KeptRow>, failing: Vec<u64>) -> MemoryKeeper
        requires names { AreApart bytes_cmp (map project_entry projects.items) }
        requires rows { AreApart row_cmp (map row_entry rows.items) }
        ensures kept { result.kept ≡ tables_of 2 projects.items rows.items }
        ensures failing { result.failing ≡ failing.items }
        ensures calls { result.calls ≡ 0 }
        ensures faults { result.faults ≡ 0 }
    {
        MemoryKeeper {
            tables: Tables::new(2, projects, rows),
            failing,
            calls: 0,
            faults: 0,
        }
    }

    /// The same in version 1.
    pub fn old(projects: Vec<KeptProject>, rows: Vec<KeptRow>, failing: Vec<u64>) -> MemoryKeeper
        requires names { AreApart bytes_cmp (map project_entry projects.items) }
        requires rows { AreApart row_cmp (map row_entry rows.items) }
        ensures kept { result.kept ≡ tables_of 1 projects.items rows.items }
        ensures failing { result.failing ≡ failing.items }
        ensures calls { result.calls ≡ 0 }
        ensures faults { result.faults ≡ 0 }
    {
        MemoryKeeper {
            tables: Tables::new(1, projects, rows),
            failing,
            calls: 0,
            faults: 0,
        }
    }

    // Counts a call, and fails where it is one that is to fail.
    fn begin(&mut self) -> Result<(), KeeperError>
        ensures fails { IsErr result ↔ IsTrue (call_fails self.old) }
        ensures failed { IfErr result (λ e. e ≡ KeeperError.Failed) }
        ensures after { self.new ≡ after_call self.old self.old.kept }
        ensures later { self.old.faults ≤ self.new.faults }
        ensures rose { OnErr result (Rose self.old.faults self.new.faults) }
    {
        self.calls = self.calls.saturating_add(1);
        if self.failing.contains(&self.calls) {
            self.faults = self.faults.saturating_add(1);
            return Err(KeeperError::Failed);
        }
        Ok(())
    }
}

impl Keeper for MemoryKeeper {
    ghost version = { λ s. s.kept.version };

    ghost told = { λ s. Some s.kept };

    ghost faults = { λ s. s.faults };

    fn version(&self) -> u8
        ensures value { result ≡ self.now.kept.version }
        ensures at_least { 1 ≤ result }
        ensures at_most { result ≤ 2 }
    {
        self.tables.version()
    }

    fn project(&mut self, alloc: Global, name: &ProjectName) -> Result<Option<Vec<u8>>, KeeperError>
        ensures file { IfOk result (λ file. file_bytes file ≡ get self.old.kept.projects name.now) }
        ensures after { self.new ≡ after_call self.old self.old.kept }
        ensures fails { (result ≡ Err KeeperError.Failed) ↔ IsTrue (call_fails self.old) }
        ensures later { self.old.faults ≤ self.new.faults }
        ensures cause { result ≡ Err KeeperError.Failed → Rose self.old.faults self.new.faults }
    {
        self.begin()?;
        Ok(self.tables.project(alloc, name)?)
    }

    fn put_project(
        &mut self,
        alloc: Global,
        name: &ProjectName,
        file: &[u8],
    ) -> Result<Put, KeeperError>
        ensures answer { IfOk result (λ put. put ≡ put_answer self.old.kept.projects name.now) }
        ensures put { IfOk result (λ put. self.new ≡ after_call self.old
            (after_put put name.now file.now self.old.kept)) }
        ensures err { OnErr result (self.new ≡ after_call self.old self.old.kept) }
        ensures fails { (result ≡ Err KeeperError.Failed) ↔ IsTrue (call_fails self.old) }
        ensures later { self.old.faults ≤ self.new.faults }
        ensures cause { result ≡ Err KeeperError.Failed → Rose self.old.faults self.new.faults }
    {
        self.begin()?;
        self.tables.put_project(alloc, name, file)
    }

    fn remove_project(&mut self, _alloc: Global, name: &ProjectName) -> Result<bool, KeeperError>
        ensures kept { IfOk result (λ kept. kept ≡ contains_key self.old.kept.projects name.now) }
        ensures removed { OnOk result (self.new ≡ after_call self.old
            (without_project name.now self.old.kept)) }
        ensures err { OnErr result (self.new ≡ after_call self.old self.old.kept) }
        ensures fails { (result ≡ Err KeeperError.Failed) ↔ IsTrue (call_fails self.old) }
        ensures later { self.old.faults ≤ self.new.faults }
        ensures cause { result ≡ Err KeeperError.Failed → Rose self.old.faults self.new.faults }
    {
        self.begin()?;
        Ok(self.tables.remove_project(name))
    }

    fn names(&mut self, alloc: Global) -> Result<Vec<ProjectName>, KeeperError>
        ensures names { IfOk result (λ names. names.items ≡ names_of self.old.kept) }
        ensures after { self.new ≡ after_call self.old self.old.kept }
        ensures fails { (result ≡ Err KeeperError.Failed) ↔ IsTrue (call_fails self.old) }
        ensures later { self.old.faults ≤ self.new.faults }
        ensures cause { result ≡ Err KeeperError.Failed → Rose self.old.faults self.new.faults }
    {
        self.begin()?;
        Ok(self.tables.names(alloc)?)
    }

    fn contexts(&mut self, alloc: Global) -> Result<Vec<Vec<u8>>, KeeperError>
        ensures contexts { IfOk result (λ contexts. map (λ c. c.items) contexts.items
            ≡ contexts_of self.old.kept) }
        ensures after { self.new ≡ after_call self.old self.old.kept }
        ensures fails { (result ≡ Err KeeperError.Failed) ↔ IsTrue (call_fails self.old) }
        ensures later { self.old.faults ≤ self.new.faults }
        ensures cause { result ≡ Err KeeperError.Failed → Rose self.old.faults self.new.faults }
    {
        self.begin()?;
        Ok(self.tables.contexts(alloc)?)
    }

    fn results(&mut self, alloc: Global, context: &[u8]) -> Result<Vec<StoredRow>, KeeperError>
        ensures rows { IfOk result (λ rows. map pair_of rows.items
            ≡ results_of self.old.kept context.now) }
        ensures after { self.new ≡ after_call self.old self.old.kept }
        ensures fails { (result ≡ Err KeeperError.Failed) ↔ IsTrue (call_fails self.old) }
        ensures later { self.old.faults ≤ self.new.faults }
        ensures cause { result ≡ Err KeeperError.Failed → Rose self.old.faults self.new.faults }
    {
        self.begin()?;
        Ok(self.tables.results(alloc, context)?)
    }

    fn put_results(
        &mut self,
        alloc: Global,
        context: &[u8],
        rows: &[StoredRow],
    ) -> Result<(), KeeperError>
        ensures put { OnOk result (self.new ≡ after_call self.old
            (with_rows context.now (map pair_of rows.now) self.old.kept)) }
        ensures err { OnErr result (self.new ≡ after_call self.old self.old.kept) }
        ensures fails { (result ≡ Err KeeperError.Failed) ↔ IsTrue (call_fails self.old) }
        ensures later { self.old.faults ≤ self.new.faults }
        ensures cause { result ≡ Err KeeperError.Failed → Rose self.old.faults self.new.faults }
    {
        self.begin()?;
        Ok(self.tables.put_results(alloc, context, rows)?)
    }

    fn migrate(&mut self, alloc: Global, pairs: &[ContextPair]) -> Result<(), KeeperError>
        requires old { self.old.kept.version ≡ 1 }
        requires pairs { CanMigrate (map context_pair pairs.now) self.old.kept }
        ensures migrated { OnOk result (self.new ≡ after_call self.old
            (migrated (map context_pair pairs.now) self.old.kept)) }
        ensures err { OnErr result (self.new ≡ after_call self.old self.old.kept) }
        ensures fails { (result ≡ Err KeeperError.Failed) ↔ IsTrue (call_fails self.old) }
        ensures later { self.old.faults ≤ self.new.faults }
        ensures cause { result ≡ Err KeeperError.Failed → Rose self.old.faults self.new.faults }
    {
        self.begin()?;
        Ok(self.tables.migrate(alloc, pairs)?)
    }
}
