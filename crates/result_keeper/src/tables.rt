// The tables of a keeper in memory.
ghost use Rattle.std.specs.Prelude.{◌≡◌, ◌≤◌, map, IfOk, OnOk, OnErr, IfErr};
ghost use Rattle.std.specs.FinMap.{get, contains_key};
ghost use Rattle.result_keeper.specs.Kept.{bytes_cmp, row_cmp, put_answer, after_put, without_project, names_of, contexts_of, results_of, with_rows, migrated, CanMigrate};
ghost use Rattle.result_keeper.specs.Entries.{AreApart, file_bytes, pair_of, context_pair, project_entry, row_entry, tables_of};

use crate::error::KeeperError;
use crate::parts::{ContextPair, KeptProject, KeptRow, StoredRow};
use crate::project_name::ProjectName;
use crate::projects::{find_file, put_project, remove_project, sorted_names};
use crate::put::Put;
use crate::rows::{moved_rows, sorted_contexts, sorted_results, with_results};
use std::alloc::{AllocError, Global};
use std::marker::Model;

// Projects and rows in the order in which they came. No name comes twice, and no pair of a context
// and a tree.
#[derive(Drop)]
pub struct Tables {
    version: u8,
    projects: Vec<KeptProject>,
    rows: Vec<KeptRow>,
}

impl Model for Tables {
    ghost use Rattle.std.specs.Prelude.{◌≤◌, map};
    ghost use Rattle.result_keeper.specs.Kept.{Kept, kept_code, bytes_cmp, row_cmp};
    ghost use Rattle.result_keeper.specs.Entries.{AreApart, project_entry, row_entry, tables_of};

    ghost Value = { Kept };

    ghost coded = { kept_code };

    ghost view = { λ t. tables_of t.version t.projects.items t.rows.items };

    ghost invariant = { λ t. ((1 ≤ t.version) × (t.version ≤ 2)) × (AreApart bytes_cmp (map project_entry t.projects.items) × AreApart row_cmp (map row_entry t.rows.items)) };
}

impl Tables {
    pub fn new(version: u8, projects: Vec<KeptProject>, rows: Vec<KeptRow>) -> Tables
        requires at_least { 1 ≤ version }
        requires at_most { version ≤ 2 }
        requires names { AreApart bytes_cmp (map project_entry projects.items) }
        requires rows { AreApart row_cmp (map row_entry rows.items) }
        ensures { result ≡ tables_of version projects.items rows.items }
    {
        Tables {
            version,
            projects,
            rows,
        }
    }

    pub fn version(&self) -> u8
        ensures value { result ≡ self.now.version }
        ensures at_least { 1 ≤ result }
        ensures at_most { result ≤ 2 }
    {
        self.version
    }

    pub fn project(&self, alloc: Global, name: &ProjectName) -> Result<Option<Vec<u8>>, AllocError>
        ensures { IfOk result (λ file. file_bytes file ≡ get self.now.projects name.now) }
    {
        find_file(alloc, &self.projects, name)
    }

    pub fn put_project(
        &mut self,
        alloc: Global,
        name: &ProjectName,
        file: &[u8],
    ) -> Result<Put, KeeperError>
        ensures answer { IfOk result (λ put. put ≡ put_answer self.old.projects name.now) }
        ensures put { IfOk result (λ put. self.new ≡ after_put put name.now file.now self.old) }
        ensures err { OnErr result (self.new ≡ self.old) }
        ensures memory { IfErr result (λ e. e ≡ KeeperError.Memory) }
    {
        put_project(alloc, &mut self.projects, name, file)
    }

    pub fn remove_project(&mut self, name: &ProjectName) -> bool
        ensures kept { result ≡ contains_key self.old.projects name.now }
        ensures removed { self.new ≡ without_project name.now self.old }
    {
        remove_project(&mut self.projects, name)
    }

    pub fn names(&self, alloc: Global) -> Result<Vec<ProjectName>, AllocError>
        ensures { IfOk result (λ names. names.items ≡ names_of self.now) }
    {
        sorted_names(alloc, &self.projects)
    }

    pub fn contexts(&self, alloc: Global) -> Result<Vec<Vec<u8>>, AllocError>
        ensures { IfOk result (λ contexts. map (λ c. c.items) contexts.items
            ≡ contexts_of self.now) }
    {
        sorted_contexts(alloc, &self.rows)
    }

    pub fn results(&self, alloc: Global, context: &[u8]) -> Result<Vec<StoredRow>, AllocError>
        ensures { IfOk result (λ rows. map pair_of rows.items ≡ results_of self.now context.now) }
    {
        sorted_results(alloc, &self.rows, context)
    }

    pub fn put_results(
        &mut self,
        alloc: Global,
        context: &[u8],
        rows: &[StoredRow],
    ) -> Result<(), AllocError>
        ensures put { OnOk result (self.new ≡ with_rows context.now (map pair_of rows.now)
            self.old) }
        ensures err { OnErr result (self.new ≡ self.old) }
    {
        self.rows = with_results(alloc, &self.rows, context, rows)?;
        Ok(())
    }

    pub fn migrate(&mut self, alloc: Global, pairs: &[ContextPair]) -> Result<(), AllocError>
        requires { CanMigrate (map context_pair pairs.now) self.old }
        ensures migrated { OnOk result (self.new ≡ migrated (map context_pair pairs.now) self.old) }
        ensures err { OnErr result (self.new ≡ self.old) }
    {
        self.rows = moved_rows(alloc, &self.rows, pairs)?;
        self.version = 2;
        Ok(())
    }
}
