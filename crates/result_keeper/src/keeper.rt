// What the workbench asks of its store.
ghost use Rattle.std.specs.Prelude.{◌≡◌, ◌≤◌, ℕ, map, Option, IfOk, OnOk, OnErr, IfSome, Err};
ghost use Rattle.std.specs.FinMap.{get, contains_key};
ghost use Rattle.wb_outside.specs.Causes.{Rose};
ghost use Rattle.result_keeper.specs.Kept.{Kept, put_answer, after_put, without_project, names_of, contexts_of, results_of, with_rows, migrated, CanMigrate};
ghost use Rattle.result_keeper.specs.Told.{Becomes, Stays};
ghost use Rattle.result_keeper.specs.Entries.{file_bytes, pair_of, context_pair};

use crate::error::KeeperError;
use crate::parts::{ContextPair, StoredRow};
use crate::project_name::ProjectName;
use crate::put::Put;
use std::alloc::Global;

/// A store of projects and of results.
///
/// A keeper may tell its tables: their version, the projects as a finite map from names to files,
/// and the rows of results as a finite map from contexts and trees to values. One that tells goes
/// on telling. After an error all is as before.
pub trait Keeper {
    /// The version of the tables, 1 or 2.
    ghost version: { Self → ℕ };

    /// The tables, where the keeper tells them.
    ghost told: { Self → Option Kept };

    /// How many calls have failed, as far as 2^64 - 1.
    ghost faults: { Self → ℕ };

    /// The version of the tables. It takes no memory, and cannot fail.
    fn version(&self) -> u8
        ensures value { result ≡ version self.now }
        ensures at_least { 1 ≤ result }
        ensures at_most { result ≤ 2 }
        ensures told { IfSome (told self.now) (λ k. result ≡ k.version) };

    /// The file of a project: `None` exactly where no project of that name is kept.
    fn project(&mut self, alloc: Global, name: &ProjectName) -> Result<Option<Vec<u8>>, KeeperError>
        ensures file { IfOk result (λ file. IfSome (told self.new) (λ k. file_bytes file
            ≡ get k.projects name.now)) }
        ensures stays { Stays (told self.old) (told self.new) }
        ensures version { version self.new ≡ version self.old }
        ensures later { faults self.old ≤ faults self.new }
        ensures cause { result ≡ Err KeeperError.Failed → Rose (faults self.old) (faults self.new) };

    /// Keeps a file under a name. `Replaced` exactly where a project of that name is kept, `Full`
    /// exactly where the name is new and at least 10,000 projects are kept, `Added` else.
    fn put_project(
        &mut self,
        alloc: Global,
        name: &ProjectName,
        file: &[u8],
    ) -> Result<Put, KeeperError>
        ensures answer { IfOk result (λ put. IfSome (told self.old) (λ k. put
            ≡ put_answer k.projects name.now)) }
        ensures put { IfOk result (λ put. Becomes (after_put put name.now file.now) (told self.old)
            (told self.new)) }
        ensures err { OnErr result (Stays (told self.old) (told self.new)) }
        ensures version { version self.new ≡ version self.old }
        ensures later { faults self.old ≤ faults self.new }
        ensures cause { result ≡ Err KeeperError.Failed → Rose (faults self.old) (faults self.new) };

    /// Gives up a project, and says whether it was kept. Rows stay.
    fn remove_project(&mut self, alloc: Global, name: &ProjectName) -> Result<bool, KeeperError>
        ensures kept { IfOk result (λ kept. IfSome (told self.old) (λ k. kept
            ≡ contains_key k.projects name.now)) }
        ensures removed { OnOk result (Becomes (without_project name.now) (told self.old)
            (told self.new)) }
        ensures err { OnErr result (Stays (told self.old) (told self.new)) }
        ensures version { version self.new ≡ version self.old }
        ensures later { faults self.old ≤ faults self.new }
        ensures cause { result ≡ Err KeeperError.Failed → Rose (faults self.old) (faults self.new) };

    /// The names of the projects, in the order of their bytes.
    fn names(&mut self, alloc: Global) -> Result<Vec<ProjectName>, KeeperError>
        ensures names { IfOk result (λ names. IfSome (told self.new) (λ k. names.items
            ≡ names_of k)) }
        ensures stays { Stays (told self.old) (told self.new) }
        ensures version { version self.new ≡ version self.old }
        ensures later { faults self.old ≤ faults self.new }
        ensures cause { result ≡ Err KeeperError.Failed → Rose (faults self.old) (faults self.new) };

    /// The contexts that have a row, in the order of their bytes.
    fn contexts(&mut self, alloc: Global) -> Result<Vec<Vec<u8>>, KeeperError>
        ensures contexts { IfOk result (λ contexts. IfSome (told self.new)
            (λ k. map (λ c. c.items) contexts.items ≡ contexts_of k)) }
        ensures stays { Stays (told self.old) (told self.new) }
        ensures version { version self.new ≡ version self.old }
        ensures later { faults self.old ≤ faults self.new }
        ensures cause { result ≡ Err KeeperError.Failed → Rose (faults self.old) (faults self.new) };

    /// The rows of a context, in the order of the bytes of their trees.
    fn results(&mut self, alloc: Global, context: &[u8]) -> Result<Vec<StoredRow>, KeeperError>
        ensures rows { IfOk result (λ rows. IfSome (told self.new) (λ k. map pair_of rows.items
            ≡ results_of k context.now)) }
        ensures stays { Stays (told self.old) (told self.new) }
        ensures version { version self.new ≡ version self.old }
        ensures later { faults self.old ≤ faults self.new }
        ensures cause { result ≡ Err KeeperError.Failed → Rose (faults self.old) (faults self.new) };

    /// Keeps rows of a context, in their order: each is added, or replaces the row of its tree. So
    /// of several rows of one tree the last one stands. After an error no row changed.
    fn put_results(
        &mut self,
        alloc: Global,
        context: &[u8],
        rows: &[StoredRow],
    ) -> Result<(), KeeperError>
        ensures put { OnOk result (Becomes (with_rows context.now (map pair_of rows.now))
            (told self.old) (told self.new)) }
        ensures err { OnErr result (Stays (told self.old) (told self.new)) }
        ensures version { version self.new ≡ version self.old }
        ensures later { faults self.old ≤ faults self.new }
        ensures cause { result ≡ Err KeeperError.Failed → Rose (faults self.old) (faults self.new) };

    /// Makes version 2 of tables of version 1: each row stands under the new context of its own.
    /// The old contexts of the pairs are the contexts in order, the new ones are distinct, and none
    /// of them is an old one. After an error nothing changed.
    fn migrate(&mut self, alloc: Global, pairs: &[ContextPair]) -> Result<(), KeeperError>
        requires old { version self.old ≡ 1 }
        requires pairs { IfSome (told self.old) (CanMigrate (map context_pair pairs.now)) }
        ensures migrated { OnOk result (Becomes (migrated (map context_pair pairs.now))
            (told self.old) (told self.new)) }
        ensures new_version { OnOk result (version self.new ≡ 2) }
        ensures err { OnErr result (Stays (told self.old) (told self.new)) }
        ensures old_version { OnErr result (version self.new ≡ version self.old) }
        ensures later { faults self.old ≤ faults self.new }
        ensures cause { result ≡ Err KeeperError.Failed → Rose (faults self.old) (faults self.new) };
}
