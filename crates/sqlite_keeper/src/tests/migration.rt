// Migrations of a keeper in memory and of one over a database.
ghost use Rattle.std.specs.Prelude.{◌≡◌, map, not, [], ◌∷◌, IfOk};
ghost use Rattle.std.specs.List.{list_any};
ghost use Rattle.std.specs.Str.{bytes_eq};
ghost use Rattle.result_keeper.specs.Entries.{context_pair};
ghost use Rattle.result_keeper.specs.Kept.{Kept, contexts_of, CanMigrate};

use crate::SqliteKeeper;
use crate::tests::calls::{Call, failures};
use crate::tests::{PROJECT, RESULT, keeper_over};
use result_keeper::{ContextPair, Keeper, KeeperError, MemoryKeeper};
use std::alloc::{AllocError, Global};
use std::test::Fail;

fn pair(alloc: Global, old: &[u8], new: &[u8]) -> Result<ContextPair, AllocError>
    ensures { IfOk result (λ p. context_pair p ≡ (old.now, new.now)) }
{
    Ok(ContextPair {
        old: Vec::from_slice(alloc, old)?,
        new: Vec::from_slice(alloc, new)?,
    })
}

// Whether a context is neither of two others.
fn is_neither(context: &[u8], first: &[u8], second: &[u8]) -> bool
    ensures { list_any (bytes_eq context.now) (first.now ∷ second.now ∷ []) ≡ not result }
{
    context != first && context != second
}

// Pairs of two contexts with new ones, which differ from each other and from both.
fn pairs_of(
    alloc: Global,
    contexts: &[Vec<u8>],
    one: &[u8],
    other: &[u8],
) -> Result<Vec<ContextPair>, KeeperError>
    ensures { IfOk result (λ pairs. (k : Kept) → map (λ c. c.items) contexts.now ≡ contexts_of k
        → CanMigrate (map context_pair pairs.items) k) }
{
    let [first, second] = contexts else {
        return Err(KeeperError::Failed);
    };
    if one == other {
        return Err(KeeperError::Failed);
    }
    if !is_neither(one, first, second) {
        return Err(KeeperError::Failed);
    }
    if !is_neither(other, first, second) {
        return Err(KeeperError::Failed);
    }
    let pairs = vec![in alloc; pair(alloc, first, one)?, pair(alloc, second, other)?]?;
    Ok(pairs)
}

// Puts the rows of the two contexts of a keeper of version 1 under new ones.
fn migrate<K: Keeper>(alloc: Global, keeper: &mut K) -> Result<(), KeeperError> {
    let contexts = keeper.contexts(alloc)?;
    let pairs = pairs_of(alloc, &contexts, b"new first", b"new second")?;
    if keeper.version() != 1 {
        return Err(KeeperError::Failed);
    }
    keeper.migrate(alloc, &pairs)
}

const BEFORE: [(Call, &str); 7] = [
    (Call::Names, "kpz"),
    (Call::Project("kpz"), "two"),
    (Call::Contexts, "first second"),
    (Call::Results("first"), "[xi] 3 0"),
    (Call::Results("second"), "[X] 4 0 [xi] 2 0"),
    (Call::Results("new first"), ""),
    (Call::Results("new second"), ""),
];

const AFTER: [(Call, &str); 7] = [
    (Call::Names, "kpz"),
    (Call::Project("kpz"), "two"),
    (Call::Contexts, "new first new second"),
    (Call::Results("first"), ""),
    (Call::Results("second"), ""),
    (Call::Results("new first"), "[xi] 3 0"),
    (Call::Results("new second"), "[X] 4 0 [xi] 2 0"),
];

const KEPT: [(Call, &str); 3] = [
    (Call::Put("kpz", "two"), "Added"),
    (Call::PutResults("second", &[("[xi]", 2), ("[X]", 4)]), ""),
    (Call::PutResults("first", &[("[xi]", 3)]), ""),
];

// A keeper of version 1 without projects and rows, in which the calls with these numbers fail.
#[tactic(auto, using(result_keeper::proofs::Short::one_project, result_keeper::proofs::Short::one_row))]
fn old_keeper(alloc: Global, failing: Vec<u64>) -> MemoryKeeper {
    MemoryKeeper::old(Vec::new(alloc), Vec::new(alloc), failing)
}

#[test]
fn a_keeper_in_memory_migrates_all_or_nothing(rt: HostRuntime) -> Result<(), Fail> {
    let alloc = rt.alloc();
    // Three calls put what is kept, seven look at it, and two begin a migration.
    let mut keeper = old_keeper(alloc, vec![in alloc; 12]?);
    failures(&rt, alloc, &mut keeper, &KEPT)?;
    failures(&rt, alloc, &mut keeper, &BEFORE)?;
    assert_eq!(rt; migrate(alloc, &mut keeper), Err(KeeperError::Failed));
    assert_eq!(rt; keeper.version(), 1);
    failures(&rt, alloc, &mut keeper, &BEFORE)?;
    migrate(alloc, &mut keeper)?;
    assert_eq!(rt; keeper.version(), 2);
    failures(&rt, alloc, &mut keeper, &AFTER)?;
    Ok(())
}

const FIRST_RESULT: &str =
    "CREATE TABLE result(context BLOB NOT NULL, tree BLOB NOT NULL, value BLOB NOT NULL, UNIQUE(context, tree)) STRICT";

// Takes no context of ten bytes, as `new second` is one.
const NARROW_RESULT: &str =
    "CREATE TABLE result(context BLOB NOT NULL CHECK (length(context) < 10), tree BLOB NOT NULL, value BLOB NOT NULL, UNIQUE(context, tree)) STRICT";

const KPZ: &str = "INSERT INTO project(name, file) VALUES ('kpz', x'74776f')";

// The rows of `KEPT`: of `second`, then of `first`.
const ROWS: &str = "INSERT INTO result(context, tree, value) VALUES \
    (x'7365636f6e64', x'5b78695d', x'322030'), (x'7365636f6e64', x'5b585d', x'342030'), \
    (x'6669727374', x'5b78695d', x'332030')";

#[test]
fn an_old_database_migrates(rt: HostRuntime) -> Result<(), Fail> {
    let alloc = rt.alloc();
    let mut keeper = keeper_over(alloc, &[PROJECT, FIRST_RESULT, KPZ, ROWS])?;
    assert_eq!(rt; keeper.version(), 1);
    failures(&rt, alloc, &mut keeper, &BEFORE)?;
    migrate(alloc, &mut keeper)?;
    assert_eq!(rt; keeper.version(), 2);
    failures(&rt, alloc, &mut keeper, &AFTER)?;
    // So it is when the store is opened again.
    let mut keeper = SqliteKeeper::new(alloc, keeper.into_connection())?;
    assert_eq!(rt; keeper.version(), 2);
    failures(&rt, alloc, &mut keeper, &AFTER)?;
    Ok(())
}

#[test]
fn a_migration_that_fails_at_its_second_context_changes_nothing(
    rt: HostRuntime,
) -> Result<(), Fail> {
    let alloc = rt.alloc();
    let mut keeper = keeper_over(alloc, &[PROJECT, NARROW_RESULT, KPZ, ROWS])?;
    assert_eq!(rt; migrate(alloc, &mut keeper), Err(KeeperError::Failed));
    assert_eq!(rt; keeper.version(), 1);
    failures(&rt, alloc, &mut keeper, &BEFORE)?;
    Ok(())
}
