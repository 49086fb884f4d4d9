// Calls of a keeper with their answers, over keepers in memory and over a database.
use crate::SqliteKeeper;
use crate::tests::{name, row};
use result_keeper::{Keeper, KeeperError, MemoryKeeper, ProjectName, StoredRow};
use sqlite::Connection;
use std::alloc::{AllocError, Global};
use std::process::Abort;
use std::test::Fail;

// A call of a keeper.
#[derive(Clone, Copy, Debug)]
pub enum Call {
    // A project and its file.
    Put(&'static str, &'static str),
    Remove(&'static str),
    Project(&'static str),
    Names,
    // A context, and its rows: trees with the masses of their values.
    PutResults(&'static str, &'static [(&'static str, u32)]),
    Contexts,
    Results(&'static str),
}

// Puts a word behind others.
fn put_word(text: &mut Vec<u8>, word: &[u8]) -> Result<(), AllocError> {
    if !text.is_empty() {
        text.push(b' ')?;
    }
    text.extend_from_slice(word)
}

fn rows_of(alloc: Global, given: &[(&str, u32)]) -> Result<Vec<StoredRow>, AllocError> {
    let mut rows = Vec::new(alloc);
    for (tree, mass) in given {
        rows.push(row(alloc, tree, *mass)?)?;
    }
    Ok(rows)
}

// Rows as words: each tree and its value.
fn text_of_rows(alloc: Global, rows: &[StoredRow]) -> Result<Vec<u8>, AllocError> {
    let mut text = Vec::new(alloc);
    for row in rows {
        put_word(&mut text, &row.tree)?;
        put_word(&mut text, &row.value)?;
    }
    Ok(text)
}

fn names_text<K: Keeper>(alloc: Global, keeper: &mut K) -> Result<Vec<u8>, KeeperError> {
    let mut text = Vec::new(alloc);
    for name in keeper.names(alloc)?.as_slice() {
        put_word(&mut text, name.bytes())?;
    }
    Ok(text)
}

fn contexts_text<K: Keeper>(alloc: Global, keeper: &mut K) -> Result<Vec<u8>, KeeperError> {
    let mut text = Vec::new(alloc);
    for context in keeper.contexts(alloc)?.as_slice() {
        put_word(&mut text, context)?;
    }
    Ok(text)
}

fn put_text<K: Keeper>(
    alloc: Global,
    keeper: &mut K,
    project: &ProjectName,
    file: &str,
) -> Result<Vec<u8>, KeeperError> {
    let put = keeper.put_project(alloc, project, file.as_bytes())?;
    Ok(format!(in alloc; "{put:?}")?.into_bytes())
}

fn removed_text<K: Keeper>(
    alloc: Global,
    keeper: &mut K,
    project: &ProjectName,
) -> Result<Vec<u8>, KeeperError> {
    let was_kept = keeper.remove_project(alloc, project)?;
    Ok(format!(in alloc; "{was_kept}")?.into_bytes())
}

fn project_text<K: Keeper>(
    alloc: Global,
    keeper: &mut K,
    project: &ProjectName,
) -> Result<Vec<u8>, KeeperError> {
    let file = keeper.project(alloc, project)?;
    Ok(file.unwrap_or(Vec::new(alloc)))
}

fn put_rows<K: Keeper>(
    alloc: Global,
    keeper: &mut K,
    context: &str,
    given: &[(&str, u32)],
) -> Result<Vec<u8>, KeeperError> {
    let rows = rows_of(alloc, given)?;
    keeper.put_results(alloc, context.as_bytes(), &rows)?;
    Ok(Vec::new(alloc))
}

fn results_text<K: Keeper>(
    alloc: Global,
    keeper: &mut K,
    context: &str,
) -> Result<Vec<u8>, KeeperError> {
    let rows = keeper.results(alloc, context.as_bytes())?;
    Ok(text_of_rows(alloc, &rows)?)
}

// What a keeper answers a call, as a text.
fn answer<K: Keeper>(
    rt: &impl Abort,
    alloc: Global,
    keeper: &mut K,
    call: Call,
) -> Result<Vec<u8>, KeeperError> {
    match call {
        Call::Put(project, file) => put_text(alloc, keeper, &name(rt, project), file),
        Call::Remove(project) => removed_text(alloc, keeper, &name(rt, project)),
        Call::Project(project) => project_text(alloc, keeper, &name(rt, project)),
        Call::Names => names_text(alloc, keeper),
        Call::PutResults(context, given) => put_rows(alloc, keeper, context, given),
        Call::Contexts => contexts_text(alloc, keeper),
        Call::Results(context) => results_text(alloc, keeper, context),
    }
}

// Makes calls, each that fails once more, and looks at their answers. Says which calls failed, counted
// from 1.
pub fn failures<K: Keeper>(
    rt: &impl Abort,
    alloc: Global,
    keeper: &mut K,
    calls: &[(Call, &str)],
) -> Result<Vec<u64>, KeeperError> {
    let mut failed = Vec::new(alloc);
    let mut count = 0u64;
    for (call, want) in calls {
        count = count.saturating_add(1);
        let mut found = answer(rt, alloc, keeper, *call);
        if matches!(found, Err(KeeperError::Failed)) {
            failed.push(count)?;
            count = count.saturating_add(1);
            found = answer(rt, alloc, keeper, *call);
        }
        assert_eq!(rt; found?.as_slice(), want.as_bytes(), "{call:?}");
    }
    Ok(failed)
}

const CALLS: [(Call, &str); 22] = [
    (Call::Names, ""),
    (Call::Contexts, ""),
    (Call::Project("pam"), ""),
    (Call::Remove("pam"), "false"),
    (Call::Put("pam", "one"), "Added"),
    (Call::Put("kpz", "two"), "Added"),
    (Call::Put("pam", "three"), "Replaced"),
    (Call::Names, "kpz pam"),
    (Call::Project("pam"), "three"),
    // Of two rows of one tree the last one stands.
    (
        Call::PutResults("second", &[("[xi]", 0), ("[X]", 1), ("[xi]", 2)]),
        "",
    ),
    (Call::PutResults("first", &[("[xi]", 3)]), ""),
    (Call::PutResults("third", &[]), ""),
    (Call::Contexts, "first second"),
    (Call::Results("second"), "[X] 1 0 [xi] 2 0"),
    (Call::PutResults("second", &[("[X]", 4), ("[]", 5)]), ""),
    (Call::Results("second"), "[X] 4 0 [] 5 0 [xi] 2 0"),
    (Call::Results("first"), "[xi] 3 0"),
    (Call::Remove("pam"), "true"),
    (Call::Remove("pam"), "false"),
    (Call::Names, "kpz"),
    (Call::Project("kpz"), "two"),
    // Rows stay where a project goes.
    (Call::Contexts, "first second"),
];

// A keeper without projects and rows, in which the calls with these numbers fail.
#[tactic(auto, using(result_keeper::proofs::Short::one_project, result_keeper::proofs::Short::one_row))]
fn failing_keeper(alloc: Global, failing: Vec<u64>) -> MemoryKeeper {
    MemoryKeeper::new(Vec::new(alloc), Vec::new(alloc), failing)
}

#[test]
fn calls_are_answered_in_memory_and_over_a_database(rt: HostRuntime) -> Result<(), Fail> {
    let alloc = rt.alloc();
    let failing = [1, 6, 10, 14, 18, 22, 26];
    let mut memory = failing_keeper(alloc, failing.to_vec(alloc)?);
    let failed = failures(&rt, alloc, &mut memory, &CALLS)?;
    assert_eq!(rt; failed.as_slice(), failing.as_slice());
    let mut database = SqliteKeeper::new(alloc, Connection::open_in_memory(alloc)?)?;
    let failed = failures(&rt, alloc, &mut database, &CALLS)?;
    assert_eq!(rt; failed.len(), 0);
    Ok(())
}
