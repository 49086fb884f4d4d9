// Commands that are drawn by a fixed rule, over a keeper in memory and over a database.
use crate::commands::Command;
use crate::keepers::database;
use crate::model::{Model, page_line};
use crate::runs::{Run, run_line};
use result_keeper::{Keeper, KeeperError, QuietKeeper};
use std::alloc::Global;
use std::test::Fail;
use wb_outside::OutsideError;

fn run_command<K: Keeper>(
    alloc: Global,
    keeper: &mut K,
    command: Command,
) -> Result<Run, OutsideError> {
    let line = command.line(alloc)?;
    run_line(alloc, keeper, &line, command.file())
}

// The names of a keeper, and each of its contexts, with the number of its rows.
fn outline_of<K: Keeper>(alloc: Global, keeper: &mut K) -> Result<Vec<u8>, KeeperError> {
    let mut lines = Vec::new(alloc);
    for name in keeper.names(alloc)? {
        lines.extend_from_slice(name.bytes())?;
        lines.push(b'\n')?;
    }
    for context in keeper.contexts(alloc)? {
        let rows = keeper.results(alloc, &context)?.len();
        lines.extend_from_slice(&page_line(alloc, &context, rows)?)?;
    }
    Ok(lines)
}

// Whether two keepers have the same tables.
fn are_alike<K: Keeper, L: Keeper>(
    alloc: Global,
    one: &mut K,
    other: &mut L,
) -> Result<bool, KeeperError> {
    let names = one.names(alloc)?;
    let contexts = one.contexts(alloc)?;
    if names != other.names(alloc)? || contexts != other.contexts(alloc)? {
        return Ok(false);
    }
    for name in names {
        if one.project(alloc, &name)? != other.project(alloc, &name)? {
            return Ok(false);
        }
    }
    for context in contexts {
        if one.results(alloc, &context)? != other.results(alloc, &context)? {
            return Ok(false);
        }
    }
    Ok(one.version() == other.version())
}

#[test]
fn commands_leave_what_a_plain_model_says(rt: HostRuntime) -> Result<(), Fail> {
    let alloc = rt.alloc();
    let mut model = Model::new(alloc)?;
    let mut memory = QuietKeeper::new(alloc);
    let mut database = database(alloc)?;
    for number in 0..300u32 {
        let command = Command::drawn(number);
        let wanted = model.step(alloc, command)?;
        let in_memory = run_command(alloc, &mut memory, command)?;
        assert_eq!(rt; in_memory, wanted, "{number} {command:?}");
        let in_database = run_command(alloc, &mut database, command)?;
        assert_eq!(rt; in_database, wanted, "{number} {command:?}");
    }
    let outline = model.outline(alloc)?;
    assert_eq!(rt; outline_of(alloc, &mut memory)?, outline);
    assert_eq!(rt; outline_of(alloc, &mut database)?, outline);
    assert!(rt; are_alike(alloc, &mut memory, &mut database)?);
    Ok(())
}
