// Each call that a run makes of the outside fails once, one at a time.
use crate::commands::{COMMANDS, Command};
use crate::kept::{Content, content_of};
use crate::runs::{Failing, NONE, Object, Run, run_line};
use result_keeper::MemoryKeeper;
use std::alloc::Global;
use std::test::Fail;

// In the order in which a command's calls are counted.
const OBJECTS: [Object; 5] = [
    Object::Files,
    Object::Keeper,
    Object::Out,
    Object::ErrorStream,
    Object::Door,
];

// No run makes more calls of one object.
const MOST_CALLS: u64 = 20;

// Two runs of a command one after the other, in which no call fails, and what the store holds
// before and after the first one.
#[derive(Drop)]
struct Good {
    old: Content,
    new: Content,
    first: Run,
    second: Run,
}

fn run_well(alloc: Global, command: &Command) -> Result<Good, Fail> {
    let mut keeper = command.store.keeper(alloc, 0)?;
    let old = content_of(alloc, &mut keeper)?;
    let first = run_line(alloc, &mut keeper, command.line, command.given, NONE)?;
    let new = content_of(alloc, &mut keeper)?;
    let second = run_line(alloc, &mut keeper, command.line, command.given, NONE)?;
    Ok(Good {
        old,
        new,
        first,
        second,
    })
}

// Whether a peer was answered that the store failed.
fn is_answered(run: &Run) -> bool {
    run.leaves(0, "answered 500\n", "") && run.response.starts_with(b"HTTP/1.1 500 ")
}

// Whether a run ended as it does where a call of this object failed.
fn has_cause(object: Object, run: &Run, good: &Run) -> bool {
    match object {
        Object::Files => run.leaves(3, "", "refused 3 FileFault\n"),
        Object::Keeper => run.leaves(11, "", "refused 11 StoreFault\n") || is_answered(run),
        Object::Out => run.leaves(15, "", "refused 15 WriteFault\n"),
        Object::ErrorStream => run.code == 15 && run.out == good.out && run.err.is_empty(),
        Object::Door => run.leaves(16, "", "refused 16 DoorFault\n")
            || run.leaves(0, "dropped\n", ""),
    }
}

// Whether the command was done whole or not at all, so that the next run is that over the old store
// or over the new one.
fn is_whole(
    alloc: Global,
    command: &Command,
    keeper: &mut MemoryKeeper,
    good: &Good,
) -> Result<bool, Fail> {
    let content = content_of(alloc, keeper)?;
    let next = run_line(alloc, keeper, command.line, command.given, NONE)?;
    Ok((content == good.old && next == good.first) || (content == good.new && next == good.second))
}

// How many calls of an object change the run where they fail, from the first one on. None where a
// fault is not told as it should be, or does not leave the store whole.
fn told_calls(
    alloc: Global,
    command: &Command,
    object: Object,
    good: &Good,
) -> Result<Option<u64>, Fail> {
    for calls in 0..MOST_CALLS {
        let failing = Failing::at(object, calls + 1);
        let mut keeper = command.store.keeper(alloc, failing.keeper)?;
        let run = run_line(alloc, &mut keeper, command.line, command.given, failing)?;
        if run == good.first {
            return Ok(Some(calls));
        }
        if !has_cause(object, &run, &good.first) || !is_whole(alloc, command, &mut keeper, good)? {
            return Ok(None);
        }
    }
    Ok(None)
}

#[test]
fn each_call_that_fails_is_told_and_leaves_the_store_whole(rt: HostRuntime) -> Result<(), Fail> {
    for command in COMMANDS {
        let good = run_well(rt.alloc(), command)?;
        for (object, calls) in OBJECTS.iter().zip(command.calls.iter()) {
            let told = told_calls(rt.alloc(), command, *object, &good)?;
            assert_eq!(rt; told, Some(*calls), "{} {:?}", command.line, object);
        }
    }
    Ok(())
}
