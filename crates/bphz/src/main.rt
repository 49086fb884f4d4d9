//! The program `bphz`: it makes the real objects, runs the command over them, and ends with its
//! status.
#![tactic(auto)]

use extraction_coproduct::Work;
use result_keeper::KeeperError;
use sqlite::{Connection, Error, ErrorCode, File, FileStore};
use sqlite_keeper::SqliteKeeper;
use std::alloc::Global;
use std::env::Env;
use std::io::ErrorKind;
use std::process::ExitCode;
use std::{env, io};
use wb_outside::{HostFiles, Sink, StreamSink, TcpDoor};
use workbench_cli::{Status, workbench};
use workbench_core::FixedRefusal;

// The file of the store, in the current folder.
const STORE: &str = "bphz.db";

// The words after the program's name, or the refusal where there is no memory for them, or where
// they are not text.
fn words_of(rt: &(impl Env + Alloc<A = Global>)) -> Result<Vec<String>, FixedRefusal> {
    let words = match env::args(rt) {
        Ok(words) => words,
        Err(error) if error.kind() == ErrorKind::OutOfMemory => return Err(FixedRefusal::Memory),
        Err(_) => return Err(FixedRefusal::Words),
    };
    words
        .skip(1)
        .collect(rt.alloc())
        .map_err(|_| FixedRefusal::Memory)
}

// The store, which is made where there is none; or the refusal where it cannot be opened.
fn open_store(rt: &HostRuntime) -> Result<SqliteKeeper<FileStore<File>>, FixedRefusal> {
    let connection = match Connection::open(rt, STORE) {
        Ok(connection) => connection,
        Err(Error::SqliteFailure(ErrorCode::OutOfMemory)) => return Err(FixedRefusal::Memory),
        Err(_) => return Err(FixedRefusal::StoreFault),
    };
    match SqliteKeeper::new(rt.alloc(), connection) {
        Ok(keeper) => Ok(keeper),
        Err(KeeperError::Memory) => Err(FixedRefusal::Memory),
        Err(KeeperError::Failed) => Err(FixedRefusal::StoreFault),
    }
}

// Runs the command of the program's words over the store in the current folder.
fn run<E: Sink>(rt: &HostRuntime, err: &mut E) -> Result<Status, FixedRefusal> {
    let words = words_of(rt)?;
    let mut keeper = open_store(rt)?;
    let mut files = HostFiles::new(rt);
    let mut door = TcpDoor::new(rt);
    let mut out = StreamSink::new(rt.stdout());
    let mut work = Work { tables: 0 };
    let status = workbench(
        rt.alloc(),
        &words,
        &mut files,
        &mut keeper,
        &mut door,
        &mut out,
        err,
        &mut work,
    );
    // What the command put stands in the log of the database, whether or not the log can be copied
    // into its file now.
    let _ = keeper.into_connection().close();
    Ok(status)
}

fn main(rt: HostRuntime) -> ExitCode {
    let mut err = StreamSink::new(rt.stderr());
    match run(&rt, &mut err) {
        Ok(status) => ExitCode::from(status.code),
        Err(refusal) => {
            let _ = err.write(refusal.line());
            ExitCode::from(refusal.status())
        }
    }
}
