// What the program is asked for.
ghost use Rattle.std.specs.Prelude.{◌≡◌, ◌<◌, map, length, IfOk};
ghost use Rattle.workbench_core.specs.Answers.{file_at};

use crate::command::{Command, Given};
use result_keeper::ProjectName;
use std::alloc::{AllocError, Global};
use workbench_core::Word;

/// What the program is asked for: a line of the table of commands.
#[derive(Debug, Drop)]
pub enum Request<'a> {
    /// `check FILE`: the check text of a file.
    Check {
        file: Word<'a>,
    },
    /// `add NAME FILE`: keeps a file under a name.
    Add {
        name: ProjectName,
        file: Word<'a>,
    },
    /// `show NAME`: the file of a project.
    Show {
        name: ProjectName,
    },
    /// `remove NAME`: gives up a project.
    Remove {
        name: ProjectName,
    },
    /// `names`: the names of the projects.
    Names,
    /// `compute NAME`, `compute NAME --fresh`: the report of a project.
    Compute {
        name: ProjectName,
        fresh: bool,
    },
    /// `trees NAME`: the tree list of a project.
    Trees {
        name: ProjectName,
    },
    /// `detail NAME TREE`: all that is known of one tree of a project's types.
    Detail {
        name: ProjectName,
        tree: Word<'a>,
    },
    /// `act NAME TREE TABLE`, and with `--recentre` at the end: a tree is acted on by the character
    /// of a table file, through the extraction coproduct from the left, or through the recentring
    /// coproduct from the right.
    Act {
        name: ProjectName,
        tree: Word<'a>,
        table: Word<'a>,
        recentre: bool,
    },
    /// `multiply NAME TREE TABLE TABLE`: the value on a tree of the product of the characters of
    /// two table files.
    Multiply {
        name: ProjectName,
        tree: Word<'a>,
        first: Word<'a>,
        second: Word<'a>,
    },
    /// `sample N`: a summary of the report of the sample file of this number.
    Sample {
        number: u32,
    },
    /// `audit`: makes every row anew, and compares.
    Audit,
    /// `migrate`: makes version 2 of a store of version 1.
    Migrate,
}

impl<'a> Request<'a> {
    ghost use Rattle.workbench_store.specs.Requests.{files_of, command_of};

    /// The names of the files that it reads, in their order. Refused only for want of memory.
    pub fn files(&self, alloc: Global) -> Result<Vec<&'a str>, AllocError>
        ensures { IfOk result (λ v. map (λ name. name.now) v.items ≡ files_of self.now) }
    {
        match self {
            Request::Check { file } | Request::Add { file, .. } => {
                Vec::from_slice(alloc, &[file.as_str()])
            }
            Request::Act { table, .. } => Vec::from_slice(alloc, &[table.as_str()]),
            Request::Multiply { first, second, .. } => {
                Vec::from_slice(alloc, &[first.as_str(), second.as_str()])
            }
            _ => Ok(Vec::new(alloc)),
        }
    }

    /// What is asked of the store, where the files that it reads have these bytes.
    pub fn command<'b>(&'b self, files: &'b [Vec<u8>]) -> Command<'b>
        requires { length files.now ≡ length (files_of self.now) }
        ensures { result ≡ command_of self.now (map (λ v. v.items) files.now) }
    {
        match self {
            Request::Check { .. } => Command::Check {
                file: file_at(files, 0),
            },
            Request::Add { name, .. } => Command::Add {
                name: *name,
                file: file_at(files, 0),
            },
            Request::Show { name } => Command::Show { name: *name },
            Request::Remove { name } => Command::Remove { name: *name },
            Request::Names => Command::Names,
            Request::Compute { name, fresh } => Command::Compute {
                name: *name,
                fresh: *fresh,
            },
            Request::Trees { name } => Command::Trees { name: *name },
            Request::Detail { name, tree } => Command::Detail {
                name: *name,
                tree: given(tree),
            },
            Request::Act {
                name,
                tree,
                recentre,
                ..
            } => Command::Act {
                name: *name,
                tree: given(tree),
                table: file_at(files, 0),
                recentre: *recentre,
            },
            Request::Multiply { name, tree, .. } => Command::Multiply {
                name: *name,
                tree: given(tree),
                first: file_at(files, 0),
                second: file_at(files, 1),
            },
            Request::Sample { number } => Command::Sample { number: *number },
            Request::Audit => Command::Audit,
            Request::Migrate => Command::Migrate,
        }
    }
}

// The bytes of a word.
fn given<'a>(word: &Word<'a>) -> Given<'a>
    ensures { result ≡ word.now }
{
    Given::new(word.as_str().as_bytes())
}

// The bytes of the file with this number.
fn file_at(files: &[Vec<u8>], i: usize) -> Given<'_>
    requires { i < length files.now }
    ensures { result ≡ file_at (map (λ v. v.items) files.now) i }
{
    Given::new(&files[i])
}
