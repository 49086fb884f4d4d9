// What the program is asked for.
ghost use Rattle.std.specs.Prelude.{◌≡◌, map, IfOk};

use std::alloc::{AllocError, Global};
use std::marker::Model;

/// A word of the command line.
#[derive(Debug, Drop)]
pub struct Word<'a> {
    text: &'a str,
}

impl<'a> Model for Word<'a> {
    ghost use Rattle.std.specs.Prelude.{ℕ, List};

    ghost Value = { List ℕ };

    ghost view = { λ w. w.text.now };
}

impl<'a> Word<'a> {
    /// The word with this text.
    pub fn new(text: &'a str) -> Word<'a>
        ensures { result ≡ text.now }
    {
        Word { text }
    }

    /// Its text.
    pub fn as_str(&self) -> &'a str
        ensures { result.now ≡ self.now }
    {
        self.text
    }
}

/// What the program is asked for: a line of the table of commands.
#[derive(Debug, Drop)]
pub enum Request<'a> {
    /// `check FILE`: the check text of a file.
    Check {
        file: Word<'a>,
    },
    /// `compute NAME`: the report of a project.
    Compute {
        name: Word<'a>,
    },
    /// `trees NAME`: the tree list of a project.
    Trees {
        name: Word<'a>,
    },
    /// `detail NAME TREE`: all that is known of one tree of a project's types.
    Detail {
        name: Word<'a>,
        tree: Word<'a>,
    },
    /// `act NAME TREE TABLE`, and with `--recentre` at the end: a tree is acted on by the character
    /// of a table file, through the extraction coproduct from the left,
    /// or through the recentring coproduct from the right.
    Act {
        name: Word<'a>,
        tree: Word<'a>,
        table: Word<'a>,
        recentre: bool,
    },
    /// `multiply NAME TREE TABLE TABLE`: the value on a tree of the product of the characters of
    /// two table files.
    Multiply {
        name: Word<'a>,
        tree: Word<'a>,
        first: Word<'a>,
        second: Word<'a>,
    },
    /// `sample N`: a summary of the report of the sample file of this number.
    Sample {
        number: u32,
    },
}

impl<'a> Request<'a> {
    ghost use Rattle.workbench_core.specs.Requests.{files_of};

    /// The names of the files that it reads, in their order. Refused only for want of memory.
    pub fn files(&self, alloc: Global) -> Result<Vec<&'a str>, AllocError>
        ensures { IfOk result (λ v. map (λ name. name.now) v.items ≡ files_of self.now) }
    {
        match self {
            Request::Check { file } => Vec::from_slice(alloc, &[file.as_str()]),
            Request::Compute { name } | Request::Trees { name } | Request::Detail { name, .. } =>
                Vec::from_slice(alloc, &[name.as_str()]),
            Request::Act { name, table, .. } => {
                Vec::from_slice(alloc, &[name.as_str(), table.as_str()])
            }
            Request::Multiply {
                name,
                first,
                second,
                ..
            } => Vec::from_slice(alloc, &[name.as_str(), first.as_str(), second.as_str()]),
            Request::Sample { .. } => Ok(Vec::new(alloc)),
        }
    }
}
