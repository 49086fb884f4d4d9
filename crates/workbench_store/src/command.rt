// What is asked of a store.
ghost use Rattle.std.specs.Prelude.{◌≡◌};

use result_keeper::ProjectName;
use std::marker::Model;

/// Bytes that are given with a command: a file, a tree, or a table.
#[derive(Debug, Drop)]
pub struct Given<'a> {
    bytes: &'a [u8],
}

impl<'a> Model for Given<'a> {
    ghost use Rattle.std.specs.Prelude.{ℕ, List};

    ghost Value = { List ℕ };

    ghost view = { λ g. g.bytes.now };
}

impl<'a> Given<'a> {
    /// These bytes.
    pub fn new(bytes: &'a [u8]) -> Given<'a>
        ensures { result ≡ bytes.now }
    {
        Given { bytes }
    }

    /// The bytes.
    pub fn bytes(&self) -> &'a [u8]
        ensures { result.now ≡ self.now }
    {
        self.bytes
    }
}

/// What is asked of a store: a line of the table of commands, with the bytes of the files that it
/// names.
#[derive(Debug, Drop)]
pub enum Command<'a> {
    /// The check text of a file.
    Check {
        file: Given<'a>,
    },
    /// Keeps a file under a name.
    Add {
        name: ProjectName,
        file: Given<'a>,
    },
    /// The file of a project.
    Show {
        name: ProjectName,
    },
    /// Gives up a project.
    Remove {
        name: ProjectName,
    },
    /// The names of the projects.
    Names,
    /// The report of a project. `fresh`: rows that are kept are not used, but made anew.
    Compute {
        name: ProjectName,
        fresh: bool,
    },
    /// The tree list of a project.
    Trees {
        name: ProjectName,
    },
    /// All that is known of one tree of a project's types.
    Detail {
        name: ProjectName,
        tree: Given<'a>,
    },
    /// A tree is acted on by the character of a table, through the extraction coproduct from the
    /// left, or, where `recentre` is set, through the recentring coproduct from the right.
    Act {
        name: ProjectName,
        tree: Given<'a>,
        table: Given<'a>,
        recentre: bool,
    },
    /// The value on a tree of the product of the characters of two tables.
    Multiply {
        name: ProjectName,
        tree: Given<'a>,
        first: Given<'a>,
        second: Given<'a>,
    },
    /// A summary of the report of the sample file of a number.
    Sample {
        number: u32,
    },
    /// Makes every row anew, and compares.
    Audit,
    /// Makes version 2 of a store of version 1.
    Migrate,
}
