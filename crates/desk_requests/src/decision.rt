// What a request may be decided to be.
ghost use Rattle.std.specs.Prelude.{◌≡◌};
ghost use Rattle.desk_requests.specs.Commands.{key_of, status_of};

use result_keeper::ProjectName;
use sqlite_items::Items;

/// What the bytes of a connection decide.
#[derive(Debug, Drop)]
pub enum Decision {
    /// Nothing yet.
    Open,
    /// The request is refused.
    Refused(Refusal),
    /// The request asks for this.
    Asked(Command),
}

/// What the bytes of a connection decide, and how many are wanted.
#[derive(Debug, Drop)]
pub struct Progress {
    /// What they decide.
    pub decision: Decision,
    /// Where that is nothing yet: nothing is decided before there are so many bytes.
    pub wanted: usize,
}

/// What a request asks for.
#[derive(Debug, Drop)]
pub enum Command {
    /// The names of the projects.
    Names,
    /// The file of a project.
    Show(ProjectName),
    /// Keeps this text as the file of a project.
    Add(ProjectName, Items<u8>),
    /// Removes a project.
    Remove(ProjectName),
    /// The report of a project.
    Report(ProjectName),
    /// The tree list of a project.
    Trees(ProjectName),
    /// The detail text of a tree, by its text.
    Detail(ProjectName, Items<u8>),
}

/// Why a request is refused before any command acts.
#[derive(Clone, Copy, Debug, PartialEq, Eq)]
pub enum Refusal {
    /// No head within the bounds, no length that can be read, or no body in the grammar.
    BadRequest,
    /// No place of the desk.
    NotFound,
    /// A place that has other methods, these.
    MethodNotAllowed(Methods),
    /// A body whose length is not told.
    LengthRequired,
    /// A body of more than 1,048,576 bytes.
    TooLarge,
}

/// The methods that a place of the desk has.
#[derive(Clone, Copy, Debug, PartialEq, Eq)]
pub enum Methods {
    /// GET.
    Get,
    /// GET, PUT and DELETE.
    GetPutDelete,
    /// POST.
    Post,
}

/// The member of a body that has the text.
#[derive(Clone, Copy, Debug, PartialEq, Eq)]
pub enum Member {
    /// `file`, the file of a project.
    File,
    /// `tree`, the text of a tree.
    Tree,
}

/// What a method asks for at a place.
#[derive(Debug, Drop)]
pub enum Ask {
    /// A command that takes no body.
    Plain(Command),
    /// A command that takes the text in its body.
    WithText(Member, ProjectName),
}

impl Progress {
    /// That no head can come.
    pub(crate) fn hopeless() -> Progress
        ensures { result.decision ≡ Decision.Refused Refusal.BadRequest }
    {
        Progress {
            decision: Decision::Refused(Refusal::BadRequest),
            wanted: 0,
        }
    }
}

impl Refusal {
    /// The status of the response.
    pub fn status(self) -> u16
        ensures { result ≡ status_of self }
    {
        match self {
            Refusal::BadRequest => 400,
            Refusal::NotFound => 404,
            Refusal::MethodNotAllowed(_) => 405,
            Refusal::LengthRequired => 411,
            Refusal::TooLarge => 413,
        }
    }
}

impl Member {
    /// Its key.
    pub fn key(self) -> &'static str
        ensures { result.now ≡ key_of self }
    {
        match self {
            Member::File => "file",
            Member::Tree => "tree",
        }
    }
}
