// The responses to commands.
ghost use Rattle.std.specs.Prelude.{◌≡◌, IfOk};
ghost use Rattle.http_desk.specs.Pages.{page_of};
ghost use Rattle.http_desk.specs.Replies.{named, names_page, text_page, put_page, removed_page, status_for, refused_page};

use crate::clerk::Reply;
use desk_responses::{Content, Status, put_names};
use result_keeper::{ProjectName, Put};
use std::alloc::{AllocError, Global};

const NO_PROJECT_OR_FULL: u8 = 10;

const STORE_FAULT: u8 = 11;

const STORED_ROW: u8 = 12;

const NO_MEMORY: u8 = 17;

const OLD_STORE: u8 = 19;

// A word, a name and a line feed.
fn named(alloc: Global, word: &str, name: &ProjectName) -> Result<Vec<u8>, AllocError>
    ensures { IfOk result (λ v. v.items ≡ named word.now name.now) }
{
    let mut text = word.as_bytes().to_vec(alloc)?;
    text.extend_from_slice(name.bytes())?;
    text.extend_from_slice(b"\n")?;
    Ok(text)
}

/// The status of the response to a command that is refused with this status of the program. Those
/// of status 10 are that there is no such project, and that there are too many.
fn status_for(code: u8, is_full: bool) -> Status
    ensures { result ≡ status_for code is_full }
{
    match code {
        NO_PROJECT_OR_FULL if is_full => Status::InsufficientStorage,
        NO_PROJECT_OR_FULL => Status::NotFound,
        STORED_ROW | OLD_STORE => Status::Conflict,
        STORE_FAULT => Status::InternalServerError,
        NO_MEMORY => Status::ServiceUnavailable,
        _ => Status::UnprocessableContent,
    }
}

impl Reply {
    /// The names of the projects, as JSON. Refused only for want of memory.
    pub fn of_names(alloc: Global, names: &[ProjectName]) -> Result<Reply, AllocError>
        ensures { IfOk result (λ r. page_of r ≡ names_page names.now) }
    {
        let mut body = Vec::new(alloc);
        put_names(&mut body, names)?;
        Ok(Reply {
            status: Status::Ok,
            content: Content::Json,
            body,
        })
    }

    /// A text: a file, a report, a list of trees, the detail of a tree.
    pub fn of_text(text: Vec<u8>) -> Reply
        ensures { page_of result ≡ text_page text.items }
    {
        Reply {
            status: Status::Ok,
            content: Content::Text,
            body: text,
        }
    }

    /// That a file was to be kept under this name. Refused only for want of memory.
    pub fn of_put(alloc: Global, put: Put, name: &ProjectName) -> Result<Reply, AllocError>
        ensures { IfOk result (λ r. page_of r ≡ put_page put name.now) }
    {
        let (status, body) = match put {
            Put::Added => (Status::Created, named(alloc, "added ", name)?),
            Put::Replaced => (Status::Ok, named(alloc, "replaced ", name)?),
            Put::Full => (
                Status::InsufficientStorage,
                b"refused 10 Full\n".to_vec(alloc)?,
            ),
        };
        Ok(Reply {
            status,
            content: Content::Text,
            body,
        })
    }

    /// That the project of this name was removed. Refused only for want of memory.
    pub fn of_removal(alloc: Global, name: &ProjectName) -> Result<Reply, AllocError>
        ensures { IfOk result (λ r. page_of r ≡ removed_page name.now) }
    {
        Ok(Reply::of_text(named(alloc, "removed ", name)?))
    }

    /// That a command was refused with this status of the program and this line. `is_full` says
    /// that it was since there are too many projects.
    pub fn of_refusal(code: u8, is_full: bool, line: Vec<u8>) -> Reply
        ensures { page_of result ≡ refused_page code is_full line.items }
    {
        Reply {
            status: status_for(code, is_full),
            content: Content::Text,
            body: line,
        }
    }
}
