// The bytes of the response to a decision.
ghost use Rattle.std.specs.Prelude.{◌≡◌, Option, Some, IfOk, OnErr};
ghost use Rattle.desk_requests.specs.Decisions.{closed};
ghost use Rattle.http_desk.specs.Pages.{Page, bytes_of, page_of, refusal_page, Gives, Spends};

use crate::clerk::{Clerk, Reply};
use desk_requests::{Command, Decision, Refusal};
use desk_responses::{Content, Status, put_refused, put_response};
use std::alloc::{AllocError, Global};

/// A response that is ready to be sent.
#[derive(Debug, Drop)]
pub(crate) struct Response {
    /// Its status.
    pub status: Status,
    /// All its bytes.
    pub bytes: Vec<u8>,
}

// A clerk's reply as a response.
fn of_reply(alloc: Global, reply: &Reply) -> Result<Response, AllocError>
    ensures status { IfOk result (λ r. r.status ≡ reply.now.status) }
    ensures bytes { IfOk result (λ r. r.bytes.items ≡ bytes_of (page_of reply.now)) }
{
    let mut bytes = Vec::new(alloc);
    put_response(&mut bytes, reply.status, reply.content, &reply.body)?;
    Ok(Response {
        status: reply.status,
        bytes,
    })
}

// The response to a request that is refused before any command acts.
fn of_refusal(alloc: Global, refusal: Refusal) -> Result<Response, AllocError>
    ensures status { IfOk result (λ r. r.status ≡ (refusal_page refusal).status) }
    ensures bytes { IfOk result (λ r. r.bytes.items ≡ bytes_of (refusal_page refusal)) }
{
    let status = Status::refused_with(refusal);
    let mut body = Vec::new(alloc);
    put_refused(&mut body, status)?;
    let mut bytes = Vec::new(alloc);
    put_response(&mut bytes, status, Content::Text, &body)?;
    Ok(Response { status, bytes })
}

// What the clerk does with a command, and its reply as a response.
fn of_command<C: Clerk<S, W>, S, W>(
    alloc: Global,
    command: Command,
    clerk: &C,
    store: &mut S,
    work: &mut W,
) -> Result<Response, AllocError>
    ensures response { IfOk result (λ r. (page : Page) × (r.status ≡ page.status)
        × (r.bytes.items ≡ bytes_of page)
        × C.acts command (store.old, work.old) (Some page) (store.new, work.new)) }
    ensures memory { OnErr result ((reply : Option Page)
        × C.acts command (store.old, work.old) reply (store.new, work.new)) }
{
    let reply = clerk.answer(alloc, command, store, work)?;
    of_reply(alloc, &reply)
}

/// The response to a decision: the clerk answers what is asked for; where nothing is decided the
/// request is refused, as one that ends before its end. Refused only for want of memory.
pub(crate) fn respond<C: Clerk<S, W>, S, W>(
    alloc: Global,
    decision: Decision,
    clerk: &C,
    store: &mut S,
    work: &mut W,
) -> Result<Response, AllocError>
    ensures response { IfOk result (λ r. (page : Page) × (r.status ≡ page.status)
        × (r.bytes.items ≡ bytes_of page)
        × Gives C.acts (closed decision) (store.old, work.old) page (store.new, work.new)) }
    ensures memory { OnErr result (Spends C.acts (closed decision) (store.old, work.old)
        (store.new, work.new)) }
{
    match decision {
        Decision::Asked(command) => of_command(alloc, command, clerk, store, work),
        Decision::Refused(refusal) => of_refusal(alloc, refusal),
        Decision::Open => of_refusal(alloc, Refusal::BadRequest),
    }
}
