// What the bytes of a connection decide.
ghost use Rattle.std.specs.Prelude.{◌≡◌, ◌≤◌, length, map, take, drop, All, IsUtf8, IfOk};
ghost use Rattle.httparse.specs.Spans.{IsRequestWithin, IsHeaderWithin, header_bytes, span_bytes};
ghost use Rattle.desk_requests.specs.Places.{place_of};
ghost use Rattle.desk_requests.specs.Decisions.{command_with, on_body, on_length, on_ask, on_place, body_size, Decides, DecidesAtEnd, StaysOpen};
ghost use Rattle.desk_requests.specs.Fields.{body_length};

use crate::body::body_text;
use crate::decision::{Ask, Command, Decision, Member, Progress, Refusal};
use crate::fields::{BodyLength, body_length, has_transfer_encoding};
use crate::place::{Place, Routes};
use httparse::Status;
use httparse::spans::{EMPTY_HEADER_SPAN, HeaderSpan, RequestSpans, parse_request};
use result_keeper::ProjectName;
use sqlite_items::Items;
use std::alloc::{AllocError, Global};

const MOST_BYTES: usize = 16384;

const MOST_FIELDS: usize = 64;

const MOST_BODY: u64 = 1048576;

fn command_with(member: Member, name: ProjectName, text: Items<u8>) -> Command
    ensures { result ≡ command_with member name text }
{
    match member {
        Member::File => Command::Add(name, text),
        Member::Tree => Command::Detail(name, text),
    }
}

fn on_body(
    alloc: Global,
    member: Member,
    name: ProjectName,
    len: u64,
    rest: &[u8],
) -> Result<Decision, AllocError>
    ensures { IfOk result (λ d. d ≡ on_body member name len rest.now) }
{
    if len > MOST_BODY {
        return Ok(Decision::Refused(Refusal::TooLarge));
    }
    let Some(body) = rest.get(..len as usize) else {
        return Ok(Decision::Open);
    };
    match body_text(alloc, body, member.key())? {
        Some(text) => Ok(Decision::Asked(command_with(member, name, text))),
        None => Ok(Decision::Refused(Refusal::BadRequest)),
    }
}

fn on_length(
    alloc: Global,
    ask: Ask,
    length: BodyLength,
    rest: &[u8],
) -> Result<Decision, AllocError>
    ensures { IfOk result (λ d. d ≡ on_length ask length rest.now) }
{
    match (ask, length) {
        (_, BodyLength::Malformed) => Ok(Decision::Refused(Refusal::BadRequest)),
        (Ask::Plain(command), _) => Ok(Decision::Asked(command)),
        (Ask::WithText(..), BodyLength::Absent) => Ok(Decision::Refused(Refusal::LengthRequired)),
        (Ask::WithText(member, name), BodyLength::Known(len)) => {
            on_body(alloc, member, name, len, rest)
        }
    }
}

fn on_ask(
    alloc: Global,
    place: &Place,
    ask: Option<Ask>,
    bytes: &[u8],
    headers: &[HeaderSpan],
    rest: &[u8],
) -> Result<Decision, AllocError>
    requires { All (IsHeaderWithin (length bytes.now)) headers.now }
    ensures { IfOk result (λ d. d ≡ on_ask place.now ask (map (header_bytes bytes.now) headers.now)
        rest.now) }
{
    let Some(ask) = ask else {
        return Ok(Decision::Refused(Refusal::MethodNotAllowed(place.methods())));
    };
    if has_transfer_encoding(bytes, headers) {
        return Ok(Decision::Refused(Refusal::LengthRequired));
    }
    on_length(alloc, ask, body_length(bytes, headers), rest)
}

fn on_place(
    alloc: Global,
    place: Option<Place>,
    bytes: &[u8],
    head: &RequestSpans,
    headers: &[HeaderSpan],
    rest: &[u8],
) -> Result<Decision, AllocError>
    requires { IsRequestWithin bytes.now headers.now head.now }
    ensures { IfOk result (λ d. d ≡ on_place place (span_bytes bytes.now head.now.method)
        (map (header_bytes bytes.now) (take head.now.headers headers.now)) rest.now) }
{
    let Some(place) = place else {
        return Ok(Decision::Refused(Refusal::NotFound));
    };
    let ask = place.ask(head.method.of(bytes));
    on_ask(alloc, &place, ask, bytes, &headers[..head.headers], rest)
}

// The place of the target of a head.
fn place_of(routes: &Routes, target: &[u8]) -> Option<Place>
    requires { IsUtf8 target.now }
    ensures { result ≡ place_of target.now }
{
    match std::str::from_utf8(target) {
        Ok(target) => routes.place_of(target),
        Err(_) => None,
    }
}

// How many bytes of a body can be wanted, by the fields of the head.
fn body_size(bytes: &[u8], headers: &[HeaderSpan]) -> usize
    requires { All (IsHeaderWithin (length bytes.now)) headers.now }
    ensures size { result ≡ body_size (body_length (map (header_bytes bytes.now) headers.now)) }
    ensures small { result ≤ 1048576 }
{
    match body_length(bytes, headers) {
        BodyLength::Known(len) => len.min(MOST_BODY) as usize,
        _ => 0,
    }
}

/// What the bytes of a connection decide, as far as they have come, and how many are wanted before
/// more is decided. Refused only for want of memory.
pub fn look(alloc: Global, routes: &Routes, bytes: &[u8]) -> Result<Progress, AllocError>
    ensures decision { IfOk result (λ p. Decides bytes.now p.decision) }
    ensures wanted { IfOk result (λ p. p.decision ≡ Decision.Open → StaysOpen bytes.now p.wanted) }
{
    let mut headers = [EMPTY_HEADER_SPAN; MOST_FIELDS];
    let front = &bytes[..bytes.len().min(MOST_BYTES)];
    match parse_request(front, &mut headers) {
        Ok(Status::Complete(head)) => {
            let place = place_of(routes, head.path.of(front));
            let decision = on_place(alloc, place, front, &head, &headers, &bytes[head.len..])?;
            let size = body_size(front, &headers[..head.headers]);
            Ok(Progress {
                decision,
                wanted: head.len + size,
            })
        }
        Ok(Status::Partial) if bytes.len() < MOST_BYTES => Ok(Progress {
            decision: Decision::Open,
            wanted: bytes.len() + 1,
        }),
        Ok(Status::Partial) => Ok(Progress::hopeless()),
        Err(_) => Ok(Progress::hopeless()),
    }
}

/// What the bytes of a connection decide, as far as they have come. Refused only for want of
/// memory.
pub fn decide(alloc: Global, routes: &Routes, bytes: &[u8]) -> Result<Decision, AllocError>
    ensures { IfOk result (Decides bytes.now) }
{
    Ok(look(alloc, routes, bytes)?.decision)
}

/// What the bytes of a connection decide where no more come. Refused only for want of memory.
pub fn decide_at_end(alloc: Global, routes: &Routes, bytes: &[u8]) -> Result<Decision, AllocError>
    ensures { IfOk result (DecidesAtEnd bytes.now) }
{
    match decide(alloc, routes, bytes)? {
        Decision::Open => Ok(Decision::Refused(Refusal::BadRequest)),
        decision => Ok(decision),
    }
}
