ghost use Rattle.std.specs.Prelude.{◌≡◌, ◌<◌, false, IfOk};

use super::*;
use desk_requests::Command;
use desk_responses::{Content, Status};
use result_keeper::{ProjectName, Put};
use std::alloc::{AllocError, Global};
use std::process::Abort;
use std::test::Fail;
use wb_outside::{MemoryDoor, MemorySink, OutsideError};

// A clerk that tells what it was asked, with a status by the name of the project. Its store is how
// often it was asked.
struct Teller;

impl Clerk<u64, ()> for Teller {
    ghost acts = { λ _ _ _ _. Unit {0} };

    fn answer(
        &self,
        alloc: Global,
        command: Command,
        store: &mut u64,
        _: &mut (),
    ) -> Result<Reply, AllocError> {
        *store = store.saturating_add(1);
        let (word, name, text) = in_words(&command);
        let mut body = Vec::new(alloc);
        for part in [word, name, text] {
            body.extend_from_slice(part)?;
            body.extend_from_slice(b"\n")?;
        }
        Ok(Reply {
            status: status_of(name)?,
            content: Content::Text,
            body,
        })
    }
}

fn in_words<'a>(command: &'a Command) -> (&'static [u8], &'a [u8], &'a [u8]) {
    match command {
        Command::Names => (b"names", b"", b""),
        Command::Show(name) => (b"show", name.bytes(), b""),
        Command::Add(name, text) => (b"add", name.bytes(), text.as_slice()),
        Command::Remove(name) => (b"remove", name.bytes(), b""),
        Command::Report(name) => (b"report", name.bytes(), b""),
        Command::Trees(name) => (b"trees", name.bytes(), b""),
        Command::Detail(name, text) => (b"detail", name.bytes(), text.as_slice()),
    }
}

fn status_of(name: &[u8]) -> Result<Status, AllocError> {
    let named = [
        ("new", Status::Created),
        ("absent", Status::NotFound),
        ("old-store", Status::Conflict),
        ("not-subcritical", Status::UnprocessableContent),
        ("store-fault", Status::InternalServerError),
        ("full", Status::InsufficientStorage),
    ];
    if name == b"no-memory".as_slice() {
        return Err(AllocError);
    }
    match named.iter().find(|row| row.0.as_bytes() == name) {
        Some(row) => Ok(row.1),
        None => Ok(Status::Ok),
    }
}

// How often the clerk is asked, and what is written, where a peer sends these bytes and they come
// in pieces of at most `cut`.
fn heard(alloc: Global, sent: &[u8], cut: usize) -> Result<(u64, Vec<u8>), OutsideError>
    requires { 0 < cut }
{
    let mut connections = Vec::new(alloc);
    connections.push(sent.to_vec(alloc)?)?;
    let mut door = MemoryDoor::new(alloc, connections, cut, 4096, Vec::new(alloc))?;
    let mut asked = 0;
    let _ = attend(alloc, &mut door, &Teller, &mut asked, &mut ());
    Ok((asked, door.written(0).to_vec(alloc)?))
}

// Whether this is answered at once and in one-byte pieces by a response that begins and ends so,
// and the clerk is asked so often.
fn is_answered(
    alloc: Global,
    sent: &[u8],
    asked: u64,
    start: &str,
    end: &str,
) -> Result<bool, OutsideError> {
    let whole = heard(alloc, sent, 65536)?;
    let pieces = heard(alloc, sent, 1)?;
    Ok(
        whole == pieces
            && whole.0 == asked
            && whole.1.starts_with(start.as_bytes())
            && whole.1.ends_with(end.as_bytes()),
    )
}

type Case = (&'static str, u64, &'static str, &'static str);

fn are_answered(rt: &impl Abort, alloc: Global, cases: &[Case]) -> Result<(), Fail> {
    for (sent, asked, start, end) in cases {
        assert!(rt;
            is_answered(alloc, sent.as_bytes(), *asked, start, end)?,
            "{sent}"
        );
    }
    Ok(())
}

const ROUTES: &[Case] = &[
    (
        "GET /projects HTTP/1.1\r\nHost: x\r\n\r\n",
        1,
        "HTTP/1.1 200 OK\r\nContent-Type: text/plain; charset=utf-8\r\nContent-Length: 8\r\n",
        "Connection: close\r\n\r\nnames\n\n\n",
    ),
    (
        "GET /projects/pam HTTP/1.1\r\n\r\n",
        1,
        "HTTP/1.1 200 OK\r\n",
        "\r\n\r\nshow\npam\n\n",
    ),
    (
        "PUT /projects/pam HTTP/1.1\r\nContent-Length: 12\r\n\r\n{\"file\":\"x\"}",
        1,
        "HTTP/1.1 200 OK\r\n",
        "\r\n\r\nadd\npam\nx\n",
    ),
    (
        "DELETE /projects/pam HTTP/1.1\r\n\r\n",
        1,
        "HTTP/1.1 200 OK\r\n",
        "\r\n\r\nremove\npam\n\n",
    ),
    (
        "GET /projects/pam/report HTTP/1.1\r\n\r\n",
        1,
        "HTTP/1.1 200 OK\r\n",
        "\r\n\r\nreport\npam\n\n",
    ),
    (
        "GET /projects/pam/trees HTTP/1.1\r\n\r\n",
        1,
        "HTTP/1.1 200 OK\r\n",
        "\r\n\r\ntrees\npam\n\n",
    ),
    (
        "POST /projects/pam/detail HTTP/1.1\r\nContent-Length: 15\r\n\r\n{\"tree\":\"[xi]\"}",
        1,
        "HTTP/1.1 200 OK\r\n",
        "\r\n\r\ndetail\npam\n[xi]\n",
    ),
];

const REPLIES: &[Case] = &[
    (
        "GET /projects/new HTTP/1.1\r\n\r\n",
        1,
        "HTTP/1.1 201 Created\r\n",
        "show\nnew\n\n",
    ),
    (
        "DELETE /projects/absent HTTP/1.1\r\n\r\n",
        1,
        "HTTP/1.1 404 Not Found\r\n",
        "remove\nabsent\n\n",
    ),
    (
        "GET /projects/old-store/report HTTP/1.1\r\n\r\n",
        1,
        "HTTP/1.1 409 Conflict\r\n",
        "report\nold-store\n\n",
    ),
    (
        "GET /projects/not-subcritical/trees HTTP/1.1\r\n\r\n",
        1,
        "HTTP/1.1 422 Unprocessable Content\r\n",
        "trees\nnot-subcritical\n\n",
    ),
    (
        "GET /projects/store-fault HTTP/1.1\r\n\r\n",
        1,
        "HTTP/1.1 500 Internal Server Error\r\n",
        "show\nstore-fault\n\n",
    ),
    (
        "PUT /projects/full HTTP/1.1\r\nContent-Length: 12\r\n\r\n{\"file\":\"x\"}",
        1,
        "HTTP/1.1 507 Insufficient Storage\r\n",
        "add\nfull\nx\n",
    ),
    (
        "GET /projects/no-memory HTTP/1.1\r\n\r\n",
        1,
        "HTTP/1.1 503 Service Unavailable\r\n",
        "Content-Length: 18\r\nConnection: close\r\n\r\nrefused 17 Memory\n",
    ),
];

const REFUSALS: &[Case] = &[
    (
        "PATCH /projects HTTP/1.1\r\n\r\n",
        0,
        "HTTP/1.1 405 Method Not Allowed\r\n",
        "Content-Length: 12\r\nAllow: GET\r\nConnection: close\r\n\r\nrefused 405\n",
    ),
    (
        "PATCH /projects/pam HTTP/1.1\r\n\r\n",
        0,
        "HTTP/1.1 405 Method Not Allowed\r\n",
        "Allow: GET, PUT, DELETE\r\nConnection: close\r\n\r\nrefused 405\n",
    ),
    (
        "HEAD /projects/pam/detail HTTP/1.1\r\n\r\n",
        0,
        "HTTP/1.1 405 Method Not Allowed\r\n",
        "Allow: POST\r\nConnection: close\r\n\r\nrefused 405\n",
    ),
    (
        "PUT /projects/pam HTTP/1.1\r\nContent-Length: 1\r\nContent-Length: 1\r\n\r\nx",
        0,
        "HTTP/1.1 400 Bad Request\r\n",
        "Content-Length: 12\r\nConnection: close\r\n\r\nrefused 400\n",
    ),
    (
        "PUT /projects/pam HTTP/1.1\r\n\r\n{\"file\":\"x\"}",
        0,
        "HTTP/1.1 411 Length Required\r\n",
        "\r\n\r\nrefused 411\n",
    ),
    (
        "PUT /projects/pam HTTP/1.1\r\nContent-Length: 1048577\r\n\r\n{",
        0,
        "HTTP/1.1 413 Content Too Large\r\n",
        "\r\n\r\nrefused 413\n",
    ),
    (
        "",
        0,
        "HTTP/1.1 400 Bad Request\r\n",
        "\r\n\r\nrefused 400\n",
    ),
    (
        "GET /projects/pam HTTP/1.1\r\nHost: x",
        0,
        "HTTP/1.1 400 Bad Request\r\n",
        "\r\n\r\nrefused 400\n",
    ),
    (
        "GET /projects/pam/ HTTP/1.1\r\n\r\n",
        0,
        "HTTP/1.1 404 Not Found\r\n",
        "\r\n\r\nrefused 404\n",
    ),
    (
        "PUT /projects/pam HTTP/1.1\r\nContent-Length: 13\r\n\r\n{\"file\":\"x\"}",
        0,
        "HTTP/1.1 400 Bad Request\r\n",
        "\r\n\r\nrefused 400\n",
    ),
    (
        "PUT /projects/pam HTTP/1.1\r\nContent-Length: 12\r\n\r\n{\"tree\":\"x\"}",
        0,
        "HTTP/1.1 400 Bad Request\r\n",
        "\r\n\r\nrefused 400\n",
    ),
];

#[test]
fn commands_reach_the_clerk(rt: HostRuntime) -> Result<(), Fail> {
    are_answered(&rt, rt.alloc(), ROUTES)
}

#[test]
fn replies_of_the_clerk(rt: HostRuntime) -> Result<(), Fail> {
    are_answered(&rt, rt.alloc(), REPLIES)
}

#[test]
fn requests_that_are_refused(rt: HostRuntime) -> Result<(), Fail> {
    are_answered(&rt, rt.alloc(), REFUSALS)
}

// The front, as many copies of the middle, and the end.
fn joined(
    alloc: Global,
    front: &str,
    middle: &str,
    copies: usize,
    end: &str,
) -> Result<Vec<u8>, AllocError> {
    let mut bytes = front.as_bytes().to_vec(alloc)?;
    for _ in 0..copies {
        bytes.extend_from_slice(middle.as_bytes())?;
    }
    bytes.extend_from_slice(end.as_bytes())?;
    Ok(bytes)
}

#[test]
fn heads_at_their_bounds(rt: HostRuntime) -> Result<(), Fail> {
    let field = "GET /projects HTTP/1.1\r\na:";
    for (copies, asked, start) in [
        (16384 - 30, 1, "HTTP/1.1 200 OK\r\n"),
        (16385 - 30, 0, "HTTP/1.1 400 Bad Request\r\n"),
    ] {
        let sent = joined(rt.alloc(), field, "x", copies, "\r\n\r\n")?;
        assert!(rt;
            is_answered(rt.alloc(), &sent, asked, start, "\n")?,
            "{copies}"
        );
    }
    Ok(())
}

#[test]
fn bodies_at_their_bound(rt: HostRuntime) -> Result<(), Fail> {
    let head = "PUT /projects/pam HTTP/1.1\r\nContent-Length: 1048576\r\n\r\n{\"file\":\"";
    let sent = joined(rt.alloc(), head, "x", 1048576 - 11, "\"}")?;
    for cut in [1000, 65536] {
        let (asked, _) = heard(rt.alloc(), &sent, cut)?;
        assert_eq!(rt; asked, 1, "{cut}");
    }
    let (asked, written) = heard(rt.alloc(), &sent[..sent.len().min(1048576)], 1000)?;
    assert_eq!(rt; asked, 0);
    assert!(rt; written.starts_with(b"HTTP/1.1 400 Bad Request\r\n"));
    Ok(())
}

#[test]
fn trees_of_many_brackets(rt: HostRuntime) -> Result<(), Fail> {
    let head = "POST /projects/pam/detail HTTP/1.1\r\nContent-Length: 1011\r\n\r\n{\"tree\":\"";
    let sent = joined(rt.alloc(), head, "[", 1000, "\"}")?;
    assert!(rt; is_answered(rt.alloc(), &sent, 1, "HTTP/1.1 200 OK\r\n", "[[[\n")?);
    Ok(())
}

// A PUT whose member is a list of so many levels.
fn nested(alloc: Global, head: &str, levels: usize) -> Result<Vec<u8>, AllocError> {
    let mut sent = joined(alloc, head, "[", levels, "")?;
    for _ in 0..levels {
        sent.push(b']')?;
    }
    sent.push(b'}')?;
    Ok(sent)
}

#[test]
fn bodies_of_many_levels(rt: HostRuntime) -> Result<(), Fail> {
    for (levels, len) in [(126, "261"), (127, "263"), (128, "265")] {
        let front = "PUT /projects/pam HTTP/1.1\r\nContent-Length: ";
        let head = joined(rt.alloc(), front, len, 1, "\r\n\r\n{\"file\":")?;
        let head = std::str::from_utf8(&head).map_err(|_| "text")?;
        let sent = nested(rt.alloc(), head, levels)?;
        assert!(rt; is_answered(rt.alloc(), &sent, 0, "HTTP/1.1 400 Bad Request\r\n", "\n")?);
    }
    Ok(())
}

// How a connection ends where this call of the door fails, from 1.
fn ending(alloc: Global, failing: u64) -> Result<(Served, usize), OutsideError> {
    let mut connections = Vec::new(alloc);
    connections.push(b"GET /projects HTTP/1.1\r\n\r\n".to_vec(alloc)?)?;
    let mut calls = Vec::new(alloc);
    calls.push(failing)?;
    let mut door = MemoryDoor::new(alloc, connections, 65536, 4096, calls)?;
    let served = attend(alloc, &mut door, &Teller, &mut 0, &mut ());
    Ok((served, door.written(0).len()))
}

#[test]
fn calls_of_the_door_that_fail(rt: HostRuntime) -> Result<(), Fail> {
    for (failing, served, len) in [
        (0, Served::Answered { status: 200 }, 106),
        (1, Served::NoConnection, 0),
        (2, Served::Dropped, 0),
        (3, Served::Dropped, 0),
    ] {
        let ending = ending(rt.alloc(), failing)?;
        assert_eq!(rt; ending, (served, len), "{failing}");
    }
    Ok(())
}

// A door to which two peers come, the first of which is refused. This call of it fails, from 1.
fn two_peers(alloc: Global, failing: u64) -> Result<MemoryDoor, OutsideError>
    ensures { IfOk result (λ d. d.is_open ≡ false) }
{
    let mut connections = Vec::new(alloc);
    connections.push(b"GET / HTTP/1.1\r\n\r\n".to_vec(alloc)?)?;
    connections.push(b"GET /projects HTTP/1.1\r\n\r\n".to_vec(alloc)?)?;
    let mut calls = Vec::new(alloc);
    calls.push(failing)?;
    MemoryDoor::new(alloc, connections, 65536, 4096, calls)
}

// Whether serving so many connections ends so, with these lines, where a call of the door fails and
// the lines have so much room.
fn is_served(
    alloc: Global,
    count: u32,
    failing: u64,
    room: usize,
    ending: Result<(), ServeFault>,
    lines: &str,
) -> Result<bool, OutsideError> {
    let mut door = two_peers(alloc, failing)?;
    let mut out = MemorySink::new(alloc, room, Vec::new(alloc))?;
    let mut asked = 0;
    let result = serve(
        alloc,
        count,
        8080,
        &mut door,
        &Teller,
        &mut asked,
        &mut (),
        &mut out,
    );
    Ok(result == ending && out.bytes() == lines.as_bytes())
}

#[test]
fn lines_of_connections(rt: HostRuntime) -> Result<(), Fail> {
    let door = Err(ServeFault::Door);
    let write = Err(ServeFault::Write);
    for (count, failing, room, ending, lines) in [
        (2, 0, 100, Ok(()), "answered 404\nanswered 200\n"),
        (1, 0, 100, Ok(()), "answered 404\n"),
        (3, 0, 100, door, "answered 404\nanswered 200\n"),
        (2, 1, 100, door, ""),
        (2, 2, 100, door, ""),
        (2, 3, 100, Ok(()), "dropped\nanswered 200\n"),
        (2, 4, 100, Ok(()), "dropped\nanswered 200\n"),
        (2, 5, 100, door, "answered 404\n"),
        (2, 0, 12, write, ""),
        (2, 0, 13, write, "answered 404\n"),
    ] {
        let served = is_served(rt.alloc(), count, failing, room, ending, lines)?;
        assert!(rt; served, "{count} {failing} {room}");
    }
    Ok(())
}

// Whether a reply is this.
fn is_reply(reply: &Reply, status: u16, content: Content, body: &str) -> bool {
    reply.status.code().as_u16() == status
        && reply.content == content
        && reply.body.as_slice() == body.as_bytes()
}

#[test]
fn replies_to_commands(rt: HostRuntime) -> Result<(), Fail> {
    let pam = ProjectName::new(b"pam").ok_or("a name")?;
    let names = Reply::of_names(rt.alloc(), &[pam])?;
    assert!(rt; is_reply(&names, 200, Content::Json, "[\"pam\"]\n"));
    for (put, status, body) in [
        (Put::Added, 201, "added pam\n"),
        (Put::Replaced, 200, "replaced pam\n"),
        (Put::Full, 507, "refused 10 Full\n"),
    ] {
        let reply = Reply::of_put(rt.alloc(), put, &pam)?;
        assert!(rt; is_reply(&reply, status, Content::Text, body), "{body}");
    }
    let removed = Reply::of_removal(rt.alloc(), &pam)?;
    assert!(rt; is_reply(&removed, 200, Content::Text, "removed pam\n"));
    Ok(())
}

#[test]
fn statuses_of_refused_commands(rt: HostRuntime) {
    for (code, is_full, status) in [
        (4, false, 422),
        (5, false, 422),
        (6, false, 422),
        (7, false, 422),
        (8, false, 422),
        (9, false, 422),
        (10, false, 404),
        (10, true, 507),
        (11, false, 500),
        (12, false, 409),
        (14, false, 422),
        (17, false, 503),
        (19, false, 409),
    ] {
        let reply = Reply::of_refusal(code, is_full, Vec::new(rt.alloc()));
        assert_eq!(rt; reply.status.code().as_u16(), status, "{code}");
    }
}
