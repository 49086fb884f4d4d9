use super::*;
use std::alloc::{AllocError, Global};
use std::process::Abort;
use std::test::Fail;

// What is decided where the bytes come one by one: the first decision, or that at their end.
fn decide_in_pieces(alloc: Global, routes: &Routes, bytes: &[u8]) -> Result<Decision, AllocError> {
    for len in 0..bytes.len() {
        let decision = decide(alloc, routes, &bytes[..len])?;
        if !matches!(decision, Decision::Open) {
            return Ok(decision);
        }
    }
    decide_at_end(alloc, routes, bytes)
}

fn name_of_refusal(refusal: Refusal) -> &'static str {
    match refusal {
        Refusal::BadRequest => "400",
        Refusal::NotFound => "404",
        Refusal::MethodNotAllowed(Methods::Get) => "405 GET",
        Refusal::MethodNotAllowed(Methods::GetPutDelete) => "405 GET, PUT, DELETE",
        Refusal::MethodNotAllowed(Methods::Post) => "405 POST",
        Refusal::LengthRequired => "411",
        Refusal::TooLarge => "413",
    }
}

// A decision in words: what it is, the project and the text.
fn in_words<'a>(decision: &'a Decision) -> (&'a str, &'a [u8], &'a [u8]) {
    match decision {
        Decision::Open => ("open", b"", b""),
        Decision::Refused(refusal) => (name_of_refusal(*refusal), b"", b""),
        Decision::Asked(Command::Names) => ("names", b"", b""),
        Decision::Asked(Command::Show(name)) => ("show", name.bytes(), b""),
        Decision::Asked(Command::Add(name, text)) => ("add", name.bytes(), text.as_slice()),
        Decision::Asked(Command::Remove(name)) => ("remove", name.bytes(), b""),
        Decision::Asked(Command::Report(name)) => ("report", name.bytes(), b""),
        Decision::Asked(Command::Trees(name)) => ("trees", name.bytes(), b""),
        Decision::Asked(Command::Detail(name, text)) => ("detail", name.bytes(), text.as_slice()),
    }
}

type Case = (&'static str, &'static str, &'static str, &'static str);

fn are_as_told(rt: &impl Abort, alloc: Global, cases: &[Case]) -> Result<(), Fail> {
    let routes = Routes::new(alloc)?;
    for (request, what, name, text) in cases {
        let whole = decide_at_end(alloc, &routes, request.as_bytes())?;
        assert_eq!(rt; in_words(&whole), (*what, name.as_bytes(), text.as_bytes()));
        let pieces = decide_in_pieces(alloc, &routes, request.as_bytes())?;
        assert_eq!(rt;
            in_words(&pieces),
            (*what, name.as_bytes(), text.as_bytes())
        );
    }
    Ok(())
}

const COMMANDS: &[Case] = &[
    ("GET /projects HTTP/1.1\r\n\r\n", "names", "", ""),
    ("GET /projects HTTP/1.0\r\n\r\n", "names", "", ""),
    ("\r\n\nGET /projects HTTP/1.1\nHost: x\n\n", "names", "", ""),
    ("GET /projects HTTP/1.1\r\n\r\nmore", "names", "", ""),
    ("GET /projects/pam HTTP/1.1\r\n\r\n", "show", "pam", ""),
    ("DELETE /projects/pam HTTP/1.1\r\n\r\n", "remove", "pam", ""),
    (
        "GET /projects/pam/report HTTP/1.1\r\n\r\n",
        "report",
        "pam",
        "",
    ),
    (
        "GET /projects/pam/trees HTTP/1.1\r\n\r\n",
        "trees",
        "pam",
        "",
    ),
    ("GET /projects/0-_ HTTP/1.1\r\n\r\n", "show", "0-_", ""),
    (
        "GET /projects/abcdefghijklmnopqrstuvwxyz012345 HTTP/1.1\r\n\r\n",
        "show",
        "abcdefghijklmnopqrstuvwxyz012345",
        "",
    ),
    (
        "PUT /projects/pam HTTP/1.1\r\nContent-Length: 12\r\n\r\n{\"file\":\"x\"}",
        "add",
        "pam",
        "x",
    ),
    (
        "PUT /projects/pam HTTP/1.1\r\nCONTENT-LENGTH: 0014 \r\n\r\n{\"file\":\"\\n\"} more",
        "add",
        "pam",
        "\n",
    ),
    (
        "PUT /projects/pam HTTP/1.1\r\nContent-Length: 23\r\n\r\n{\"file\": 1, \"file\":\"x\"}",
        "add",
        "pam",
        "x",
    ),
    (
        "POST /projects/pam/detail HTTP/1.1\r\nContent-Length: 16\r\n\r\n{\"tree\": \"[xi]\"}",
        "detail",
        "pam",
        "[xi]",
    ),
    (
        "GET /projects/pam HTTP/1.1\r\nContent-Length: 9999999\r\n\r\n",
        "show",
        "pam",
        "",
    ),
];

const REFUSALS: &[Case] = &[
    ("", "400", "", ""),
    ("GET /projects HTTP/1.1\r\n", "400", "", ""),
    ("GET /projects HTTP/2.0\r\n\r\n", "400", "", ""),
    ("GET  /projects HTTP/1.1\r\n\r\n", "400", "", ""),
    ("GET /projects HTTP/1.1\r\nHost : x\r\n\r\n", "400", "", ""),
    ("GET / HTTP/1.1\r\n\r\n", "404", "", ""),
    ("GET /projects/ HTTP/1.1\r\n\r\n", "404", "", ""),
    ("GET /projects/pam/ HTTP/1.1\r\n\r\n", "404", "", ""),
    ("GET /projects?x=1 HTTP/1.1\r\n\r\n", "404", "", ""),
    ("GET /projects/p%61m HTTP/1.1\r\n\r\n", "404", "", ""),
    ("GET /projects/Pam HTTP/1.1\r\n\r\n", "404", "", ""),
    ("GET /projects//report HTTP/1.1\r\n\r\n", "404", "", ""),
    ("GET /projects/pam/report/x HTTP/1.1\r\n\r\n", "404", "", ""),
    (
        "GET /projects/abcdefghijklmnopqrstuvwxyz0123456 HTTP/1.1\r\n\r\n",
        "404",
        "",
        "",
    ),
    (
        "GET http://localhost/projects HTTP/1.1\r\n\r\n",
        "404",
        "",
        "",
    ),
    ("OPTIONS * HTTP/1.1\r\n\r\n", "404", "", ""),
    (
        "PATCH /nowhere HTTP/1.1\r\nTransfer-Encoding: chunked\r\n\r\n",
        "404",
        "",
        "",
    ),
    ("PATCH /projects HTTP/1.1\r\n\r\n", "405 GET", "", ""),
    ("HEAD /projects HTTP/1.1\r\n\r\n", "405 GET", "", ""),
    ("get /projects HTTP/1.1\r\n\r\n", "405 GET", "", ""),
    (
        "PATCH /projects/pam HTTP/1.1\r\n\r\n",
        "405 GET, PUT, DELETE",
        "",
        "",
    ),
    (
        "POST /projects/pam/report HTTP/1.1\r\n\r\n",
        "405 GET",
        "",
        "",
    ),
    (
        "PUT /projects/pam/trees HTTP/1.1\r\n\r\n",
        "405 GET",
        "",
        "",
    ),
    (
        "GET /projects/pam/detail HTTP/1.1\r\nTransfer-Encoding: chunked\r\n\r\n",
        "405 POST",
        "",
        "",
    ),
];

const BODIES: &[Case] = &[
    (
        "GET /projects HTTP/1.1\r\ntransfer-encoding: chunked\r\nContent-Length: x\r\n\r\n",
        "411",
        "",
        "",
    ),
    (
        "PUT /projects/pam HTTP/1.1\r\n\r\n{\"file\":\"x\"}",
        "411",
        "",
        "",
    ),
    ("POST /projects/pam/detail HTTP/1.1\r\n\r\n", "411", "", ""),
    (
        "PUT /projects/pam HTTP/1.1\r\nContent-Length: 12\r\nContent-Length: 12\r\n\r\n{\"file\":\"x\"}",
        "400",
        "",
        "",
    ),
    (
        "GET /projects HTTP/1.1\r\nContent-Length: 1\r\ncontent-length: 1\r\n\r\n",
        "400",
        "",
        "",
    ),
    (
        "GET /projects HTTP/1.1\r\nContent-Length:\r\n\r\n",
        "400",
        "",
        "",
    ),
    (
        "GET /projects HTTP/1.1\r\nContent-Length: +1\r\n\r\n",
        "400",
        "",
        "",
    ),
    (
        "PUT /projects/pam HTTP/1.1\r\nContent-Length: 0000000000000000012\r\n\r\n{\"file\":\"x\"}",
        "400",
        "",
        "",
    ),
    (
        "PUT /projects/pam HTTP/1.1\r\nContent-Length: 000000000000000012\r\n\r\n{\"file\":\"x\"}",
        "add",
        "pam",
        "x",
    ),
    (
        "PUT /projects/pam HTTP/1.1\r\nContent-Length: 999999999999999999\r\n\r\n",
        "413",
        "",
        "",
    ),
    (
        "PUT /projects/pam HTTP/1.1\r\nContent-Length: 1048577\r\n\r\n",
        "413",
        "",
        "",
    ),
    (
        "PUT /projects/pam HTTP/1.1\r\nContent-Length: 1048576\r\n\r\n",
        "400",
        "",
        "",
    ),
    (
        "PUT /projects/pam HTTP/1.1\r\nContent-Length: 13\r\n\r\n{\"file\":\"x\"}",
        "400",
        "",
        "",
    ),
    (
        "PUT /projects/pam HTTP/1.1\r\nContent-Length: 0\r\n\r\n",
        "400",
        "",
        "",
    ),
    (
        "PUT /projects/pam HTTP/1.1\r\nContent-Length: 10\r\n\r\n{\"file\":1}",
        "400",
        "",
        "",
    ),
    (
        "PUT /projects/pam HTTP/1.1\r\nContent-Length: 12\r\n\r\n{\"tree\":\"x\"}",
        "400",
        "",
        "",
    ),
    (
        "PUT /projects/pam HTTP/1.1\r\nContent-Length: 22\r\n\r\n{\"file\":\"x\",\"tree\":\"\"}",
        "400",
        "",
        "",
    ),
    (
        "PUT /projects/pam HTTP/1.1\r\nContent-Length: 2\r\n\r\n[]",
        "400",
        "",
        "",
    ),
];

#[test]
fn commands_with_what_they_take(rt: HostRuntime) -> Result<(), Fail> {
    are_as_told(&rt, rt.alloc(), COMMANDS)
}

#[test]
fn refusals_of_heads_places_and_methods(rt: HostRuntime) -> Result<(), Fail> {
    are_as_told(&rt, rt.alloc(), REFUSALS)
}

#[test]
fn refusals_of_lengths_and_bodies(rt: HostRuntime) -> Result<(), Fail> {
    are_as_told(&rt, rt.alloc(), BODIES)
}

// The front, as many copies of the middle, and the end.
fn joined(
    alloc: Global,
    front: &str,
    middle: &str,
    copies: usize,
    end: &str,
) -> Result<Vec<u8>, AllocError> {
    let mut bytes = front.as_bytes().to_vec(alloc)?;
    for _ in 0..copies {
        bytes.extend_from_slice(middle.as_bytes())?;
    }
    bytes.extend_from_slice(end.as_bytes())?;
    Ok(bytes)
}

// What is decided of these bytes, at once and in pieces, in words.
fn is_decided(
    alloc: Global,
    bytes: &[u8],
    what: &str,
    text_len: usize,
) -> Result<bool, AllocError> {
    let routes = Routes::new(alloc)?;
    let whole = decide_at_end(alloc, &routes, bytes)?;
    let pieces = decide_in_pieces(alloc, &routes, bytes)?;
    Ok(
        [in_words(&whole), in_words(&pieces)]
            .iter()
            .all(|words| words.0 == what && words.2.len() == text_len),
    )
}

#[test]
fn heads_at_their_bounds(rt: HostRuntime) -> Result<(), Fail> {
    let get = "GET /projects HTTP/1.1\r\n";
    let many = joined(rt.alloc(), get, "a: b\r\n", 64, "\r\n")?;
    assert!(rt; is_decided(rt.alloc(), &many, "names", 0)?);
    let too_many = joined(rt.alloc(), get, "a: b\r\n", 65, "\r\n")?;
    assert!(rt; is_decided(rt.alloc(), &too_many, "400", 0)?);
    Ok(())
}

#[test]
fn heads_of_the_greatest_length(rt: HostRuntime) -> Result<(), Fail> {
    let field = "GET /projects HTTP/1.1\r\na:";
    let long = joined(rt.alloc(), field, "x", 16384 - 30, "\r\n\r\n")?;
    assert_eq!(rt; long.len(), 16384);
    assert!(rt; is_decided(rt.alloc(), &long, "names", 0)?);
    let too_long = joined(rt.alloc(), field, "x", 16385 - 30, "\r\n\r\n")?;
    assert!(rt; is_decided(rt.alloc(), &too_long, "400", 0)?);
    Ok(())
}

#[test]
fn bodies_of_the_greatest_length(rt: HostRuntime) -> Result<(), Fail> {
    let head = "PUT /projects/pam HTTP/1.1\r\nContent-Length: 1048576\r\n\r\n{\"file\":\"";
    let bytes = joined(rt.alloc(), head, "x", 1048576 - 11, "\"}")?;
    let routes = Routes::new(rt.alloc())?;
    let whole = decide(rt.alloc(), &routes, &bytes)?;
    assert_eq!(rt; in_words(&whole).0, "add");
    let all_but_one = decide(rt.alloc(), &routes, &bytes[..bytes.len().saturating_sub(1)])?;
    assert_eq!(rt; in_words(&all_but_one).0, "open");
    Ok(())
}

#[test]
fn texts_with_many_brackets(rt: HostRuntime) -> Result<(), Fail> {
    let head = "POST /projects/pam/detail HTTP/1.1\r\nContent-Length: 1011\r\n\r\n{\"tree\":\"";
    let tree = joined(rt.alloc(), head, "[", 1000, "\"}")?;
    assert!(rt; is_decided(rt.alloc(), &tree, "detail", 1000)?);
    let nested = "POST /projects/pam/detail HTTP/1.1\r\nContent-Length: 1011\r\n\r\n{\"tree\":";
    let list = joined(rt.alloc(), nested, "[", 1002, "}")?;
    assert!(rt; is_decided(rt.alloc(), &list, "400", 0)?);
    Ok(())
}
