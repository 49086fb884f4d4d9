// The bytes of a response.
ghost use Rattle.std.specs.Prelude.{◌≡◌, ◌++◌, codes, OnOk, length};
ghost use Rattle.desk_responses.specs.Responses.{line, type_of, methods_of, allow_of, start_of, length_of, end_of, head_of, response_of, refused_of, unavailable_of};

use crate::status::Status;
use desk_requests::Methods;
use numerals::put_number;
use std::alloc::AllocError;

/// What a body is.
#[derive(Clone, Copy, Debug, PartialEq, Eq)]
pub enum Content {
    /// Text in UTF-8.
    Text,
    /// JSON.
    Json,
}

impl Content {
    fn media_type(self) -> &'static str
        ensures { result.now ≡ type_of self }
    {
        match self {
            Content::Text => "text/plain; charset=utf-8",
            Content::Json => "application/json",
        }
    }
}

fn methods_text(methods: Methods) -> &'static str
    ensures { result.now ≡ methods_of methods }
{
    match methods {
        Methods::Get => "GET",
        Methods::GetPutDelete => "GET, PUT, DELETE",
        Methods::Post => "POST",
    }
}

// Appends a line: two pieces, CR and LF.
fn put_line(out: &mut Vec<u8>, name: &[u8], value: &[u8]) -> Result<(), AllocError>
    ensures { OnOk result (out.new.items ≡ out.old.items ++ line (name.now ++ value.now)) }
{
    out.extend_from_slice(name)?;
    out.extend_from_slice(value)?;
    out.extend_from_slice(b"\r\n")
}

#[tactic(auto, unfolding(crate::specs::Responses::start_of))]
fn put_start(out: &mut Vec<u8>, status: Status) -> Result<(), AllocError>
    ensures { OnOk result (out.new.items ≡ out.old.items ++ start_of status) }
{
    out.extend_from_slice(b"HTTP/1.1 ")?;
    out.extend_from_slice(status.code().as_str().as_bytes())?;
    put_line(out, b" ", status.phrase().as_bytes())
}

#[tactic(auto, unfolding(crate::specs::Responses::length_of))]
fn put_length(out: &mut Vec<u8>, len: usize) -> Result<(), AllocError>
    ensures { OnOk result (out.new.items ≡ out.old.items ++ length_of len) }
{
    out.extend_from_slice(b"Content-Length: ")?;
    put_number(out, len as u128)?;
    put_line(out, b"", b"")
}

fn put_allow(out: &mut Vec<u8>, status: Status) -> Result<(), AllocError>
    ensures { OnOk result (out.new.items ≡ out.old.items ++ allow_of status) }
{
    match status {
        Status::MethodNotAllowed(methods) => {
            put_line(out, b"Allow: ", methods_text(methods).as_bytes())
        }
        _ => Ok(()),
    }
}

#[tactic(auto, unfolding(crate::specs::Responses::end_of))]
fn put_end(out: &mut Vec<u8>, status: Status) -> Result<(), AllocError>
    ensures { OnOk result (out.new.items ≡ out.old.items ++ end_of status) }
{
    put_allow(out, status)?;
    put_line(out, b"Connection: close", b"")?;
    put_line(out, b"", b"")
}

fn put_head(
    out: &mut Vec<u8>,
    status: Status,
    content: Content,
    len: usize,
) -> Result<(), AllocError>
    ensures { OnOk result (out.new.items ≡ out.old.items ++ head_of status content len) }
{
    put_start(out, status)?;
    put_line(out, b"Content-Type: ", content.media_type().as_bytes())?;
    put_length(out, len)?;
    put_end(out, status)
}

/// Appends a response.
pub fn put_response(
    out: &mut Vec<u8>,
    status: Status,
    content: Content,
    body: &[u8],
) -> Result<(), AllocError>
    ensures { OnOk result (out.new.items ≡ out.old.items ++ response_of status content body.now) }
{
    put_head(out, status, content, body.len())?;
    out.extend_from_slice(body)
}

/// Appends the body of a refusal that no command gave.
pub fn put_refused(out: &mut Vec<u8>, status: Status) -> Result<(), AllocError>
    ensures { OnOk result (out.new.items ≡ out.old.items ++ refused_of status) }
{
    out.extend_from_slice(b"refused ")?;
    out.extend_from_slice(status.code().as_str().as_bytes())?;
    out.extend_from_slice(b"\n")
}

/// The response where there is no memory. It takes none.
pub fn unavailable() -> &'static [u8]
    ensures { result.now ≡ unavailable_of }
{
    b"HTTP/1.1 503 Service Unavailable\r\nContent-Type: text/plain; charset=utf-8\r\nContent-Length: 18\r\nConnection: close\r\n\r\nrefused 17 Memory\n"
}
