use super::*;
use desk_requests::Methods;
use result_keeper::ProjectName;
use std::alloc::{AllocError, Global};
use std::test::Fail;

fn response(
    alloc: Global,
    status: Status,
    content: Content,
    body: &[u8],
) -> Result<Vec<u8>, AllocError> {
    let mut out = Vec::new(alloc);
    put_response(&mut out, status, content, body)?;
    Ok(out)
}

fn refusal(alloc: Global, status: Status) -> Result<Vec<u8>, AllocError> {
    let mut body = Vec::new(alloc);
    put_refused(&mut body, status)?;
    response(alloc, status, Content::Text, &body)
}

#[test]
fn responses_with_bodies(rt: HostRuntime) -> Result<(), Fail> {
    let created = response(rt.alloc(), Status::Created, Content::Text, b"added pam\n")?;
    assert_eq!(rt;
        created.as_slice(),
        b"HTTP/1.1 201 Created\r\nContent-Type: text/plain; charset=utf-8\r\nContent-Length: 10\r\nConnection: close\r\n\r\nadded pam\n".as_slice()
    );
    let empty = response(rt.alloc(), Status::Ok, Content::Json, b"")?;
    assert_eq!(rt;
        empty.as_slice(),
        b"HTTP/1.1 200 OK\r\nContent-Type: application/json\r\nContent-Length: 0\r\nConnection: close\r\n\r\n".as_slice()
    );
    Ok(())
}

#[test]
fn methods_that_there_are(rt: HostRuntime) -> Result<(), Fail> {
    let names = refusal(rt.alloc(), Status::MethodNotAllowed(Methods::Get))?;
    assert_eq!(rt;
        names.as_slice(),
        b"HTTP/1.1 405 Method Not Allowed\r\nContent-Type: text/plain; charset=utf-8\r\nContent-Length: 12\r\nAllow: GET\r\nConnection: close\r\n\r\nrefused 405\n".as_slice()
    );
    let project = refusal(rt.alloc(), Status::MethodNotAllowed(Methods::GetPutDelete))?;
    assert_eq!(rt;
        project.as_slice(),
        b"HTTP/1.1 405 Method Not Allowed\r\nContent-Type: text/plain; charset=utf-8\r\nContent-Length: 12\r\nAllow: GET, PUT, DELETE\r\nConnection: close\r\n\r\nrefused 405\n".as_slice()
    );
    Ok(())
}

#[test]
fn phrases_of_statuses(rt: HostRuntime) {
    for (status, code, phrase) in [
        (Status::Ok, 200, "OK"),
        (Status::Created, 201, "Created"),
        (Status::BadRequest, 400, "Bad Request"),
        (Status::NotFound, 404, "Not Found"),
        (
            Status::MethodNotAllowed(Methods::Post),
            405,
            "Method Not Allowed",
        ),
        (Status::Conflict, 409, "Conflict"),
        (Status::LengthRequired, 411, "Length Required"),
        (Status::ContentTooLarge, 413, "Content Too Large"),
        (Status::UnprocessableContent, 422, "Unprocessable Content"),
        (Status::InternalServerError, 500, "Internal Server Error"),
        (Status::ServiceUnavailable, 503, "Service Unavailable"),
        (Status::InsufficientStorage, 507, "Insufficient Storage"),
    ] {
        assert_eq!(rt; status.code().as_u16(), code);
        assert_eq!(rt; status.phrase(), phrase);
    }
}

#[test]
fn the_response_without_memory_is_one_of_the_others(rt: HostRuntime) -> Result<(), Fail> {
    let status = Status::ServiceUnavailable;
    let made = response(rt.alloc(), status, Content::Text, b"refused 17 Memory\n")?;
    assert_eq!(rt; unavailable(), made.as_slice());
    Ok(())
}

#[test]
fn lists_of_names(rt: HostRuntime) -> Result<(), Fail> {
    let (Some(first), Some(second)) = (ProjectName::new(b"a-b"), ProjectName::new(b"pam")) else {
        return Ok(());
    };
    let names = [first, second];
    for (count, text) in [(0, "[]\n"), (1, "[\"a-b\"]\n"), (2, "[\"a-b\",\"pam\"]\n")] {
        let mut out = Vec::new(rt.alloc());
        put_names(&mut out, &names[..count])?;
        assert_eq!(rt; out.as_slice(), text.as_bytes());
    }
    Ok(())
}
