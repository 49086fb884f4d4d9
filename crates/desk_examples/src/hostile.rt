// Requests that are long, or deep, or both.
use crate::asked::{empty_keeper, put_pam, response};
use std::alloc::{AllocError, Global};
use std::test::Fail;

// The front, as many copies of the middle, and the end.
fn joined(
    alloc: Global,
    front: &str,
    middle: &str,
    copies: usize,
    end: &str,
) -> Result<Vec<u8>, AllocError> {
    let mut bytes = front.as_bytes().to_vec(alloc)?;
    for _ in 0..copies {
        bytes.extend_from_slice(middle.as_bytes())?;
    }
    bytes.extend_from_slice(end.as_bytes())?;
    Ok(bytes)
}

// What is sent and what the response ends with: its front, its middle, how often that stands there,
// its end; the status, and the last line.
const LONG: &[(&str, &str, usize, &str, &str, &str)] = &[
    (
        "POST /projects/pam/detail HTTP/1.1\r\nContent-Length: 4107\r\n\r\n{\"tree\":\"",
        "[",
        4096,
        "\"}",
        "HTTP/1.1 422 ",
        "refused 14 TreeRefused TreeText 1\n",
    ),
    (
        "POST /projects/pam/detail HTTP/1.1\r\nContent-Length: 1011\r\n\r\n{\"tree\":\"",
        "[",
        1000,
        "\"}",
        "HTTP/1.1 422 ",
        "refused 14 TreeRefused TreeText 1\n",
    ),
    (
        "GET /projects HTTP/1.1\r\na:",
        "x",
        16354,
        "\r\n\r\n",
        "HTTP/1.1 200 ",
        "[\"pam\"]\n",
    ),
    (
        "GET /projects HTTP/1.1\r\na:",
        "x",
        16355,
        "\r\n\r\n",
        "HTTP/1.1 400 ",
        "refused 400\n",
    ),
    (
        "GET /projects HTTP/1.1\r\na:",
        "x",
        16385,
        "",
        "HTTP/1.1 400 ",
        "refused 400\n",
    ),
    (
        "GET /projects HTTP/1.1\r\n",
        "a: x\r\n",
        64,
        "\r\n",
        "HTTP/1.1 200 ",
        "[\"pam\"]\n",
    ),
    (
        "GET /projects HTTP/1.1\r\n",
        "a: x\r\n",
        65,
        "\r\n",
        "HTTP/1.1 400 ",
        "refused 400\n",
    ),
    (
        "PUT /projects/big HTTP/1.1\r\nContent-Length: 1048576\r\n\r\n{\"file\":\"",
        "x",
        1048565,
        "\"}",
        "HTTP/1.1 422 ",
        "refused 5 Limit bytes 65537\n",
    ),
    (
        "PUT /projects/big HTTP/1.1\r\nContent-Length: 1048577\r\n\r\n{\"file\":\"",
        "x",
        1048566,
        "\"}",
        "HTTP/1.1 413 ",
        "refused 413\n",
    ),
    (
        "PUT /projects/a HTTP/1.1\r\nContent-Length: 13\r\n\r\n{\"file\":\"",
        "x",
        1,
        "\"}",
        "HTTP/1.1 400 ",
        "refused 400\n",
    ),
    (
        "GET /projects HTTP/1.1\r\n",
        "",
        0,
        "\r\n",
        "HTTP/1.1 200 ",
        "[\"pam\"]\n",
    ),
];

#[test]
fn long_requests(rt: HostRuntime) -> Result<(), Fail> {
    let mut keeper = empty_keeper(rt.alloc(), Vec::new(rt.alloc()));
    put_pam(rt.alloc(), &mut keeper)?;
    for (front, middle, copies, end, status, line) in LONG {
        let sent = joined(rt.alloc(), front, middle, *copies, end)?;
        for cut in [65536, 1000] {
            let written = response(rt.alloc(), &mut keeper, &sent, cut)?;
            assert!(rt; written.starts_with(status.as_bytes()), "{front} {copies}");
            assert!(rt; written.ends_with(line.as_bytes()), "{front} {copies}");
        }
    }
    Ok(())
}
