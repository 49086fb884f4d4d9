ghost use Rattle.std.specs.Prelude.{IfOk};
ghost use Rattle.wb_outside.specs.Texts.{AreDistinct};

use super::*;
use std::alloc::{AllocError, Global};
use std::fs;
use std::io::{Read, Write};
use std::net::{Shutdown, TcpStream};
use std::test::Fail;

// One text by its name.
#[tactic(auto, using(crate::proofs::TextLemmas::distinct_one))]
fn one_text(alloc: Global, name: &[u8], bytes: &[u8]) -> Result<Vec<NamedText>, AllocError>
    ensures { IfOk result (λ texts. AreDistinct texts.items) }
{
    let name = name.to_vec(alloc)?;
    let bytes = bytes.to_vec(alloc)?;
    let mut texts = Vec::new(alloc);
    texts.push(NamedText { name, bytes })?;
    Ok(texts)
}

#[test]
fn host_files_are_read_up_to_a_number_of_bytes(rt: HostRuntime) -> Result<(), Fail> {
    fs::write(&rt, "greeting", b"hello")?;
    let mut files = HostFiles::new(&rt);
    for (most, text) in [
        (0, "".as_bytes()),
        (3, b"hel"),
        (5, b"hello"),
        (9, b"hello"),
    ] {
        assert_eq!(rt;
            files.open_text(rt.alloc(), "greeting", most)?.as_slice(),
            text
        );
    }
    let absent = files.open_text(rt.alloc(), "absent", 9);
    assert_eq!(rt; absent.err(), Some(OutsideError::Failed));
    Ok(())
}

#[test]
fn a_stream_sink_appends_to_its_writer(rt: HostRuntime) -> Result<(), Fail> {
    let mut sink = StreamSink::new(fs::create(&rt, "log")?);
    for piece in ["front,", "", "rest"] {
        assert_eq!(rt; sink.write(piece.as_bytes()), Ok(()));
    }
    assert_eq!(rt; fs::read(&rt, "log")?.as_slice(), b"front,rest".as_slice());
    Ok(())
}

#[test]
fn files_in_memory_fail_where_they_are_told(rt: HostRuntime) -> Result<(), Fail> {
    let texts = one_text(rt.alloc(), b"greeting", b"hello")?;
    let mut files = MemoryFiles::new(rt.alloc(), texts, vec![in rt.alloc(); 2, 5]?);
    let hello = Ok("hello".as_bytes());
    let failed = Err(OutsideError::Failed);
    for (name, answer) in [
        ("greeting", hello),
        ("greeting", failed),
        ("absent", failed),
        ("greeting", hello),
        ("greeting", failed),
    ] {
        let found = files.open_text(rt.alloc(), name, 9);
        assert_eq!(rt;
            found
                .as_ref()
                .map(|bytes| bytes.as_slice())
                .map_err(|error| *error),
            answer,
            "{name}"
        );
    }
    Ok(())
}

#[test]
fn quiet_files_have_a_text_for_every_name(rt: HostRuntime) -> Result<(), Fail> {
    let texts = one_text(rt.alloc(), b"greeting", b"hello")?;
    let mut files = QuietFiles::new(rt.alloc(), texts);
    for (name, text) in [("greeting", "hell"), ("absent", "")] {
        assert_eq!(rt;
            files.open_text(rt.alloc(), name, 4)?.as_slice(),
            text.as_bytes()
        );
    }
    Ok(())
}

#[test]
fn a_sink_in_memory_fails_where_it_is_told(rt: HostRuntime) -> Result<(), Fail> {
    let mut sink = MemorySink::new(rt.alloc(), 5, vec![in rt.alloc(); 2]?)?;
    for (piece, answer, written) in [
        ("ab", Ok(()), "ab"),
        ("c", Err(Failed), "ab"),
        ("cdef", Err(Failed), "ab"),
        ("cde", Ok(()), "abcde"),
        ("f", Err(Failed), "abcde"),
    ] {
        assert_eq!(rt; sink.write(piece.as_bytes()), answer, "{piece}");
        assert_eq!(rt; sink.bytes(), written.as_bytes());
    }
    Ok(())
}

#[test]
fn a_quiet_sink_tells_until_a_byte_differs(rt: HostRuntime) -> Result<(), Fail> {
    let mut sink = QuietSink::new(b"abcd".to_vec(rt.alloc())?);
    for (piece, told) in [
        ("ab", Some(2)),
        ("", Some(2)),
        ("cd", Some(4)),
        ("e", None),
        ("", None),
    ] {
        assert_eq!(rt; sink.write(piece.as_bytes()), Ok(()));
        assert_eq!(rt; sink.matches().then_some(sink.written()), told, "{piece}");
    }
    Ok(())
}

// Connections with these bytes.
fn connections_of(alloc: Global, bytes: &[&str]) -> Result<Vec<Vec<u8>>, AllocError> {
    let mut connections = Vec::new(alloc);
    for text in bytes {
        connections.push(text.as_bytes().to_vec(alloc)?)?;
    }
    Ok(connections)
}

#[test]
fn a_door_in_memory_gives_bytes_up_to_its_cut(rt: HostRuntime) -> Result<(), Fail> {
    let connections = connections_of(rt.alloc(), &["hello"])?;
    let mut door = MemoryDoor::new(rt.alloc(), connections, 3, 0, vec![in rt.alloc(); 3]?)?;
    let mut room = [0u8; 4];
    assert_eq!(rt; door.accept(), Ok(()));
    assert_eq!(rt;
        (door.read(&mut room), &room[..3]),
        (Ok(3), b"hel".as_slice())
    );
    assert_eq!(rt; door.read(&mut room), Err(Failed));
    assert_eq!(rt;
        (door.read(&mut room), &room[..2]),
        (Ok(2), b"lo".as_slice())
    );
    assert_eq!(rt; door.read(&mut room), Ok(0));
    Ok(())
}

#[test]
fn a_door_in_memory_takes_bytes_up_to_its_room(rt: HostRuntime) -> Result<(), Fail> {
    let connections = connections_of(rt.alloc(), &[""])?;
    let mut door = MemoryDoor::new(rt.alloc(), connections, 1, 4, vec![in rt.alloc(); 3]?)?;
    assert_eq!(rt; door.accept(), Ok(()));
    assert_eq!(rt;
        (door.write(b"ab"), door.write(b"c")),
        (Ok(()), Err(Failed))
    );
    assert_eq!(rt;
        (door.write(b"cde"), door.write(b"cd")),
        (Err(Failed), Ok(()))
    );
    assert_eq!(rt;
        (door.written(0), door.written(1)),
        (b"abcd".as_slice(), b"".as_slice())
    );
    Ok(())
}

#[test]
fn a_door_in_memory_ends_with_its_connections(rt: HostRuntime) -> Result<(), Fail> {
    let connections = connections_of(rt.alloc(), &[""])?;
    let mut door = MemoryDoor::new(rt.alloc(), connections, 1, 0, vec![in rt.alloc(); 1]?)?;
    assert_eq!(rt;
        (door.listen(8080), door.listen(8080)),
        (Err(Failed), Ok(()))
    );
    assert_eq!(rt; door.accept(), Ok(()));
    door.finish();
    assert_eq!(rt; door.accept(), Err(Failed));
    Ok(())
}

// What a peer gets that sends these bytes to the port and then ends its side.
fn peer_at(rt: &HostRuntime, port: u16, bytes: &[u8]) -> Result<TcpStream, Fail> {
    let mut peer = TcpStream::connect(rt, ("127.0.0.1", port))?;
    peer.write_all(bytes)?;
    peer.shutdown(Shutdown::Write)?;
    Ok(peer)
}

#[test]
fn a_tcp_door_serves_a_connection(rt: HostRuntime) -> Result<(), Fail> {
    let mut door = TcpDoor::new(rt.clone()?);
    assert_eq!(rt; (door.accept(), door.listen(0)), (Err(Failed), Ok(())));
    let mut peer = peer_at(&rt, door.port().ok_or("port")?, b"ping")?;
    assert_eq!(rt; door.accept(), Ok(()));
    let mut room = [0u8; 16];
    assert_eq!(rt;
        (door.read(&mut room), &room[..4]),
        (Ok(4), b"ping".as_slice())
    );
    assert_eq!(rt;
        (door.read(&mut room), door.write(b"pong")),
        (Ok(0), Ok(()))
    );
    door.finish();
    let mut answer = Vec::new(rt.alloc());
    peer.read_to_end(&mut answer)?;
    assert_eq!(rt; answer.as_slice(), b"pong".as_slice());
    Ok(())
}
