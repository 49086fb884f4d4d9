// Connections one after the other.
ghost use Rattle.std.specs.Prelude.{◌≡◌, ◌<◌, ◌++◌, codes, false, Err, OnOk, OnErr};
ghost use Rattle.http.specs.StatusCode.{code_digits};
ghost use Rattle.wb_outside.specs.Causes.{Rose, HasCause};
ghost use Rattle.wb_outside.specs.Told.{Grows, GrowsByFront, writing};
ghost use Rattle.http_desk.specs.Seen.{seen};
ghost use Rattle.http_desk.specs.Series.{IsStatus, line_of, RoseBy, IsWork, IsService};

use crate::clerk::Clerk;
use crate::connection::{Served, attend};
use std::alloc::Global;
use wb_outside::{Door, Failed, Sink};

/// Why serving ended before its last connection.
#[derive(Clone, Copy, Debug, PartialEq, Eq)]
pub enum ServeFault {
    /// The port was not opened, or no connection was taken, since that failed.
    Door,
    /// A line was not written.
    Write,
}

// The line of a response with this status.
fn answered_line(status: u16) -> [u8; 13]
    requires { status < 1000 }
    ensures { result ≡ codes "answered " ++ code_digits status ++ codes "\n" }
{
    let hundreds = b'0' + (status / 100) as u8;
    let tens = b'0' + (status / 10 % 10) as u8;
    let ones = b'0' + (status % 10) as u8;
    [
        b'a', b'n', b's', b'w', b'e', b'r', b'e', b'd', b' ', hundreds, tens, ones, b'\n',
    ]
}

// Writes the line of a connection.
fn write_line<O: Sink>(served: Served, out: &mut O) -> Result<(), Failed>
    requires { IsStatus served }
    ensures ok { OnOk result (Grows (O.told out.old) (O.told out.new) (line_of served)) }
    ensures err { OnErr result (GrowsByFront (O.told out.old) (O.told out.new) (line_of served)) }
    ensures cause { HasCause (O.faults out.old) (O.faults out.new) result }
{
    match served {
        Served::Answered { status } => out.write(&answered_line(status)),
        Served::Dropped => out.write(b"dropped\n"),
        Served::NoConnection => Ok(()),
    }
}

// Serves one connection, and writes its line.
fn serve_one<D: Door, C: Clerk<S, W>, S, W, O: Sink>(
    alloc: Global,
    door: &mut D,
    clerk: &C,
    store: &mut S,
    work: &mut W,
    out: &mut O,
) -> Result<(), ServeFault>
    requires { D.is_open door.old ≡ false }
    ensures closed { D.is_open door.new ≡ false }
    ensures work { IsWork C.acts 1
        (seen D.is_open D.taken D.door_faults D.line_faults D.told door.old)
        (store.old, work.old) result
        (seen D.is_open D.taken D.door_faults D.line_faults D.told door.new) (store.new, work.new)
        (writing O.told O.faults out.old out.new) }
{
    match attend(alloc, door, clerk, store, work) {
        Served::NoConnection => Err(ServeFault::Door),
        served => match write_line(served, out) {
            Ok(()) => Ok(()),
            Err(_) => Err(ServeFault::Write),
        },
    }
}

// Serves so many connections.
fn serve_each<D: Door, C: Clerk<S, W>, S, W, O: Sink>(
    alloc: Global,
    count: u32,
    door: &mut D,
    clerk: &C,
    store: &mut S,
    work: &mut W,
    out: &mut O,
) -> Result<(), ServeFault>
    requires { D.is_open door.old ≡ false }
    ensures closed { D.is_open door.new ≡ false }
    ensures work { IsWork C.acts count
        (seen D.is_open D.taken D.door_faults D.line_faults D.told door.old)
        (store.old, work.old) result
        (seen D.is_open D.taken D.door_faults D.line_faults D.told door.new) (store.new, work.new)
        (writing O.told O.faults out.old out.new) }
{
    for _ in 0..count {
        serve_one(alloc, door, clerk, store, work, out)?;
    }
    Ok(())
}

/// Listens on the port of 127.0.0.1 and serves so many connections, one after the other. Each has
/// its line on the output when it is finished: `answered` with the status of the response, or
/// `dropped`. It ends before the last one where the port is not opened or no connection is taken,
/// and where the output does not take a line, and takes no further one then. It takes no memory of
/// its own.
pub fn serve<D: Door, C: Clerk<S, W>, S, W, O: Sink>(
    alloc: Global,
    count: u32,
    port: u16,
    door: &mut D,
    clerk: &C,
    store: &mut S,
    work: &mut W,
    out: &mut O,
) -> Result<(), ServeFault>
    requires { D.is_open door.old ≡ false }
    ensures closed { D.is_open door.new ≡ false }
    ensures service { IsService C.acts count port
        (seen D.is_open D.taken D.door_faults D.line_faults D.told door.old)
        (store.old, work.old) result
        (seen D.is_open D.taken D.door_faults D.line_faults D.told door.new) (store.new, work.new)
        (writing O.told O.faults out.old out.new) }
    ensures taken { OnOk result (RoseBy count (D.taken door.old) (D.taken door.new)) }
    ensures door { result ≡ Err ServeFault.Door
        → Rose (D.door_faults door.old) (D.door_faults door.new) }
    ensures write { result ≡ Err ServeFault.Write → Rose (O.faults out.old) (O.faults out.new) }
{
    match door.listen(port) {
        Ok(()) => serve_each(alloc, count, door, clerk, store, work, out),
        Err(_) => Err(ServeFault::Door),
    }
}
