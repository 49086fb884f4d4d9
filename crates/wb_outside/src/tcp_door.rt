// A TCP listener as a door. It tells nothing of its connections.
ghost use Rattle.std.specs.Prelude.{◌≡◌, ◌≤◌, is_some, None, false};
ghost use Rattle.wb_outside.specs.Causes.{Rose};

use crate::door::Door;
use crate::sink::Failed;
use std::io::{Read, Write};
use std::net::{Net, OpenListener, SocketAddr};

/// A door over a TCP listener on 127.0.0.1.
#[derive(Drop)]
pub struct TcpDoor<R: Net> {
    rt: R,
    listener: Option<R::Listener>,
    stream: Option<R::Stream>,
    taken: u64,
    door_faults: u64,
    line_faults: u64,
}

impl<R: Net> TcpDoor<R> {
    /// A door that does not listen yet. It took no connection, and its counts of faults are 0.
    pub fn new(rt: R) -> TcpDoor<R>
        ensures closed { result.stream ≡ None }
        ensures taken { result.taken ≡ 0 }
        ensures door { result.door_faults ≡ 0 }
        ensures line { result.line_faults ≡ 0 }
    {
        TcpDoor {
            rt,
            listener: None,
            stream: None,
            taken: 0,
            door_faults: 0,
            line_faults: 0,
        }
    }

    /// The port that it listens on. Where it was told to listen on port 0 the host chose one.
    pub fn port(&self) -> Option<u16> {
        let listener = self.listener.as_ref()?;
        match listener.local_addr() {
            Ok(address) => Some(address.port()),
            Err(_) => None,
        }
    }
}

// Counts a failure.
fn counted(count: &mut u64) -> Failed
    ensures later { count.old ≤ count.new }
    ensures rose { Rose count.old count.new }
{
    *count = count.saturating_add(1);
    Failed
}

impl<R: Net + Drop> Door for TcpDoor<R> {
    ghost is_open = { λ d. is_some d.stream };

    ghost taken = { λ d. d.taken };

    ghost door_faults = { λ d. d.door_faults };

    ghost line_faults = { λ d. d.line_faults };

    ghost told = { λ _. None };

    fn listen(&mut self, port: u16) -> Result<(), Failed> {
        match self.rt.bind(SocketAddr::from(([127, 0, 0, 1], port))) {
            Ok(listener) => {
                self.listener = Some(listener);
                Ok(())
            }
            Err(_) => Err(counted(&mut self.door_faults)),
        }
    }

    fn accept(&mut self) -> Result<(), Failed> {
        let Some(listener) = &self.listener else {
            return Err(counted(&mut self.door_faults));
        };
        match listener.accept() {
            Ok((stream, _)) => {
                self.stream = Some(stream);
                self.taken = self.taken.saturating_add(1);
                Ok(())
            }
            Err(_) => Err(counted(&mut self.door_faults)),
        }
    }

    fn read(&mut self, room: &mut [u8]) -> Result<usize, Failed> {
        let Some(stream) = &mut self.stream else {
            return Err(counted(&mut self.line_faults));
        };
        match stream.read(room) {
            Ok(n) => Ok(n),
            Err(_) => Err(counted(&mut self.line_faults)),
        }
    }

    fn write(&mut self, piece: &[u8]) -> Result<(), Failed> {
        let Some(stream) = &mut self.stream else {
            return Err(counted(&mut self.line_faults));
        };
        match stream.write_all(piece) {
            Ok(()) => Ok(()),
            Err(_) => Err(counted(&mut self.line_faults)),
        }
    }

    fn finish(&mut self) {
        self.stream = None;
    }
}
