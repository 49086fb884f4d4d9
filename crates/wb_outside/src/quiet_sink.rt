// A sink that never fails, and compares what is written with bytes that it is given.
ghost use Rattle.std.specs.Prelude.{◌≡◌, ◌≤◌, ◌++◌, true, false, Some, None, take, drop, length, IsTrue, IsOk, IfSome, is_some, if◌then◌else◌};
ghost use Rattle.wb_outside.specs.Quiet.{begins};

use crate::sink::{Failed, Sink};
use std::marker::Model;

/// A sink that never fails. It compares each written byte with the next byte of its room, and
/// stores none. It tells what was written as long as that is a front of its room, and nothing from
/// the first byte on that is not.
#[derive(Drop)]
pub struct QuietSink {
    room: Vec<u8>,
    written: usize,
    same: bool,
}

impl Model for QuietSink {
    ghost use Rattle.std.specs.Prelude.{length, take, Some, None, ◌≤◌, if◌then◌else◌};
    ghost use Rattle.wb_outside.specs.Quiet.{Listened};

    ghost Value = { Listened };

    ghost view = { λ s. record { room = s.room.items; told = if s.same then Some (take s.written s.room.items) else None } };

    ghost invariant = { λ s. s.written ≤ length s.room.items };
}

impl QuietSink {
    ghost use Rattle.std.specs.Prelude.{[]};

    /// A sink that expects these bytes.
    pub fn new(room: Vec<u8>) -> QuietSink
        ensures room { result.room ≡ room.items }
        ensures told { result.told ≡ Some [] }
    {
        QuietSink {
            room,
            written: 0,
            same: true,
        }
    }

    /// Whether the sink still tells: what was written is a front of its room.
    pub fn matches(&self) -> bool
        ensures { result ≡ is_some self.now.told }
    {
        self.same
    }

    /// How many bytes were written, while the sink tells.
    pub fn written(&self) -> usize
        ensures { IfSome self.now.told (λ bytes. result ≡ length bytes) }
    {
        self.written
    }
}

// These bytes are the front of those.
fn is_front(piece: &[u8], of: &[u8]) -> bool
    ensures { result ≡ begins of.now piece.now }
{
    piece.len() <= of.len() && &of[..piece.len()] == piece
}

// The piece is what follows the first `written` bytes of the room.
fn is_next(room: &[u8], written: usize, piece: &[u8]) -> bool
    requires { written ≤ length room.now }
    ensures { result ≡ begins room.now (take written room.now ++ piece.now) }
{
    let (_, rest) = room.split_at(written);
    is_front(piece, rest)
}

impl Sink for QuietSink {
    ghost use Rattle.wb_outside.specs.Quiet.{after_listening};

    ghost told = { λ s. s.told };

    ghost faults = { λ _. 0 };

    fn write(&mut self, piece: &[u8]) -> Result<(), Failed>
        ensures never { IsOk result }
        ensures after { self.new ≡ after_listening self.old piece.now }
    {
        if self.same {
            if is_next(&self.room, self.written, piece) {
                self.written += piece.len();
            } else {
                self.same = false;
            }
        }
        Ok(())
    }
}
