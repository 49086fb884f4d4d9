// A sink in memory, which fails at the calls that it is given.
ghost use Rattle.std.specs.Prelude.{◌≡◌, ◌≤◌, ◌++◌, length, IfOk, IfErr, Ok, Err, Some, OnOk, OnErr, vec_capacity, if◌then◌else◌, IsErr, IsTrue, ◌↔◌};
ghost use Rattle.wb_outside.specs.Causes.{HasCause, raised};

use crate::files::OutsideError;
use crate::lookup::next_count;
use crate::sink::{Failed, Sink};
use std::alloc::Global;
use std::marker::Model;

/// A sink in memory. The calls whose numbers are listed fail, and so do those with a piece that is
/// longer than the room left.
#[derive(Drop)]
pub struct MemorySink {
    bytes: Vec<u8>,
    room: usize,
    failing: Vec<u64>,
    calls: u64,
    faults: u64,
}

impl Model for MemorySink {
    ghost use Rattle.std.specs.Prelude.{length, vec_capacity, ◌≤◌};
    ghost use Rattle.wb_outside.specs.Memory.{HeldSink};

    ghost Value = { HeldSink };

    ghost view = { λ s. record { bytes = s.bytes.items; room = s.room; failing = s.failing.items; calls = s.calls; faults = s.faults } };

    ghost invariant = { λ s. (length s.bytes.items ≤ s.room) × (s.room ≤ vec_capacity s.bytes) };
}

impl MemorySink {
    ghost use Rattle.std.specs.Prelude.{[]};

    /// A sink with room for so many bytes in all, whose memory is taken here. `failing` lists the
    /// numbers of the calls that fail, from 1. The one refusal is `Memory`.
    pub fn new(alloc: Global, room: usize, failing: Vec<u64>) -> Result<MemorySink, OutsideError>
        ensures bytes { IfOk result (λ s. s.bytes ≡ []) }
        ensures room { IfOk result (λ s. s.room ≡ room) }
        ensures failing { IfOk result (λ s. s.failing ≡ failing.items) }
        ensures calls { IfOk result (λ s. s.calls ≡ 0) }
        ensures faults { IfOk result (λ s. s.faults ≡ 0) }
        ensures refused { IfErr result (λ e. e ≡ OutsideError.Memory) }
    {
        let bytes = Vec::with_capacity(alloc, room)?;
        Ok(MemorySink {
            bytes,
            room,
            failing,
            calls: 0,
            faults: 0,
        })
    }

    /// What was written.
    pub fn bytes(&self) -> &[u8]
        ensures { result.now ≡ self.now.bytes }
    {
        &self.bytes
    }
}

impl Sink for MemorySink {
    ghost use Rattle.wb_outside.specs.Memory.{write_fails, after_write};

    ghost told = { λ s. Some s.bytes };

    ghost faults = { λ s. s.faults };

    fn write(&mut self, piece: &[u8]) -> Result<(), Failed>
        // What the trait asks.
        ensures ok { OnOk result (self.new.bytes ≡ self.old.bytes ++ piece.now) }
        ensures err { OnErr result (self.new.bytes ≡ self.old.bytes) }
        ensures cause { HasCause self.old.faults self.new.faults result }

        // Exactly when the call fails, and what it leaves.
        ensures fails { IsErr result ↔ IsTrue (write_fails self.old piece.now) }
        ensures after { self.new ≡ after_write self.old piece.now }
    {
        self.calls = next_count(self.calls);
        if self.failing.contains(&self.calls) || piece.len() > self.room - self.bytes.len() {
            self.faults = next_count(self.faults);
            return Err(Failed);
        }
        match self.bytes.extend_from_slice(piece) {
            Ok(()) => Ok(()),
            Err(_) => Err(Failed),
        }
    }
}
