// A std writer as a sink. It tells nothing of what was written.
ghost use Rattle.std.specs.Prelude.{None, ◌≡◌, ◌≤◌};
ghost use Rattle.wb_outside.specs.Causes.{raised};

use crate::sink::{Failed, Sink};
use std::io::Write;

/// A sink over a std writer.
#[derive(Drop)]
pub struct StreamSink<W> {
    writer: W,
    faults: u64,
}

impl<W: Write> StreamSink<W> {
    /// A sink that writes to this writer. Its count of faults is 0.
    pub fn new(writer: W) -> StreamSink<W>
        ensures { result.faults ≡ 0 }
    {
        StreamSink { writer, faults: 0 }
    }
}

impl<W: Write> Sink for StreamSink<W> {
    ghost told = { λ _. None };

    ghost faults = { λ s. s.faults };

    fn write(&mut self, piece: &[u8]) -> Result<(), Failed> {
        if self.writer.write_all(piece).is_ok() && self.writer.flush().is_ok() {
            Ok(())
        } else {
            self.faults = self.faults.saturating_add(1);
            Err(Failed)
        }
    }
}
