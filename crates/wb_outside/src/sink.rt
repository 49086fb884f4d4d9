// A place to write to.
ghost use Rattle.std.specs.Prelude.{ℕ, List, OnOk, OnErr, Option};
ghost use Rattle.wb_outside.specs.Causes.{HasCause};
ghost use Rattle.wb_outside.specs.Told.{Grows, GrowsByFront};

/// A call of the outside failed.
#[derive(Clone, Copy, Debug, PartialEq, Eq)]
pub struct Failed;

/// A place that bytes are written to. It takes no memory.
pub trait Sink {
    /// The bytes that were written, where the sink tells them.
    ghost told: { Self → Option (List ℕ) };

    /// How many calls have failed, as far as 2^64 - 1.
    ghost faults: { Self → ℕ };

    /// Appends the whole piece. After `Failed` a front of it is appended.
    fn write(&mut self, piece: &[u8]) -> Result<(), Failed>
        ensures ok { OnOk result (Grows (told self.old) (told self.new) piece.now) }
        ensures err { OnErr result (GrowsByFront (told self.old) (told self.new) piece.now) }
        ensures cause { HasCause (faults self.old) (faults self.new) result };
}
