// Connections, one after the other.
ghost use Rattle.std.specs.Prelude.{◌≡◌, ◌<◌, ◌≤◌, ℕ, Bool, true, false, length, Option, OnOk, OnErr, IfOk};
ghost use Rattle.wb_outside.specs.Causes.{HasCause, raised};
ghost use Rattle.wb_outside.specs.Doors.{Connections, IsAsked, IsNext, IsReadOn, IsUnread, IsWrittenOn, IsFrontWrittenOn, IsSame, Becomes};

use crate::sink::Failed;

/// Connections that peers make, one after the other. It takes no memory.
///
/// A connection is open from an `Ok` of `accept` to the next `finish`. A door may tell of its
/// connections; one that tells goes on telling.
pub trait Door {
    /// Whether a connection is open.
    ghost is_open: { Self → Bool };

    /// How many connections were taken, as far as 2^64 - 1.
    ghost taken: { Self → ℕ };

    /// How many calls of `listen` and `accept` have failed, as far as 2^64 - 1.
    ghost door_faults: { Self → ℕ };

    /// How many calls of `read` and `write` have failed, as far as 2^64 - 1.
    ghost line_faults: { Self → ℕ };

    /// The connections, where the door tells them.
    ghost told: { Self → Option Connections };

    /// Opens the port on 127.0.0.1.
    fn listen(&mut self, port: u16) -> Result<(), Failed>
        ensures told { Becomes (told self.old) (told self.new) (IsAsked port) }
        ensures opened { is_open self.new ≡ is_open self.old }
        ensures taken { taken self.new ≡ taken self.old }
        ensures line { line_faults self.new ≡ line_faults self.old }
        ensures cause { HasCause (door_faults self.old) (door_faults self.new) result };

    /// Takes the next connection, and may wait for it.
    fn accept(&mut self) -> Result<(), Failed>
        requires { is_open self.old ≡ false }
        ensures ok { OnOk result (Becomes (told self.old) (told self.new) IsNext) }
        ensures err { OnErr result (Becomes (told self.old) (told self.new) IsSame) }
        ensures opened { OnOk result ((is_open self.new ≡ true)
            × (taken self.new ≡ raised (taken self.old))) }
        ensures closed { OnErr result ((is_open self.new ≡ false)
            × (taken self.new ≡ taken self.old)) }
        ensures line { line_faults self.new ≡ line_faults self.old }
        ensures cause { HasCause (door_faults self.old) (door_faults self.new) result };

    /// Reads bytes of the open connection into the front of the room, and answers how many. 0 is
    /// their end.
    fn read(&mut self, room: &mut [u8]) -> Result<usize, Failed>
        requires opened { is_open self.old ≡ true }
        requires some { 0 < length room.old }
        ensures ok { IfOk result (λ n. Becomes (told self.old) (told self.new)
            (IsReadOn room.new n)) }
        ensures err { OnErr result (Becomes (told self.old) (told self.new) IsUnread) }
        ensures within { IfOk result (λ n. n ≤ length room.old) }
        ensures opened { is_open self.new ≡ true }
        ensures taken { taken self.new ≡ taken self.old }
        ensures door { door_faults self.new ≡ door_faults self.old }
        ensures cause { HasCause (line_faults self.old) (line_faults self.new) result };

    /// Appends the whole piece to what was written on the open connection. After `Failed` a front
    /// of it is appended.
    fn write(&mut self, piece: &[u8]) -> Result<(), Failed>
        requires { is_open self.old ≡ true }
        ensures ok { OnOk result (Becomes (told self.old) (told self.new) (IsWrittenOn piece.now)) }
        ensures err { OnErr result (Becomes (told self.old) (told self.new)
            (IsFrontWrittenOn piece.now)) }
        ensures opened { is_open self.new ≡ true }
        ensures taken { taken self.new ≡ taken self.old }
        ensures door { door_faults self.new ≡ door_faults self.old }
        ensures cause { HasCause (line_faults self.old) (line_faults self.new) result };

    /// Closes the open connection.
    fn finish(&mut self)
        requires { is_open self.old ≡ true }
        ensures told { Becomes (told self.old) (told self.new) IsSame }
        ensures closed { is_open self.new ≡ false }
        ensures taken { taken self.new ≡ taken self.old }
        ensures door { door_faults self.new ≡ door_faults self.old }
        ensures line { line_faults self.new ≡ line_faults self.old };
}
