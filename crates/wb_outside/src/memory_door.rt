// A door in memory, which fails at the calls that it is given.
ghost use Rattle.std.specs.Prelude.{◌≡◌, ◌≤◌, ◌<◌, ◌↔◌, ℕ, [], map, true, false, length, None, Some, IfOk, IfErr, OnOk, OnErr, IsErr, IsTrue};
ghost use Rattle.wb_outside.specs.Causes.{HasCause, raised};
ghost use Rattle.wb_outside.specs.Doors.{IsAsked, IsNext, IsReadOn, IsUnread, IsWrittenOn, IsFrontWrittenOn, IsSame, written_at};

use crate::book::Book;
use crate::door::Door;
use crate::files::OutsideError;
use crate::lookup::next_count;
use crate::sink::Failed;
use std::alloc::Global;
use std::marker::Model;

/// A door in memory. The calls of `listen`, `accept`, `read` and `write` whose numbers are listed
/// fail, and so do an `accept` for which no connection is left and a `write` of a piece that is
/// longer than the room left.
#[derive(Drop)]
pub struct MemoryDoor {
    book: Book,
    before: usize,
    is_open: bool,
    cut: usize,
    failing: Vec<u64>,
    calls: u64,
    listens: u64,
    port: Option<u16>,
    taken: u64,
    door_faults: u64,
    line_faults: u64,
}

impl Model for MemoryDoor {
    ghost use Rattle.std.specs.Prelude.{◌≡◌, ◌<◌, true, is_some};
    ghost use Rattle.wb_outside.specs.Memory.{HeldDoor};

    ghost Value = { HeldDoor };

    ghost view = { λ d. record {
      told = record { waiting = d.book.waiting; earlier = d.book.earlier; last = d.book.last; before = d.before; listens = d.listens; port = d.port };
      is_open = d.is_open;
      cut = d.cut;
      left = d.book.left;
      failing = d.failing.items;
      calls = d.calls;
      taken = d.taken;
      door_faults = d.door_faults;
      line_faults = d.line_faults;
    } };

    ghost invariant = { λ d. (0 < d.cut) × (d.is_open ≡ true → is_some d.book.last ≡ true) };
}

impl MemoryDoor {
    /// A door to which these connections come, in their order, with the bytes that each sends. One
    /// read gives at most `cut` bytes. There is room for so many written bytes in all, whose memory
    /// is taken here. `failing` lists the numbers of the calls that fail, from 1; `finish` is not
    /// counted. The one refusal is `Memory`.
    pub fn new(
        alloc: Global,
        connections: Vec<Vec<u8>>,
        cut: usize,
        room: usize,
        failing: Vec<u64>,
    ) -> Result<MemoryDoor, OutsideError>
        requires { 0 < cut }
        ensures waiting { IfOk result (λ d. d.told.waiting ≡ map (λ c. c.items) connections.items) }
        ensures earlier { IfOk result (λ d. d.told.earlier ≡ []) }
        ensures last { IfOk result (λ d. d.told.last ≡ None) }
        ensures before { IfOk result (λ d. d.told.before ≡ 0) }
        ensures listens { IfOk result (λ d. d.told.listens ≡ 0) }
        ensures port { IfOk result (λ d. d.told.port ≡ None) }
        ensures closed { IfOk result (λ d. d.is_open ≡ false) }
        ensures cut { IfOk result (λ d. d.cut ≡ cut) }
        ensures left { IfOk result (λ d. d.left ≡ room) }
        ensures failing { IfOk result (λ d. d.failing ≡ failing.items) }
        ensures counts { IfOk result (λ d. (d.calls ≡ 0) × (d.taken ≡ 0) × (d.door_faults ≡ 0)
            × (d.line_faults ≡ 0)) }
        ensures refused { IfErr result (λ e. e ≡ OutsideError.Memory) }
    {
        let book = Book::new(alloc, connections, room)?;
        Ok(MemoryDoor {
            book,
            before: 0,
            is_open: false,
            cut,
            failing,
            calls: 0,
            listens: 0,
            port: None,
            taken: 0,
            door_faults: 0,
            line_faults: 0,
        })
    }

    /// What was written on the i-th taken connection, from 0; nothing where there is none.
    pub fn written(&self, i: usize) -> &[u8]
        ensures { result.now ≡ written_at self.now.told i }
    {
        self.book.written(i)
    }
}

impl Door for MemoryDoor {
    ghost use Rattle.wb_outside.specs.Memory.{call_fails, accept_fails, door_write_fails, after_listen, after_accept, after_read, after_door_write, after_finish};

    ghost is_open = { λ d. d.is_open };

    ghost taken = { λ d. d.taken };

    ghost door_faults = { λ d. d.door_faults };

    ghost line_faults = { λ d. d.line_faults };

    ghost told = { λ d. Some d.told };

    fn listen(&mut self, port: u16) -> Result<(), Failed>
        // What the trait asks.
        ensures told { IsAsked port self.old.told self.new.told }
        ensures opened { self.new.is_open ≡ self.old.is_open }
        ensures taken { self.new.taken ≡ self.old.taken }
        ensures line { self.new.line_faults ≡ self.old.line_faults }
        ensures cause { HasCause self.old.door_faults self.new.door_faults result }

        // Exactly when the call fails, and what it leaves.
        ensures fails { IsErr result ↔ IsTrue (call_fails self.old) }
        ensures after { self.new ≡ after_listen self.old port }
    {
        self.calls = next_count(self.calls);
        self.listens = next_count(self.listens);
        self.port = Some(port);
        if self.failing.contains(&self.calls) {
            self.door_faults = next_count(self.door_faults);
            return Err(Failed);
        }
        Ok(())
    }

    fn accept(&mut self) -> Result<(), Failed>
        // What the trait asks.
        requires { self.old.is_open ≡ false }
        ensures ok { OnOk result (IsNext self.old.told self.new.told) }
        ensures err { OnErr result (IsSame self.old.told self.new.told) }
        ensures opened { OnOk result ((self.new.is_open ≡ true)
            × (self.new.taken ≡ raised self.old.taken)) }
        ensures closed { OnErr result ((self.new.is_open ≡ false)
            × (self.new.taken ≡ self.old.taken)) }
        ensures line { self.new.line_faults ≡ self.old.line_faults }
        ensures cause { HasCause self.old.door_faults self.new.door_faults result }

        // Exactly when the call fails, and what it leaves.
        ensures fails { IsErr result ↔ IsTrue (accept_fails self.old) }
        ensures after { self.new ≡ after_accept self.old }
    {
        self.calls = next_count(self.calls);
        if self.failing.contains(&self.calls) || self.book.waiting() == 0 {
            self.door_faults = next_count(self.door_faults);
            return Err(Failed);
        }
        self.book.take_next();
        self.before = 0;
        self.is_open = true;
        self.taken = next_count(self.taken);
        Ok(())
    }

    fn read(&mut self, room: &mut [u8]) -> Result<usize, Failed>
        // What the trait asks.
        requires opened { self.old.is_open ≡ true }
        requires some { 0 < length room.old }
        ensures ok { IfOk result (λ n. IsReadOn room.new n self.old.told self.new.told) }
        ensures err { OnErr result (IsUnread self.old.told self.new.told) }
        ensures within { IfOk result (λ n. n ≤ length room.old) }
        ensures opened { self.new.is_open ≡ true }
        ensures taken { self.new.taken ≡ self.old.taken }
        ensures door { self.new.door_faults ≡ self.old.door_faults }
        ensures cause { HasCause self.old.line_faults self.new.line_faults result }

        // Exactly when the call fails, and what it leaves.
        ensures fails { IsErr result ↔ IsTrue (call_fails self.old) }
        ensures after { self.new ≡ after_read self.old (length room.old) }
    {
        self.calls = next_count(self.calls);
        self.before = self.book.read_so_far();
        if self.failing.contains(&self.calls) {
            self.line_faults = next_count(self.line_faults);
            return Err(Failed);
        }
        let most = self.cut.min(room.len());
        Ok(self.book.read(room, most))
    }

    fn write(&mut self, piece: &[u8]) -> Result<(), Failed>
        // What the trait asks.
        requires { self.old.is_open ≡ true }
        ensures ok { OnOk result (IsWrittenOn piece.now self.old.told self.new.told) }
        ensures err { OnErr result (IsFrontWrittenOn piece.now self.old.told self.new.told) }
        ensures opened { self.new.is_open ≡ true }
        ensures taken { self.new.taken ≡ self.old.taken }
        ensures door { self.new.door_faults ≡ self.old.door_faults }
        ensures cause { HasCause self.old.line_faults self.new.line_faults result }

        // Exactly when the call fails, and what it leaves.
        ensures fails { IsErr result ↔ IsTrue (door_write_fails self.old piece.now) }
        ensures after { self.new ≡ after_door_write self.old piece.now }
    {
        self.calls = next_count(self.calls);
        if self.failing.contains(&self.calls) || piece.len() > self.book.left() {
            self.line_faults = next_count(self.line_faults);
            return Err(Failed);
        }
        self.book.write(piece);
        Ok(())
    }

    fn finish(&mut self)
        // What the trait asks.
        requires { self.old.is_open ≡ true }
        ensures told { IsSame self.old.told self.new.told }
        ensures closed { self.new.is_open ≡ false }
        ensures taken { self.new.taken ≡ self.old.taken }
        ensures door { self.new.door_faults ≡ self.old.door_faults }
        ensures line { self.new.line_faults ≡ self.old.line_faults }

        // What it leaves.
        ensures after { self.new ≡ after_finish self.old }
    {
        self.is_open = false;
    }
}
