// The connections of a door in memory, and what was written on them.
ghost use Rattle.std.specs.Prelude.{◌≡◌, ◌≤◌, ◌<◌, ◌+◌, ◌-◌, ◌++◌, ℕ, List, [], map, take, drop, length, None, IfOk, IfSome};

use crate::mark::Mark;
use std::alloc::{AllocError, Global};
use std::marker::Model;

/// The connections of a door in memory. What is written on all of them stands in one buffer, whose
/// memory is taken at once.
#[derive(Drop)]
pub struct Book {
    connections: Vec<Vec<u8>>,
    next: usize,
    earlier: Vec<Mark>,
    last: Option<Mark>,
    written: Vec<u8>,
    room: usize,
}

impl Model for Book {
    ghost use Rattle.std.specs.Prelude.{◌≤◌, ◌<◌, ◌-◌, map, drop, length, IfSome, vec_capacity};
    ghost use Rattle.std.specs.Option.{option_map};
    ghost use Rattle.wb_outside.specs.Books.{Book, connection_of, AreKept, IsLast};

    ghost Value = { Book };

    ghost view = { λ b. record {
      waiting = drop b.next (map (λ c. c.items) b.connections.items);
      earlier = map (connection_of (map (λ c. c.items) b.connections.items) b.written.items) b.earlier.items;
      last = option_map (connection_of (map (λ c. c.items) b.connections.items) b.written.items) b.last;
      left = b.room - length b.written.items;
    } };

    ghost invariant = { λ b. (b.next ≤ length b.connections.items) × (length b.earlier.items ≤ b.next) × (length b.connections.items ≤ vec_capacity b.earlier)
        × AreKept b.written.items b.earlier.items × IfSome b.last (λ m. IsLast (map (λ c. c.items) b.connections.items) b.written.items m × (length b.earlier.items < b.next))
        × (length b.written.items ≤ b.room) × (b.room ≤ vec_capacity b.written) };
}

impl Book {
    ghost use Rattle.std.specs.Prelude.{min};
    ghost use Rattle.wb_outside.specs.Books.{next_taken, on_last, read_on, written_on, written_in};

    /// The connections with these bytes, none of which was taken, and room for so many written
    /// bytes in all. Refused only for want of memory.
    pub fn new(alloc: Global, connections: Vec<Vec<u8>>, room: usize) -> Result<Book, AllocError>
        ensures waiting { IfOk result (λ b. b.waiting ≡ map (λ c. c.items) connections.items) }
        ensures earlier { IfOk result (λ b. b.earlier ≡ []) }
        ensures last { IfOk result (λ b. b.last ≡ None) }
        ensures left { IfOk result (λ b. b.left ≡ room) }
    {
        let earlier = Vec::with_capacity(alloc, connections.len())?;
        let written = Vec::with_capacity(alloc, room)?;
        Ok(Book {
            connections,
            next: 0,
            earlier,
            last: None,
            written,
            room,
        })
    }

    /// How many connections are still to be taken.
    pub fn waiting(&self) -> usize
        ensures { result ≡ length self.now.waiting }
    {
        self.connections.len() - self.next
    }

    /// How many bytes can still be written.
    pub fn left(&self) -> usize
        ensures { result ≡ self.now.left }
    {
        self.room - self.written.len()
    }

    /// Takes the next connection.
    pub fn take_next(&mut self)
        requires { 0 < length self.old.waiting }
        ensures { self.new ≡ next_taken self.old }
    {
        if let Some(mark) = self.last {
            let _ = self.earlier.push(mark);
        }
        let end = self.written.len();
        self.last = Some(Mark {
            connection: self.next,
            read: 0,
            start: end,
            end,
        });
        self.next += 1;
    }

    /// How many bytes of the last connection were read.
    pub fn read_so_far(&self) -> usize
        ensures { IfSome self.now.last (λ k. result ≡ k.read) }
    {
        match self.last {
            Some(mark) => mark.read,
            None => 0,
        }
    }

    /// Reads at most `most` of the next bytes of the last connection into the front of the room,
    /// and answers how many.
    pub fn read(&mut self, room: &mut [u8], most: usize) -> usize
        requires { most ≤ length room.old }
        ensures read { IfSome self.old.last (λ k. (result ≡ min most (length k.bytes - k.read)) × (self.new ≡ on_last self.old (read_on k result) self.old.left)
            × (take result room.new ≡ take result (drop k.read k.bytes)) × (k.read + result ≤ length k.bytes)) }
        ensures none { self.old.last ≡ None → self.new ≡ self.old }
        ensures within { result ≤ most }
    {
        let Some(mark) = self.last else {
            return 0;
        };
        let bytes = self.connections[mark.connection].as_slice();
        let (_, rest) = bytes.split_at(mark.read);
        let size = most.min(rest.len());
        room[..size].copy_from_slice(&rest[..size]);
        self.last = Some(Mark {
            connection: mark.connection,
            read: mark.read + size,
            start: mark.start,
            end: mark.end,
        });
        size
    }

    /// Appends the piece to what was written on the last connection.
    pub fn write(&mut self, piece: &[u8])
        requires { length piece.now ≤ self.old.left }
        ensures written { IfSome self.old.last (λ k. self.new
            ≡ on_last self.old (written_on k piece.now) (self.old.left - length piece.now)) }
        ensures none { self.old.last ≡ None → self.new ≡ self.old }
    {
        let Some(mark) = self.last else {
            return;
        };
        let _ = self.written.extend_from_slice(piece);
        self.last = Some(Mark {
            connection: mark.connection,
            read: mark.read,
            start: mark.start,
            end: self.written.len(),
        });
    }

    /// What was written on the i-th taken connection, from 0; nothing where there is none.
    pub fn written(&self, i: usize) -> &[u8]
        ensures { result.now ≡ written_in self.now i }
    {
        if i < self.earlier.len() {
            let mark = self.earlier[i];
            return &self.written[mark.start..mark.end];
        }
        match self.last {
            Some(mark) if i == self.earlier.len() => &self.written[mark.start..mark.end],
            _ => &[],
        }
    }
}
