// Short texts in place.
ghost use Rattle.std.specs.Prelude.{◌≡◌, ℕ, List, [], ◌∷◌, ◌++◌, ◌+◌, ◌≤◌, ◌<◌, length, take};

use std::marker::Model;

const ROOM: usize = 64;

/// A text of at most 64 bytes.
#[derive(Drop)]
pub struct SmallText {
    buf: [u8; ROOM],
    len: usize,
}

impl Model for SmallText {
    ghost Value = { List ℕ };

    ghost view = { λ t. take t.len t.buf };

    ghost invariant = { λ t. t.len ≤ 64 };
}

impl SmallText {
    /// The empty text.
    pub fn new() -> SmallText
        ensures { result ≡ [] }
    {
        SmallText {
            buf: [0; ROOM],
            len: 0,
        }
    }

    /// The text.
    pub fn bytes(&self) -> &[u8]
        ensures { result.now ≡ self.now }
    {
        &self.buf[..self.len]
    }

    // Empties the text.
    pub fn clear(&mut self)
        ensures { self.new ≡ [] }
    {
        self.len = 0;
    }

    // Writes a byte at the end.
    pub fn push(&mut self, byte: u8)
        requires { length self.old < 64 }
        ensures { self.new ≡ self.old ++ byte ∷ [] }
    {
        self.buf[self.len] = byte;
        self.len += 1;
    }

    // Writes a piece at the end.
    pub fn push_all(&mut self, piece: &[u8])
        requires { length self.old + length piece.now ≤ 64 }
        ensures { self.new ≡ self.old ++ piece.now }
    {
        for byte in piece {
            self.push(*byte);
        }
    }
}
