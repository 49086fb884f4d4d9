ghost use Rattle.std.specs.Prelude.{◌≡◌, [], ◌∷◌, ◌++◌, ◌<◌, length};

use std::marker::Model;

const ROOM: usize = 16;

/// The bytes of a name so far, at most 16. Contracts see them as a list.
#[derive(Drop)]
pub struct NameBytes {
    buf: [u8; ROOM],
    len: usize,
}

impl Model for NameBytes {
    ghost use Rattle.std.specs.Prelude.{ℕ, List, ◌≤◌, take};

    ghost Value = { List ℕ };

    ghost view = { λ t. take t.len t.buf };

    ghost invariant = { λ t. t.len ≤ 16 };
}

impl NameBytes {
    pub fn new() -> NameBytes
        ensures { result ≡ [] }
    {
        NameBytes {
            buf: [0; ROOM],
            len: 0,
        }
    }

    pub fn bytes(&self) -> &[u8]
        ensures { result.now ≡ self.now }
    {
        &self.buf[..self.len]
    }

    /// The same with one more byte at the end.
    pub fn with(self, byte: u8) -> NameBytes
        requires { length self < 16 }
        ensures { result ≡ self ++ byte ∷ [] }
    {
        let mut buf = self.buf;
        buf[self.len] = byte;
        NameBytes {
            buf,
            len: self.len + 1,
        }
    }
}
