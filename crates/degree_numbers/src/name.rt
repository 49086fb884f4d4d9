// Names of types, parameters and noise groups.
ghost use Rattle.std.specs.Prelude.{◌≡◌, ◌≤◌, ◌-◌, ◌++◌, Some, None, length, is_some, IfSome};
ghost use Rattle.std.specs.List.{list_all};
ghost use Rattle.degree_numbers.specs.Name.{is_name, is_name_byte, is_reserved, padding};

use std::marker::Model;

const ROOM: usize = 16;

/// A name: a letter and at most 15 letters, digits or `_`, but not `X`, `E`, `T` or `k`. Contracts
/// see its text.
#[derive(Clone, Copy, Debug, PartialEq, Eq)]
pub struct Name {
    buf: [u8; ROOM],
    len: usize,
}

impl Model for Name {
    ghost use Rattle.std.specs.Prelude.{◌≡◌, ◌≤◌, ◌-◌, ℕ, List, ◌++◌, take, drop, length, true};
    ghost use Rattle.std.proofs.Common.{refl};
    ghost use Rattle.degree_numbers.specs.Name.{is_name, padding, padded};

    ghost Value = { List ℕ };

    ghost view = { λ n. take n.len n.buf };

    ghost invariant = { λ n. (n.len ≤ 16) × (length (take n.len n.buf) ≡ n.len) × (is_name (take n.len n.buf) ≡ true) × (drop n.len n.buf ≡ padding (16 - n.len)) };

    ghost inverse = { λ text. record { buf = text ++ padding (16 - length text); len = length text } };

    ghost inverse_ok = { λ n h. rw (padded n.buf n.len h.1 h.3, h.1) refl };
}

impl Name {
    /// The name with this text: `None` exactly where the text is no name.
    pub fn new(text: &[u8]) -> Option<Name>
        ensures some { IfSome result (λ n. n ≡ text.now) }
        ensures variant { is_some result ≡ is_name text.now }
    {
        if !is_name(text) {
            return None;
        }
        Some(Name {
            buf: padded(text),
            len: text.len(),
        })
    }

    /// The text.
    pub fn bytes(&self) -> &[u8]
        ensures { result.now ≡ self.now }
    {
        &self.buf[..self.len]
    }
}

fn is_name_byte(c: u8) -> bool
    ensures { result ≡ is_name_byte c }
{
    c.is_ascii_alphabetic() || c.is_ascii_digit() || c == b'_'
}

fn are_name_bytes(text: &[u8]) -> bool
    ensures { result ≡ list_all is_name_byte text.now }
{
    text.iter().all(|c| is_name_byte(*c))
}

fn is_reserved(text: &[u8]) -> bool
    ensures { result ≡ is_reserved text.now }
{
    match text {
        [c] => matches!(*c, b'X' | b'E' | b'T' | b'k'),
        _ => false,
    }
}

fn is_name(text: &[u8]) -> bool
    ensures { result ≡ is_name text.now }
{
    match text {
        [] => false,
        [first, rest @ ..] => {
            first.is_ascii_alphabetic()
                && are_name_bytes(rest)
                && rest.len() < ROOM
                && !is_reserved(text)
        }
    }
}

// The text with zeros behind it.
fn padded(text: &[u8]) -> [u8; ROOM]
    requires { length text.now ≤ 16 }
    ensures { result ≡ text.now ++ padding (16 - length text.now) }
{
    let mut buf = [0; ROOM];
    buf[..text.len()].copy_from_slice(text);
    buf
}
