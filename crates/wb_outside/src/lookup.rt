// What the objects in memory have in common: a text by its name, and counts that stay at their last
// value.
ghost use Rattle.std.specs.Prelude.{◌≡◌, ◌≤◌, length, take, IfOk};
ghost use Rattle.std.specs.Option.{option_map};
ghost use Rattle.wb_outside.specs.Causes.{raised};
ghost use Rattle.wb_outside.specs.Texts.{text_in};

use crate::named_text::NamedText;
use std::alloc::{AllocError, Global};

// The text of that name.
pub fn text_of<'a>(texts: &'a [NamedText], name: &str) -> Option<&'a [u8]>
    ensures { option_map (λ b. b.now) result ≡ text_in texts.now name.now }
{
    for text in texts {
        if text.name.as_slice() == name.as_bytes() {
            return Some(text.bytes.as_slice());
        }
    }
    None
}

// The first `most` bytes.
pub fn front_of(alloc: Global, bytes: &[u8], most: usize) -> Result<Vec<u8>, AllocError>
    ensures { IfOk result (λ v. v.items ≡ take most bytes.now) }
{
    let end = most.min(bytes.len());
    Vec::from_slice(alloc, &bytes[..end])
}

// The next number of a count.
pub fn next_count(count: u64) -> u64
    ensures { result ≡ raised count }
{
    count.saturating_add(1)
}
