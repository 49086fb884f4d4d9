ghost use Rattle.std.specs.Prelude.{◌≡◌, ◌<◌, ℕ, List, MatchOption};
ghost use Rattle.degree_numbers.specs.declared.types.Types.{Types};
ghost use Rattle.tree_grammar.specs.Places.{IsPlace, IsTreeText};
ghost use Rattle.tree_grammar.specs.Step.{place_in};

use crate::name_bytes::NameBytes;
use crate::state::{At, State};
use crate::steps::step;
use degree_numbers::Types;

/// The first byte at which no tree text goes on, or the end of the text that is none.
fn stop(types: &Types, text: &[u8]) -> Option<usize>
    requires { 0 < types.now.dims }
    ensures { result ≡ place_in types.now text.now }
{
    let mut s = State {
        at: At::Start,
        first: false,
        name: NameBytes::new(),
        ends: false,
        opens: false,
        left: 0,
        depth: 0,
    };
    for i in 0..text.len() {
        let Some(next) = step(types, s, text[i]) else {
            return Some(i);
        };
        s = next;
    }
    match s.at {
        At::Done => None,
        _ => Some(text.len()),
    }
}

/// The place where a text stops being the beginning of a tree text; `None` for a tree text.
pub fn place(types: &Types, text: &[u8]) -> Option<usize>
    requires { 0 < types.now.dims }
    ensures { MatchOption result (IsTreeText types.now text.now)
        (λ i. IsPlace types.now text.now i) }
{
    match stop(types, text) {
        Some(i) => Some(i),
        None => None,
    }
}
/// A text has one such place at most.
pub fn place_law()
    ensures { (ty : Types) (text : List ℕ) (i j : ℕ) → IsPlace ty text i → IsPlace ty text j →
        i ≡ j }
{}
