ghost use Rattle.std.specs.Prelude.{◌≡◌, ◌+◌, ◌≤◌, ◌<◌, ◌^◌, IfSome, IsTrue, length};
ghost use Rattle.degree_numbers.specs.Name.{is_name_byte, is_reserved};
ghost use Rattle.tree_grammar.specs.Grammar.{number_named, kind_named};
ghost use Rattle.tree_grammar.specs.Step.{opened, closed, follow_by, step_by, step_factor, step_name, step_named, step_digits};

use crate::name_bytes::NameBytes;
use crate::state::{At, State};
use degree_numbers::{Kind, Types};

/// Whether this byte is a letter, a digit or `_`.
pub fn name_byte(b: u8) -> bool
    ensures { result ≡ is_name_byte b }
{
    b.is_ascii_alphabetic() || b.is_ascii_digit() || b == b'_'
}

fn reserved(name: &[u8]) -> bool
    ensures { result ≡ is_reserved name.now }
{
    match name {
        [b] => *b == b'X' || *b == b'E' || *b == b'T' || *b == b'k',
        _ => false,
    }
}

/// The number of the first type with this name.
pub fn type_named(types: &Types, name: &[u8]) -> Option<usize>
    ensures number { result ≡ number_named types.now name.now }
    ensures within { IfSome result (λ k. k < length types.now.list) }
{
    types
        .list
        .as_slice()
        .iter()
        .position(|entry| entry.name.bytes() == name)
}

fn kind_named(types: &Types, name: &[u8]) -> Option<Kind>
    ensures { result ≡ kind_named types.now name.now }
{
    let number = type_named(types, name)?;
    Some(types.list.as_slice()[number].kind)
}

fn open(s: State) -> State
    requires { s.depth + 1 < 2 ^ 64 }
    ensures { result ≡ opened s }
{
    State {
        at: At::Factor,
        first: true,
        depth: s.depth + 1,
        ..s
    }
}

fn close(s: State) -> State
    ensures { result ≡ closed s }
{
    if s.depth <= 1 {
        State {
            at: At::Done,
            depth: 0,
            ..s
        }
    } else {
        State {
            at: At::After,
            ends: true,
            opens: false,
            depth: s.depth - 1,
            ..s
        }
    }
}

fn follow(s: State, b: u8) -> Option<State>
    requires { s.depth + 1 < 2 ^ 64 }
    ensures state { result ≡ follow_by s b }
    ensures depth { IfSome result (λ t. t.depth ≤ s.depth + 1) }
{
    match b {
        b'[' if s.opens => Some(open(s)),
        b']' if s.ends => Some(close(s)),
        b'*' if s.ends => Some(State {
            at: At::Factor,
            first: false,
            ..s
        }),
        _ => None,
    }
}

fn factor(s: State, b: u8) -> Option<State>
    ensures state { result ≡ step_factor s b }
    ensures depth { IfSome result (λ t. t.depth ≤ s.depth + 1) }
{
    if b == b']' && s.first {
        Some(close(s))
    } else if b.is_ascii_alphabetic() {
        Some(State {
            at: At::Name,
            name: NameBytes::new().with(b),
            ..s
        })
    } else {
        None
    }
}

fn named(types: &Types, s: State, b: u8) -> Option<State>
    requires { s.depth + 1 < 2 ^ 64 }
    ensures state { result ≡ step_named types.now s b }
    ensures depth { IfSome result (λ t. t.depth ≤ s.depth + 1) }
{
    let kind = kind_named(types, s.name.bytes());
    let s = State {
        ends: kind != Some(Kind::Kernel),
        opens: kind != Some(Kind::Noise),
        ..s
    };
    if b == b'\'' {
        Some(State { at: At::Quote, ..s })
    } else {
        follow(s, b)
    }
}

fn name(types: &Types, s: State, b: u8) -> Option<State>
    requires dims { 0 < types.now.dims }
    requires depth { s.depth + 1 < 2 ^ 64 }
    ensures state { result ≡ step_name types.now s b }
    ensures depth { IfSome result (λ t. t.depth ≤ s.depth + 1) }
{
    if name_byte(b) {
        if s.name.bytes().len() < 16 {
            Some(State {
                name: s.name.with(b),
                ..s
            })
        } else {
            None
        }
    } else if reserved(s.name.bytes()) {
        if b == b'(' && s.first && s.name.bytes() == b"X".as_slice() {
            Some(State {
                at: At::Entry,
                ends: true,
                opens: false,
                left: types.dims - 1,
                ..s
            })
        } else {
            None
        }
    } else {
        named(types, s, b)
    }
}

fn digits(s: State, b: u8) -> Option<State>
    ensures state { result ≡ step_digits s b }
    ensures depth { IfSome result (λ t. t.depth ≤ s.depth + 1) }
{
    if b.is_ascii_digit() {
        Some(s)
    } else if b == b',' && s.left > 0 {
        Some(State {
            at: At::Entry,
            left: s.left - 1,
            ..s
        })
    } else if b == b')' && s.left == 0 {
        Some(State { at: At::After, ..s })
    } else {
        None
    }
}

/// The state after one more byte; `None` where no text goes on so.
pub fn step(types: &Types, s: State, b: u8) -> Option<State>
    requires dims { 0 < types.now.dims }
    requires depth { s.depth + 1 < 2 ^ 64 }
    ensures state { result ≡ step_by s.at types.now s b }
    ensures depth { IfSome result (λ t. t.depth ≤ s.depth + 1) }
{
    match s.at {
        At::Start => { if b == b'[' { Some(open(s)) } else { None } }
        At::Factor => factor(s, b),
        At::Name => name(types, s, b),
        At::Quote => {
            if b == b'(' {
                Some(State {
                    at: At::Entry,
                    left: types.dims - 1,
                    ..s
                })
            } else {
                None
            }
        }
        At::Entry => {
            if b.is_ascii_digit() {
                Some(State {
                    at: At::Digits,
                    ..s
                })
            } else {
                None
            }
        }
        At::Digits => digits(s, b),
        At::After => follow(s, b),
        At::Done => None,
    }
}
