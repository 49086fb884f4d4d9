// Texts of polynomials.
ghost use Rattle.std.specs.Prelude.{◌≡◌, ◌++◌, ◌<◌, ◌≤◌, ◌^◌, [], ◌∷◌, if◌then◌else◌, IfOk, OnOk, IsOkUnless, map, length, unsigned_abs};
ghost use Rattle.std.specs.List.{AllByRecursion, prefix_len};
ghost use Rattle.std.specs.Ordering.{is_eq};
ghost use Rattle.degree_numbers.specs.Types.{AreTypes, name_of};
ghost use Rattle.plain_trees.specs.Degree.{HasTypes};
ghost use Rattle.plain_trees.specs.Plain.{IsSmall, edge_count_of};
ghost use Rattle.plain_trees.specs.Text.{joined, tree_text};
ghost use Rattle.plain_trees.specs.View.{plain};
ghost use Rattle.symbol_polys.specs.Symbols.{tree_in, symbol_order, HasBoundedTree};
ghost use Rattle.symbol_polys.specs.Text.{IsOver, IsTermOver, symbol_text, power_text, powers, remaining, factors, body_text, signed_texts, poly_text};
ghost use Rattle.symbol_polys.specs.View.{symbol_of, term_of, terms_of};

use crate::error::PolyError;
use crate::poly::{Poly, Term};
use crate::symbols::{Symbol, symbol_order};
use degree_numbers::{Name, TypeId, Types, put_edge_type};
use itoa::Buffer;
use numerals::put_number;
use plain_trees::{Tree, print_tree};
use std::alloc::{AllocError, Global};

/// What the symbols of a polynomial are named by: the types and the parameters of an equation.
#[derive(Clone, Copy)]
pub(crate) struct Names<'a> {
    pub(crate) types: &'a Types,
    pub(crate) parameters: &'a [Name],
}

fn put_name(out: &mut Vec<u8>, types: &Types, kind: TypeId) -> Result<(), AllocError>
    requires { kind.0 < length types.now.list }
    ensures { OnOk result (out.new.items ≡ out.old.items ++ name_of types.now kind.0) }
{
    out.extend_from_slice(types.list.as_slice()[kind.0 as usize].name.bytes())
}

// `T` or `E` and the text of a tree.
fn put_tree(
    out: &mut Vec<u8>,
    alloc: Global,
    types: &Types,
    mark: u8,
    t: &Tree,
) -> Result<(), AllocError>
    requires types { AreTypes types.now }
    requires tree { HasTypes types.now (plain t.now) }
    requires small { IsSmall (plain t.now) }
    ensures { OnOk result (out.new.items ≡ out.old.items
        ++ mark ∷ tree_text types.now (plain t.now)) }
{
    let Ok(text) = print_tree(alloc, types, t) else {
        return Err(AllocError);
    };
    out.push(mark)?;
    out.extend_from_slice(text.as_slice())
}

fn put_symbol(
    out: &mut Vec<u8>,
    alloc: Global,
    names: &Names<'_>,
    s: &Symbol,
) -> Result<(), AllocError>
    requires types { AreTypes names.now.types.now }
    requires over { IsOver names.now.types.now names.now.parameters.now (symbol_of s.now) }
    requires tree { HasBoundedTree (symbol_of s.now) }
    ensures { OnOk result (out.new.items ≡ out.old.items
        ++ symbol_text names.now.types.now names.now.parameters.now (symbol_of s.now)) }
{
    match s {
        Symbol::Parameter(i) => out.extend_from_slice(names.parameters[*i as usize].bytes()),
        Symbol::Variable(k, m) => put_edge_type(out, names.types, *k, m),
        Symbol::Noise(k) => put_name(out, names.types, *k),
        Symbol::Plain(t) => put_tree(out, alloc, names.types, b'T', t),
        Symbol::Expect(t) => put_tree(out, alloc, names.types, b'E', t),
    }
}

// The symbol, and `^` and the exponent where that is above 1.
fn put_power(
    out: &mut Vec<u8>,
    alloc: Global,
    names: &Names<'_>,
    s: &Symbol,
    exponent: usize,
) -> Result<(), AllocError>
    requires types { AreTypes names.now.types.now }
    requires over { IsOver names.now.types.now names.now.parameters.now (symbol_of s.now) }
    requires tree { HasBoundedTree (symbol_of s.now) }
    ensures { OnOk result (out.new.items ≡ out.old.items
        ++ power_text names.now.types.now names.now.parameters.now
        record { symbol = symbol_of s.now; exponent = exponent }) }
{
    put_symbol(out, alloc, names, s)?;
    if exponent != 1 {
        out.push(b'^')?;
        put_number(out, exponent as u128)?;
    }
    Ok(())
}

// How many symbols at the front are equal to this one.
fn equal_at_front(s: &Symbol, symbols: &[Symbol]) -> usize
    requires small { edge_count_of (tree_in (symbol_of s.now)) ≤ 24 }
    requires all_small { AllByRecursion HasBoundedTree (map symbol_of symbols.now) }
    ensures count { result ≡ prefix_len (λ t. is_eq (symbol_order (symbol_of s.now) t))
        (map symbol_of symbols.now) }
    ensures within { result ≤ length symbols.now }
{
    for i in 0..symbols.len() {
        if symbol_order(s, &symbols[i]).is_ne() {
            return i;
        }
    }
    symbols.len()
}

fn put_separator(out: &mut Vec<u8>, is_first: bool) -> Result<(), AllocError>
    ensures { OnOk result (out.new.items ≡ out.old.items ++ (if is_first then [] else 42 ∷ [])) }
{
    if !is_first {
        out.push(b'*')?;
    }
    Ok(())
}

// The powers of a monomial, joined by `*`; each after a `*` where a factor stands before them.
fn put_powers(
    out: &mut Vec<u8>,
    alloc: Global,
    names: &Names<'_>,
    is_first: bool,
    symbols: &[Symbol],
) -> Result<(), AllocError>
    requires types { AreTypes names.now.types.now }
    requires over { AllByRecursion (IsOver names.now.types.now names.now.parameters.now)
        (map symbol_of symbols.now) }
    requires trees { AllByRecursion HasBoundedTree (map symbol_of symbols.now) }
    ensures { OnOk result (out.new.items ≡ out.old.items
        ++ remaining is_first (map (power_text names.now.types.now names.now.parameters.now)
        (powers (map symbol_of symbols.now)))) }
{
    let mut is_first = is_first;
    let mut at = 0;
    while at < symbols.len() {
        let s = &symbols[at];
        let exponent = 1 + equal_at_front(s, symbols.split_at(at + 1).1);
        put_separator(out, is_first)?;
        put_power(out, alloc, names, s, exponent)?;
        is_first = false;
        at += exponent;
    }
    Ok(())
}

/// The factors of a number and a monomial, joined by `*`.
pub(crate) fn put_body(
    out: &mut Vec<u8>,
    alloc: Global,
    names: &Names<'_>,
    digits: &[u8],
    symbols: &[Symbol],
) -> Result<(), AllocError>
    requires types { AreTypes names.now.types.now }
    requires over { AllByRecursion (IsOver names.now.types.now names.now.parameters.now)
        (map symbol_of symbols.now) }
    requires trees { AllByRecursion HasBoundedTree (map symbol_of symbols.now) }
    ensures { OnOk result (out.new.items ≡ out.old.items
        ++ joined (factors names.now.types.now names.now.parameters.now digits.now
        (map symbol_of symbols.now))) }
{
    let is_left_out = digits == b"1".as_slice() && !symbols.is_empty();
    if !is_left_out {
        out.extend_from_slice(digits)?;
    }
    put_powers(out, alloc, names, is_left_out, symbols)
}

fn size(term: &Term) -> u128
    ensures size { result ≡ unsigned_abs term.now.coefficient }
    ensures fits { result ≤ 2 ^ 127 }
{
    term.coefficient.unsigned_abs()
}

// A term without its sign.
fn put_term(
    out: &mut Vec<u8>,
    alloc: Global,
    names: &Names<'_>,
    term: &Term,
) -> Result<(), AllocError>
    requires types { AreTypes names.now.types.now }
    requires over { IsTermOver names.now.types.now names.now.parameters.now (term_of term.now) }
    ensures { OnOk result (out.new.items ≡ out.old.items
        ++ body_text names.now.types.now names.now.parameters.now (term_of term.now)) }
{
    let mut buffer = Buffer::new();
    let digits = buffer.format(size(term)).as_bytes();
    put_body(out, alloc, names, digits, term.symbols.as_slice())
}

fn put_further(
    out: &mut Vec<u8>,
    alloc: Global,
    names: &Names<'_>,
    terms: &[Term],
) -> Result<(), AllocError>
    requires types { AreTypes names.now.types.now }
    requires over { AllByRecursion (IsTermOver names.now.types.now names.now.parameters.now)
        (terms_of terms.now) }
    ensures { OnOk result (out.new.items ≡ out.old.items
        ++ signed_texts names.now.types.now names.now.parameters.now (terms_of terms.now)) }
{
    for term in terms {
        out.push(if term.coefficient < 0 { b'-' } else { b'+' })?;
        put_term(out, alloc, names, term)?;
    }
    Ok(())
}

fn put_terms(
    out: &mut Vec<u8>,
    alloc: Global,
    names: &Names<'_>,
    terms: &[Term],
) -> Result<(), AllocError>
    requires types { AreTypes names.now.types.now }
    requires over { AllByRecursion (IsTermOver names.now.types.now names.now.parameters.now)
        (terms_of terms.now) }
    ensures { OnOk result (out.new.items ≡ out.old.items
        ++ poly_text names.now.types.now names.now.parameters.now (terms_of terms.now)) }
{
    match terms {
        [] => Ok(out.push(b'0')?),
        [first, further @ ..] => {
            if first.coefficient < 0 {
                out.push(b'-')?;
            }
            put_term(out, alloc, names, first)?;
            put_further(out, alloc, names, further)
        }
    }
}

/// The text of a polynomial: `0`, or its terms in order, each with its sign, of which a first `+`
/// is left out. A term is the absolute coefficient, where it is not 1 or there are no symbols, and
/// the powers of its symbols, joined by `*`; an exponent stands after `^` where it is above 1. A
/// parameter and a noise are written by their names, a variable by the name of its unknown, with
/// `'` and the multiindex where that is not 0, a tree as `T` and its text, and the expectation of a
/// tree as `E` and its text: `-3*u^2*xi+E[xi*u[xi]]`. Fails only for want of memory.
pub fn print_poly(
    alloc: Global,
    types: &Types,
    parameters: &[Name],
    f: &Poly,
) -> Result<Vec<u8>, PolyError>
    requires types { AreTypes types.now }
    requires over { AllByRecursion (IsTermOver types.now parameters.now) (terms_of f.now.terms) }
    ensures text { IfOk result (λ v. v.items ≡ poly_text types.now parameters.now
        (terms_of f.now.terms)) }
    ensures memory { IsOkUnless result PolyError.Memory }
{
    let names = Names { types, parameters };
    let mut out = Vec::new(alloc);
    put_terms(&mut out, alloc, &names, f.terms.as_slice())?;
    Ok(out)
}
