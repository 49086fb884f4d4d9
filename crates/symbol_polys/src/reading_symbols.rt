// Symbols are read from their texts.
ghost use Rattle.std.specs.Prelude.{◌≡◌, ◌<◌, ◌≤◌, IfOk, IfSome, length, option_map};
ghost use Rattle.degree_numbers.specs.Multi.{is_zero};
ghost use Rattle.degree_numbers.specs.Types.{AreTypes};
ghost use Rattle.plain_trees.specs.Reading.{IsTreeOf};
ghost use Rattle.plain_trees.specs.View.{plain};
ghost use Rattle.plain_trees.specs.Plain.{Plain};
ghost use Rattle.symbol_polys.specs.Reading.{Answers, IsSymbolOf};
ghost use Rattle.symbol_polys.specs.Symbols.{PlainSymbol};
ghost use Rattle.symbol_polys.specs.SymbolReading.{parameter_number, entry_at, entries_at, entries_behind, multi_behind, named_symbol, tree_behind};
ghost use Rattle.symbol_polys.specs.Text.{AreParameters, symbol_text};
ghost use Rattle.symbol_polys.specs.View.{symbol_of};

use crate::error::PolyError;
use crate::symbols::Symbol;
use crate::text::Names;
use degree_numbers::{Kind, Multi, Name, TypeId, Types};
use plain_trees::{Tree, TreeError, read_tree};
use std::alloc::Global;
use text_parts::number_of;
use tree_grammar::{type_named, word};

const LARGEST_ENTRY: u64 = u32::MAX as u64;

const MOST_DECORATIONS: u32 = 4096;

fn parameter_named(parameters: &[Name], name: &[u8]) -> Option<usize>
    ensures number { result ≡ parameter_number parameters.now name.now }
    ensures within { IfSome result (λ i. i < length parameters.now) }
{
    parameters.iter().position(|p| p.bytes() == name)
}

// The number at the front, and what stands behind it and a comma.
fn entry_of(text: &[u8]) -> (u32, &[u8])
    ensures entry { result.0 ≡ (entry_at text.now).0 }
    ensures behind { result.1.now ≡ (entry_at text.now).1 }
{
    match number_of(text) {
        None => (0, text),
        Some((n, [b',', behind @ ..])) => (n.min(LARGEST_ENTRY) as u32, behind),
        Some((n, _)) => (n.min(LARGEST_ENTRY) as u32, &[]),
    }
}

fn entries_of(text: &[u8]) -> Multi
    ensures { result.entries ≡ entries_at 5 text.now }
{
    let (first, text) = entry_of(text);
    let (second, text) = entry_of(text);
    let (third, text) = entry_of(text);
    let (fourth, text) = entry_of(text);
    let (fifth, _) = entry_of(text);
    Multi {
        entries: [first, second, third, fourth, fifth],
    }
}

fn entries_behind(text: &[u8]) -> Multi
    ensures { result.entries ≡ entries_behind text.now }
{
    match text {
        [b'\'', b'(', entries @ ..] => entries_of(entries),
        _ => Multi::zero(),
    }
}

fn are_zero(entries: &[u32]) -> bool
    ensures { result ≡ is_zero entries.now }
{
    entries.iter().all(|x| *x == 0)
}

fn multi_behind(dims: u8, text: &[u8]) -> Option<Multi>
    requires { dims ≤ 5 }
    ensures { option_map (λ m. m.entries) result ≡ multi_behind dims text.now }
{
    let m = entries_behind(text);
    if are_zero(m.entries.split_at(dims as usize).1) {
        Some(m)
    } else {
        None
    }
}

fn read_named(names: &Names<'_>, text: &[u8]) -> Option<Symbol>
    requires types { AreTypes names.now.types.now }
    requires parameters { AreParameters names.now.types.now names.now.parameters.now }
    ensures { option_map symbol_of result ≡ named_symbol names.now.types.now
        names.now.parameters.now text.now }
{
    let name = word(text);
    if let Some(i) = parameter_named(names.parameters, name) {
        return Some(Symbol::Parameter(i as u8));
    }
    let number = type_named(names.types, name)?;
    let id = TypeId(number as u8);
    match names.types.list.as_slice()[number].kind {
        Kind::Noise => Some(Symbol::Noise(id)),
        Kind::Kernel => {
            let m = multi_behind(names.types.dims, text.split_at(name.len()).1)?;
            Some(Symbol::Variable(id, m))
        }
    }
}

// What stands behind the mark, where a bracket opens there.
fn tree_behind(mark: u8, text: &[u8]) -> Option<&[u8]>
    ensures { option_map (λ tree. tree.now) result ≡ tree_behind mark text.now }
{
    match text {
        [c, b'[', ..] if *c == mark => Some(text.split_at(1).1),
        _ => None,
    }
}

fn read_bounded(alloc: Global, types: &Types, text: &[u8]) -> Result<Tree, PolyError>
    requires { AreTypes types.now }
    ensures tree { IfOk result (λ t. IsTreeOf types.now 4096 text.now (plain t)) }
    ensures back { (t : Plain) → IsTreeOf types.now 4096 text.now t → Answers plain result t }
{
    match read_tree(alloc, types, text, MOST_DECORATIONS) {
        Ok(t) => Ok(t),
        Err(TreeError::Memory) => Err(PolyError::Memory),
        Err(_) => Err(PolyError::PolyText),
    }
}

/// The symbol with this text.
pub(crate) fn read_symbol(
    alloc: Global,
    names: &Names<'_>,
    text: &[u8],
) -> Result<Symbol, PolyError>
    requires types { AreTypes names.now.types.now }
    requires parameters { AreParameters names.now.types.now names.now.parameters.now }
    ensures symbol { IfOk result (λ s. IsSymbolOf names.now.types.now names.now.parameters.now
        (symbol_of s)) }
    ensures back { (s : PlainSymbol) → IsSymbolOf names.now.types.now names.now.parameters.now s →
        symbol_text names.now.types.now names.now.parameters.now s ≡ text.now →
        Answers symbol_of result s }
{
    if let Some(tree) = tree_behind(b'T', text) {
        return Ok(Symbol::Plain(read_bounded(alloc, names.types, tree)?));
    }
    if let Some(tree) = tree_behind(b'E', text) {
        return Ok(Symbol::Expect(read_bounded(alloc, names.types, tree)?));
    }
    match read_named(names, text) {
        Some(s) => Ok(s),
        None => Err(PolyError::PolyText),
    }
}
