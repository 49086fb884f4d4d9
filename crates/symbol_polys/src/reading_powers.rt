// Powers of symbols are read from their texts.
ghost use Rattle.std.specs.Prelude.{◌≡◌, ◌⊎◌, ◌++◌, List, true, IfOk, IfErr, IfSome, OnOk, IsOkUnless, MatchResult, Some, None, map, replicate};
ghost use Rattle.std.specs.List.{AllByRecursion};
ghost use Rattle.std.specs.Str.Parse.{digits_value};
ghost use Rattle.degree_numbers.specs.Types.{AreTypes};
ghost use Rattle.symbol_polys.specs.Reading.{Answers, IsSymbolOf};
ghost use Rattle.symbol_polys.specs.Pieces.{unmarked};
ghost use Rattle.numerals.specs.Numerals.{is_numeral};
ghost use Rattle.symbol_polys.specs.TermReading.{split_power, IsPowerOf, expanded};
ghost use Rattle.symbol_polys.specs.Text.{AreParameters, Power, power_text};
ghost use Rattle.symbol_polys.specs.Symbols.{HasBoundedTree};
ghost use Rattle.symbol_polys.specs.View.{symbol_of};

use crate::error::PolyError;
use crate::reading_symbols::read_symbol;
use crate::splitting::{pieces, unmarked};
use crate::symbols::{Symbol, copy_symbol};
use crate::text::Names;
use numerals::{is_numeral, magnitude};
use sqlite_items::Items;
use std::alloc::Global;

// The number that the digits write, where there can be so many symbols.
fn count_of(digits: &[u8]) -> Option<usize>
    requires { is_numeral digits.now ≡ true }
    ensures { IfSome result (λ n. n ≡ digits_value 10 digits.now) }
{
    let number = magnitude(digits).value()?;
    usize::try_from(number).ok()
}

// The text of the symbol, and the exponent.
fn split_power<'a>(alloc: Global, text: &'a [u8]) -> Result<(&'a [u8], usize), PolyError>
    ensures power { IfOk result (λ x. split_power text.now ≡ Some (x.0.now, x.1)) }
    ensures refusal { IfErr result (λ e. (e ≡ PolyError.Memory) ⊎ (split_power text.now ≡ None)) }
{
    let parts = pieces(alloc, text, b"^")?;
    match parts.as_slice() {
        [base] => Ok((*base, 1)),
        [base, exponent] => {
            let digits = unmarked(b'^', exponent);
            if !is_numeral(digits) {
                return Err(PolyError::PolyText);
            }
            match count_of(digits) {
                Some(exponent) => Ok((*base, exponent)),
                None => Err(PolyError::Memory),
            }
        }
        _ => Err(PolyError::PolyText),
    }
}

fn put_copies(
    alloc: Global,
    symbols: &mut Items<Symbol>,
    s: &Symbol,
    count: usize,
) -> Result<(), PolyError>
    requires { HasBoundedTree (symbol_of s.now) }
    ensures copies { OnOk result (symbols.new ≡ symbols.old ++ replicate count s.now) }
    ensures memory { IsOkUnless result PolyError.Memory }
{
    for _ in 0..count {
        symbols.push(copy_symbol(alloc, s)?)?;
    }
    Ok(())
}

// Appends the symbols of the power with this text.
fn read_power(
    alloc: Global,
    names: &Names<'_>,
    text: &[u8],
    symbols: &mut Items<Symbol>,
) -> Result<(), PolyError>
    requires types { AreTypes names.now.types.now }
    requires parameters { AreParameters names.now.types.now names.now.parameters.now }
    ensures symbols { OnOk result
        (AllByRecursion (IsSymbolOf names.now.types.now names.now.parameters.now) (map symbol_of
        symbols.old) →
        AllByRecursion (IsSymbolOf names.now.types.now names.now.parameters.now)
        (map symbol_of symbols.new)) }
    ensures back { (x : Power) → IsPowerOf names.now.types.now names.now.parameters.now x →
        power_text names.now.types.now names.now.parameters.now x ≡ text.now →
        MatchResult result (λ _. map symbol_of symbols.new ≡ map symbol_of symbols.old
        ++ replicate x.exponent x.symbol) (λ e. e ≡ PolyError.Memory) }
{
    let (base, exponent) = split_power(alloc, text)?;
    let s = read_symbol(alloc, names, base)?;
    put_copies(alloc, symbols, &s, exponent)
}

/// The monomial of the powers with these texts, some of them behind a `*`.
pub(crate) fn read_powers(
    alloc: Global,
    names: &Names<'_>,
    powers: &[&[u8]],
) -> Result<Items<Symbol>, PolyError>
    requires types { AreTypes names.now.types.now }
    requires parameters { AreParameters names.now.types.now names.now.parameters.now }
    ensures symbols { IfOk result
        (λ m. AllByRecursion (IsSymbolOf names.now.types.now names.now.parameters.now)
        (map symbol_of m)) }
    ensures back { (xs : List Power) →
        AllByRecursion (IsPowerOf names.now.types.now names.now.parameters.now) xs →
        map (λ p. unmarked 42 p.now) powers.now ≡ map (power_text names.now.types.now
        names.now.parameters.now) xs → Answers (map symbol_of) result (expanded xs) }
{
    let mut symbols = Items::new(alloc);
    for power in powers {
        read_power(alloc, names, unmarked(b'*', power), &mut symbols)?;
    }
    Ok(symbols)
}
