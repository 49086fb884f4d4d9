// The directions that may be reflected, read.
ghost use Rattle.std.specs.Prelude.{◌≡◌, ◌≤◌, ℕ, List, decimal, map, IfErr, IfOk};
ghost use Rattle.std.specs.List.{AllByRecursion};
ghost use Rattle.degree_numbers.specs.Types.{AreTypes};
ghost use Rattle.degree_numbers.specs.declared.types.Types.{Types};
ghost use Rattle.type_contexts.specs.declared.refusal.ContextRefusal.TheVariants.{Memory};
ghost use Rattle.type_contexts.specs.Context.{directions_text, reflect_text};

use crate::draft::parts_of;
use crate::refusal::ContextRefusal;
use crate::scaling::{number_up_to, second_of};
use sqlite_items::Items;
use std::alloc::Global;

const MOST_DIMENSIONS: u32 = 5;

fn numbers_of(alloc: Global, parts: &[&[u8]]) -> Result<Items<u8>, ContextRefusal>
    ensures ok { (is : List ℕ) → map (λ s. s.now) parts.now ≡ map decimal is →
        AllByRecursion (λ n. n ≤ 5) is → IfOk result (λ v. v ≡ is) }
    ensures err { (is : List ℕ) → map (λ s. s.now) parts.now ≡ map decimal is →
        AllByRecursion (λ n. n ≤ 5) is → IfErr result (λ e. e ≡ Memory) }
{
    let mut found = Items::new(alloc);
    for i in 0..parts.len() {
        let Some(number) = number_up_to(MOST_DIMENSIONS, parts[i]) else {
            return Err(ContextRefusal::ContextText);
        };
        found.push(number as u8)?;
    }
    Ok(found)
}

fn directions_of(alloc: Global, text: &[u8]) -> Result<Items<u8>, ContextRefusal>
    ensures ok { (is : List ℕ) → AllByRecursion (λ n. n ≤ 5) is → text.now ≡ directions_text is →
        IfOk result (λ v. v ≡ is) }
    ensures err { (is : List ℕ) → AllByRecursion (λ n. n ≤ 5) is → text.now ≡ directions_text is →
        IfErr result (λ e. e ≡ Memory) }
{
    if text == b"-".as_slice() {
        return Ok(Items::new(alloc));
    }
    let parts = parts_of(alloc, b',', text)?;
    numbers_of(alloc, parts.as_slice())
}

/// The directions that may be reflected, which a piece of a context says.
pub fn reflect_of(alloc: Global, piece: &[u8]) -> Result<Items<u8>, ContextRefusal>
    ensures ok { (ty : Types) → AreTypes ty → piece.now ≡ reflect_text ty →
        IfOk result (λ v. v ≡ ty.reflect) }
    ensures err { (ty : Types) → AreTypes ty → piece.now ≡ reflect_text ty →
        IfErr result (λ e. e ≡ Memory) }
{
    let words = parts_of(alloc, b' ', piece)?;
    let Some(text) = second_of(words.as_slice()) else {
        return Err(ContextRefusal::ContextText);
    };
    directions_of(alloc, text)
}
