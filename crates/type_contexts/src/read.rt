// A context, read.
ghost use Rattle.std.specs.Prelude.{◌≡◌, ◌≤◌, ◌<◌, ◌<ℤ◌, ◌≤ℤ◌, ◌↔◌, pos, IsTrue, IfOk, IfErr};
ghost use Rattle.degree_numbers.specs.declared.types.Types.{Types};
ghost use Rattle.degree_numbers.specs.Types.{AreTypes};
ghost use Rattle.type_contexts.specs.declared.refusal.ContextRefusal.TheVariants.{ContextText, Memory};
ghost use Rattle.type_contexts.specs.Context.{IsTextIn, IsContextText, IsOldContextText};
ghost use Rattle.type_contexts.specs.Parts.{ArePartsOf, seen_parts};
ghost use Rattle.type_contexts.specs.Same.{AreSameTypes, AreInLeastUnits};

use crate::build::types_of;
use crate::draft::{drafts_of, parts_of};
use crate::file_types::are_file_types;
use crate::form::{Form, Parts, parts_in};
use crate::print::text_in;
use crate::reflect::reflect_of;
use crate::refusal::ContextRefusal;
use crate::scaling::scaling_of;
use degree_numbers::Types;
use std::alloc::{AllocError, Global};

const MOST_TYPES: usize = 16;

// The types that the parts say, be they those of a file or not.
fn types_in(alloc: Global, parts: &Parts) -> Result<Types, ContextRefusal>
    ensures above { IfOk result (λ ty. pos 0 <ℤ ty.units.den) }
    ensures fits { IfOk result (λ ty. ty.units.den ≤ℤ pos 1000000) }
    ensures units { IfOk result AreInLeastUnits }
    ensures same { (form : Form) (ty : Types) → AreTypes ty →
        ArePartsOf form ty (seen_parts parts.now) → IfOk result (AreSameTypes ty) }
    ensures err { (form : Form) (ty : Types) → AreTypes ty →
        ArePartsOf form ty (seen_parts parts.now) → IfErr result (λ e. e ≡ Memory) }
{
    if parts.entries.len() > MOST_TYPES {
        return Err(ContextRefusal::ContextText);
    }
    let (dims, scaling) = scaling_of(alloc, parts.scaling)?;
    let reflect = reflect_of(alloc, parts.reflect)?;
    let drafts = drafts_of(alloc, parts.entries)?;
    types_of(alloc, dims, scaling, reflect, drafts.as_slice())
}

fn has_text(alloc: Global, form: Form, types: &Types, text: &[u8]) -> Result<bool, AllocError>
    requires dims { types.now.dims ≤ 5 }
    requires above { pos 0 <ℤ types.now.units.den }
    requires fits { types.now.units.den ≤ℤ pos 1000000 }
    ensures { IfOk result (λ holds. IsTrue holds ↔ IsTextIn form types.now text.now) }
{
    let printed = text_in(alloc, form, types)?;
    Ok(printed.as_slice() == text)
}

// Whether types are those of a file, and this is their text.
fn have_text(alloc: Global, form: Form, types: &Types, text: &[u8]) -> Result<bool, AllocError>
    ensures { IfOk result (λ holds. IsTrue holds ↔ AreTypes types.now
        × IsTextIn form types.now text.now) }
{
    if are_file_types(alloc, types)? {
        has_text(alloc, form, types, text)
    } else {
        Ok(false)
    }
}

// The types whose context in this form the text is.
fn read_in(alloc: Global, form: Form, text: &[u8]) -> Result<Types, ContextRefusal>
    ensures types { IfOk result AreTypes }
    ensures units { IfOk result AreInLeastUnits }
    ensures text { IfOk result (λ ty. IsTextIn form ty text.now) }
    ensures refused { IfErr result (λ e. e ≡ ContextText → (ty : Types) → AreTypes ty →
        IsTextIn form ty text.now → ⊥) }
{
    let pieces = parts_of(alloc, b'|', text)?;
    let Some(parts) = parts_in(form, pieces.as_slice()) else {
        return Err(ContextRefusal::ContextText);
    };
    let types = types_in(alloc, &parts)?;
    if have_text(alloc, form, &types, text)? {
        Ok(types)
    } else {
        Err(ContextRefusal::ContextText)
    }
}

/// The types whose context this text is, in units of one over the least common denominator of their
/// degrees. Refusal: `ContextText` exactly where the text is the context of no types that an
/// accepted equation file has; so also where a fraction is not in lowest terms, a number passes
/// 1,000,000 (`LARGEST_NUMBER`), a degree passes 20, or groups are out of order.
pub fn read_context(alloc: Global, text: &[u8]) -> Result<Types, ContextRefusal>
    ensures types { IfOk result AreTypes }
    ensures units { IfOk result AreInLeastUnits }
    ensures text { IfOk result (λ ty. IsContextText ty text.now) }
    ensures refused { IfErr result (λ e. e ≡ ContextText → (ty : Types) → AreTypes ty →
        IsContextText ty text.now → ⊥) }
{
    read_in(alloc, Form::New, text)
}

/// The types whose context in the old form this text is, in the same units. Refusal: `ContextText`
/// exactly where the text is the old context of no types that an accepted equation file has.
pub fn read_old_context(alloc: Global, text: &[u8]) -> Result<Types, ContextRefusal>
    ensures types { IfOk result AreTypes }
    ensures units { IfOk result AreInLeastUnits }
    ensures text { IfOk result (λ ty. IsOldContextText ty text.now) }
    ensures refused { IfErr result (λ e. e ≡ ContextText → (ty : Types) → AreTypes ty →
        IsOldContextText ty text.now → ⊥) }
{
    read_in(alloc, Form::Old, text)
}
