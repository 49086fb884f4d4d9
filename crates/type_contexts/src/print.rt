// The context of an equation, printed.
ghost use Rattle.std.specs.Prelude.{◌≡◌, [], ◌∷◌, ◌++◌, ◌≤◌, ◌<ℤ◌, ◌≤ℤ◌, ℕ, List, pos, codes, decimal, map, take, unsigned_abs, OnOk, IfOk};
ghost use Rattle.std.specs.List.{AllZip, join_with_byte};
ghost use Rattle.degree_numbers.specs.Printing.{IsDegreeText};
ghost use Rattle.type_contexts.specs.Context.{name_at, noise_words, moments_text, moments_words, kernel_words, IsEntryText, scaling_text, directions_text, reflect_text, front_pieces, back_pieces, IsTextIn, IsContextText, IsOldContextText};

use crate::form::Form;
use degree_numbers::{Degree, Kind, Name, SmallText, TypeEntry, Types, Units, print_degree};
use itoa::Buffer;
use std::alloc::{AllocError, Global};

fn put_number(out: &mut Vec<u8>, n: u32) -> Result<(), AllocError>
    ensures { OnOk result (out.new.items ≡ out.old.items ++ decimal n) }
{
    let mut buffer = Buffer::new();
    out.extend_from_slice(buffer.format(n).as_bytes())
}

// Each behind a comma.
fn put_further(out: &mut Vec<u8>, entries: &[u32]) -> Result<(), AllocError>
    ensures { OnOk result (out.new.items
        ≡ join_with_byte 44 (out.old.items ∷ map decimal entries.now)) }
{
    for entry in entries {
        out.push(b',')?;
        put_number(out, *entry)?;
    }
    Ok(())
}

fn put_listed(out: &mut Vec<u8>, entries: &[u32]) -> Result<(), AllocError>
    ensures { OnOk result (out.new.items ≡ out.old.items
        ++ join_with_byte 44 (map decimal entries.now)) }
{
    match entries {
        [] => Ok(()),
        [first, further @ ..] => {
            put_number(out, *first)?;
            put_further(out, further)
        }
    }
}

fn put_degree(out: &mut Vec<u8>, degree: Degree, units: Units) -> Result<(), AllocError>
    requires above { pos 0 <ℤ units.den }
    requires fits { units.den ≤ℤ pos 1000000 }
    ensures { OnOk result ((text : List ℕ) × IsDegreeText degree (unsigned_abs units.den) text
        × (out.new.items ≡ out.old.items ++ text)) }
{
    let mut text = SmallText::new();
    print_degree(degree, units, &mut text);
    out.extend_from_slice(text.bytes())
}

fn put_group(out: &mut Vec<u8>, groups: &[Name], group: u8) -> Result<(), AllocError>
    ensures { OnOk result (out.new.items ≡ out.old.items ++ name_at groups.now group) }
{
    match groups.get(group as usize) {
        Some(name) => out.extend_from_slice(name.bytes()),
        None => Ok(()),
    }
}

fn put_noise(
    out: &mut Vec<u8>,
    units: Units,
    groups: &[Name],
    entry: &TypeEntry,
) -> Result<(), AllocError>
    requires above { pos 0 <ℤ units.den }
    requires fits { units.den ≤ℤ pos 1000000 }
    ensures { OnOk result ((degree : List ℕ)
        × IsDegreeText entry.now.degree (unsigned_abs units.den) degree
        × (out.new.items ≡ out.old.items
        ++ join_with_byte 32 (noise_words groups.now entry.now degree))) }
{
    out.extend_from_slice(b"noise ")?;
    out.extend_from_slice(entry.name.bytes())?;
    out.push(b' ')?;
    put_degree(out, entry.degree, units)?;
    out.push(b' ')?;
    put_group(out, groups, entry.group)
}

fn put_moments(out: &mut Vec<u8>, moments: Option<u8>) -> Result<(), AllocError>
    ensures { OnOk result (out.new.items ≡ out.old.items ++ moments_text moments) }
{
    match moments {
        Some(number) => put_number(out, number as u32),
        None => Ok(out.push(b'-')?),
    }
}

// Each behind a space.
fn put_moments_words(out: &mut Vec<u8>, form: Form, moments: Option<u8>) -> Result<(), AllocError>
    ensures { OnOk result (out.new.items
        ≡ join_with_byte 32 (out.old.items ∷ moments_words form moments)) }
{
    match (form, moments) {
        (Form::New, _) => {
            out.push(b' ')?;
            put_moments(out, moments)
        }
        (Form::Old, Some(number)) => {
            out.extend_from_slice(b" moments ")?;
            put_number(out, number as u32)
        }
        (Form::Old, None) => Ok(()),
    }
}

fn put_kernel(
    out: &mut Vec<u8>,
    form: Form,
    units: Units,
    entry: &TypeEntry,
) -> Result<(), AllocError>
    requires above { pos 0 <ℤ units.den }
    requires fits { units.den ≤ℤ pos 1000000 }
    ensures { OnOk result ((degree : List ℕ)
        × IsDegreeText entry.now.degree (unsigned_abs units.den) degree
        × (out.new.items ≡ out.old.items
        ++ join_with_byte 32 (kernel_words form entry.now degree))) }
{
    out.extend_from_slice(b"kernel ")?;
    out.extend_from_slice(entry.name.bytes())?;
    out.push(b' ')?;
    put_degree(out, entry.degree, units)?;
    put_moments_words(out, form, entry.moments)
}

fn put_entry(
    out: &mut Vec<u8>,
    form: Form,
    units: Units,
    groups: &[Name],
    entry: &TypeEntry,
) -> Result<(), AllocError>
    requires above { pos 0 <ℤ units.den }
    requires fits { units.den ≤ℤ pos 1000000 }
    ensures { OnOk result ((text : List ℕ)
        × IsEntryText form (unsigned_abs units.den) groups.now entry.now text
        × (out.new.items ≡ out.old.items ++ text)) }
{
    match entry.kind {
        Kind::Noise => put_noise(out, units, groups, entry),
        Kind::Kernel => put_kernel(out, form, units, entry),
    }
}

fn put_scaling(out: &mut Vec<u8>, types: &Types) -> Result<(), AllocError>
    requires { types.now.dims ≤ 5 }
    ensures { OnOk result (out.new.items ≡ out.old.items ++ scaling_text types.now) }
{
    out.extend_from_slice(b"scaling ")?;
    put_listed(out, &types.scaling[..types.dims as usize])
}

// Each behind a bar.
fn put_entries(
    out: &mut Vec<u8>,
    form: Form,
    units: Units,
    groups: &[Name],
    entries: &[TypeEntry],
) -> Result<(), AllocError>
    requires above { pos 0 <ℤ units.den }
    requires fits { units.den ≤ℤ pos 1000000 }
    ensures { OnOk result ((pieces : List (List ℕ))
        × AllZip (IsEntryText form (unsigned_abs units.den) groups.now) entries.now pieces
        × (out.new.items ≡ join_with_byte 124 (out.old.items ∷ pieces))) }
{
    for entry in entries {
        out.push(b'|')?;
        put_entry(out, form, units, groups, entry)?;
    }
    Ok(())
}

fn put_directions(out: &mut Vec<u8>, directions: &[u8]) -> Result<(), AllocError>
    ensures { OnOk result (out.new.items ≡ out.old.items ++ directions_text directions.now) }
{
    match directions {
        [] => Ok(out.push(b'-')?),
        [first, further @ ..] => {
            put_number(out, *first as u32)?;
            put_further_directions(out, further)
        }
    }
}

// Each behind a comma.
fn put_further_directions(out: &mut Vec<u8>, directions: &[u8]) -> Result<(), AllocError>
    ensures { OnOk result (out.new.items
        ≡ join_with_byte 44 (out.old.items ∷ map decimal directions.now)) }
{
    for direction in directions {
        out.push(b',')?;
        put_number(out, *direction as u32)?;
    }
    Ok(())
}

fn put_reflect(out: &mut Vec<u8>, types: &Types) -> Result<(), AllocError>
    ensures { OnOk result (out.new.items ≡ out.old.items ++ reflect_text types.now) }
{
    out.extend_from_slice(b"reflect ")?;
    put_directions(out, types.reflect.as_slice())
}

// What stands before the types.
fn put_front(out: &mut Vec<u8>, form: Form, types: &Types) -> Result<(), AllocError>
    requires { types.now.dims ≤ 5 }
    ensures { OnOk result (out.new.items ≡ out.old.items
        ++ join_with_byte 124 (front_pieces form types.now)) }
{
    match form {
        Form::New => {
            out.extend_from_slice(b"context 2|")?;
            put_scaling(out, types)?;
            out.push(b'|')?;
            put_reflect(out, types)
        }
        Form::Old => put_scaling(out, types),
    }
}

// What stands behind the types, behind a bar.
fn put_back(out: &mut Vec<u8>, form: Form, types: &Types) -> Result<(), AllocError>
    ensures { OnOk result (out.new.items
        ≡ join_with_byte 124 (out.old.items ∷ back_pieces form types.now)) }
{
    match (form, types.reflect.as_slice()) {
        (Form::Old, [_, ..]) => {
            out.push(b'|')?;
            put_reflect(out, types)
        }
        _ => Ok(()),
    }
}

/// The context of an equation with these types in a form.
pub fn text_in(alloc: Global, form: Form, types: &Types) -> Result<Vec<u8>, AllocError>
    requires dims { types.now.dims ≤ 5 }
    requires above { pos 0 <ℤ types.now.units.den }
    requires fits { types.now.units.den ≤ℤ pos 1000000 }
    ensures { IfOk result (λ text. IsTextIn form types.now text.items) }
{
    let mut out = Vec::new(alloc);
    put_front(&mut out, form, types)?;
    put_entries(
        &mut out,
        form,
        types.units,
        types.groups.as_slice(),
        types.list.as_slice(),
    )?;
    put_back(&mut out, form, types)?;
    Ok(out)
}

/// The context of an equation with these types, under which constants are kept. It says what is
/// declared and what is not: `context 2`, then `|scaling` with the entries of the scaling,
/// `|reflect` with the directions that may be reflected or `-`, then `|noise NAME DEGREE GROUP` for
/// each noise and `|kernel NAME DEGREE MOMENTS` for each kernel, in their order, with the moment
/// number or `-`. Degrees are printed as fractions in lowest terms, so the text is the same in
/// every common denominator. The types of `u_t - u_xx - u_yy = u*xi` give
/// `context 2|scaling 2,1,1|reflect -|noise xi -1-k xi|kernel u 2 -`. Fails only for want of
/// memory.
pub fn context_text(alloc: Global, types: &Types) -> Result<Vec<u8>, AllocError>
    requires dims { types.now.dims ≤ 5 }
    requires above { pos 0 <ℤ types.now.units.den }
    requires fits { types.now.units.den ≤ℤ pos 1000000 }
    ensures { IfOk result (λ text. IsContextText types.now text.items) }
{
    text_in(alloc, Form::New, types)
}

/// The context in the old form, in which what is not declared is left out: `scaling` with its
/// entries, `|noise NAME DEGREE GROUP` for each noise, `|kernel NAME DEGREE` for each kernel,
/// followed by ` moments NUMBER` where one is declared, and last `|reflect` with the directions,
/// where there are any. The types of `u_t - u_xx - u_yy = u*xi` give
/// `scaling 2,1,1|noise xi -1-k xi|kernel u 2`. Fails only for want of memory.
pub fn old_context_text(alloc: Global, types: &Types) -> Result<Vec<u8>, AllocError>
    requires dims { types.now.dims ≤ 5 }
    requires above { pos 0 <ℤ types.now.units.den }
    requires fits { types.now.units.den ≤ℤ pos 1000000 }
    ensures { IfOk result (λ text. IsOldContextText types.now text.items) }
{
    text_in(alloc, Form::Old, types)
}
