// Texts of multiindices and of edge types.
ghost use Rattle.std.specs.Prelude.{◌≡◌, ◌++◌, ◌<◌, ◌≤◌, length, OnOk};
ghost use Rattle.std.specs.Fmt.{decimal};
ghost use Rattle.degree_numbers.specs.EdgeText.{further_text, listed_text, multi_text, edge_type_text};

use crate::multi::Multi;
use crate::types::{TypeId, Types};
use itoa::Buffer;
use std::alloc::AllocError;

fn put_number(out: &mut Vec<u8>, x: u32) -> Result<(), AllocError>
    ensures { OnOk result (out.new.items ≡ out.old.items ++ decimal x) }
{
    let mut buffer = Buffer::new();
    out.extend_from_slice(buffer.format(x).as_bytes())
}

fn put_further(out: &mut Vec<u8>, entries: &[u32]) -> Result<(), AllocError>
    ensures { OnOk result (out.new.items ≡ out.old.items ++ further_text entries.now) }
{
    for x in entries {
        out.push(b',')?;
        put_number(out, *x)?;
    }
    Ok(())
}

fn put_listed(out: &mut Vec<u8>, entries: &[u32]) -> Result<(), AllocError>
    ensures { OnOk result (out.new.items ≡ out.old.items ++ listed_text entries.now) }
{
    match entries {
        [] => Ok(()),
        [first, further @ ..] => {
            put_number(out, *first)?;
            put_further(out, further)
        }
    }
}

/// Appends the first `dims` entries, joined by commas, in brackets.
pub fn put_multi(out: &mut Vec<u8>, dims: u8, m: &Multi) -> Result<(), AllocError>
    requires { dims ≤ 5 }
    ensures { OnOk result (out.new.items ≡ out.old.items ++ multi_text dims m.now.entries) }
{
    out.push(b'(')?;
    put_listed(out, &m.entries[..dims as usize])?;
    out.push(b')')?;
    Ok(())
}

/// Appends the name of a type, and `'` with the multiindex where that is not 0.
pub fn put_edge_type(
    out: &mut Vec<u8>,
    types: &Types,
    kind: TypeId,
    p: &Multi,
) -> Result<(), AllocError>
    requires dims { types.now.dims ≤ 5 }
    requires known { kind.0 < length types.now.list }
    ensures { OnOk result (out.new.items ≡ out.old.items
        ++ edge_type_text types.now kind.0 p.now.entries) }
{
    out.extend_from_slice(types.list.as_slice()[kind.0 as usize].name.bytes())?;
    if p.is_zero() {
        return Ok(());
    }
    out.push(b'\'')?;
    put_multi(out, types.dims, p)
}
