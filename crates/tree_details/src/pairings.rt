// The pairings in the detail.
ghost use Rattle.std.specs.Prelude.{◌≡◌, ◌++◌, codes, flat_map, OnOk};
ghost use Rattle.gaussian_pairings.specs.Pairings.{pairs_of};
ghost use Rattle.tree_details.specs.Detail.{pair_text, pairing_line, section};

use counterterm_report::put_line;
use gaussian_pairings::Pairing;
use itoa::Buffer;
use std::alloc::AllocError;

fn put_pair(out: &mut Vec<u8>, first: u16, second: u16) -> Result<(), AllocError>
    ensures { OnOk result (out.new.items ≡ out.old.items ++ pair_text (first, second)) }
{
    out.extend_from_slice(b"(")?;
    out.extend_from_slice(Buffer::new().format(first).as_bytes())?;
    out.extend_from_slice(b",")?;
    out.extend_from_slice(Buffer::new().format(second).as_bytes())?;
    out.extend_from_slice(b")")
}

fn put_pairs(out: &mut Vec<u8>, pairs: &[(u16, u16)]) -> Result<(), AllocError>
    ensures { OnOk result (out.new.items ≡ out.old.items ++ flat_map pair_text pairs.now) }
{
    for pair in pairs {
        put_pair(out, pair.0, pair.1)?;
    }
    Ok(())
}

// The line of one pairing.
fn put_pairing(out: &mut Vec<u8>, pairs: &[(u16, u16)]) -> Result<(), AllocError>
    ensures { OnOk result (out.new.items ≡ out.old.items ++ pairing_line pairs.now) }
{
    out.extend_from_slice(b"  ")?;
    match pairs {
        [] => out.extend_from_slice(b"none")?,
        [_, ..] => put_pairs(out, pairs)?,
    }
    out.extend_from_slice(b"\n")
}

/// The number of the pairings, and the line of each of them.
pub(crate) fn put_pairings(out: &mut Vec<u8>, pairings: &[Pairing]) -> Result<(), AllocError>
    ensures { OnOk result (out.new.items
        ≡ out.old.items ++ section (codes "pairings ") pairing_line (pairs_of pairings.now)) }
{
    put_line(
        out,
        b"pairings ",
        Buffer::new().format(pairings.len()).as_bytes(),
    )?;
    for pairing in pairings {
        put_pairing(out, pairing.pairs.as_slice())?;
    }
    Ok(())
}
