// Decorations that a stem may have at its root.
ghost use Rattle.std.specs.Prelude.{◌≡◌, ◌<◌, ◌≤◌, ◌++◌, flat_map, sum, IfOk, OnOk};
ghost use Rattle.std.specs.List.{All};
ghost use Rattle.degree_numbers.specs.Types.{AreTypes};
ghost use Rattle.tree_listing.specs.Made.{one_if};
ghost use Rattle.tree_listing.specs.Roots.{IsRoom, fits, with_entry, with_entries, roots_to};

use crate::passes::is_not_above;
use degree_numbers::{Degree, Multi, Types};
use plain_trees::node_degree;
use std::alloc::{AllocError, Global};

/// What a decoration at the root of a stem has to keep within: the degree of the stem, the most of
/// its row, and the greatest sum of the entries.
#[derive(Clone, Copy, Debug, PartialEq, Eq)]
pub struct Room {
    pub degree: Degree,
    pub most: Degree,
    pub entries: u32,
}

/// Whether a decoration keeps within the room.
#[tactic(auto, using(crate::proofs::RootLaws::root_facts))]
fn fits(types: &Types, room: &Room, n: &Multi) -> bool
    requires types { AreTypes types.now }
    requires room { IsRoom room.now }
    requires small { sum n.now.entries ≤ 128 }
    ensures { result ≡ fits types.now room.now n.now }
{
    n.total() <= room.entries && is_not_above(&node_degree(types, n).plus(&room.degree), &room.most)
}

/// A decoration with this entry in a direction.
fn with_entry(n: &Multi, direction: usize, entry: u32) -> Multi
    requires { direction < 5 }
    ensures { result ≡ with_entry direction entry n.now }
{
    let mut entries = n.entries;
    entries[direction] = entry;
    Multi { entries }
}

/// Puts in a decoration where it fits.
fn put_fitting(
    more: &mut Vec<Multi>,
    types: &Types,
    room: &Room,
    n: Multi,
) -> Result<(), AllocError>
    requires types { AreTypes types.now }
    requires room { IsRoom room.now }
    requires small { sum n.entries ≤ 128 }
    ensures { OnOk result (more.new.items ≡ more.old.items
        ++ one_if (fits types.now room.now n) n) }
{
    if fits(types, room, &n) {
        more.push(n)?;
    }
    Ok(())
}

/// Puts in the decorations that fit, with any entry in this direction: where one does not fit, no
/// greater one does.
#[tactic(auto, using(crate::proofs::RootLaws::sum_set))]
fn put_entries(
    more: &mut Vec<Multi>,
    types: &Types,
    room: &Room,
    direction: usize,
    n: &Multi,
) -> Result<(), AllocError>
    requires types { AreTypes types.now }
    requires room { IsRoom room.now }
    requires direction { direction < 5 }
    requires small { sum n.now.entries ≤ 64 }
    ensures { OnOk result (more.new.items ≡ more.old.items
        ++ with_entries types.now room.now direction n.now) }
{
    for entry in 0..room.entries + 1 {
        let n = with_entry(n, direction, entry);
        if !fits(types, room, &n) {
            return Ok(());
        }
        more.push(n)?;
    }
    Ok(())
}

/// The decorations that fit in one more direction.
fn next_direction(
    alloc: Global,
    types: &Types,
    room: &Room,
    direction: usize,
    roots: &[Multi],
) -> Result<Vec<Multi>, AllocError>
    requires types { AreTypes types.now }
    requires room { IsRoom room.now }
    requires direction { direction < 5 }
    requires small { All (λ n. sum n.entries ≤ 64) roots.now }
    ensures { IfOk result (λ more. more.items ≡ flat_map (with_entries types.now room.now direction)
        roots.now) }
{
    let mut more = Vec::new(alloc);
    for n in roots {
        put_entries(&mut more, types, room, direction, n)?;
    }
    Ok(more)
}

/// The decorations that fit, in the directions of the types.
pub fn roots(alloc: Global, types: &Types, room: &Room) -> Result<Vec<Multi>, AllocError>
    requires types { AreTypes types.now }
    requires room { IsRoom room.now }
    ensures { IfOk result (λ roots. roots.items ≡ roots_to types.now room.now types.now.dims) }
{
    let mut roots = Vec::new(alloc);
    put_fitting(&mut roots, types, room, Multi::zero())?;
    for direction in 0..types.dims as usize {
        roots = next_direction(alloc, types, room, direction, roots.as_slice())?;
    }
    Ok(roots)
}
