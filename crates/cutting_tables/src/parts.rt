// Binomials of multiindices, and lists of multiindices.
ghost use Rattle.std.specs.Prelude.{◌≡◌, ◌+◌, ◌<◌, ◌≤◌, ◌++◌, ℕ, List, set, sum, map, flat_map, length, IfOk, OnOk};
ghost use Rattle.exact_sums.specs.Saturating.{saturated};
ghost use Rattle.degree_numbers.specs.Multi.{plus_of};
ghost use Rattle.degree_numbers.specs.Types.{AreTypes};
ghost use Rattle.plain_trees.specs.Multinomials.{below, choose, down_from};
ghost use Rattle.plain_trees.specs.Cutting.{limits, shifts};
ghost use Rattle.plain_trees.specs.Coproducts.{each_direction};

use degree_numbers::{Multi, Types};
use exact_sums::{Saturated, binomial};
use std::alloc::{AllocError, Global};

/// The binomial of multiindices: the number of ways to choose `part` of the sum of `part` and
/// `rest`, over all directions.
pub fn choose_of(part: &Multi, rest: &Multi) -> Saturated
    requires { sum part.now.entries + sum rest.now.entries ≤ 4096 }
    ensures { result ≡ saturated (choose (plus_of part.now.entries rest.now.entries)
        part.now.entries) }
{
    let a = &part.entries;
    let b = &rest.entries;
    let first = binomial(a[0] + b[0], a[0]).times(binomial(a[1] + b[1], a[1]));
    let second = binomial(a[2] + b[2], a[2]).times(binomial(a[3] + b[3], a[3]));
    first.times(second).times(binomial(a[4] + b[4], a[4]))
}

/// Puts the multiindices of a list behind others, with their entry in one direction replaced.
fn push_with_entry(
    all: &mut Vec<Multi>,
    items: &[Multi],
    direction: usize,
    entry: u32,
) -> Result<(), AllocError>
    requires { direction < 5 }
    ensures { OnOk result (map (λ m. m.entries) all.new.items
        ≡ map (λ m. m.entries) all.old.items ++ map (λ m. set m.entries direction entry)
        items.now) }
{
    for m in items {
        let mut entries = m.entries;
        entries[direction] = entry;
        all.push(Multi { entries })?;
    }
    Ok(())
}

/// The multiindices of a list with their entry in one direction replaced by each number from
/// `most` down to 0.
fn with_entries(
    alloc: Global,
    items: &[Multi],
    direction: usize,
    most: u32,
) -> Result<Vec<Multi>, AllocError>
    requires { direction < 5 }
    ensures { IfOk result (λ all. map (λ m. m.entries) all.items
        ≡ flat_map (λ k. map (λ m. set m.entries direction k) items.now) (down_from most)) }
{
    let mut all = Vec::new(alloc);
    let mut entry = most;
    while entry > 0 {
        push_with_entry(&mut all, items, direction, entry)?;
        entry -= 1;
    }
    push_with_entry(&mut all, items, direction, 0)?;
    Ok(all)
}

/// All multiindices that are at most `most`, entry by entry, in descending lexicographic order.
pub fn parts_below(alloc: Global, most: &Multi) -> Result<Vec<Multi>, AllocError>
    ensures { IfOk result (λ all. map (λ m. m.entries) all.items ≡ below most.now.entries) }
{
    let mut all = Vec::new(alloc);
    all.push(Multi::zero())?;
    let mut i = 5;
    while i > 0 {
        i -= 1;
        all = with_entries(alloc, all.as_slice(), i, most.entries[i])?;
    }
    Ok(all)
}

/// The multiindex with `most` in each direction of the types.
fn in_each_direction(types: &Types, most: u32) -> Multi
    requires { AreTypes types.now }
    ensures { (p : List ℕ) → length p ≡ 5 →
        result.entries ≡ limits (each_direction types.now.dims most) p }
{
    let mut entries = [0; 5];
    for i in 0..types.dims {
        entries[i as usize] = most;
    }
    Multi { entries }
}

/// All shifts of an edge by at most `most` in each direction of the types, in descending
/// lexicographic order.
pub fn shifts_below(alloc: Global, types: &Types, most: u32) -> Result<Vec<Multi>, AllocError>
    requires { AreTypes types.now }
    ensures { IfOk result (λ all. (p : List ℕ) → length p ≡ 5 →
        map (λ m. m.entries) all.items ≡ shifts (each_direction types.now.dims most) p) }
{
    parts_below(alloc, &in_each_direction(types, most))
}
