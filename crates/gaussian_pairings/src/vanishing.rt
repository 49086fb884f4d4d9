// Trees whose expectation vanishes.
ghost use Rattle.std.specs.Prelude.{◌≡◌, ◌<◌, length};
ghost use Rattle.degree_numbers.specs.Types.{AreTypes, moments_of};
ghost use Rattle.tree_pool.specs.Content.{tree_at};
ghost use Rattle.gaussian_pairings.specs.Vanishing.{noise_here, noises_in, has_odd_group, entry_in, sum_in, has_odd_direction, is_odd, is_within, has_integrated, vanishes};

use degree_numbers::{Kind, Multi, TypeId, Types};
use tree_pool::{Pool, TreeId};

/// How many noise edges of the group one edge of this type is.
fn noise_here(types: &Types, kind: TypeId, group: usize) -> u32
    ensures { result ≡ noise_here types.now kind.0 group }
{
    match types.list.get(kind.0 as usize) {
        Some(entry) if entry.kind == Kind::Noise && entry.group as usize == group => 1,
        _ => 0,
    }
}

/// The number of noise edges of a tree in a group.
fn noises_in(types: &Types, pool: &Pool<'_>, id: TreeId, group: usize) -> u32
    requires { id.0 < length pool.now.trees }
    ensures { result ≡ noises_in types.now (tree_at pool.now id.0) group }
{
    let (_, edges) = pool.node(id);
    let mut count = 0;
    for e in edges {
        count += noise_here(types, e.kind, group) + noises_in(types, pool, e.child, group);
    }
    count
}

/// Whether some noise group has an odd number of noise edges in a tree.
fn has_odd_group(types: &Types, pool: &Pool<'_>, id: TreeId) -> bool
    requires { id.0 < length pool.now.trees }
    ensures { result ≡ has_odd_group types.now (tree_at pool.now id.0) }
{
    for group in 0..types.groups.len() {
        if noises_in(types, pool, id, group) % 2 == 1 {
            return true;
        }
    }
    false
}

/// The entry of a multiindex in a direction, counted from 1.
fn entry_in(m: &Multi, direction: u8) -> u32
    ensures { result ≡ entry_in direction m.now.entries }
{
    match m.entries.get((direction as usize).saturating_sub(1)) {
        Some(entry) => *entry,
        None => 0,
    }
}

/// The sum of the entries of all decorations of a tree in a direction.
fn sum_in(pool: &Pool<'_>, id: TreeId, direction: u8) -> u32
    requires { id.0 < length pool.now.trees }
    ensures { result ≡ sum_in direction (tree_at pool.now id.0) }
{
    let (n, edges) = pool.node(id);
    let mut sum = 0;
    for e in edges {
        sum += entry_in(&e.p, direction) + sum_in(pool, e.child, direction);
    }
    sum + entry_in(&n, direction)
}

/// Whether the sum of the entries of a tree is odd in some direction that may be reflected.
fn has_odd_direction(types: &Types, pool: &Pool<'_>, id: TreeId) -> bool
    requires { id.0 < length pool.now.trees }
    ensures { result ≡ has_odd_direction types.now (tree_at pool.now id.0) }
{
    for direction in types.reflect.as_slice() {
        if sum_in(pool, id, *direction) % 2 == 1 {
            return true;
        }
    }
    false
}

/// Whether a tree has an odd number of noise edges in some group, or an odd sum of entries in some
/// direction that may be reflected.
fn is_odd(types: &Types, pool: &Pool<'_>, id: TreeId) -> bool
    requires { id.0 < length pool.now.trees }
    ensures { result ≡ is_odd types.now (tree_at pool.now id.0) }
{
    has_odd_group(types, pool, id) || has_odd_direction(types, pool, id)
}

/// The moment number of the kernel of an edge of this type, where one is declared.
fn moments_of(types: &Types, kind: TypeId) -> Option<u8>
    ensures { result ≡ moments_of types.now kind.0 }
{
    match types.list.get(kind.0 as usize) {
        Some(entry) => entry.moments,
        None => None,
    }
}

/// Whether a tree has no edges and a decoration of scaled size at most the moment number.
fn is_within(types: &Types, moments: Option<u8>, pool: &Pool<'_>, id: TreeId) -> bool
    requires known { id.0 < length pool.now.trees }
    requires types { AreTypes types.now }
    ensures { result ≡ is_within types.now moments (tree_at pool.now id.0) }
{
    let Some(most) = moments else {
        return false;
    };
    let (n, edges) = pool.node(id);
    edges.len() == 0 && n.scaled_size(&types.scaling) <= most as u64
}

/// Whether some kernel of a tree integrates what stands above its edge to zero.
fn has_integrated(types: &Types, pool: &Pool<'_>, id: TreeId) -> bool
    requires known { id.0 < length pool.now.trees }
    requires types { AreTypes types.now }
    ensures { result ≡ has_integrated types.now (tree_at pool.now id.0) }
{
    let (_, edges) = pool.node(id);
    for e in edges {
        let moments = moments_of(types, e.kind);
        if is_within(types, moments, pool, e.child) || has_integrated(types, pool, e.child) {
            return true;
        }
    }
    false
}

/// Whether the expectation of a tree is 0 by its shape and by what the types declare: the
/// decoration of its root is not 0; some noise group has an odd number of noise edges in it; in
/// some direction that may be reflected, the entries of all its decorations have an odd sum; or
/// some edge of a kernel with a moment number ends in a tree without edges whose decoration has at
/// most that scaled size. Takes no memory. The pool is one that was made with these types.
pub fn vanishes(types: &Types, pool: &Pool<'_>, id: TreeId) -> bool
    requires known { id.0 < length pool.now.trees }
    requires types { pool.now.types ≡ types.now }
    ensures { result ≡ vanishes types.now (tree_at pool.now id.0) }
{
    pool.laws();
    let (n, _) = pool.node(id);
    if !n.is_zero() {
        return true;
    }
    is_odd(types, pool, id) || has_integrated(types, pool, id)
}
