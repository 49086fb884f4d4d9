// A pool and the plain program, on the same trees.
ghost use Rattle.std.specs.Prelude.{◌≡◌};
ghost use Rattle.degree_numbers.specs.Types.{AreTypes};

use crate::walking_pool::WalkingPool;
use bumpalo::Bump;
use degree_numbers::Types;
use known_types::kpz_types;
use plain_trees::read_tree;
use std::alloc::{AllocError, Global};
use tree_pool::Pool;

/// The text of `[xi*u'(0,a)[X(0,b)*xi]*u'(1,0)[xi*u'(0,c)[xi]]]`, where a - 1, b - 1 and c - 1 are the last three digits of a number to the base 7.
fn text_by_digits(alloc: Global, number: usize) -> Result<String, AllocError> {
    let a = number % 7 + 1;
    let b = number / 7 % 7 + 1;
    let c = number / 49 % 7 + 1;
    format!(in alloc; "[xi*u'(0,{a})[X(0,{b})*xi]*u'(1,0)[xi*u'(0,{c})[xi]]]")
}

/// Puts the tree with this text into both, and answers whether both give it the same number. `None` for a text of no tree, and for want of memory.
fn have_same_number(
    alloc: Global,
    types: &Types,
    pool: &mut Pool<'_>,
    walk: &mut WalkingPool<'_>,
    text: &[u8],
) -> Option<bool>
    requires accepted { AreTypes types.now }
    requires types { pool.old.types ≡ types.now }
    ensures { pool.new.types ≡ pool.old.types }
{
    let tree = read_tree(alloc, types, text, 64).ok()?;
    let number = pool.intern_tree(alloc, &tree).ok()?;
    let walked = walk.number_of(alloc, &tree).ok()?;
    Some(number == walked)
}

/// Whether both give each of the trees of these texts, for all digits and twice over, the same number.
fn have_same_numbers(
    alloc: Global,
    types: &Types,
    pool: &mut Pool<'_>,
    walk: &mut WalkingPool<'_>,
) -> Option<bool>
    requires accepted { AreTypes types.now }
    requires types { pool.old.types ≡ types.now }
{
    for number in 0..686 {
        let text = text_by_digits(alloc, number).ok()?;
        if !have_same_number(alloc, types, pool, walk, text.as_bytes())? {
            return Some(false);
        }
    }
    Some(true)
}

/// Whether a new pool and the plain program give these trees the same numbers, and how many trees each then holds.
pub fn sizes_beside_a_walk(alloc: Global) -> Option<(bool, [usize; 2])> {
    let arena = Bump::new(alloc);
    let types = kpz_types(alloc).ok()?;
    let mut pool = Pool::new(alloc, &arena, &types).ok()?;
    let mut walk = WalkingPool::new(alloc, &arena);
    let same = have_same_numbers(alloc, &types, &mut pool, &mut walk)?;
    Some((same, [pool.len(), walk.len()]))
}
