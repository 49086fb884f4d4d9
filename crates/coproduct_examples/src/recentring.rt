// Recentring coproducts, with a look at what a call asks for first.
ghost use Rattle.degree_numbers.specs.Types.{AreTypes};
ghost use Rattle.recentring_coproduct.specs.Held.{FitsPool};

use crate::trees::{interned, is_fit};
use bumpalo::Bump;
use degree_numbers::Types;
use recentring_coproduct::{CoproductError, Recentrer, RightTerm};
use std::alloc::Global;
use tree_pool::{Pool, TreeId};

/// The terms of the recentring coproduct of a tree, or the refusal. `None` for a number of no tree,
/// and for a tree that is too large.
pub fn asked_recentring<'a>(
    alloc: Global,
    recentrer: &mut Recentrer<'a>,
    pool: &mut Pool<'a>,
    id: TreeId,
) -> Option<Result<&'a [RightTerm], CoproductError>>
    requires { FitsPool recentrer.old pool.old }
    ensures { FitsPool recentrer.new pool.new }
{
    if id.0 >= pool.len() || !is_fit(pool, id) {
        return None;
    }
    Some(recentrer.recentre(alloc, pool, id))
}

/// The numbers of terms of the tree with this text at a first and, read when the recentrer is gone,
/// at a second call, and whether both gave the same terms.
pub fn terms_of_two_calls(alloc: Global, types: &Types, text: &[u8]) -> Option<([usize; 2], bool)>
    requires { AreTypes types.now }
{
    let arena = Bump::new(alloc);
    let mut pool = Pool::new(alloc, &arena, types).ok()?;
    let id = interned(alloc, types, &mut pool, text)?;
    let mut recentrer = Recentrer::new(alloc, &arena).ok()?;
    let first = asked_recentring(alloc, &mut recentrer, &mut pool, id)?.ok()?;
    let second = asked_recentring(alloc, &mut recentrer, &mut pool, id)?.ok()?;
    drop(recentrer);
    Some(([first.len(), second.len()], first == second))
}

#[cfg(test)]
mod tests {
    use super::*;
    use known_types::kpz_types;

    #[test]
    fn a_second_call_gives_the_same_terms(rt: HostRuntime) {
        let types = kpz_types(rt.alloc()).expect(&rt, "types");
        let (counts, same) = terms_of_two_calls(rt.alloc(), &types, b"[X(0,1)*xi]").expect(
            &rt, "terms",
        );
        assert!(rt; counts == [2, 2]);
        assert!(rt; same);
    }
}
