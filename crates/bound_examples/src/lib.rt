//! Examples of trees for which the bound of the coefficients of the extraction coproduct is in
//! range, and of some for which it is not.
#![tactic(auto)]

ghost use Rattle.std.specs.Prelude.{◌≡◌, ◌<◌, length, IfSome};
ghost use Rattle.degree_numbers.specs.Types.{AreTypes};

use bumpalo::Bump;
use coefficient_bounds::has_small_coefficients;
use degree_numbers::Types;
use plain_trees::read_tree;
use std::alloc::Global;
use tree_pool::{Pool, TreeId};

/// The number in a pool of the tree with this text.
fn interned(alloc: Global, types: &Types, pool: &mut Pool<'_>, text: &[u8]) -> Option<TreeId>
    requires accepted { AreTypes types.now }
    requires types { pool.old.types ≡ types.now }
    ensures types { pool.new.types ≡ types.now }
    ensures known { IfSome result (λ id. id.0 < length pool.new.trees) }
{
    let tree = read_tree(alloc, types, text, 200).ok()?;
    pool.intern_tree(alloc, &tree).ok()
}

/// Whether the bound of the tree with this text is in range.
pub fn text_has_small_coefficients(alloc: Global, types: &Types, text: &[u8]) -> Option<bool>
    requires { AreTypes types.now }
{
    let arena = Bump::new(alloc);
    let mut pool = Pool::new(alloc, &arena, types).ok()?;
    let id = interned(alloc, types, &mut pool, text)?;
    Some(has_small_coefficients(&pool, id))
}

#[cfg(test)]
mod tests {
    use super::*;
    use known_types::{kpz_types, phi43_types};

    // A tree, and whether its bound is in range: for noises alone, at the root or above it, and for
    // a decoration alone, the last one for which it is and the first one for which it is not.
    const KPZ: [(&[u8], bool); 6] = [
        (b"[]", true),
        (b"[X(126,0)]", true),
        (b"[X(127,0)]", false),
        (b"[xi*xi*xi*xi*xi*xi*xi]", true),
        (b"[xi*xi*xi*xi*xi*xi*xi*xi]", false),
        (
            b"[u'(0,1)[xi]*u'(0,1)[u'(0,1)[xi]*u'(0,1)[u'(0,1)[xi]*u'(0,1)[xi]]]]",
            true,
        ),
    ];

    const PHI43: [(&[u8], bool); 3] = [
        (b"[u[xi]*u[u[xi]*u[xi]*u[u[xi]*u[xi]*u[xi]]]]", true),
        (b"[u[xi*xi*xi*xi*xi]]", true),
        (b"[u[xi*xi*xi*xi*xi*xi]]", false),
    ];

    #[test]
    fn bounds_of_trees(rt: HostRuntime) {
        let kpz = kpz_types(rt.alloc()).expect(&rt, "types");
        for (text, small) in KPZ {
            assert_eq!(rt;
                text_has_small_coefficients(rt.alloc(), &kpz, text),
                Some(small)
            );
        }
        let phi43 = phi43_types(rt.alloc()).expect(&rt, "types");
        for (text, small) in PHI43 {
            assert_eq!(rt;
                text_has_small_coefficients(rt.alloc(), &phi43, text),
                Some(small)
            );
        }
    }
}
