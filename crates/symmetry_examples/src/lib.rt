//! Examples of symmetry factors, elementary differentials, vanishing trees and pairings.
#![tactic(auto)]

mod differentials;

ghost use Rattle.std.specs.Prelude.{◌≡◌, ◌<◌, length, IfSome};
ghost use Rattle.degree_numbers.specs.Types.{AreTypes};

use bumpalo::Bump;
use degree_numbers::Types;
pub use differentials::differential_text;
use elementary_diff::symmetry;
use gaussian_pairings::{Pairing, PairingError, pairings, vanishes};
use plain_trees::read_tree;
use std::alloc::Global;
use tree_pool::{Pool, TreeId};

/// The number in a pool of the tree with this text.
fn interned(alloc: Global, types: &Types, pool: &mut Pool<'_>, text: &[u8]) -> Option<TreeId>
    requires accepted { AreTypes types.now }
    requires types { pool.old.types ≡ types.now }
    ensures types { pool.new.types ≡ types.now }
    ensures known { IfSome result (λ id. id.0 < length pool.new.trees) }
{
    let tree = read_tree(alloc, types, text, 64).ok()?;
    pool.intern_tree(alloc, &tree).ok()
}

/// The symmetry factor of the tree with this text, and whether it vanishes.
pub fn symmetry_and_vanishing(alloc: Global, types: &Types, text: &[u8]) -> Option<(u128, bool)>
    requires { AreTypes types.now }
{
    let arena = Bump::new(alloc);
    let mut pool = Pool::new(alloc, &arena, types).ok()?;
    let id = interned(alloc, types, &mut pool, text)?;
    Some((symmetry(&pool, id), vanishes(types, &pool, id)))
}

/// The pairings of the noise edges of the tree with this text.
pub fn pairings_of_text(
    alloc: Global,
    types: &Types,
    text: &[u8],
) -> Option<Result<Vec<Pairing>, PairingError>>
    requires { AreTypes types.now }
{
    let arena = Bump::new(alloc);
    let mut pool = Pool::new(alloc, &arena, types).ok()?;
    let id = interned(alloc, types, &mut pool, text)?;
    Some(pairings(alloc, types, &pool, id))
}

#[cfg(test)]
mod tests {
    use super::*;
    use known_types::{apart_types, kpz_types, phi43_types, together_types};

    #[test]
    fn trees_of_the_kpz_equation(rt: HostRuntime) {
        let cases = [
            (b"[xi]".as_slice(), 1, true),
            (b"[u'(0,1)[xi]*u'(0,1)[xi]]", 2, false),
            (b"[u'(0,1)[xi]*u'(0,1)[u'(0,1)[xi]*u'(0,1)[xi]]]", 2, true),
            (b"[X(0,1)*xi]", 1, true),
            (
                b"[u'(0,1)[xi]*u'(0,1)[u'(0,1)[xi]*u'(0,1)[u'(0,1)[xi]*u'(0,1)[xi]]]]",
                2,
                false,
            ),
            (
                b"[u'(0,1)[u'(0,1)[xi]*u'(0,1)[xi]]*u'(0,1)[u'(0,1)[xi]*u'(0,1)[xi]]]",
                8,
                false,
            ),
            (b"[u'(0,1)[xi]*u'(0,1)[X(0,1)*xi]]", 1, false),
            (b"[X(0,1)*u'(0,1)[xi]*u'(0,1)[xi]]", 2, true),
            (b"[u'(0,1)[xi]*u'(0,1)[u'(0,1)[xi]]]", 1, false),
        ];
        let types = kpz_types(rt.alloc()).expect(&rt, "types");
        for (text, factor, vanishing) in cases {
            assert_eq!(rt;
                symmetry_and_vanishing(rt.alloc(), &types, text),
                Some((factor, vanishing))
            );
        }
    }

    #[test]
    fn trees_of_the_phi4_equation_in_three_dimensions(rt: HostRuntime) {
        let cases = [
            (b"[]".as_slice(), 1, false),
            (b"[u[xi]*u[xi]*u[xi]]", 6, true),
            (b"[u[xi]*u[xi]*u[u[xi]*u[xi]]]", 4, false),
            (b"[u[xi]*u[u[xi]*u[xi]*u[xi]]]", 6, false),
            (b"[u[xi]*u'(0,1,0,0)[xi]]", 1, false),
        ];
        let types = phi43_types(rt.alloc()).expect(&rt, "types");
        for (text, factor, vanishing) in cases {
            assert_eq!(rt;
                symmetry_and_vanishing(rt.alloc(), &types, text),
                Some((factor, vanishing))
            );
        }
    }

    #[test]
    fn pairings_of_four_noises(rt: HostRuntime) {
        let types = kpz_types(rt.alloc()).expect(&rt, "types");
        let all = pairings_of_text(rt.alloc(), &types, b"[u[xi]*u[xi]*u[xi]*u[xi]]")
            .expect(&rt, "read")
            .expect(&rt, "pairings");
        let wanted = [[(1, 2), (3, 4)], [(1, 3), (2, 4)], [(1, 4), (2, 3)]];
        assert_eq!(rt; all.len(), wanted.len());
        for (pairing, pairs) in all.iter().zip(wanted.as_slice()) {
            assert!(rt; pairing.pairs.as_slice() == pairs.as_slice());
        }
    }

    #[test]
    fn noises_are_paired_within_their_group(rt: HostRuntime) {
        let apart = apart_types(rt.alloc()).expect(&rt, "types");
        let together = together_types(rt.alloc()).expect(&rt, "types");
        let text = b"[u[xi]*u[eta]]".as_slice();
        let none = pairings_of_text(rt.alloc(), &apart, text)
            .expect(&rt, "read")
            .expect(&rt, "pairings");
        assert!(rt; none.is_empty());
        assert_eq!(rt;
            symmetry_and_vanishing(rt.alloc(), &apart, text),
            Some((1, true))
        );
        let one = pairings_of_text(rt.alloc(), &together, text)
            .expect(&rt, "read")
            .expect(&rt, "pairings");
        assert_eq!(rt; one.len(), 1);
        for pairing in one.iter() {
            assert!(rt; pairing.pairs.as_slice() == [(1, 2)].as_slice());
        }
        assert_eq!(rt;
            symmetry_and_vanishing(rt.alloc(), &together, text),
            Some((1, false))
        );
    }

    #[test]
    fn no_noise_and_too_many(rt: HostRuntime) {
        let types = kpz_types(rt.alloc()).expect(&rt, "types");
        let cases = [
            (b"[]".as_slice(), Ok(1)),
            (b"[X(0,1)*u[]]", Ok(1)),
            (b"[xi*xi*xi]", Ok(0)),
            (b"[xi*xi*xi*xi*xi*xi*xi*xi*xi*xi*xi*xi]", Ok(10395)),
            (
                b"[xi*xi*xi*xi*xi*xi*xi*xi*xi*xi*xi*xi*xi]",
                Err(PairingError::TooManyNoises { count: 13 }),
            ),
        ];
        for (text, wanted) in cases {
            let found = pairings_of_text(rt.alloc(), &types, text).expect(&rt, "read");
            assert_eq!(rt; found.map(|all| all.len()), wanted);
        }
    }
}
