// Trees that vanish by what is declared of noises and kernels.
ghost use Rattle.degree_numbers.specs.Types.{AreTypes};

use bumpalo::Bump;
use degree_numbers::Types;
use gaussian_pairings::vanishes;
use known_equations::interned;
use std::alloc::Global;
use tree_pool::Pool;

/// Whether the tree with this text vanishes.
pub fn text_vanishes(alloc: Global, types: &Types, text: &[u8]) -> Option<bool>
    requires { AreTypes types.now }
{
    let arena = Bump::new(alloc);
    let mut pool = Pool::new(alloc, &arena, types).ok()?;
    let id = interned(alloc, types, &mut pool, text)?;
    Some(vanishes(types, &pool, id))
}

#[cfg(test)]
mod tests {
    use super::*;
    use known_types::{kpz_symmetric_types, kpz_types, phi43_mean_zero_types, phi43_types};

    // A tree, and whether it vanishes where nothing is declared, and where it is.
    const KPZ: [(&[u8], bool, bool); 6] = [
        (b"[u'(0,1)[xi]*u'(0,1)[xi]]", false, false),
        (
            b"[u'(0,1)[u'(0,1)[xi]*u'(0,1)[xi]]*u'(0,1)[u'(0,1)[xi]*u'(0,1)[xi]]]",
            false,
            false,
        ),
        (b"[u'(0,1)[xi]*u'(0,1)[X(0,1)*xi]]", false, true),
        (b"[u'(0,1)[xi]*u'(0,1)[u'(0,1)[xi]]]", false, true),
        (b"[u'(0,1)[xi]*u'(0,1)[X(1,0)*xi]]", false, false),
        (b"[xi'(0,1)*u[xi]]", false, true),
    ];

    const PHI43: [(&[u8], bool, bool); 5] = [
        (b"[u[]*u[xi]*u[xi]]", false, true),
        (b"[u[xi]*u[xi]*u[u[]]]", false, true),
        (b"[u[X(0,1,0,0)]*u[xi]*u[xi]]", false, false),
        (b"[u[xi]*u[xi]*u'(0,1,0,0)[]]", false, true),
        (b"[u[xi]*u[xi]]", false, false),
    ];

    #[test]
    fn trees_of_the_kpz_equation_that_is_symmetric_in_space(rt: HostRuntime) {
        let plain = kpz_types(rt.alloc()).expect(&rt, "types");
        let symmetric = kpz_symmetric_types(rt.alloc()).expect(&rt, "types");
        for (text, before, declared) in KPZ {
            assert_eq!(rt; text_vanishes(rt.alloc(), &plain, text), Some(before));
            assert_eq!(rt; text_vanishes(rt.alloc(), &symmetric, text), Some(declared));
        }
    }

    #[test]
    fn trees_of_the_phi4_equation_with_a_kernel_of_mean_0(rt: HostRuntime) {
        let plain = phi43_types(rt.alloc()).expect(&rt, "types");
        let mean_zero = phi43_mean_zero_types(rt.alloc()).expect(&rt, "types");
        for (text, before, declared) in PHI43 {
            assert_eq!(rt; text_vanishes(rt.alloc(), &plain, text), Some(before));
            assert_eq!(rt; text_vanishes(rt.alloc(), &mean_zero, text), Some(declared));
        }
    }
}
