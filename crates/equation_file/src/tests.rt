// Files of equations that people know.
use crate::{Equation, RightTerm, read_equation};
use degree_numbers::{Degree, Kind, Multi, TypeId};
use std::alloc::Global;

const ZERO: [u32; 5] = [0; 5];

struct Wanted {
    file: &'static [u8],
    dims: u8,
    scaling: [u32; 5],
    den: i64,
    noise: (i64, i64),
    kernel: i64,
    regularity: i64,
    terms: &'static [(i128, &'static [(u8, [u32; 5])])],
}

fn is_term(term: &RightTerm, wanted: &(i128, &[(u8, [u32; 5])])) -> bool {
    let factors = term.factors.as_slice();
    if factors.len() != wanted.1.len() {
        return false;
    }
    let same = factors.iter().zip(wanted.1).all(|(f, w)| f.0 == TypeId(w.0)
        && f.1 == Multi { entries: w.1 });
    same && term.coefficient == wanted.0 && term.parameters.len() == 0
}

fn has_types(eq: &Equation, wanted: &Wanted) -> bool {
    let types = &eq.types;
    if types.list.len() != 2 || types.groups.len() != 1 {
        return false;
    }
    let noise = &types.list.as_slice()[0];
    let kernel = &types.list.as_slice()[1];
    types.dims == wanted.dims
        && types.scaling == wanted.scaling
        && types.units.den == wanted.den
        && noise.name.bytes() == b"xi".as_slice()
        && noise.kind == Kind::Noise
        && noise.degree
            == (Degree {
                a: wanted.noise.0,
                b: wanted.noise.1,
            })
        && kernel.name.bytes() == b"u".as_slice()
        && kernel.kind == Kind::Kernel
        && kernel.degree
            == (Degree {
                a: wanted.kernel,
                b: 0,
            })
        && types.groups.as_slice()[0].bytes() == b"xi".as_slice()
}

fn has_unknown(eq: &Equation, wanted: &Wanted) -> bool {
    if eq.unknowns.len() != 1 {
        return false;
    }
    let unknown = &eq.unknowns.as_slice()[0];
    let right = unknown.right.as_slice();
    right.len() == wanted.terms.len()
        && right.iter().zip(wanted.terms).all(|(t, w)| is_term(t, w))
        && unknown.kernel == TypeId(1)
        && unknown.regularity
            == (Degree {
                a: wanted.regularity,
                b: 0,
            })
        && eq.parameters.len() == 0
        && eq.denominator == 1
}

fn gives(alloc: Global, wanted: &Wanted) -> bool {
    match read_equation(alloc, wanted.file) {
        Ok(eq) => has_types(&eq, wanted) && has_unknown(&eq, wanted),
        Err(_) => false,
    }
}

const PHI4: Wanted = Wanted {
    file: b"version = 1\nscaling = [2, 1, 1]\n[[noise]]\nname = \"xi\"\ndegree = \"-2-k\"\n[[unknown]]\nname = \"u\"\ndegree = \"2\"\nregularity = \"-1/2\"\nright = \"-u^3+xi\"\n",
    dims: 3,
    scaling: [2, 1, 1, 0, 0],
    den: 2,
    noise: (-4, -2),
    kernel: 4,
    regularity: -1,
    terms: &[(-1, &[(1, ZERO), (1, ZERO), (1, ZERO)]), (1, &[(0, ZERO)])],
};

const KPZ: Wanted = Wanted {
    file: b"version = 1\nscaling = [2, 1]\n[[noise]]\nname = \"xi\"\ndegree = \"-3/2-k\"\n[[unknown]]\nname = \"u\"\ndegree = \"2\"\nregularity = \"1/4\"\nright = \"u'(0,1)^2+xi\"\n",
    dims: 2,
    scaling: [2, 1, 0, 0, 0],
    den: 4,
    noise: (-6, -4),
    kernel: 8,
    regularity: 1,
    terms: &[
        (1, &[(1, [0, 1, 0, 0, 0]), (1, [0, 1, 0, 0, 0])]),
        (1, &[(0, ZERO)]),
    ],
};

const PAM: Wanted = Wanted {
    file: b"version = 1\nscaling = [2, 1, 1]\n[[noise]]\nname = \"xi\"\ndegree = \"-1-k\"\n[[unknown]]\nname = \"u\"\ndegree = \"2\"\nregularity = \"1/2\"\nright = \"u*xi\"\n",
    dims: 3,
    scaling: [2, 1, 1, 0, 0],
    den: 2,
    noise: (-2, -2),
    kernel: 4,
    regularity: 1,
    terms: &[(1, &[(0, ZERO), (1, ZERO)])],
};

const EMPTY: Wanted = Wanted {
    file: b"version = 1\nscaling = [2, 1, 1]\n[[noise]]\nname = \"xi\"\ndegree = \"-2-k\"\n[[unknown]]\nname = \"u\"\ndegree = \"2\"\nregularity = \"-1/2\"\nright = \"\"\n",
    dims: 3,
    scaling: [2, 1, 1, 0, 0],
    den: 2,
    noise: (-4, -2),
    kernel: 4,
    regularity: -1,
    terms: &[],
};

const COLLECTED: Wanted = Wanted {
    file: b"version = 1\nscaling = [1]\n[[noise]]\nname = \"xi\"\ndegree = \"-1-k\"\n[[unknown]]\nname = \"u\"\ndegree = \"2\"\nregularity = \"1\"\nright = \"-3*u+0*xi+u'(0)+u'(1)*xi\"\n",
    dims: 1,
    scaling: [1, 0, 0, 0, 0],
    den: 1,
    noise: (-1, -1),
    kernel: 2,
    regularity: 1,
    terms: &[(-2, &[(1, ZERO)]), (1, &[(0, ZERO), (1, [1, 0, 0, 0, 0])])],
};

#[test]
fn equations_that_people_know(rt: HostRuntime) {
    assert!(rt; gives(rt.alloc(), &PHI4), "Phi^4 in two dimensions");
    assert!(rt; gives(rt.alloc(), &KPZ), "KPZ");
    assert!(rt; gives(rt.alloc(), &PAM), "PAM in two dimensions");
    assert!(rt; gives(rt.alloc(), &EMPTY), "an empty right side");
    assert!(rt; gives(rt.alloc(), &COLLECTED), "equal terms");
}
