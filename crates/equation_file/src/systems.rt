// Systems with parameters, groups and fractions.
use crate::{Equation, RightTerm, read_equation};
use degree_numbers::{Degree, Kind, Multi, Name, TypeId};
use sqlite_items::Items;

const SYSTEM: &[u8] =
    b"version = 1\nscaling = [2, 1]\nparameters = [\"c\", \"d\"]\nnoise = [\n{ name = \"a\", degree = \"-3/2-k\", group = \"b\" },\n{ name = \"x\", degree = \"-1 - 1/3*k\" },\n{ name = \"b\", degree = \"-3/2-k\" },\n{ name = \"y\", degree = \"2/4\", group = \"x\" }]\n[[unknown]]\nname = \"u\"\ndegree = \"2\"\nregularity = \"1/4\"\nright = \"1/2 * v'(0,1) * d^2 * u * c - 1/2*u*d*v'(0,1)*d*c + 1/3*b - 1/6*d*a + 2*b\"\n[[unknown]]\nname = \"v\"\ndegree = \"7/2\"\nregularity = \"0\"\nright = \"\"\n";

const ZERO: Multi = Multi { entries: [0; 5] };

fn is_term(
    term: &RightTerm,
    coefficient: i128,
    parameters: &[u8],
    factors: &[(TypeId, Multi)],
) -> bool {
    term.coefficient == coefficient
        && term.parameters.as_slice() == parameters
        && term.factors.as_slice() == factors
}

fn is_name(name: &Name, text: &[u8]) -> bool {
    name.bytes() == text
}

fn are_names(names: &Items<Name>, texts: &[&[u8]]) -> bool {
    names.len() == texts.len()
        && names
            .as_slice()
            .iter()
            .zip(texts)
            .all(|(n, t)| is_name(n, t))
}

// The name, the kind, the degree and the group of each type.
fn has_types(eq: &Equation, types: &[(&[u8], Kind, i64, i64, u8)]) -> bool {
    eq.types.list.len() == types.len()
        && eq.types.list.as_slice().iter().zip(types).all(|(e, t)| {
            is_name(&e.name, t.0)
                && e.kind == t.1
                && e.degree == (Degree { a: t.2, b: t.3 })
                && e.group == t.4
        })
}

// The second unknown has no right side; the terms of the first that cancel are gone.
fn has_unknowns(eq: &Equation) -> bool {
    match eq.unknowns.as_slice() {
        [u, v] => {
            u.kernel == TypeId(4)
                && u.regularity == (Degree { a: 3, b: 0 })
                && v.kernel == TypeId(5)
                && v.right.len() == 0
                && has_right(u.right.as_slice())
        }
        _ => false,
    }
}

// 1/3*b and 2*b are one term; -1/6*d*a is the other.
fn has_right(right: &[RightTerm]) -> bool {
    match right {
        [b, a] => {
            is_term(b, 14, &[], &[(TypeId(2), ZERO)]) && is_term(a, -1, &[1], &[(TypeId(0), ZERO)])
        }
        _ => false,
    }
}

// The units are 1/12, the denominator is 6: it is that of the coefficients as they are written,
// also of those that cancel.
#[test]
fn a_system_with_parameters_and_groups(rt: HostRuntime) {
    let eq = read_equation(rt.alloc(), SYSTEM).expect(&rt, "an equation");
    assert_eq!(rt;
        (eq.types.dims, eq.types.units.den, eq.denominator),
        (2, 12, 6)
    );
    assert!(rt; are_names(&eq.parameters, &[b"c", b"d"]));
    assert!(rt;
        are_names(&eq.types.groups, &[b"b", b"x"]),
        "the groups, by their first noises"
    );
    assert!(rt;
        has_types(
            &eq,
            &[
                (b"a", Kind::Noise, -18, -12, 0),
                (b"x", Kind::Noise, -12, -4, 1),
                (b"b", Kind::Noise, -18, -12, 0),
                (b"y", Kind::Noise, 6, 0, 1),
                (b"u", Kind::Kernel, 24, 0, 0),
                (b"v", Kind::Kernel, 42, 0, 0),
            ]
        )
    );
    assert!(rt; has_unknowns(&eq));
}
