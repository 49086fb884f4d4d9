//! Examples of texts of polynomials, and of texts that are none, on the types of the KPZ equation: a noise `xi` and a kernel `u` in two directions.
#![tactic(auto)]

mod reading;

#[cfg(test)]
mod tests {
    use crate::reading::{is_refused, is_too_large, read_and_print};
    use known_types::kpz_types;

    #[test]
    fn what_is_read_is_printed(rt: HostRuntime) {
        let types = kpz_types(rt.alloc()).expect(&rt, "types");
        let cases = [
            (b"0".as_slice(), 0, 0),
            (b"1", 1, 1),
            (b"-1", 1, 1),
            (b"17", 1, 17),
            (b"xi", 1, 1),
            (b"-u", 1, 1),
            (b"u^12", 1, 1),
            (b"u^2*u'(0,1)*xi", 1, 1),
            (b"6*u*xi", 1, 6),
            (b"2-3*u+xi-u^2", 4, 7),
            (b"u*u'(0,1)^2*u'(2,0)", 1, 1),
            (b"u'(4294967295,0)", 1, 1),
            (b"T[]-E[]", 2, 2),
            (b"-T[X(0,1)*xi]+T[X(0,1)]*T[xi]", 2, 2),
            (
                b"-T[xi*xi]+2*T[xi]^2+2*T[xi'(0,1)]*T[X(0,1)*xi]-2*T[X(0,1)]*T[xi]*T[xi'(0,1)]",
                4,
                7,
            ),
            (
                b"-E[u'(0,1)[u'(0,1)[xi]*u'(0,1)[xi]]]+E[u'(0,1)[]]*E[u'(0,1)[xi]*u'(0,1)[xi]]",
                2,
                2,
            ),
            (
                b"170141183460469231731687303715884105727*u",
                1,
                170141183460469231731687303715884105727,
            ),
        ];
        for (text, terms, mass) in cases {
            assert!(rt; read_and_print(rt.alloc(), &types, text, terms, mass));
        }
    }

    #[test]
    fn what_is_not_printed_is_refused(rt: HostRuntime) {
        let types = kpz_types(rt.alloc()).expect(&rt, "types");
        let texts = [
            b"".as_slice(),
            b"-",
            b"+",
            b"*",
            b"^2",
            b"-0",
            b"00",
            b"01",
            b"+1",
            b"+u",
            b"1*u",
            b"u*1",
            b"0*u",
            b"0+u",
            b"02*u",
            b"2*3",
            b"2u",
            b"2*",
            b"u*",
            b"*u",
            b"u^0",
            b"u^1",
            b"u^02",
            b"u^",
            b"u^2^2",
            b"u*u",
            b"u^2*u",
            b"xi*u",
            b"u*a",
            b"u+u",
            b"u-u",
            b"xi+u",
            b"u+1",
            b"u^2+u",
            b"u+-xi",
            b"u--xi",
            b"u ",
            b" u",
            b"u+xi\n",
            b"v",
            b"uu",
            b"X",
            b"E",
            b"T",
            b"k",
            b"xi'(0,1)",
            b"a'(0,1)",
            b"u'(0,0)",
            b"u'(1)",
            b"u'(0,1,0)",
            b"u'(01,0)",
            b"u'(4294967296,0)",
            b"u'",
            b"u[]",
            b"[xi]",
            b"T[xi",
            b"T[xi]]",
            b"T[xi]T[xi]",
            b"E[zz]",
            b"T[u[]*xi]",
            b"T[X(0,0)*xi]",
            b"T[X(0,4097)]",
            b"E[xi]*T[xi]",
            b"T[xi*xi]*T[xi]",
        ];
        for text in texts {
            assert!(rt; is_refused(rt.alloc(), &types, text));
        }
    }

    #[test]
    fn numbers_of_any_length_are_refused_by_size(rt: HostRuntime) {
        let types = kpz_types(rt.alloc()).expect(&rt, "types");
        let texts = [
            b"170141183460469231731687303715884105728".as_slice(),
            b"-170141183460469231731687303715884105728*u",
            b"1000000000000000000000000000000000000000000000000000000000000000000000000000000*u^2*xi",
            b"170141183460469231731687303715884105727-u",
            b"1+85070591730234615865843651857942052863*u-85070591730234615865843651857942052864*u^2",
        ];
        for text in texts {
            assert!(rt; is_too_large(rt.alloc(), &types, text));
        }
        let no_texts = [
            b"1000000000000000000000000000000000000000000000000000000000000000000000000000000*u*u".as_slice(),
            b"0170141183460469231731687303715884105728",
        ];
        for text in no_texts {
            assert!(rt; is_refused(rt.alloc(), &types, text));
        }
    }
}
