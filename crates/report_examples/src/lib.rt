//! Examples of stored values, and of texts that are none, on the types of the KPZ equation: a noise `xi` and a kernel `u` in two directions.
#![tactic(auto)]

mod reading;

#[cfg(test)]
mod tests {
    use crate::reading::{is_refused, read_and_print};
    use known_types::kpz_types;

    #[test]
    fn what_is_read_is_printed(rt: HostRuntime) {
        let types = kpz_types(rt.alloc()).expect(&rt, "types");
        let cases = [
            (b"0 0".as_slice(), 0, 0),
            (b"1 0", 0, 1),
            (b"10 0", 0, 10),
            (b"1 1", 1, 1),
            (b"1 E[]", 1, 1),
            (b"7 -2*E[xi*xi]", 1, 7),
            (b"1 -E[u'(0,1)[xi]*u'(0,1)[xi]]", 1, 1),
            (
                b"2 -E[u'(0,1)[u'(0,1)[xi]*u'(0,1)[xi]]]+E[u'(0,1)[]]*E[u'(0,1)[xi]*u'(0,1)[xi]]",
                2,
                2,
            ),
            (
                b"170141183460469231731687303715884105727 0",
                0,
                170141183460469231731687303715884105727,
            ),
        ];
        for (text, terms, mass) in cases {
            assert!(rt; read_and_print(rt.alloc(), &types, text, terms, mass));
        }
    }

    #[test]
    fn what_is_not_printed_is_refused(rt: HostRuntime) {
        let types = kpz_types(rt.alloc()).expect(&rt, "types");
        let texts = [
            b"".as_slice(),
            b" ",
            b"0",
            b"1",
            b"1 ",
            b" 0",
            b"00 0",
            b"01 0",
            b"+1 0",
            b"-1 0",
            b"1  0",
            b"1 0 ",
            b"1 0\n",
            b"1,0",
            b"x 0",
            b"0 E[]",
            b"1 2*E[]",
            b"1 1+E[]",
            b"1 xi",
            b"1 u",
            b"1 T[]",
            b"1 E[zz]",
            b"1 E[]*E[]",
            b"170141183460469231731687303715884105728 0",
            b"170141183460469231731687303715884105728 170141183460469231731687303715884105728",
        ];
        for text in texts {
            assert!(rt; is_refused(rt.alloc(), &types, text));
        }
    }
}
