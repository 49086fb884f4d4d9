// Tables of texts.
use crate::*;

#[test]
fn reads_and_prints(rt: HostRuntime) {
    let cases = [
        (b"-5/2-k".as_slice(), (-5, 2, -1, 1), b"-5/2-k".as_slice()),
        (b"3/2", (3, 2, 0, 1), b"3/2"),
        (b"1/2*k", (0, 1, 1, 2), b"1/2*k"),
        (b"0", (0, 1, 0, 1), b"0"),
        (b"-2*k", (0, 1, -2, 1), b"-2*k"),
        (b"k", (0, 1, 1, 1), b"k"),
        (b"-k", (0, 1, -1, 1), b"-k"),
        (b"2/4", (1, 2, 0, 1), b"1/2"),
        (b"1/2 - k", (1, 2, -1, 1), b"1/2-k"),
        (b"k+1", (1, 1, 1, 1), b"1+k"),
        (b"+3 / 6 + 002 * k", (1, 2, 2, 1), b"1/2+2*k"),
    ];
    for (text, want, printed) in cases {
        let Ok(w) = read_degree(text) else {
            panic!(rt; "refused");
        };
        assert_eq!(rt; (w.a_num, w.a_den, w.b_num, w.b_den), want);
        let Ok(units) = join_units(&[w]) else {
            panic!(rt; "no units");
        };
        let mut out = SmallText::new();
        print_degree(in_units(&w, units), units, &mut out);
        assert_eq!(rt; out.bytes(), printed);
    }
}

#[test]
fn refuses_what_is_no_degree(rt: HostRuntime) {
    let texts = [
        b"".as_slice(),
        b"1/0",
        b"--1",
        b"1+2",
        b"k+k",
        b"1*",
        b"1/2k",
        b"\t",
        b"1\t",
        b" 1",
        b"1 ",
    ];
    for text in texts {
        assert!(rt; read_degree(text) == Err(DegreeRefusal::DegreeText));
    }
}

#[test]
fn refuses_the_first_number_that_is_too_large(rt: HostRuntime) {
    let cases = [
        (b"1000001".as_slice(), 1_000_001, false, true),
        (b"1/1000001", 1_000_001, false, true),
        (b"99999999999999999999", i64::MAX, false, true),
        (b"2+1000001*k", 1_000_001, true, true),
        (b"-1000001", 1_000_001, false, false),
        (b"1000002*k-1000001", 1_000_002, true, false),
        (b"0/1000001*k", 1_000_001, false, false),
    ];
    for (text, count, has_k, above_zero) in cases {
        let want = DegreeRefusal::NumberTooLarge {
            count,
            has_k,
            above_zero,
        };
        assert!(rt; read_degree(text) == Err(want));
    }
}

#[test]
fn joins_denominators(rt: HostRuntime) {
    let (Ok(a), Ok(b), Ok(c)) = (
        read_degree(b"1/6-k"),
        read_degree(b"3/4+2/4*k"),
        read_degree(b"1/999999"),
    ) else {
        panic!(rt; "refused");
    };
    assert!(rt; join_units(&[]) == Ok(Units { den: 1 }));
    assert!(rt; join_units(&[a, b]) == Ok(Units { den: 12 }));
    assert!(rt; join_units(&[a, c]) == Err(DegreeRefusal::DenominatorTooLarge));
}

#[test]
fn multinomials(rt: HostRuntime) {
    assert_eq!(rt; multinomial(&[]), Some(1));
    assert_eq!(rt; multinomial(&[2, 1]), Some(3));
    assert_eq!(rt; multinomial(&[66, 65]), None);
}

#[test]
fn names(rt: HostRuntime) {
    for text in [b"xi".as_slice(), b"u_1", b"kk", b"abcdefghijklmnop"] {
        match Name::new(text) {
            Some(name) => assert_eq!(rt; name.bytes(), text),
            None => panic!(rt; "refused"),
        }
    }
    for text in [
        b"".as_slice(),
        b"k",
        b"X",
        b"E",
        b"T",
        b"1u",
        b"_u",
        b"u-v",
        b"abcdefghijklmnopq",
    ] {
        assert!(rt; Name::new(text).is_none());
    }
}

#[test]
fn differences_of_multiindices(rt: HostRuntime) {
    let m = Multi {
        entries: [2, 1, 0, 0, 0],
    };
    let l = Multi {
        entries: [1, 1, 0, 0, 0],
    };
    let difference = Multi {
        entries: [1, 0, 0, 0, 0],
    };
    assert!(rt; m.minus(&l) == Some(difference));
    assert!(rt; l.minus(&m) == None);
    assert!(rt; l.plus(&difference) == m);
    assert!(rt; l.at_most(&m));
    assert!(rt; l.order(&m) == std::cmp::Ordering::Less);
    assert_eq!(rt; m.total(), 3);
    assert!(rt; Multi::zero().at_most(&l));
}

#[test]
fn degrees_with_k(rt: HostRuntime) {
    let below = Degree { a: -2, b: -1 };
    let above = Degree { a: -2, b: 1 };
    assert!(rt; below.order(&above) == std::cmp::Ordering::Less);
    assert!(rt; below.plus(&above) == Degree { a: -4, b: 0 });
}
