// Contexts that are read and printed, and texts that are none.
use crate::{
    ContextRefusal, are_file_types, context_text, old_context_text, read_context, read_old_context,
};
use degree_numbers::{Degree, Kind, Name, TypeEntry, Types, Units};
use sqlite_items::Items;
use std::alloc::{AllocError, Global};

// A context, the same in the old form, and the units of both.
const CONTEXTS: [(&[u8], &[u8], i64); 10] = [
    (
        b"context 2|scaling 2,1,1|reflect -|noise xi -1-k xi|kernel u 2 -",
        b"scaling 2,1,1|noise xi -1-k xi|kernel u 2",
        1,
    ),
    (
        b"context 2|scaling 2,1|reflect -|noise xi -3/2-k xi|kernel h 2 -",
        b"scaling 2,1|noise xi -3/2-k xi|kernel h 2",
        2,
    ),
    (
        b"context 2|scaling 2,1|reflect 2|noise xi -3/2-k xi|kernel u 2 -",
        b"scaling 2,1|noise xi -3/2-k xi|kernel u 2|reflect 2",
        2,
    ),
    (
        b"context 2|scaling 2,1,1,1|reflect -|noise xi -5/2-k xi|kernel u 2 0",
        b"scaling 2,1,1,1|noise xi -5/2-k xi|kernel u 2 moments 0",
        2,
    ),
    (
        b"context 2|scaling 2,1,1,1|reflect 2,3,4|noise xi -5/2-k xi|kernel u 2 20|kernel v 1 -",
        b"scaling 2,1,1,1|noise xi -5/2-k xi|kernel u 2 moments 20|kernel v 1|reflect 2,3,4",
        2,
    ),
    (
        b"context 2|scaling 2,1|reflect -|noise a -3/2-k g|noise b -1/3*k g|kernel u 2 -|kernel v 3/4 -",
        b"scaling 2,1|noise a -3/2-k g|noise b -1/3*k g|kernel u 2|kernel v 3/4",
        12,
    ),
    (
        b"context 2|scaling 2,1|reflect -|noise a -2 both|noise b 0 b|noise c k both|kernel u 2 -",
        b"scaling 2,1|noise a -2 both|noise b 0 b|noise c k both|kernel u 2",
        1,
    ),
    (
        b"context 2|scaling 2,1|reflect 1,2|noise noise -2 kernel|kernel kernel 2 9|kernel reflect 2 -",
        b"scaling 2,1|noise noise -2 kernel|kernel kernel 2 moments 9|kernel reflect 2|reflect 1,2",
        1,
    ),
    (
        b"context 2|scaling 1|reflect 1|kernel u 1/1000000 -",
        b"scaling 1|kernel u 1/1000000|reflect 1",
        1_000_000,
    ),
    (
        b"context 2|scaling 10,1,1,1,1|reflect 5|noise xi -20-20*k G_1|kernel u 20 -",
        b"scaling 10,1,1,1,1|noise xi -20-20*k G_1|kernel u 20|reflect 5",
        1,
    ),
];

#[test]
fn contexts_are_read_and_printed(rt: HostRuntime) {
    for (new, old, den) in CONTEXTS {
        let types = read_context(rt.alloc(), new).expect(&rt, "read");
        assert_eq!(rt; types.units.den, den);
        let printed = context_text(rt.alloc(), &types).expect(&rt, "printed");
        assert_eq!(rt; printed.as_slice(), new);
        let printed = old_context_text(rt.alloc(), &types).expect(&rt, "printed");
        assert_eq!(rt; printed.as_slice(), old);
        let types = read_old_context(rt.alloc(), old).expect(&rt, "read");
        let printed = context_text(rt.alloc(), &types).expect(&rt, "printed");
        assert_eq!(rt; printed.as_slice(), new);
    }
}

// Texts that are no contexts in the old form.
const NO_OLD_CONTEXTS: [&[u8]; 41] = [
    b"",
    b"scaling 2,1",
    b"scaling 2,1|noise xi -1 xi",
    b"scaling |kernel u 2",
    b"scaling 0,1|kernel u 2",
    b"scaling 11|kernel u 2",
    b"scaling 1,1,1,1,1,1|kernel u 2",
    b"scaling 2,01|kernel u 2",
    b"Scaling 2,1|kernel u 2",
    b"scaling 2,1|kernel u 2\n",
    b"scaling 2,1|kernel u 2 u",
    b"scaling 2,1|kernel u 2|",
    b"scaling 2,1|kernel k 2",
    b"scaling 2,1|kernel u 2-k",
    b"scaling 2,1|kernel u 0",
    b"scaling 2,1|kernel u -1",
    b"scaling 2,1|kernel u 4/2",
    b"scaling 2,1|kernel u 2/4",
    b"scaling 2,1|kernel u +2",
    b"scaling 2,1|kernel u 1000001/1000000",
    b"scaling 2,1|kernel u 201/10",
    b"scaling 2,1|noise xi -1-201/10*k xi|kernel u 2",
    b"scaling 2,1|noise xi -1/1001 xi|kernel u 1/1000",
    b"scaling 2,1|noise xi -k-1 xi|kernel u 2",
    b"scaling 2,1|noise xi -1|kernel u 2",
    b"scaling 2,1|noise xi -1 X|kernel u 2",
    b"scaling 2,1|noise u -1 u|kernel u 2",
    b"scaling 2,1|noise a -1 a|noise a -1 a|kernel u 2",
    b"scaling 2,1|kernel u 2|noise xi -1 xi",
    b"scaling 2|noise a 0 a|noise b 0 a|noise c 0 a|noise d 0 a|noise e 0 a|noise f 0 a|noise g 0 a|noise h 0 a|noise i 0 a|kernel u 2",
    b"scaling 2,1|kernel u 2 moments",
    b"scaling 2,1|kernel u 2 moments 21",
    b"scaling 2,1|kernel u 2 moments -",
    b"scaling 2,1|kernel u 2 moments 00",
    b"scaling 2,1|kernel u 2 0",
    b"scaling 2,1|kernel u 2|reflect -",
    b"scaling 2,1|kernel u 2|reflect 3",
    b"scaling 2,1|kernel u 2|reflect 2,1",
    b"scaling 2,1|reflect 2|kernel u 2",
    b"scaling 2,1|kernel u 2|reflect 2|reflect 2",
    b"context 2|scaling 2,1|reflect -|kernel u 2 -",
];

// Texts that are no contexts.
const NO_CONTEXTS: [&[u8]; 18] = [
    b"",
    b"context 2",
    b"context 2|scaling 2,1|reflect -",
    b"context 1|scaling 2,1|reflect -|kernel u 2 -",
    b"context 2|scaling 2,1|kernel u 2 -",
    b"context 2|scaling 2,1|reflect|kernel u 2 -",
    b"context 2|scaling 2,1|reflect |kernel u 2 -",
    b"context 2|scaling 2,1|reflect 0|kernel u 2 -",
    b"context 2|scaling 2,1|reflect 3|kernel u 2 -",
    b"context 2|scaling 2,1|reflect 1,1|kernel u 2 -",
    b"context 2|scaling 2,1|reflect 2,1|kernel u 2 -",
    b"context 2|scaling 2,1|reflect -|kernel u 2",
    b"context 2|scaling 2,1|reflect -|kernel u 2 21",
    b"context 2|scaling 2,1|reflect -|kernel u 2 -1",
    b"context 2|scaling 2,1|reflect -|kernel u 2 01",
    b"context 2|scaling 2,1|reflect -|kernel u 2 moments 0",
    b"context 2|scaling 2,1|reflect -|noise xi -1 -|kernel u 2 -",
    b"scaling 2,1|noise xi -1 xi|kernel u 2",
];

fn is_refused(read: Result<Types, ContextRefusal>) -> bool {
    match read {
        Ok(_) => false,
        Err(e) => e == ContextRefusal::ContextText,
    }
}

#[test]
fn texts_of_no_file_are_refused(rt: HostRuntime) {
    for text in NO_OLD_CONTEXTS {
        assert!(rt; is_refused(read_old_context(rt.alloc(), text)));
    }
    for text in NO_CONTEXTS {
        assert!(rt; is_refused(read_context(rt.alloc(), text)));
    }
}

// Two noises, which may have the groups `a` and `b`, and a kernel, in quarters.
fn in_quarters(alloc: Global, numbers: [u8; 2]) -> Result<Types, AllocError> {
    let names = [
        Name::new(b"a").unwrap(),
        Name::new(b"b").unwrap(),
        Name::new(b"u").unwrap(),
    ];
    let mut list = Items::new(alloc);
    for i in 0..2 {
        list.push(TypeEntry {
            name: names[i],
            kind: Kind::Noise,
            degree: Degree { a: -6, b: -4 },
            group: numbers[i],
            moments: None,
        })?;
    }
    list.push(TypeEntry {
        name: names[2],
        kind: Kind::Kernel,
        degree: Degree { a: 8, b: 0 },
        group: 0,
        moments: None,
    })?;
    Ok(Types {
        dims: 2,
        scaling: [2, 1, 0, 0, 0],
        units: Units { den: 4 },
        list,
        groups: Items::from_slice(alloc, &names[..2])?,
        reflect: Items::new(alloc),
    })
}

#[test]
fn groups_stand_in_the_order_of_their_first_noise(rt: HostRuntime) {
    let types = in_quarters(rt.alloc(), [0, 1]).expect(&rt, "types");
    assert_eq!(rt; are_file_types(rt.alloc(), &types), Ok(true));
    let text = context_text(rt.alloc(), &types).expect(&rt, "printed");
    assert_eq!(rt;
        text.as_slice(),
        b"context 2|scaling 2,1|reflect -|noise a -3/2-k a|noise b -3/2-k b|kernel u 2 -".as_slice()
    );
    for numbers in [[1, 0], [0, 0], [0, 2]] {
        let types = in_quarters(rt.alloc(), numbers).expect(&rt, "types");
        assert_eq!(rt; are_file_types(rt.alloc(), &types), Ok(false));
    }
}
