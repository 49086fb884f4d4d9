// Texts that are no trees' texts, and where each is refused, on the types of the KPZ equation: a noise
// `xi` and a kernel `u` in two directions.

#[cfg(test)]
mod tests {
    use known_types::kpz_types;
    use plain_trees::TreeError::{
        NotCanonical, TooManyDecorations, TooManyEdges, TreeText, UnknownType,
    };
    use plain_trees::{edge_count, print_tree, read_tree};

    #[test]
    fn texts_are_refused_at_their_first_fault(rt: HostRuntime) {
        let cases = [
            (b"".as_slice(), TreeText { place: 0 }),
            (b"[", TreeText { place: 1 }),
            (b"[xi", TreeText { place: 3 }),
            (b"[u[xi]", TreeText { place: 6 }),
            (b"[xi]]", TreeText { place: 4 }),
            (b"[xi*]", TreeText { place: 4 }),
            (b"[xi[]]", TreeText { place: 3 }),
            (b"[u]", TreeText { place: 2 }),
            (b"[u'(0,1)]", TreeText { place: 8 }),
            (b"[xi'(0,1)[]]", TreeText { place: 9 }),
            (b"[zz[xi]xi]", TreeText { place: 7 }),
            (b"[X]", TreeText { place: 2 }),
            (b"[E]", TreeText { place: 2 }),
            (b"[xi*X(0,1)]", TreeText { place: 5 }),
            (b"[X(0,1)*X(0,1)]", TreeText { place: 9 }),
            (b"[X(0,1,0)]", TreeText { place: 6 }),
            (b"[X(0)]", TreeText { place: 4 }),
            (b"[X(0,)]", TreeText { place: 5 }),
            (b"[abcdefghijklmnopq]", TreeText { place: 17 }),
            (b"[zz]", UnknownType { place: 1 }),
            (b"[xi*yy*zz]", UnknownType { place: 4 }),
            (b"[zz*X1[u]]", TreeText { place: 8 }),
            (b"[u[X(64,0)]*X1[]]", UnknownType { place: 12 }),
            (b"[X(65,0)*xi]", TooManyDecorations { total: 65 }),
            (b"[X(065,0)*xi]", TooManyDecorations { total: 65 }),
            (
                b"[X(32,0)*u'(0,32)[X(0,1)]]",
                TooManyDecorations { total: 65 },
            ),
            (
                b"[X(99999999999,0)]",
                TooManyDecorations { total: 2147483647 },
            ),
            (
                b"[X(99999999999,99999999999)*xi'(0,9)]",
                TooManyDecorations { total: 4294967295 },
            ),
            (b"[X(0,0)*xi]", NotCanonical),
            (b"[X(01,0)*xi]", NotCanonical),
            (b"[xi'(0,0)]", NotCanonical),
            (b"[u[]*xi]", NotCanonical),
            (b"[u[xi]*xi]", NotCanonical),
            (b"[u[u[xi]]*u[X(5,0)*xi]]", NotCanonical),
        ];
        let types = kpz_types(rt.alloc()).expect(&rt, "types");
        for (text, fault) in cases {
            assert_eq!(rt; read_tree(rt.alloc(), &types, text, 64).err(), Some(fault));
        }
    }

    #[test]
    fn nested_trees_are_counted_before_they_are_read(rt: HostRuntime) {
        let types = kpz_types(rt.alloc()).expect(&rt, "types");
        for (depth, fault) in [
            (24, None),
            (25, Some(TooManyEdges { count: 25 })),
            (1000, Some(TooManyEdges { count: 1000 })),
        ] {
            let mut text = Vec::new(rt.alloc());
            text.push(b'[').expect(&rt, "memory");
            for _ in 0..depth {
                text.extend_from_slice(b"u[").expect(&rt, "memory");
            }
            for _ in 0..depth {
                text.push(b']').expect(&rt, "memory");
            }
            text.push(b']').expect(&rt, "memory");
            assert_eq!(rt;
                read_tree(rt.alloc(), &types, text.as_slice(), 64).err(),
                fault
            );
        }
        let mut text = Vec::new(rt.alloc());
        for _ in 0..4096 {
            text.push(b'[').expect(&rt, "memory");
        }
        assert_eq!(rt;
            read_tree(rt.alloc(), &types, text.as_slice(), 64).err(),
            Some(TreeText { place: 1 })
        );
    }

    #[test]
    fn edges_come_before_decorations(rt: HostRuntime) {
        let types = kpz_types(rt.alloc()).expect(&rt, "types");
        let mut text = Vec::new(rt.alloc());
        text.extend_from_slice(b"[X(65,0)").expect(&rt, "memory");
        for _ in 0..25 {
            text.extend_from_slice(b"*xi").expect(&rt, "memory");
        }
        text.push(b']').expect(&rt, "memory");
        assert_eq!(rt;
            read_tree(rt.alloc(), &types, text.as_slice(), 64).err(),
            Some(TooManyEdges { count: 25 })
        );
    }

    #[test]
    fn what_is_read_is_printed(rt: HostRuntime) {
        let types = kpz_types(rt.alloc()).expect(&rt, "types");
        for (text, edges) in [
            (b"[]".as_slice(), 0),
            (b"[xi*xi]", 2),
            (b"[X(0,64)]", 0),
            (b"[X(2,1)*xi'(0,1)*u[xi*xi]*u'(0,1)[X(0,3)*u[]]]", 6),
        ] {
            let t = read_tree(rt.alloc(), &types, text, 64).expect(&rt, "read");
            assert_eq!(rt; edge_count(&t), edges);
            assert_eq!(rt;
                print_tree(rt.alloc(), &types, &t)
                    .expect(&rt, "text")
                    .as_slice(),
                text
            );
        }
    }
}
