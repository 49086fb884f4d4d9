// Trees: texts, degrees, planted trees, tree order and canonical form on the types of the KPZ equation.

#[cfg(test)]
mod tests {
    use canonical_trees::CanonicalTree;
    use known_types::kpz_types;
    use plain_trees::{
        copy_tree, degree, edge_count, is_canonical, is_planted, order, print_tree, read_tree,
    };

    // In tree order.
    const TEXTS: [&[u8]; 10] = [
        b"[]",
        b"[X(0,1)]",
        b"[X(1,0)]",
        b"[xi]",
        b"[xi'(0,1)]",
        b"[u[]]",
        b"[X(0,1)*xi]",
        b"[xi*xi]",
        b"[xi*u[]]",
        b"[u[xi]]",
    ];

    #[test]
    fn degrees_and_planted_trees(rt: HostRuntime) {
        let cases = [
            (b"[]".as_slice(), 0, (0, 0), false),
            (b"[X(0,1)]", 0, (2, 0), false),
            (b"[xi]", 1, (-3, -2), false),
            (b"[xi*xi]", 2, (-6, -4), false),
            (b"[X(0,1)*xi]", 1, (-1, -2), false),
            (b"[u[xi]]", 2, (1, -2), true),
            (b"[X(0,1)*u[xi]]", 2, (3, -2), false),
            (b"[u[X(1,0)*xi]]", 2, (5, -2), true),
            (b"[u'(0,1)[xi]*u'(0,1)[xi]]", 4, (-2, -4), false),
            (b"[u'(0,1)[u'(0,1)[xi]*u'(0,1)[xi]]]", 5, (0, -4), true),
        ];
        let types = kpz_types(rt.alloc()).expect(&rt, "types");
        for (text, edges, (a, b), planted) in cases {
            let t = read_tree(rt.alloc(), &types, text, 64).expect(&rt, "read");
            assert_eq!(rt; edge_count(&t), edges);
            let d = degree(&types, &t);
            assert_eq!(rt; (d.a, d.b), (a, b));
            assert_eq!(rt; is_planted(&types, &t), planted);
        }
    }

    #[test]
    fn texts_are_printed_back(rt: HostRuntime) {
        let types = kpz_types(rt.alloc()).expect(&rt, "types");
        for text in TEXTS {
            let t = read_tree(rt.alloc(), &types, text, 64).expect(&rt, "read");
            assert!(rt; is_canonical(&t));
            assert_eq!(rt;
                print_tree(rt.alloc(), &types, &t)
                    .expect(&rt, "text")
                    .as_slice(),
                text
            );
            let c = copy_tree(rt.alloc(), &t).expect(&rt, "copy");
            assert_eq!(rt;
                print_tree(rt.alloc(), &types, &c)
                    .expect(&rt, "text")
                    .as_slice(),
                text
            );
            let c = CanonicalTree::of(rt.alloc(), &t).expect(&rt, "canonical");
            assert!(rt; order(c.tree(), &t).is_eq());
        }
    }

    #[test]
    fn trees_are_sorted(rt: HostRuntime) {
        let types = kpz_types(rt.alloc()).expect(&rt, "types");
        let mut trees = Vec::new(rt.alloc());
        for text in TEXTS.iter().rev() {
            let t = read_tree(rt.alloc(), &types, text, 64).expect(&rt, "read");
            trees.push(CanonicalTree::new(t)).expect(&rt, "memory");
        }
        trees.sort_unstable();
        for (c, text) in trees.iter().zip(TEXTS) {
            let t = read_tree(rt.alloc(), &types, text, 64).expect(&rt, "read");
            assert!(rt; order(c.tree(), &t).is_eq());
        }
    }
}
