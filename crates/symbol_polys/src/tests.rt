use crate::{
    PolyError, Symbol, Term, add, copy_symbol, copy_symbols, derive, derive_term, mul, one, scale,
    sum_of_terms, symbol, symbol_order, with_symbol, zero,
};
use degree_numbers::{Multi, TypeId};
use plain_trees::Tree;
use sqlite_items::Items;
use std::cmp::Ordering;

const LARGEST: i128 = i128::MAX;

#[test]
fn multiples_and_their_masses(rt: HostRuntime) {
    let unit = one(rt.alloc()).expect(&rt, "one");
    let cases = [(3, 3), (-3, 3), (LARGEST, LARGEST), (-LARGEST, LARGEST)];
    for (by, mass) in cases {
        let p = scale(rt.alloc(), &unit, by).expect(&rt, "multiple");
        assert_eq!(rt; p.mass, mass);
        assert_eq!(rt; p.terms.len(), 1);
        assert_eq!(rt; p.terms.as_slice()[0].coefficient, by);
        assert_eq!(rt; p.terms.as_slice()[0].symbols.len(), 0);
    }
    assert_eq!(rt;
        scale(rt.alloc(), &unit, i128::MIN).err(),
        Some(PolyError::CoefficientTooLarge)
    );
    let nothing = scale(rt.alloc(), &unit, 0).expect(&rt, "multiple");
    assert_eq!(rt; (nothing.mass, nothing.terms.len()), (0, 0));
    let nothing = scale(rt.alloc(), &zero(rt.alloc()).expect(&rt, "zero"), i128::MIN);
    assert_eq!(rt; nothing.expect(&rt, "multiple").mass, 0);
}

#[test]
fn the_mass_refuses_and_not_the_coefficient(rt: HostRuntime) {
    let xi = symbol(rt.alloc(), Symbol::Noise(TypeId(0))).expect(&rt, "symbol");
    assert_eq!(rt; (xi.mass, xi.terms.len()), (1, 1));
    let most = scale(rt.alloc(), &xi, LARGEST).expect(&rt, "multiple");
    assert_eq!(rt;
        scale(rt.alloc(), &most, 2).err(),
        Some(PolyError::CoefficientTooLarge)
    );
    let back = scale(rt.alloc(), &most, -1).expect(&rt, "multiple");
    assert_eq!(rt; back.terms.len(), 1);
    assert_eq!(rt; back.terms.as_slice()[0].coefficient, -LARGEST);
}

#[test]
fn a_sum_that_is_too_large(rt: HostRuntime) {
    let unit = one(rt.alloc()).expect(&rt, "one");
    let most = scale(rt.alloc(), &unit, LARGEST).expect(&rt, "multiple");
    let least = scale(rt.alloc(), &unit, -LARGEST).expect(&rt, "multiple");
    for p in [&most, &least] {
        assert_eq!(rt;
            add(rt.alloc(), p, &unit).err(),
            Some(PolyError::CoefficientTooLarge)
        );
    }
    let nothing = zero(rt.alloc()).expect(&rt, "zero");
    let same = add(rt.alloc(), &nothing, &most).expect(&rt, "sum");
    assert_eq!(rt; same.mass, LARGEST);
    assert_eq!(rt; same.terms.len(), 1);
    assert_eq!(rt; same.terms.as_slice()[0].coefficient, LARGEST);
}

#[test]
fn a_sum_that_cancels_keeps_its_mass(rt: HostRuntime) {
    let xi = symbol(rt.alloc(), Symbol::Noise(TypeId(0))).expect(&rt, "symbol");
    let unit = one(rt.alloc()).expect(&rt, "one");
    let both = add(rt.alloc(), &xi, &unit).expect(&rt, "sum");
    assert_eq!(rt; both.mass, 2);
    assert_eq!(rt; both.terms.len(), 2);
    assert_eq!(rt; both.terms.as_slice()[0].symbols.len(), 0);
    let minus = scale(rt.alloc(), &xi, -1).expect(&rt, "multiple");
    let left = add(rt.alloc(), &both, &minus).expect(&rt, "sum");
    assert_eq!(rt; left.mass, 3);
    assert_eq!(rt; left.terms.len(), 1);
    assert_eq!(rt; left.terms.as_slice()[0].symbols.len(), 0);
}

#[test]
fn products_of_a_sum_and_a_difference(rt: HostRuntime) {
    let u = symbol(rt.alloc(), Symbol::Variable(TypeId(1), Multi::zero())).expect(&rt, "symbol");
    let xi = symbol(rt.alloc(), Symbol::Noise(TypeId(0))).expect(&rt, "symbol");
    let minus = scale(rt.alloc(), &xi, -1).expect(&rt, "multiple");
    let sum = add(rt.alloc(), &xi, &u).expect(&rt, "sum");
    let difference = add(rt.alloc(), &u, &minus).expect(&rt, "difference");
    let square = mul(rt.alloc(), &sum, &sum).expect(&rt, "square");
    assert_eq!(rt; square.mass, 4);
    assert_eq!(rt; square.terms.len(), 3);
    let coefficients = [1, 2, 1];
    for i in 0..coefficients.len() {
        assert_eq!(rt; square.terms.as_slice()[i].coefficient, coefficients[i]);
        assert_eq!(rt; square.terms.as_slice()[i].symbols.len(), 2);
    }
    let squares = mul(rt.alloc(), &sum, &difference).expect(&rt, "product");
    assert_eq!(rt; squares.mass, 4);
    assert_eq!(rt; squares.terms.len(), 2);
    assert_eq!(rt; squares.terms.as_slice()[0].coefficient, 1);
    assert_eq!(rt; squares.terms.as_slice()[1].coefficient, -1);
}

#[test]
fn a_product_that_is_too_large(rt: HostRuntime) {
    let unit = one(rt.alloc()).expect(&rt, "one");
    let low = scale(rt.alloc(), &unit, 1 << 63).expect(&rt, "multiple");
    let high = scale(rt.alloc(), &unit, -(1 << 64)).expect(&rt, "multiple");
    assert_eq!(rt;
        mul(rt.alloc(), &low, &high).err(),
        Some(PolyError::CoefficientTooLarge)
    );
    let square = mul(rt.alloc(), &low, &low).expect(&rt, "square");
    assert_eq!(rt; square.mass, 1 << 126);
    let nothing = zero(rt.alloc()).expect(&rt, "zero");
    assert_eq!(rt;
        mul(rt.alloc(), &high, &nothing).expect(&rt, "product").mass,
        0
    );
}

#[test]
fn derivatives_by_a_variable(rt: HostRuntime) {
    let name = Symbol::Variable(TypeId(1), Multi::zero());
    let copy = copy_symbol(rt.alloc(), &name).expect(&rt, "copy");
    let u = symbol(rt.alloc(), copy).expect(&rt, "symbol");
    let xi = symbol(rt.alloc(), Symbol::Noise(TypeId(0))).expect(&rt, "symbol");
    let square = mul(rt.alloc(), &u, &u).expect(&rt, "product");
    let one_term = mul(rt.alloc(), &square, &xi).expect(&rt, "product");
    let f = scale(rt.alloc(), &one_term, 3).expect(&rt, "multiple");
    let p = derive(rt.alloc(), &f, &name).expect(&rt, "derivative");
    assert_eq!(rt; p.mass, 6);
    assert_eq!(rt; p.terms.len(), 1);
    assert_eq!(rt; p.terms.as_slice()[0].coefficient, 6);
    let symbols = p.terms.as_slice()[0].symbols.as_slice();
    assert_eq!(rt; symbols.len(), 2);
    assert_eq!(rt; symbol_order(&symbols[0], &name), Ordering::Equal);
    assert_eq!(rt;
        symbol_order(&symbols[1], &Symbol::Noise(TypeId(0))),
        Ordering::Equal
    );
    let nothing = derive(rt.alloc(), &f, &Symbol::Noise(TypeId(9))).expect(&rt, "derivative");
    assert_eq!(rt; (nothing.mass, nothing.terms.len()), (0, 0));
}

#[test]
fn the_coefficients_of_a_derivative_refuse_and_not_its_old_mass(rt: HostRuntime) {
    let name = Symbol::Noise(TypeId(0));
    let xi = symbol(rt.alloc(), Symbol::Noise(TypeId(0))).expect(&rt, "symbol");
    let square = mul(rt.alloc(), &xi, &xi).expect(&rt, "square");
    let most = scale(rt.alloc(), &square, LARGEST).expect(&rt, "multiple");
    assert_eq!(rt;
        derive(rt.alloc(), &most, &name).err(),
        Some(PolyError::CoefficientTooLarge)
    );
    let half = scale(rt.alloc(), &square, LARGEST / 2).expect(&rt, "multiple");
    let minus = scale(rt.alloc(), &half, -1).expect(&rt, "multiple");
    let sum = add(rt.alloc(), &half, &xi).expect(&rt, "sum");
    let left = add(rt.alloc(), &sum, &minus).expect(&rt, "sum");
    assert_eq!(rt; left.mass, LARGEST);
    assert_eq!(rt;
        derive(rt.alloc(), &left, &name)
            .expect(&rt, "derivative")
            .mass,
        1
    );
}

#[test]
fn terms_are_summed_derived_and_multiplied(rt: HostRuntime) {
    let v = Symbol::Variable(TypeId(1), Multi::zero());
    let one = Items::new(rt.alloc());
    let v_alone = with_symbol(rt.alloc(), v, one.as_slice()).expect(&rt, "v");
    let symbols = with_symbol(rt.alloc(), Symbol::Parameter(0), v_alone.as_slice()).expect(
        &rt, "p*v",
    );
    assert_eq!(rt; symbols.len(), 2);
    assert_eq!(rt;
        symbol_order(&symbols.as_slice()[0], &Symbol::Parameter(0)),
        Ordering::Equal
    );
    let by = Symbol::Variable(TypeId(1), Multi::zero());
    let term = Term {
        coefficient: 5,
        symbols,
    };
    let derived = derive_term(rt.alloc(), &by, &term).expect(&rt, "derivative");
    assert_eq!(rt; (derived.coefficient, derived.symbols.len()), (5, 1));
    let mut terms = Vec::new(rt.alloc());
    terms.push(term).expect(&rt, "first");
    terms.push(derived).expect(&rt, "second");
    let minus = Term {
        coefficient: -5,
        symbols: copy_symbols(rt.alloc(), terms.as_slice()[0].symbols.as_slice()).expect(
            &rt, "copy",
        ),
    };
    terms.push(minus).expect(&rt, "third");
    let sum = sum_of_terms(rt.alloc(), terms.as_slice()).expect(&rt, "sum");
    assert_eq!(rt; (sum.mass, sum.terms.len()), (15, 1));
}

#[test]
fn symbols_in_order(rt: HostRuntime) {
    let first = Multi {
        entries: [1, 0, 0, 0, 0],
    };
    let symbols = [
        Symbol::Parameter(0),
        Symbol::Parameter(7),
        Symbol::Variable(TypeId(0), first),
        Symbol::Variable(TypeId(1), Multi::zero()),
        Symbol::Variable(TypeId(1), first),
        Symbol::Noise(TypeId(0)),
        Symbol::Plain(Tree {
            n: Multi::zero(),
            edges: Items::new(rt.alloc()),
        }),
        Symbol::Expect(Tree {
            n: Multi::zero(),
            edges: Items::new(rt.alloc()),
        }),
    ];
    for i in 0..symbols.len() {
        let copy = copy_symbol(rt.alloc(), &symbols[i]).expect(&rt, "copy");
        for j in 0..symbols.len() {
            assert_eq!(rt; symbol_order(&copy, &symbols[j]), i.cmp(&j));
        }
    }
}
