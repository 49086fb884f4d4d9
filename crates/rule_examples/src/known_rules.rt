// Rules and the inequality of regularities: the dynamic Phi^4 model in three dimensions, the KPZ
// equation and an equation with a square.
ghost use Rattle.std.specs.Prelude.{◌≡◌, IfOk, pos, neg_ℤ, [], ◌∷◌};
ghost use Rattle.equations.specs.Accepted.{IsEquation};
ghost use Rattle.rule_examples.specs.Known.{phi43_equation, kpz_equation, square_equation, equation, term, xi, u_by};

use degree_numbers::{Degree, Multi, TypeId, Types};
use equations::{Equation, RightTerm, Unknown};
use known_types::{kpz_types, phi43_types};
use sqlite_items::Items;
use std::alloc::{AllocError, Global};

const XI: TypeId = TypeId(0);

const U: TypeId = TypeId(1);

fn term(
    alloc: Global,
    coefficient: i128,
    factors: &[(TypeId, Multi)],
) -> Result<RightTerm, AllocError>
    ensures { IfOk result (λ t. t ≡ term coefficient factors.now) }
{
    Ok(RightTerm {
        coefficient,
        parameters: Items::new(alloc),
        factors: Items::from_slice(alloc, factors)?,
    })
}

fn equation(
    alloc: Global,
    types: Types,
    regularity: Degree,
    power: RightTerm,
    noise: RightTerm,
) -> Result<Equation, AllocError>
    requires { regularity.b ≡ pos 0 }
    ensures { IfOk result (λ eq. eq ≡ equation types regularity.a (power ∷ noise ∷ [])) }
{
    let mut right = Items::new(alloc);
    right.push(power)?;
    right.push(noise)?;
    let mut unknowns = Items::new(alloc);
    unknowns.push(Unknown {
        kernel: U,
        regularity,
        right,
    })?;
    Ok(Equation {
        types,
        parameters: Items::new(alloc),
        unknowns,
        denominator: 1,
    })
}

fn made_phi43(alloc: Global) -> Result<Equation, AllocError>
    ensures { IfOk result (λ eq. eq ≡ phi43_equation (neg_ℤ (pos 2))) }
{
    let zero = Multi { entries: [0; 5] };
    let cube = term(alloc, -1, &[(U, zero), (U, zero), (U, zero)])?;
    let noise = term(alloc, 1, &[(XI, zero)])?;
    equation(
        alloc,
        phi43_types(alloc)?,
        Degree { a: -2, b: 0 },
        cube,
        noise,
    )
}

/// The dynamic Phi^4 model in three dimensions, -u^3+xi, with regularity -1.
pub fn phi43(alloc: Global) -> Result<Equation, AllocError>
    ensures value { IfOk result (λ eq. eq ≡ phi43_equation (neg_ℤ (pos 2))) }
    ensures equation { IfOk result IsEquation }
{
    made_phi43(alloc)
}

fn made_kpz(alloc: Global) -> Result<Equation, AllocError>
    ensures { IfOk result (λ eq. eq ≡ kpz_equation (pos 1)) }
{
    let zero = Multi { entries: [0; 5] };
    let slope = Multi {
        entries: [0, 1, 0, 0, 0],
    };
    let square = term(alloc, 1, &[(U, slope), (U, slope)])?;
    let noise = term(alloc, 1, &[(XI, zero)])?;
    equation(
        alloc,
        kpz_types(alloc)?,
        Degree { a: 1, b: 0 },
        square,
        noise,
    )
}

/// The KPZ equation, u'(0,1)^2+xi, with regularity 1/2.
pub fn kpz(alloc: Global) -> Result<Equation, AllocError>
    ensures value { IfOk result (λ eq. eq ≡ kpz_equation (pos 1)) }
    ensures equation { IfOk result IsEquation }
{
    made_kpz(alloc)
}

fn made_square(alloc: Global) -> Result<Equation, AllocError>
    ensures { IfOk result (λ eq. eq ≡ square_equation (pos 0)) }
{
    let zero = Multi { entries: [0; 5] };
    let square = term(alloc, 1, &[(U, zero), (U, zero)])?;
    let noise = term(alloc, 1, &[(XI, zero)])?;
    equation(
        alloc,
        kpz_types(alloc)?,
        Degree { a: 0, b: 0 },
        square,
        noise,
    )
}

/// The equation with right side u^2+xi over the types of the KPZ equation, with regularity 0.
pub fn square(alloc: Global) -> Result<Equation, AllocError>
    ensures value { IfOk result (λ eq. eq ≡ square_equation (pos 0)) }
    ensures equation { IfOk result IsEquation }
{
    made_square(alloc)
}

#[cfg(test)]
mod tests {
    use super::*;
    use normal_rule::{EdgeType, NotSubcritical, Rule, check_regularity, normal_rule};

    const ZERO: Multi = Multi { entries: [0; 5] };

    const SLOPE: Multi = Multi {
        entries: [0, 1, 0, 0, 0],
    };

    fn has_nodes(rule: &Rule, nodes: &[&[EdgeType]]) -> bool {
        let Some(row) = rule.rows.get(0) else {
            return false;
        };
        if row.nodes.len() != nodes.len() {
            return false;
        }
        for (node, want) in row.nodes.as_slice().iter().zip(nodes) {
            if node.edges.as_slice() != *want {
                return false;
            }
        }
        true
    }

    fn fails_at(node: usize, side: i64) -> NotSubcritical {
        NotSubcritical {
            kernel: U,
            node,
            left: Degree { a: side, b: 0 },
            right: Degree { a: side, b: 0 },
        }
    }

    #[test]
    fn a_tie_is_refused_at_its_node_type(rt: HostRuntime) {
        let x = EdgeType { kind: XI, p: ZERO };
        let u = EdgeType { kind: U, p: ZERO };
        let eq = phi43(rt.alloc()).expect(&rt, "equation");
        let rule = normal_rule(rt.alloc(), &eq).expect(&rt, "rule");
        assert!(rt; has_nodes(&rule, &[&[], &[x], &[u], &[u, u], &[u, u, u]]));
        assert!(rt; check_regularity(&eq, &rule) == Err(fails_at(4, -2)));
    }

    #[test]
    fn a_derivative_counts_with_its_weight(rt: HostRuntime) {
        let x = EdgeType { kind: XI, p: ZERO };
        let u = EdgeType { kind: U, p: SLOPE };
        let eq = kpz(rt.alloc()).expect(&rt, "equation");
        let rule = normal_rule(rt.alloc(), &eq).expect(&rt, "rule");
        assert!(rt; has_nodes(&rule, &[&[], &[x], &[u], &[u, u]]));
        assert!(rt; check_regularity(&eq, &rule) == Err(fails_at(1, 1)));
    }

    #[test]
    fn the_gap_is_the_least_difference(rt: HostRuntime) {
        let eq = square(rt.alloc()).expect(&rt, "equation");
        let rule = normal_rule(rt.alloc(), &eq).expect(&rt, "rule");
        assert!(rt; check_regularity(&eq, &rule) == Ok(Degree { a: 1, b: 0 }));
    }
}
