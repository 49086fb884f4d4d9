// Plans of the rules of known equations.
use known_equations::subcritical_equation;
use std::alloc::Global;
use tree_budgets::{RulePlan, normal_rule_is_rule, rule_plan};

/// The plan of the rule of the equation that a file writes down, where the inequality of regularities holds for it.
pub fn plan_of(alloc: Global, file: &[u8]) -> Option<RulePlan> {
    let s = subcritical_equation(alloc, file)?;
    normal_rule_is_rule(&s.eq, &s.rule);
    rule_plan(alloc, &s.eq, &s.rule).ok()
}

#[cfg(test)]
mod tests {
    use super::*;
    use degree_numbers::{Degree, Multi, TypeId};
    use known_equations::{KPZ, PHI4_3D};
    use normal_rule::EdgeType;
    use tree_budgets::Extension;

    fn degree(a: i64, b: i64) -> Degree {
        Degree { a, b }
    }

    fn xi() -> EdgeType {
        EdgeType {
            kind: TypeId(0),
            p: Multi { entries: [0; 5] },
        }
    }

    fn u(entries: [u32; 5]) -> EdgeType {
        EdgeType {
            kind: TypeId(1),
            p: Multi { entries },
        }
    }

    fn has_reserves(plan: &RulePlan, reserves: &[Degree]) -> bool {
        let Some(row) = plan.rows.get(0) else {
            return false;
        };
        if row.nodes.len() != reserves.len() {
            return false;
        }
        for (node, want) in row.nodes.as_slice().iter().zip(reserves) {
            if node.reserve != *want {
                return false;
            }
        }
        true
    }

    fn has_extensions(plan: &RulePlan, at: usize, extensions: &[Extension]) -> bool {
        let Some(row) = plan.rows.get(0) else {
            return false;
        };
        match row.nodes.get(at) {
            Some(node) => node.extensions.as_slice() == extensions,
            None => false,
        }
    }

    // in quarters: the noise has -3/2-k, the noise above an edge of `u` 1/2-k, and with its derivative -1/2-k
    #[test]
    fn plan_of_the_kpz_equation(rt: HostRuntime) {
        let slope = u([0, 1, 0, 0, 0]);
        let plan = plan_of(rt.alloc(), KPZ).expect(&rt, "plan");
        assert!(rt; plan.lows.as_slice() == [degree(-6, -4), degree(2, -4)].as_slice());
        assert!(rt; plan.mosts.as_slice() == [degree(0, 0), degree(0, 0)].as_slice());
        assert!(rt;
            has_reserves(
                &plan,
                &[degree(-6, -4), degree(0, 0), degree(-2, -4), degree(0, 0)]
            )
        );
        assert!(rt;
            has_extensions(
                &plan,
                0,
                &[
                    Extension {
                        edge: xi(),
                        node: 1
                    },
                    Extension {
                        edge: slope,
                        node: 2
                    }
                ]
            )
        );
        assert!(rt;
            has_extensions(
                &plan,
                2,
                &[Extension {
                    edge: slope,
                    node: 3
                }]
            )
        );
        assert!(rt; has_extensions(&plan, 3, &[]));
    }

    // in quarters: the noise has -5/2-k, the noise above an edge of `u` -1/2-k
    #[test]
    fn plan_of_three_dimensional_phi4(rt: HostRuntime) {
        let edge = u([0; 5]);
        let plan = plan_of(rt.alloc(), PHI4_3D).expect(&rt, "plan");
        assert!(rt; plan.lows.as_slice() == [degree(-10, -4), degree(-2, -4)].as_slice());
        assert!(rt; plan.mosts.as_slice() == [degree(0, 0), degree(0, 0)].as_slice());
        assert!(rt;
            has_reserves(
                &plan,
                &[
                    degree(-10, -4),
                    degree(0, 0),
                    degree(-4, -8),
                    degree(-2, -4),
                    degree(0, 0)
                ]
            )
        );
        assert!(rt;
            has_extensions(
                &plan,
                0,
                &[
                    Extension {
                        edge: xi(),
                        node: 1
                    },
                    Extension { edge, node: 2 }
                ]
            )
        );
        assert!(rt; has_extensions(&plan, 1, &[]));
        assert!(rt; has_extensions(&plan, 3, &[Extension { edge, node: 4 }]));
    }
}
