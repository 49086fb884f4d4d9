// Which rules have a too large tree of a degree of at most 0: equations that people know, and rules at
// the bounds.
use known_equations::subcritical_equation;
use large_trees::has_too_large_tree;
use std::alloc::Global;
use tree_budgets::normal_rule_is_rule;

/// The answer for the normal rule of the equation that a file writes down, where the inequality of regularities holds for it.
pub fn rule_has_too_large_tree(alloc: Global, file: &[u8]) -> Option<bool> {
    let s = subcritical_equation(alloc, file)?;
    normal_rule_is_rule(&s.eq, &s.rule);
    has_too_large_tree(alloc, &s.eq, &s.rule).ok()
}

#[cfg(test)]
mod tests {
    use super::*;
    use known_equations::{KPZ, file_of_one_unknown};

    fn one_for(
        alloc: Global,
        scaling: &str,
        noise: &str,
        kernel: &str,
        regularity: &str,
        right: &str,
    ) -> Option<bool> {
        let text = file_of_one_unknown(alloc, scaling, noise, kernel, regularity, right)?;
        rule_has_too_large_tree(alloc, text.as_slice())
    }

    #[test]
    fn equations_that_people_know_have_none(rt: HostRuntime) {
        let alloc = rt.alloc();
        assert!(rt; rule_has_too_large_tree(alloc, KPZ) == Some(false));
        assert!(rt; one_for(alloc, "[2, 1, 1, 1]", "-5/2-k", "2", "-3/5", "-u^3+x") == Some(false));
        assert!(rt; one_for(alloc, "[2, 1, 1]", "-1-k", "2", "1/2", "u*x") == Some(false));
        assert!(rt; one_for(alloc, "[1]", "-20", "20", "-1", "") == Some(false));
        assert!(rt; one_for(alloc, "[1, 1, 1, 1, 1]", "-20", "2", "-19", "x") == Some(false));
    }

    #[test]
    fn the_number_of_edges_decides(rt: HostRuntime) {
        let alloc = rt.alloc();
        assert!(rt; one_for(alloc, "[1]", "-19/20", "1", "0", "u*x") == Some(true));
        assert!(rt; one_for(alloc, "[1]", "-12/13-k", "1", "0", "u*x") == Some(true));
        assert!(rt; one_for(alloc, "[1]", "-12/13", "1", "0", "u*x") == Some(true));
        assert!(rt; one_for(alloc, "[1]", "-12/13+k", "1", "0", "u*x") == Some(false));
        assert!(rt; one_for(alloc, "[1]", "-23/25-k", "1", "0", "u*x") == Some(false));
        assert!(rt; one_for(alloc, "[1]", "-20", "19/24", "-20", "u+x") == Some(true));
    }

    #[test]
    fn the_sum_of_decorations_decides(rt: HostRuntime) {
        let alloc = rt.alloc();
        assert!(rt; one_for(alloc, "[1]", "-20", "10", "-11", "u'(8)+x") == Some(true));
        assert!(rt; one_for(alloc, "[1]", "-20", "12", "-9", "u'(8)+x") == Some(false));
        assert!(rt; one_for(alloc, "[5]", "-20", "6", "-15", "u'(1)+x") == Some(false));
    }

    #[test]
    fn a_planted_tree_alone_is_none(rt: HostRuntime) {
        let alloc = rt.alloc();
        assert!(rt; one_for(alloc, "[1]", "-20", "5/6", "-20", "u+x") == Some(false));
        assert!(rt; one_for(alloc, "[1]", "-20", "43/11", "-17", "u'(3)+x") == Some(false));
    }
}
