// Completions of normal rules: equations that people know, and rules at the bounds.
ghost use Rattle.std.specs.Prelude.{◌≡◌};
ghost use Rattle.std.specs.List.{All};
ghost use Rattle.degree_numbers.specs.Types.{AreTypes};
ghost use Rattle.equations.specs.Accepted.{IsEquation};
ghost use Rattle.normal_rule.specs.Regularity.{IsSubcritical};
ghost use Rattle.normal_rule.specs.Rule.{IsNormalRule};
ghost use Rattle.normal_rule.specs.Text.{IsKnownNode, AreKnown};

use bumpalo::Bump;
use degree_numbers::Types;
use equations::Equation;
use known_equations::subcritical_equation;
use normal_rule::{Rule, RuleRow, put_node_type};
use rule_completion::{Completion, StageFault, StageRefusal, complete};
use std::alloc::Global;
use tree_pool::Pool;

/// A word and a number as a line.
fn put_count(alloc: Global, text: &mut Vec<u8>, word: &str, number: u64) -> Option<()> {
    let line = format!(in alloc; "{word} {number}\n").ok()?;
    text.extend_from_slice(line.as_bytes()).ok()
}

/// The node types of a row, a line each.
fn put_row(text: &mut Vec<u8>, types: &Types, row: &RuleRow) -> Option<()>
    requires types { AreTypes types.now }
    requires known { All (IsKnownNode types.now) row.now.nodes }
{
    for node in row.nodes.as_slice() {
        put_node_type(text, types, node).ok()?;
        text.push(b'\n').ok()?;
    }
    Some(())
}

/// The node types of all rows.
fn put_rows(text: &mut Vec<u8>, types: &Types, rule: &Rule) -> Option<()>
    requires types { AreTypes types.now }
    requires known { AreKnown types.now rule.now.rows }
{
    for row in rule.rows.as_slice() {
        put_row(text, types, row)?;
    }
    Some(())
}

/// The stage of a completion, the node types of its rule, and how many trees are listed.
fn put_completion(
    alloc: Global,
    text: &mut Vec<u8>,
    types: &Types,
    completion: &Completion,
) -> Option<()>
    requires types { AreTypes types.now }
    requires known { AreKnown types.now completion.now.rule.rows }
{
    put_count(alloc, text, "stage", completion.stage as u64)?;
    put_rows(text, types, &completion.rule)?;
    put_count(
        alloc,
        text,
        "trees",
        completion.listing.trees.as_slice().len() as u64,
    )
}

/// What is too large.
fn fault_word(what: StageFault) -> &'static str {
    match what {
        StageFault::TooManyTrees => "TooManyTrees",
        StageFault::TreeTooLarge => "TreeTooLarge",
        StageFault::RuleTooLarge => "RuleTooLarge",
    }
}

/// The completion of a rule, as text; or the refusal and its stage.
fn completed(alloc: Global, eq: &Equation, rule: &Rule) -> Option<Vec<u8>>
    requires equation { IsEquation eq.now }
    requires normal { IsNormalRule eq.now rule.now }
    requires subcritical { IsSubcritical eq.now rule.now }
{
    let arena = Bump::new(alloc);
    let Ok(mut pool) = Pool::new(alloc, &arena, &eq.types) else {
        return None;
    };
    let mut text = Vec::new(alloc);
    match complete(alloc, eq, rule, &mut pool) {
        Ok(completion) => put_completion(alloc, &mut text, &eq.types, &completion)?,
        Err(StageRefusal::Stage { stage, what }) => {
            put_count(alloc, &mut text, fault_word(what), stage as u64)?
        }
        Err(StageRefusal::Memory) => return None,
    }
    Some(text)
}

/// The completion of the normal rule of the equation that a file writes down, where the inequality of regularities holds for it: its stage, the node types of its
/// rule, a line each, and the number of its listed trees; or the refusal and its stage.
pub fn completion_text(alloc: Global, file: &[u8]) -> Option<Vec<u8>> {
    let s = subcritical_equation(alloc, file)?;
    completed(alloc, &s.eq, &s.rule)
}

#[cfg(test)]
mod tests {
    use super::*;
    use known_equations::file_of_one_unknown;

    // the noises x and y, the unknowns v and u
    const DERIVATIVE_OF_A_NOISE: &[u8] = br#"version = 1
scaling = [2, 1]

[[noise]]
name = "x"
degree = "-3/2-k"

[[noise]]
name = "y"
degree = "-1/4-k"

[[unknown]]
name = "v"
degree = "2"
regularity = "1/4"
right = "x"

[[unknown]]
name = "u"
degree = "2"
regularity = "1/8"
right = "v'(0,1)^2*y+v*y+x"
"#;

    const MANY_TREES_LATER: &[u8] = br#"version = 1
scaling = [1, 1, 1]

[[noise]]
name = "x"
degree = "-3/2-k"

[[noise]]
name = "y"
degree = "-4-k"

[[unknown]]
name = "v"
degree = "2"
regularity = "1/4"
right = "x"

[[unknown]]
name = "u"
degree = "11"
regularity = "1"
right = "v'(1,0,0)^2*y"
"#;

    fn text_for(
        alloc: Global,
        scaling: &str,
        noise: &str,
        kernel: &str,
        regularity: &str,
        right: &str,
    ) -> Option<Vec<u8>> {
        let text = file_of_one_unknown(alloc, scaling, noise, kernel, regularity, right)?;
        completion_text(alloc, text.as_slice())
    }

    fn says(text: Option<Vec<u8>>, want: &[u8]) -> bool {
        match text {
            Some(text) => text.as_slice() == want,
            None => false,
        }
    }

    fn begins(text: Option<Vec<u8>>, want: &[u8]) -> bool {
        match text {
            Some(text) => text.as_slice().starts_with(want),
            None => false,
        }
    }

    // A completion at stage 1 with so many node types, and this last line.
    fn has(text: Option<Vec<u8>>, node_types: usize, last: &[u8]) -> bool {
        match text {
            Some(text) => {
                let text = text.as_slice();
                let lines = text.iter().filter(|b| **b == b'\n').count();
                text.starts_with(b"stage 1\n".as_slice())
                    && lines.checked_sub(2) == Some(node_types)
                    && text.ends_with(last)
            }
            None => false,
        }
    }

    #[test]
    fn the_rule_of_the_kpz_equation_is_complete(rt: HostRuntime) {
        let alloc = rt.alloc();
        let text = text_for(alloc, "[2, 1]", "-3/2-k", "2", "1/4", "u'(0,1)^2+x");
        assert!(rt;
            says(
                text,
                b"stage 0\n1\nx\nu'(0,1)\nu'(0,1)*u'(0,1)\ntrees 9\n".as_slice()
            )
        );
    }

    #[test]
    fn the_rule_of_phi4_in_two_dimensions_is_complete(rt: HostRuntime) {
        let alloc = rt.alloc();
        let text = text_for(alloc, "[2, 1, 1]", "-2-k", "2", "-1/2", "-u^3+x");
        assert!(rt; says(text, b"stage 0\n1\nx\nu\nu*u\nu*u*u\ntrees 9\n".as_slice()));
    }

    #[test]
    fn phi4_in_three_dimensions_gets_derivatives(rt: HostRuntime) {
        let alloc = rt.alloc();
        let text = text_for(alloc, "[2, 1, 1, 1]", "-5/2-k", "2", "-3/4", "-u^3+x");
        assert!(rt;
            says(
                text,
                b"stage 1\n1\nx\nu\nu'(0,0,0,1)\nu'(0,0,1,0)\nu'(0,1,0,0)\nu*u\nu*u*u\ntrees 43\n".as_slice()
            )
        );
    }

    #[test]
    fn parabolic_anderson_models_get_derivatives(rt: HostRuntime) {
        let alloc = rt.alloc();
        let plane = text_for(alloc, "[2, 1, 1]", "-1-k", "2", "1/2", "u*x");
        assert!(rt;
            says(
                plane,
                b"stage 1\n1\nx\nu\nu'(0,0,1)\nu'(0,1,0)\nx*u\ntrees 4\n".as_slice()
            )
        );
        let square = text_for(alloc, "[2, 1, 1]", "-1-k", "2", "1/2", "u^2*x");
        assert!(rt; has(square, 11, b"\ntrees 4\n".as_slice()));
        let space = text_for(alloc, "[2, 1, 1, 1]", "-3/2-k", "2", "1/4", "u*x");
        assert!(rt; has(space, 7, b"\ntrees 16\n".as_slice()));
    }

    #[test]
    fn a_generalised_kpz_equation(rt: HostRuntime) {
        let alloc = rt.alloc();
        let text = text_for(
            alloc,
            "[2, 1]",
            "-3/2-k",
            "2",
            "1/4",
            "u'(0,1)^2+u*u'(0,1)^2+u^2*u'(0,1)^2+x+u*x+u^2*x+u^3*x",
        );
        assert!(rt; has(text, 37, b"\ntrees 40\n".as_slice()));
    }

    #[test]
    fn a_noise_gets_a_derivative(rt: HostRuntime) {
        let alloc = rt.alloc();
        let text = completion_text(alloc, DERIVATIVE_OF_A_NOISE);
        assert!(rt;
            begins(
                text,
                b"stage 1\n1\nx\n1\nx\ny\ny'(0,1)\nv\nv'(0,1)\ny*v\n".as_slice()
            )
        );
    }

    #[test]
    fn an_empty_right_side(rt: HostRuntime) {
        let alloc = rt.alloc();
        let text = text_for(alloc, "[2, 1, 1]", "-2-k", "2", "-1/2", "");
        assert!(rt; says(text, b"stage 0\n1\ntrees 0\n".as_slice()));
    }

    #[test]
    fn what_is_too_large_at_the_first_stage(rt: HostRuntime) {
        let alloc = rt.alloc();
        let chain = text_for(alloc, "[1]", "-19/20", "1", "0", "u*x");
        assert!(rt; says(chain, b"TreeTooLarge 0\n".as_slice()));
        let powers = text_for(alloc, "[1, 1, 1, 1, 1]", "-20", "2", "-19", "x");
        assert!(rt; says(powers, b"TooManyTrees 0\n".as_slice()));
    }

    #[test]
    fn what_is_too_large_at_the_second_stage(rt: HostRuntime) {
        let alloc = rt.alloc();
        let derivatives = text_for(alloc, "[1, 1, 1, 1, 1]", "-3-k", "10", "6", "u^20*x");
        assert!(rt; says(derivatives, b"RuleTooLarge 1\n".as_slice()));
        let trees = completion_text(alloc, MANY_TREES_LATER);
        assert!(rt; says(trees, b"TooManyTrees 1\n".as_slice()));
    }
}
