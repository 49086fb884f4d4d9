//! Listings of normal rules: equations that people know, and rules at the bounds.
#![tactic(auto)]

#[cfg(test)]
mod direct;
#[cfg(test)]
mod every_small_tree;
#[cfg(test)]
mod rows;

ghost use Rattle.std.specs.Prelude.{◌≡◌, ◌<◌, length};
ghost use Rattle.std.specs.List.{All};
ghost use Rattle.std.specs.declared.option.Option.TheVariants.{Some};
ghost use Rattle.equations.specs.Accepted.{IsEquation};
ghost use Rattle.normal_rule.specs.Regularity.{IsSubcritical};
ghost use Rattle.conforming_trees.specs.Conforming.{IsRule};
ghost use Rattle.tree_pool.specs.declared.TreeId.{TreeId};

use bumpalo::Bump;
use equation_file::read_equation;
use equations::Equation;
use normal_rule::{Rule, check_regularity, normal_rule};
use plain_trees::print_tree;
use std::alloc::Global;
use tree_budgets::normal_rule_is_rule;
use tree_listing::{ListRefusal, Listing, list_trees};
use tree_pool::{Pool, TreeId};

/// The text of a tree of a pool.
#[tactic(auto, using(crate::proofs::Texts::text_facts))]
fn tree_text(alloc: Global, pool: &Pool<'_>, id: TreeId) -> Option<Vec<u8>>
    requires { id.0 < length pool.now.trees }
{
    pool.laws();
    let tree = pool.plain(alloc, id).ok()?;
    print_tree(alloc, pool.types(), &tree).ok()
}

/// Puts a line behind others.
fn put_line(text: &mut Vec<u8>, line: &[u8]) -> Option<()> {
    text.extend_from_slice(line).ok()?;
    text.push(b'\n').ok()
}

/// The texts of trees, a line each.
fn tree_lines(alloc: Global, pool: &Pool<'_>, ids: &[TreeId]) -> Option<Vec<u8>>
    requires { All (λ id. id.0 < length pool.now.trees) ids.now }
{
    let mut text = Vec::new(alloc);
    for id in ids {
        let tree = tree_text(alloc, pool, *id)?;
        put_line(&mut text, tree.as_slice())?;
    }
    Some(text)
}

/// What stands in place of a listing.
fn refusal_text(refusal: ListRefusal) -> &'static [u8] {
    match refusal {
        ListRefusal::TooManyTrees => b"TooManyTrees".as_slice(),
        ListRefusal::TreeTooLarge => b"TreeTooLarge".as_slice(),
        ListRefusal::Memory => b"Memory".as_slice(),
    }
}

/// The texts of the trees of a listing, and behind them, after a line `zero`, that of its tree of degree 0.
fn listed_text(alloc: Global, pool: &Pool<'_>, listing: &Listing) -> Option<Vec<u8>>
    requires trees { All (λ id. id.0 < length pool.now.trees) listing.now.trees }
    requires zero { (id : TreeId) → listing.now.zero ≡ Some id → id.0 < length pool.now.trees }
{
    let mut text = tree_lines(alloc, pool, listing.trees.as_slice())?;
    if let Some(zero) = listing.zero {
        put_line(&mut text, b"zero".as_slice())?;
        let tree = tree_text(alloc, pool, zero)?;
        put_line(&mut text, tree.as_slice())?;
    }
    Some(text)
}

/// The listing of a rule in a pool of its own, as text; or the refusal.
fn rule_listing(alloc: Global, eq: &Equation, rule: &Rule) -> Option<Vec<u8>>
    requires equation { IsEquation eq.now }
    requires rule { IsRule eq.now rule.now }
    requires subcritical { IsSubcritical eq.now rule.now }
{
    let arena = Bump::new(alloc);
    let Ok(mut pool) = Pool::new(alloc, &arena, &eq.types) else {
        return None;
    };
    match list_trees(alloc, eq, rule, &mut pool) {
        Ok(listing) => listed_text(alloc, &pool, &listing),
        Err(refusal) => {
            let mut text = Vec::new(alloc);
            put_line(&mut text, refusal_text(refusal))?;
            Some(text)
        }
    }
}

/// The listing of the normal rule of the equation that a file writes down, where the inequality of regularities holds for it: the text of each tree on a line, and
/// behind them that of the first tree of degree 0, after `zero`; or the refusal.
pub fn listing_text(alloc: Global, file: &[u8]) -> Option<Vec<u8>> {
    let Ok(eq) = read_equation(alloc, file) else {
        return None;
    };
    let Ok(rule) = normal_rule(alloc, &eq) else {
        return None;
    };
    if check_regularity(&eq, &rule).is_err() {
        return None;
    }
    normal_rule_is_rule(&eq, &rule);
    rule_listing(alloc, &eq, &rule)
}

#[cfg(test)]
mod tests {
    use crate::listing_text;
    use std::alloc::Global;

    const KPZ: &[u8] =
        b"version = 1\nscaling = [2, 1]\n[[noise]]\nname = \"xi\"\ndegree = \"-3/2-k\"\n[[unknown]]\nname = \"u\"\ndegree = \"2\"\nregularity = \"1/4\"\nright = \"u'(0,1)^2+xi\"\n";

    const KPZ_TREES: &[u8] =
        b"[xi]\n[u'(0,1)[xi]*u'(0,1)[xi]]\n[u'(0,1)[xi]*u'(0,1)[u'(0,1)[xi]*u'(0,1)[xi]]]\n[X(0,1)*xi]\n[u'(0,1)[xi]*u'(0,1)[u'(0,1)[xi]*u'(0,1)[u'(0,1)[xi]*u'(0,1)[xi]]]]\n[u'(0,1)[u'(0,1)[xi]*u'(0,1)[xi]]*u'(0,1)[u'(0,1)[xi]*u'(0,1)[xi]]]\n[u'(0,1)[xi]*u'(0,1)[X(0,1)*xi]]\n[X(0,1)*u'(0,1)[xi]*u'(0,1)[xi]]\n[u'(0,1)[xi]*u'(0,1)[u'(0,1)[xi]]]\n";

    // A file with the noise x and the unknown u.
    fn file(
        alloc: Global,
        scaling: &str,
        noise: &str,
        kernel: &str,
        regularity: &str,
        right: &str,
    ) -> Option<String> {
        let mut text = String::new(alloc);
        text.push_str("version = 1\nscaling = ").ok()?;
        text.push_str(scaling).ok()?;
        text.push_str("\n[[noise]]\nname = \"x\"\ndegree = \"")
            .ok()?;
        text.push_str(noise).ok()?;
        text.push_str("\"\n[[unknown]]\nname = \"u\"\ndegree = \"")
            .ok()?;
        text.push_str(kernel).ok()?;
        text.push_str("\"\nregularity = \"").ok()?;
        text.push_str(regularity).ok()?;
        text.push_str("\"\nright = \"").ok()?;
        text.push_str(right).ok()?;
        text.push_str("\"\n").ok()?;
        Some(text)
    }

    fn text_for(
        alloc: Global,
        scaling: &str,
        noise: &str,
        kernel: &str,
        regularity: &str,
        right: &str,
    ) -> Option<Vec<u8>> {
        let text = file(alloc, scaling, noise, kernel, regularity, right)?;
        listing_text(alloc, text.as_bytes())
    }

    fn says(text: Option<Vec<u8>>, want: &[u8]) -> bool {
        match text {
            Some(text) => text.as_slice() == want,
            None => false,
        }
    }

    fn has_lines(text: Option<Vec<u8>>, count: usize) -> bool {
        match text {
            Some(text) => text.as_slice().iter().filter(|b| **b == b'\n').count() == count,
            None => false,
        }
    }

    #[test]
    fn the_trees_of_the_kpz_equation_in_order(rt: HostRuntime) {
        let alloc = rt.alloc();
        assert!(rt; says(listing_text(alloc, KPZ), KPZ_TREES));
    }

    #[test]
    fn phi4_in_three_dimensions_has_28_trees(rt: HostRuntime) {
        let alloc = rt.alloc();
        let text = text_for(alloc, "[2, 1, 1, 1]", "-5/2-k", "2", "-3/4", "-u^3+x");
        assert!(rt; has_lines(text, 28));
    }

    #[test]
    fn an_empty_right_side_has_none(rt: HostRuntime) {
        let alloc = rt.alloc();
        assert!(rt;
            says(
                text_for(alloc, "[2, 1, 1]", "-2-k", "2", "-1/2", ""),
                b"".as_slice()
            )
        );
    }

    #[test]
    fn the_first_tree_of_degree_zero(rt: HostRuntime) {
        let alloc = rt.alloc();
        let text = text_for(alloc, "[2, 1, 1]", "-1", "2", "1/2", "u*x");
        assert!(rt; says(text, b"[x]\nzero\n[X(0,0,1)*x]\n".as_slice()));
    }

    #[test]
    fn edges_and_signs_of_k_at_the_bound(rt: HostRuntime) {
        let alloc = rt.alloc();
        let large = b"TreeTooLarge\n".as_slice();
        assert!(rt; says(text_for(alloc, "[1]", "-19/20", "1", "0", "u*x"), large));
        assert!(rt; says(text_for(alloc, "[1]", "-12/13-k", "1", "0", "u*x"), large));
        assert!(rt; says(text_for(alloc, "[1]", "-12/13", "1", "0", "u*x"), large));
        assert!(rt; has_lines(text_for(alloc, "[1]", "-12/13+k", "1", "0", "u*x"), 12));
    }

    // above a root decorated by X a chain of 22 derivatives has degree -4/5 and a decoration sum of 67; no tree of degree at most 0 has more than 24 edges
    #[test]
    fn the_sum_of_derivatives_decides(rt: HostRuntime) {
        let alloc = rt.alloc();
        let text = text_for(alloc, "[6]", "-20", "93/5", "-2", "u'(3)+x");
        assert!(rt; says(text, b"TreeTooLarge\n".as_slice()));
    }

    #[test]
    fn more_than_4000_trees(rt: HostRuntime) {
        let alloc = rt.alloc();
        let text = text_for(alloc, "[1, 1, 1, 1, 1]", "-20", "2", "-19", "x");
        assert!(rt; says(text, b"TooManyTrees\n".as_slice()));
    }
}
