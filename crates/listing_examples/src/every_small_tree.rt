// The listing against a plain program that tries every small tree.
ghost use Rattle.std.specs.Prelude.{◌≡◌, ◌<◌, length};
ghost use Rattle.std.specs.List.{All};
ghost use Rattle.std.specs.declared.option.Option.TheVariants.{Some};
ghost use Rattle.equations.specs.Accepted.{IsEquation};
ghost use Rattle.normal_rule.specs.Regularity.{IsSubcritical};
ghost use Rattle.conforming_trees.specs.Conforming.{IsRule};
ghost use Rattle.tree_pool.specs.declared.TreeId.{TreeId};

use crate::direct::{Graded, small_trees};
use crate::rows::{Bounds, RowTree, rows_of};
use bumpalo::Bump;
use degree_numbers::{Degree, Multi};
use equation_file::read_equation;
use equations::Equation;
use normal_rule::{Rule, check_regularity, normal_rule};
use std::alloc::Global;
use tree_budgets::normal_rule_is_rule;
use tree_listing::{Listing, list_trees};
use tree_pool::{Pool, TreeId};

// A tree of a pool.
fn tree_of(alloc: Global, pool: &Pool<'_>, id: TreeId) -> Option<Graded>
    requires { id.0 < length pool.now.trees }
{
    let degree = pool.degree(id);
    let tree = pool.plain(alloc, id).ok()?;
    let rows = rows_of(alloc, &tree).ok()?;
    let tree = RowTree { n: tree.n, rows };
    Some(Graded { degree, tree })
}

// Puts a tree behind others, unless it has too many edges.
fn put_small(trees: &mut Vec<Graded>, tree: Graded, edges: usize) -> Option<()> {
    if tree.tree.rows.len() <= edges {
        trees.push(tree).ok()?;
    }
    Some(())
}

// The trees of a listing of at most so many edges, and behind them that of degree 0.
fn small_listed(
    alloc: Global,
    pool: &Pool<'_>,
    listing: &Listing,
    edges: usize,
) -> Option<Vec<Graded>>
    requires trees { All (λ id. id.0 < length pool.now.trees) listing.now.trees }
    requires zero { (id : TreeId) → listing.now.zero ≡ Some id → id.0 < length pool.now.trees }
{
    let mut trees = Vec::new(alloc);
    for id in listing.trees.as_slice() {
        put_small(&mut trees, tree_of(alloc, pool, *id)?, edges)?;
    }
    if let Some(zero) = listing.zero {
        put_small(&mut trees, tree_of(alloc, pool, zero)?, edges)?;
    }
    Some(trees)
}

// Whether the listing is what is found, where of the trees of degree 0 the first one counts.
fn is_found(listed: &[Graded], found: &[Graded]) -> bool {
    let zero = Degree { a: 0, b: 0 };
    let negative = found.iter().filter(|t| t.degree < zero).count();
    let most = negative.saturating_add(1);
    listed.len() == most.min(found.len()) && listed.iter().zip(found).all(|(x, y)| x == y)
}

// Whether the listing of a rule and the plain program agree on this number of trees.
fn agree_on(
    alloc: Global,
    eq: &Equation,
    rule: &Rule,
    bounds: &Bounds<'_>,
    count: usize,
) -> Option<bool>
    requires equation { IsEquation eq.now }
    requires rule { IsRule eq.now rule.now }
    requires subcritical { IsSubcritical eq.now rule.now }
{
    let arena = Bump::new(alloc);
    let Ok(mut pool) = Pool::new(alloc, &arena, &eq.types) else {
        return None;
    };
    let Ok(listing) = list_trees(alloc, eq, rule, &mut pool) else {
        return None;
    };
    let listed = small_listed(alloc, &pool, &listing, bounds.edges)?;
    let found = small_trees(alloc, eq, rule, bounds).ok()?;
    Some(listed.len() == count && is_found(listed.as_slice(), found.as_slice()))
}

// The same for the normal rule of the equation that a file writes down.
fn agree(alloc: Global, file: &[u8], bounds: &Bounds<'_>, count: usize) -> Option<bool> {
    let Ok(eq) = read_equation(alloc, file) else {
        return None;
    };
    let Ok(rule) = normal_rule(alloc, &eq) else {
        return None;
    };
    if check_regularity(&eq, &rule).is_err() {
        return None;
    }
    normal_rule_is_rule(&eq, &rule);
    agree_on(alloc, &eq, &rule, bounds, count)
}

const PAM: &[u8] =
    b"version = 1\nscaling = [2, 1, 1]\n[[noise]]\nname = \"x\"\ndegree = \"-1-k\"\n[[unknown]]\nname = \"u\"\ndegree = \"2\"\nregularity = \"1/2\"\nright = \"u*x\"\n";

// With a tree of degree 0.
const PAM_WITH_ZERO: &[u8] =
    b"version = 1\nscaling = [2, 1, 1]\n[[noise]]\nname = \"x\"\ndegree = \"-1\"\n[[unknown]]\nname = \"u\"\ndegree = \"2\"\nregularity = \"1/2\"\nright = \"u*x\"\n";

const KPZ: &[u8] =
    b"version = 1\nscaling = [2, 1]\n[[noise]]\nname = \"x\"\ndegree = \"-3/2-k\"\n[[unknown]]\nname = \"u\"\ndegree = \"2\"\nregularity = \"1/4\"\nright = \"u'(0,1)^2+x\"\n";

// A rule with and without derivatives.
const BURGERS: &[u8] =
    b"version = 1\nscaling = [1]\n[[noise]]\nname = \"x\"\ndegree = \"-2-k\"\n[[unknown]]\nname = \"u\"\ndegree = \"2\"\nregularity = \"-1/2\"\nright = \"u*u'(1)+x\"\n";

// Two kernels of different degrees.
const TWO_KERNELS: &[u8] =
    b"version = 1\nscaling = [1]\n[[noise]]\nname = \"x\"\ndegree = \"-1-k\"\n[[unknown]]\nname = \"u\"\ndegree = \"1\"\nregularity = \"-1/8\"\nright = \"v*x\"\n[[unknown]]\nname = \"v\"\ndegree = \"3/2\"\nregularity = \"1/8\"\nright = \"u*x\"\n";

// A noise that is rough enough for decorations up to the third power.
const ROUGH: &[u8] =
    b"version = 1\nscaling = [1]\n[[noise]]\nname = \"x\"\ndegree = \"-3-k\"\n[[unknown]]\nname = \"u\"\ndegree = \"2\"\nregularity = \"-3/2\"\nright = \"u^2+x\"\n";

const NONE: Multi = Multi {
    entries: [0, 0, 0, 0, 0],
};

const FIRST: Multi = Multi {
    entries: [1, 0, 0, 0, 0],
};

const FIRST_TWICE: Multi = Multi {
    entries: [2, 0, 0, 0, 0],
};

const FIRST_THRICE: Multi = Multi {
    entries: [3, 0, 0, 0, 0],
};

const SECOND: Multi = Multi {
    entries: [0, 1, 0, 0, 0],
};

const THIRD: Multi = Multi {
    entries: [0, 0, 1, 0, 0],
};

#[test]
fn the_parabolic_anderson_model(rt: HostRuntime) {
    let bounds = Bounds {
        edge_types: &[(0, NONE), (0, SECOND), (1, NONE), (1, SECOND)],
        decorations: &[NONE, SECOND, THIRD],
        edges: 4,
    };
    assert!(rt; agree(rt.alloc(), PAM, &bounds, 4) == Some(true));
    assert!(rt; agree(rt.alloc(), PAM_WITH_ZERO, &bounds, 2) == Some(true));
}

#[test]
fn the_kpz_equation_with_edges_that_are_in_no_tree(rt: HostRuntime) {
    let bounds = Bounds {
        edge_types: &[(0, NONE), (0, SECOND), (1, NONE), (1, SECOND)],
        decorations: &[NONE, SECOND],
        edges: 5,
    };
    assert!(rt; agree(rt.alloc(), KPZ, &bounds, 6) == Some(true));
}

#[test]
fn the_kpz_equation_up_to_three_noises(rt: HostRuntime) {
    let bounds = Bounds {
        edge_types: &[(0, NONE), (1, SECOND)],
        decorations: &[NONE, SECOND],
        edges: 7,
    };
    assert!(rt; agree(rt.alloc(), KPZ, &bounds, 7) == Some(true));
}

#[test]
fn an_unknown_with_its_derivative(rt: HostRuntime) {
    let bounds = Bounds {
        edge_types: &[(0, NONE), (1, NONE), (1, FIRST)],
        decorations: &[NONE, FIRST, FIRST_TWICE],
        edges: 5,
    };
    assert!(rt; agree(rt.alloc(), BURGERS, &bounds, 10) == Some(true));
}

#[test]
fn two_kernels(rt: HostRuntime) {
    let bounds = Bounds {
        edge_types: &[(0, NONE), (1, NONE), (2, NONE)],
        decorations: &[NONE, FIRST],
        edges: 5,
    };
    assert!(rt; agree(rt.alloc(), TWO_KERNELS, &bounds, 9) == Some(true));
}

#[test]
fn decorations_up_to_the_third_power(rt: HostRuntime) {
    let bounds = Bounds {
        edge_types: &[(0, NONE), (1, NONE)],
        decorations: &[NONE, FIRST, FIRST_TWICE, FIRST_THRICE],
        edges: 5,
    };
    assert!(rt; agree(rt.alloc(), ROUGH, &bounds, 13) == Some(true));
}
