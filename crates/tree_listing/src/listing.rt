// The listing.
ghost use Rattle.std.specs.Prelude.{◌≡◌, ◌<◌, length, IfOk, IfErr};
ghost use Rattle.std.specs.List.{All};
ghost use Rattle.std.specs.Option.{option_map};
ghost use Rattle.std.specs.declared.option.Option.TheVariants.{Some};
ghost use Rattle.equations.specs.Accepted.{IsEquation};
ghost use Rattle.normal_rule.specs.Regularity.{IsSubcritical};
ghost use Rattle.conforming_trees.specs.Conforming.{IsRule};
ghost use Rattle.conforming_trees.specs.Listed.{IsWholeList, IsFirstZero, HasTooManyTrees, HasTooLargeTree};
ghost use Rattle.tree_pool.specs.Content.{IsGrown, tree_at};
ghost use Rattle.tree_listing.specs.declared.refusal.ListRefusal.TheVariants.{TooManyTrees, TreeTooLarge};
ghost use Rattle.tree_pool.specs.declared.TreeId.{TreeId};
ghost use Rattle.tree_listing.specs.Levels.{trees};

use crate::levels::gather;
use crate::refusal::ListRefusal;
use equations::Equation;
use large_trees::has_too_large_tree;
use normal_rule::Rule;
use sqlite_items::Items;
use std::alloc::Global;
use tree_budgets::rule_plan;
use tree_pool::{Pool, TreeId};

/// The listed trees of a rule, by degree, then number of edges, then tree order, each once; and the
/// first such tree of degree exactly 0, by number of edges, then tree order. Each by its number in
/// the pool.
#[derive(Debug, Drop)]
pub struct Listing {
    pub trees: Items<TreeId>,
    pub zero: Option<TreeId>,
}

/// The listing of a rule (after Bruned, Hairer and Zambotti): the canonical trees over the types of
/// the equation that strongly conform to the rule, are unplanted and have an edge and a degree
/// below 0. The rule is any normal rule for which the inequality of regularities holds; there is no
/// bound on the number or the length of its node types. Trees are added to the pool, which keeps
/// what it had, also where there is no listing. Fails with `TooManyTrees` exactly where more than
/// 4,000 listed trees (`MOST_LISTED_TREES`) have at most 24 edges (`MOST_EDGES`) and a decoration
/// sum of at most 64 (`MOST_LISTED_DECORATIONS`); else with `TreeTooLarge` exactly where some tree
/// that would be listed, or would be of degree 0, has more; and for want of memory.
pub fn list_trees<'a>(
    alloc: Global,
    eq: &Equation,
    rule: &Rule,
    pool: &mut Pool<'a>,
) -> Result<Listing, ListRefusal>
    requires equation { IsEquation eq.now }
    requires rule { IsRule eq.now rule.now }
    requires subcritical { IsSubcritical eq.now rule.now }
    requires types { pool.old.types ≡ eq.now.types }
    ensures known { IfOk result (λ listing. All (λ id. id.0 < length pool.new.trees)
        listing.trees) }
    ensures trees { IfOk result (λ listing. IsWholeList eq.now rule.now
        (trees pool.new listing.trees)) }
    ensures known_zero { IfOk result (λ listing. (id : TreeId) → listing.zero ≡ Some id →
        id.0 < length pool.new.trees) }
    ensures zero { IfOk result (λ listing. IsFirstZero eq.now rule.now
        (option_map (λ id. tree_at pool.new id.0) listing.zero)) }
    ensures few { IfOk result (λ listing. HasTooManyTrees eq.now rule.now → ⊥) }
    ensures fit { IfOk result (λ listing. HasTooLargeTree eq.now rule.now → ⊥) }
    ensures many { IfErr result (λ e. e ≡ TooManyTrees → HasTooManyTrees eq.now rule.now) }
    ensures large { IfErr result (λ e. e ≡ TreeTooLarge → HasTooLargeTree eq.now rule.now) }
    ensures not_many { IfErr result (λ e. e ≡ TreeTooLarge → HasTooManyTrees eq.now rule.now → ⊥) }
    ensures grown { IsGrown pool.old pool.new }
{
    let plan = rule_plan(alloc, eq, rule)?;
    let found = gather(alloc, eq, rule, &plan, pool)?;
    if has_too_large_tree(alloc, eq, rule)? {
        return Err(ListRefusal::TreeTooLarge);
    }
    Ok(Listing {
        trees: Items::from_vec(found.listed),
        zero: found.zero,
    })
}
