// The listed trees of the completed rule of a file.
ghost use Rattle.std.specs.Prelude.{◌≡◌, IfSome};
ghost use Rattle.equations.specs.Accepted.{IsEquation};
ghost use Rattle.normal_rule.specs.Regularity.{IsSubcritical};
ghost use Rattle.normal_rule.specs.Rule.{IsNormalRule};

use bumpalo::Bump;
use equations::Equation;
use known_equations::{SubcriticalEquation, subcritical_equation};
use normal_rule::Rule;
use rule_completion::complete;
use sqlite_items::Items;
use std::alloc::Global;
use tree_pool::{Pool, TreeId};

/// An equation, and the listed trees of its completed rule, as trees of a pool.
#[derive(Drop)]
pub struct Listed<'a> {
    pub eq: Equation,
    pub trees: Items<TreeId>,
    pub pool: Pool<'a>,
}

/// The listed trees of the completion of a rule.
fn completed<'a>(alloc: Global, arena: &'a Bump, eq: Equation, rule: &Rule) -> Option<Listed<'a>>
    requires equation { IsEquation eq }
    requires normal { IsNormalRule eq rule.now }
    requires subcritical { IsSubcritical eq rule.now }
    ensures { IfSome result (λ l. l.pool.types ≡ l.eq.types) }
{
    let Ok(mut pool) = Pool::new(alloc, arena, &eq.types) else {
        return None;
    };
    let Ok(completion) = complete(alloc, &eq, rule, &mut pool) else {
        return None;
    };
    let trees = completion.listing.trees;
    Some(Listed { eq, trees, pool })
}

/// The listed trees of the completed rule of the equation that a file writes down, in a new pool
/// over this arena. `None` where the file is refused or its rule is not subcritical or too large,
/// and for want of memory.
pub fn listed_trees<'a>(alloc: Global, arena: &'a Bump, file: &[u8]) -> Option<Listed<'a>>
    ensures { IfSome result (λ l. l.pool.types ≡ l.eq.types) }
{
    let SubcriticalEquation { eq, rule } = subcritical_equation(alloc, file)?;
    completed(alloc, arena, eq, &rule)
}
