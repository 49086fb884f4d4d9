// The completed rule of an equation file, with its listed trees.
ghost use Rattle.std.specs.Prelude.{◌≡◌, ◌≢◌, ◌⊎◌, ◌<◌, length, None, Ok, Err, IfOk, IfErr, OnOk};
ghost use Rattle.std.specs.declared.option.Option.TheVariants.{Some};
ghost use Rattle.equations.specs.Accepted.{IsEquation};
ghost use Rattle.plain_trees.specs.Text.{tree_text};
ghost use Rattle.tree_pool.specs.Content.{tree_at};
ghost use Rattle.tree_pool.specs.declared.node.TreeId.{TreeId};
ghost use Rattle.workbench_core.specs.Base.{IsBase};
ghost use Rattle.workbench_core.specs.Completed.{completed_rule, HasFacts, IsItself, IsForCompletion, IsForEquation, IsCompletedFile};

use crate::base::base_rule;
use crate::refusal::Refusal;
use crate::tree_list::tree_text;
use bumpalo::Bump;
use equation_file::read_equation;
use equations::Equation;
use normal_rule::Rule;
use rule_completion::{Completion, complete};
use sqlite_items::Items;
use std::alloc::Global;
use tree_pool::{Pool, TreeId};

/// What the commands on the completed rule of a file begin with: its equation, the normal rule, the
/// completed rule, and the listed trees of that, in order, as trees of the pool.
#[derive(Drop)]
pub struct Completed<'a> {
    pub eq: Equation,
    pub base: Rule,
    pub rule: Rule,
    pub trees: Items<TreeId>,
    pub pool: Pool<'a>,
}

/// The completed rule of a file, with its listed trees in a new pool over this arena; or why there
/// is none: the file writes down no equation, its normal rule is too large or not subcritical, a
/// stage of the completion is too large, or the completed rule has a tree of degree 0.
pub fn complete_file<'a>(
    alloc: Global,
    arena: &'a Bump,
    file: &[u8],
) -> Result<Completed<'a>, Refusal>
    ensures completed { IfOk result (λ c. IsCompletedFile file.now (Ok (completed_rule c))) }
    ensures refused { IfErr result (λ e. (e ≡ Refusal.Memory) ⊎ IsCompletedFile file.now (Err e)) }
    ensures no_fault { result ≢ Err Refusal.FileFault }
    ensures facts { IfOk result HasFacts }
{
    match read_equation(alloc, file) {
        Ok(eq) => complete_equation(alloc, arena, eq),
        Err(refusal) => Err(Refusal::of_file(refusal)),
    }
}

// The completed rule of an equation.
fn complete_equation<'a>(
    alloc: Global,
    arena: &'a Bump,
    eq: Equation,
) -> Result<Completed<'a>, Refusal>
    requires { IsEquation eq }
    ensures completed { IfOk result (λ c. IsForEquation IsItself eq (Ok (completed_rule c))) }
    ensures refused { IfErr result (λ e. (e ≡ Refusal.Memory) ⊎ IsForEquation IsItself eq (Err e)) }
    ensures no_fault { result ≢ Err Refusal.FileFault }
    ensures facts { IfOk result HasFacts }
{
    let base = base_rule(alloc, &eq)?;
    complete_base(alloc, arena, eq, base.rule)
}

// The completion of the rule with which an equation begins.
fn complete_base<'a>(
    alloc: Global,
    arena: &'a Bump,
    eq: Equation,
    base: Rule,
) -> Result<Completed<'a>, Refusal>
    requires equation { IsEquation eq }
    requires base { IsBase eq base }
    ensures completed { IfOk result (λ c. IsForCompletion IsItself eq base
        (Ok (completed_rule c))) }
    ensures refused { IfErr result (λ e. (e ≡ Refusal.Memory)
        ⊎ IsForCompletion IsItself eq base (Err e)) }
    ensures no_fault { result ≢ Err Refusal.FileFault }
    ensures facts { IfOk result HasFacts }
{
    let mut pool = Pool::new(alloc, arena, &eq.types)?;
    match complete(alloc, &eq, &base, &mut pool) {
        Ok(completion) => {
            pass_zero(alloc, &pool, completion.listing.zero)?;
            let Completion { rule, listing, .. } = completion;
            let trees = listing.trees;
            Ok(Completed {
                eq,
                base,
                rule,
                trees,
                pool,
            })
        }
        Err(refusal) => Err(Refusal::of_completion(refusal)),
    }
}

// Passes where there is no tree of degree 0; else the refusal that names it.
fn pass_zero(alloc: Global, pool: &Pool<'_>, zero: Option<TreeId>) -> Result<(), Refusal>
    requires { (id : TreeId) → zero ≡ Some id → id.0 < length pool.now.trees }
    ensures none { OnOk result (zero ≡ None) }
    ensures refused { IfErr result (λ e. (e ≡ Refusal.Memory) ⊎ ((id : TreeId) × (zero ≡ Some id)
        × (e ≡ Refusal.ZeroDegree (tree_text pool.now.types (tree_at pool.now id.0))))) }
    ensures no_fault { result ≢ Err Refusal.FileFault }
{
    let Some(id) = zero else {
        return Ok(());
    };
    let text = tree_text(alloc, pool, id)?;
    Err(Refusal::ZeroDegree {
        tree: Items::from_vec(text),
    })
}
