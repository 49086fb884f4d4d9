// Trees are read from their texts.
ghost use Rattle.std.specs.Prelude.{◌≡◌, ◌≢◌, ◌≤◌, ℕ, List, IfOk, IsTrue, ◌↔◌, IsOkUnless, IfErr};
ghost use Rattle.limits.specs.declared.TheConstants.{MOST_DECORATIONS};
ghost use Rattle.degree_numbers.specs.declared.types.Types.{Types};
ghost use Rattle.degree_numbers.specs.Types.{AreTypes};
ghost use Rattle.plain_trees.specs.declared.error.TreeError.{TreeError};
ghost use Rattle.plain_trees.specs.declared.error.TreeError.TheVariants.{Memory};
ghost use Rattle.plain_trees.specs.Plain.{Plain, IsSmall};
ghost use Rattle.plain_trees.specs.Degree.{HasTypes};
ghost use Rattle.plain_trees.specs.Reading.{IsTreeOf, PassesTests, IsRefused};
ghost use Rattle.plain_trees.specs.Text.{tree_text};
ghost use Rattle.plain_trees.specs.View.{plain};

use crate::building::build;
use crate::canon::is_canonical;
use crate::error::TreeError;
use crate::text::print_tree;
use crate::tree::Tree;
use degree_numbers::Types;
use limits::MOST_EDGES;
use std::alloc::Global;
use tree_grammar::{decorations_in, edges_in, first_unknown, place};

// Whether a text passes the tests that need no tree, or else its first fault.
fn check_text(types: &Types, text: &[u8], most: u32) -> Result<(), TreeError>
    requires { AreTypes types.now }
    ensures passes { IfOk result (λ _. PassesTests types.now most text.now) }
    ensures refusal { IfErr result (λ e. IsRefused types.now most text.now e) }
{
    if let Some(place) = place(types, text) {
        return Err(TreeError::TreeText {
            place: place as u64,
        });
    }
    if let Some(place) = first_unknown(types, text) {
        return Err(TreeError::UnknownType {
            place: place as u64,
        });
    }
    let count = edges_in(text) as u64;
    if count > u64::from(MOST_EDGES) {
        return Err(TreeError::TooManyEdges { count });
    }
    let total = decorations_in(text);
    if total > most {
        return Err(TreeError::TooManyDecorations { total });
    }
    Ok(())
}

fn has_text(alloc: Global, types: &Types, t: &Tree, text: &[u8]) -> Result<bool, TreeError>
    requires types { AreTypes types.now }
    requires tree { HasTypes types.now (plain t.now) }
    requires small { IsSmall (plain t.now) }
    ensures same { IfOk result (λ same. IsTrue same ↔ (tree_text types.now (plain t.now)
        ≡ text.now)) }
    ensures memory { IsOkUnless result TreeError.Memory }
{
    let printed = print_tree(alloc, types, t)?;
    Ok(printed.as_slice() == text)
}

fn read_text(alloc: Global, types: &Types, text: &[u8], most: u32) -> Result<Tree, TreeError>
    requires types { AreTypes types.now }
    requires most { most ≤ MOST_DECORATIONS }
    ensures tree { IfOk result (λ t. IsTreeOf types.now most text.now (plain t)) }
    ensures refusal { IfErr result (λ e. IsRefused types.now most text.now e) }
{
    check_text(types, text, most)?;
    let t = build(alloc, types, text)?;
    if !is_canonical(&t) {
        return Err(TreeError::NotCanonical);
    }
    if !has_text(alloc, types, &t, text)? {
        return Err(TreeError::NotCanonical);
    }
    Ok(t)
}

/// Reads the text of a tree, as `print_tree` writes it. `most` bounds the sum of its decorations.
/// The refusals, in their order:
///
/// - `TreeText`: the text is not in the grammar. The place is that of the first byte at which no
///   tree text goes on, or the text's length where it ends too early. Leading zeros, written
///   multiindices that are 0 and edges in any order are in the grammar; a noise has no subtree and
///   a kernel has one; a name of no type may have one.
/// - `UnknownType`: a name is that of no type. The place is that of the first byte of the first
///   such name.
/// - `TooManyEdges`: there are more than 24 edges (`MOST_EDGES`).
/// - `TooManyDecorations`: the numbers sum up to more than `most`. One past 2^31-1 counts as
///   2^31-1, and the total stops at 2^32-1.
/// - `NotCanonical`: the text is not the one that is printed for a canonical tree.
/// - `Memory`: want of memory.
///
/// No recursion runs before the number of edges is known. `[xi*xi]` is read as a tree with two
/// edges, `[u[xi]` is refused with `TreeText` at 6.
pub fn read_tree(alloc: Global, types: &Types, text: &[u8], most: u32) -> Result<Tree, TreeError>
    requires types { AreTypes types.now }
    requires most { most ≤ MOST_DECORATIONS }
    ensures tree { IfOk result (λ t. IsTreeOf types.now most text.now (plain t)) }
    ensures refusal { IfErr result (λ e. IsRefused types.now most text.now e) }
    ensures back { (t : Plain) → IsTreeOf types.now most text.now t →
        IsOkUnless result TreeError.Memory × IfOk result (λ u. plain u ≡ t) }
{
    read_text(alloc, types, text, most)
}

/// What `read_tree` answers is determined by its clauses, but for want of memory: a text is that of
/// one tree at most, a text that a tree has is not refused, and no text is refused in two ways.
pub fn read_tree_laws()
    ensures tree { (ty : Types) (most : ℕ) (text : List ℕ) (t u : Plain) → AreTypes ty →
        most ≤ MOST_DECORATIONS → IsTreeOf ty most text t → IsTreeOf ty most text u → t ≡ u }
    ensures tree_or_refusal { (ty : Types) (most : ℕ) (text : List ℕ) (t : Plain) (e : TreeError) →
        AreTypes ty → most ≤ MOST_DECORATIONS → IsTreeOf ty most text t → IsRefused ty most text e →
        e ≡ Memory }
    ensures refusal { (ty : Types) (most : ℕ) (text : List ℕ) (e f : TreeError) →
        IsRefused ty most text e → IsRefused ty most text f → e ≢ Memory → f ≢ Memory → e ≡ f }
{}
