// Builds a tree from a text of the grammar, one mark after the other, without recursion.
ghost use Rattle.std.specs.Prelude.{◌≡◌, ◌≤◌, [], ◌∷◌, length, map, Some, None, IfOk, IsOkUnless};
ghost use Rattle.std.specs.Option.{option_map};
ghost use Rattle.tree_grammar.specs.Grammar.{Written, IsGrammatical, written_text};
ghost use Rattle.tree_grammar.specs.Words.{AreKnown, first_unknown};
ghost use Rattle.tree_grammar.specs.Places.{IsTreeText};
ghost use Rattle.degree_numbers.specs.Types.{AreTypes};
ghost use Rattle.plain_trees.specs.Canon.{Planted, planted_of};
ghost use Rattle.plain_trees.specs.Degree.{empty_tree};
ghost use Rattle.plain_trees.specs.View.{plain, labelled, grafted};
ghost use Rattle.plain_trees.specs.Building.{plain_of, label_of, label_at, open_of, building_of, with_subtree, tree_of_open, opened, next_factor, decorated, closed_by, step, start, run, planted_edges};

use crate::error::TreeError;
use crate::tree::{Edge, Tree};
use degree_numbers::{Multi, TypeId, Types};
use sqlite_items::Items;
use std::alloc::{AllocError, Global};
use tree_grammar::{is_name, multi_at, type_named, word};

// The type and the derivative decoration of an edge.
#[derive(Clone, Copy)]
pub struct Label {
    pub kind: TypeId,
    pub p: Multi,
}

// A tree whose text is not read to its end, with the label of an edge whose subtree is not read.
#[derive(Drop)]
pub struct Open {
    pub n: Multi,
    pub edges: Items<Edge>,
    pub label: Option<Label>,
}

// The open trees around the inner one, the outermost first.
#[derive(Drop)]
pub struct Builder {
    pub outer: Vec<Open>,
    pub inner: Open,
}

fn empty_tree(alloc: Global) -> Tree
    ensures { plain result ≡ empty_tree }
{
    Tree {
        n: Multi::zero(),
        edges: Items::new(alloc),
    }
}

fn edge_of(label: Label, child: Tree) -> Edge
    ensures { planted_of (labelled result)
        ≡ record { kind = label.kind.0; p = label.p.entries; child = plain child } }
{
    Edge {
        kind: label.kind,
        p: label.p,
        child,
    }
}

fn tree_with(n: Multi, edges: Items<Edge>) -> Tree
    ensures { plain result ≡ grafted n.entries (map labelled edges) }
{
    Tree { n, edges }
}

fn tree_of_open(o: Open) -> Tree
    ensures { plain result ≡ tree_of_open (open_of o) }
{
    tree_with(o.n, o.edges)
}

fn with_subtree(o: Open, child: Tree) -> Result<Open, AllocError>
    ensures { IfOk result (λ r. open_of r ≡ with_subtree (open_of o) (plain child)) }
{
    let Open {
        n,
        mut edges,
        label,
    } = o;
    if let Some(label) = label {
        edges.push(edge_of(label, child))?;
    }
    Ok(Open {
        n,
        edges,
        label: None,
    })
}

fn label_at(types: &Types, text: &[u8]) -> Option<Label>
    requires { length types.now.list ≤ 256 }
    ensures { option_map label_of result ≡ label_at types.now text.now }
{
    let name = word(text);
    if !is_name(name) {
        return None;
    }
    let kind = type_named(types, name)?;
    Some(Label {
        kind: TypeId(kind as u8),
        p: Multi::zero(),
    })
}

#[tactic(auto, using(crate::proofs::Builds::stacked_push))]
fn opened(alloc: Global, types: &Types, text: &[u8], b: Builder) -> Result<Builder, AllocError>
    requires { length types.now.list ≤ 256 }
    ensures { IfOk result (λ r. building_of r ≡ opened types.now text.now (building_of b)) }
{
    let Builder { mut outer, inner } = b;
    outer.push(inner)?;
    Ok(Builder {
        outer,
        inner: Open {
            n: Multi::zero(),
            edges: Items::new(alloc),
            label: label_at(types, text),
        },
    })
}

fn next_factor(alloc: Global, types: &Types, text: &[u8], b: Builder) -> Result<Builder, AllocError>
    requires { length types.now.list ≤ 256 }
    ensures { IfOk result (λ r. building_of r ≡ next_factor types.now text.now (building_of b)) }
{
    let inner = with_subtree(b.inner, empty_tree(alloc))?;
    Ok(Builder {
        outer: b.outer,
        inner: Open {
            label: label_at(types, text),
            ..inner
        },
    })
}

fn decorated(m: Multi, b: Builder) -> Builder
    ensures { building_of result ≡ decorated m.entries (building_of b) }
{
    let Builder { outer, inner } = b;
    let Open { n, edges, label } = inner;
    let inner = match label {
        None => Open {
            n: m,
            edges,
            label: None,
        },
        Some(label) => Open {
            n,
            edges,
            label: Some(Label {
                kind: label.kind,
                p: m,
            }),
        },
    };
    Builder { outer, inner }
}

// The innermost open tree ends.
fn closed(alloc: Global, b: Builder) -> Result<Builder, AllocError>
    ensures { IfOk result (λ r. building_of r ≡ closed_by (building_of b).outer (building_of b)) }
{
    let Builder { mut outer, inner } = b;
    match outer.pop() {
        None => Ok(Builder { outer, inner }),
        Some(parent) => {
            let inner = with_subtree(inner, empty_tree(alloc))?;
            Ok(Builder {
                outer,
                inner: with_subtree(parent, tree_of_open(inner))?,
            })
        }
    }
}

fn step(
    alloc: Global,
    types: &Types,
    mark: u8,
    text: &[u8],
    b: Builder,
) -> Result<Builder, AllocError>
    requires { length types.now.list ≤ 256 }
    ensures { IfOk result (λ r. building_of r ≡ step types.now mark text.now (building_of b)) }
{
    match mark {
        b'[' => opened(alloc, types, text, b),
        b'*' => next_factor(alloc, types, text, b),
        b'(' => Ok(decorated(multi_at(text), b)),
        b']' => closed(alloc, b),
        _ => Ok(b),
    }
}

fn run(alloc: Global, types: &Types, text: &[u8]) -> Result<Builder, AllocError>
    requires { length types.now.list ≤ 256 }
    ensures { IfOk result (λ r. building_of r ≡ run types.now start text.now) }
{
    let mut b = Builder {
        outer: Vec::new(alloc),
        inner: Open {
            n: Multi::zero(),
            edges: Items::new(alloc),
            label: Some(Label {
                kind: TypeId(0),
                p: Multi::zero(),
            }),
        },
    };
    for i in 0..text.len() {
        b = step(alloc, types, text[i], &text[i + 1..], b)?;
    }
    Ok(b)
}

fn last_subtree(mut edges: Items<Edge>) -> Option<Tree>
    ensures { (e : Planted) → planted_edges edges ≡ e ∷ [] →
        option_map plain result ≡ Some e.child }
{
    let Edge { child, .. } = edges.pop()?;
    Some(child)
}

/// The tree that a text of the grammar writes, with known names. Fails only for want of memory.
pub fn build(alloc: Global, types: &Types, text: &[u8]) -> Result<Tree, TreeError>
    requires types { AreTypes types.now }
    requires grammar { IsTreeText types.now text.now }
    requires known { first_unknown types.now text.now ≡ None }
    ensures tree { IfOk result (λ t. (w : Written) → IsGrammatical types.now w →
        AreKnown types.now w → text.now ≡ written_text w → plain t ≡ plain_of types.now w) }
    ensures memory { IsOkUnless result TreeError.Memory }
{
    let b = run(alloc, types, text)?;
    match last_subtree(b.inner.edges) {
        Some(t) => Ok(t),
        None => Err(TreeError::NotCanonical),
    }
}
