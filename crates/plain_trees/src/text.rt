// Texts of trees.
ghost use Rattle.std.specs.Prelude.{◌≡◌, ◌++◌, [], ◌∷◌, if◌then◌else◌, IfOk, OnOk, IsOkUnless};
ghost use Rattle.degree_numbers.specs.Types.{AreTypes};
ghost use Rattle.plain_trees.specs.Degree.{HasTypes, IsEdge};
ghost use Rattle.plain_trees.specs.Plain.{IsSmall};
ghost use Rattle.plain_trees.specs.Text.{joined, root_factors, edge_factor, tree_text};
ghost use Rattle.plain_trees.specs.View.{plain, labelled};

use crate::degrees::is_kernel_type;
use crate::error::TreeError;
use crate::tree::{Edge, Tree};
use degree_numbers::{Multi, Types, put_edge_type, put_multi};
use std::alloc::{AllocError, Global};

fn put_root(out: &mut Vec<u8>, types: &Types, n: &Multi) -> Result<(), AllocError>
    requires { AreTypes types.now }
    ensures { OnOk result (out.new.items ≡ out.old.items
        ++ joined (root_factors types.now n.now.entries)) }
{
    if n.is_zero() {
        return Ok(());
    }
    out.push(b'X')?;
    put_multi(out, types.dims, n)
}

fn put_separator(out: &mut Vec<u8>, is_first: bool) -> Result<(), AllocError>
    ensures { OnOk result (out.new.items ≡ out.old.items ++ (if is_first then [] else 42 ∷ [])) }
{
    if !is_first {
        out.push(b'*')?;
    }
    Ok(())
}

#[cycle(put_tree)]
fn put_edge(out: &mut Vec<u8>, types: &Types, e: &Edge) -> Result<(), AllocError>
    requires types { AreTypes types.now }
    requires edge { IsEdge types.now (labelled e.now).kind.0 (labelled e.now).p.entries
        (labelled e.now).child }
    requires child { HasTypes types.now (labelled e.now).child }
    requires small { IsSmall (labelled e.now).child }
    ensures { OnOk result (out.new.items ≡ out.old.items
        ++ edge_factor types.now (labelled e.now)) }
{
    put_edge_type(out, types, e.kind, &e.p)?;
    if is_kernel_type(types, e.kind) {
        put_tree(out, types, &e.child)?;
    }
    Ok(())
}

#[cycle(put_tree)]
#[tactic(auto, using(crate::proofs::Views::root_plain))]
fn put_tree(out: &mut Vec<u8>, types: &Types, t: &Tree) -> Result<(), AllocError>
    requires types { AreTypes types.now }
    requires tree { HasTypes types.now (plain t.now) }
    requires small { IsSmall (plain t.now) }
    ensures { OnOk result (out.new.items ≡ out.old.items ++ tree_text types.now (plain t.now)) }
{
    out.push(b'[')?;
    put_root(out, types, &t.n)?;
    let mut is_first = t.n.is_zero();
    for e in t.edges.as_slice() {
        put_separator(out, is_first)?;
        put_edge(out, types, e)?;
        is_first = false;
    }
    out.push(b']')?;
    Ok(())
}

/// The text of a tree: in square brackets the factors, joined by `*`; first `X` and the root's
/// multiindex, where that is not 0, then the edges. An edge is the name of its type, then `'` and
/// its multiindex where that is not 0, then for a kernel the text of the tree above it.
/// `[X(0,1)*u'(0,1)[xi]]` is a tree with two edges. The tree is within the bounds, so that the
/// recursion is at most 25 deep. Fails only for want of memory.
pub fn print_tree(alloc: Global, types: &Types, t: &Tree) -> Result<Vec<u8>, TreeError>
    requires types { AreTypes types.now }
    requires tree { HasTypes types.now (plain t.now) }
    requires small { IsSmall (plain t.now) }
    ensures text { IfOk result (λ v. v.items ≡ tree_text types.now (plain t.now)) }
    ensures memory { IsOkUnless result TreeError.Memory }
{
    let mut out = Vec::new(alloc);
    put_tree(&mut out, types, t)?;
    Ok(out)
}
