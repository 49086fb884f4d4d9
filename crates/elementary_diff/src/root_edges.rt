// What the edges of a root leave of a right side.
ghost use Rattle.std.specs.Prelude.{◌≡◌, ◌<◌, ◌≤◌, map, length, IfOk, IsOkUnless};
ghost use Rattle.std.specs.List.{list_any};
ghost use Rattle.limits.specs.declared.TheConstants.{MOST_EDGES};
ghost use Rattle.plain_trees.specs.Plain.{edge_count_of};
ghost use Rattle.equations.specs.Accepted.{IsEquation};
ghost use Rattle.tree_pool.specs.Content.{tree_at};
ghost use Rattle.symbol_polys.specs.Symbols.{tree_in};
ghost use Rattle.symbol_polys.specs.Derivatives.{derivatives};
ghost use Rattle.symbol_polys.specs.View.{symbol_of, term_of, terms_of};
ghost use Rattle.elementary_diff.specs.Differentials.{edge_derivatives, by_edges, is_noise_symbol, noise_free, right_terms};
ghost use Rattle.elementary_diff.specs.Room.{HaveRoom};

use crate::sides::{keep, side};
use degree_numbers::{Kind, TypeId, Types};
use equations::Equation;
use std::alloc::Global;
use symbol_polys::{PolyError, Symbol, Term, derive_term};
use tree_pool::{EdgeTo, Pool, TreeId};

fn derivatives(alloc: Global, by: &Symbol, terms: &[Term]) -> Result<Vec<Term>, PolyError>
    requires small { edge_count_of (tree_in (symbol_of by.now)) ≤ MOST_EDGES }
    requires room { HaveRoom (terms_of terms.now) }
    ensures value { IfOk result (λ v. terms_of v.items ≡ derivatives (symbol_of by.now)
        (terms_of terms.now)) }
    ensures memory { IsOkUnless result PolyError.Memory }
{
    let mut derived = Vec::new(alloc);
    for term in terms {
        keep(&mut derived, derive_term(alloc, by, term)?)?;
    }
    Ok(derived)
}

// The derivatives by the edge type of an edge. A noise with a derivative stands in no term.
fn edge_derivatives(
    alloc: Global,
    types: &Types,
    e: &EdgeTo,
    terms: &[Term],
) -> Result<Vec<Term>, PolyError>
    requires { HaveRoom (terms_of terms.now) }
    ensures value { IfOk result (λ v. terms_of v.items ≡ edge_derivatives types.now e.now.kind.0
        e.now.p.entries (terms_of terms.now)) }
    ensures memory { IsOkUnless result PolyError.Memory }
{
    let Some(entry) = types.list.get(e.kind.0 as usize) else {
        return Ok(Vec::new(alloc));
    };
    match entry.kind {
        Kind::Kernel => derivatives(alloc, &Symbol::Variable(e.kind, e.p), terms),
        Kind::Noise if e.p.is_zero() => derivatives(alloc, &Symbol::Noise(e.kind), terms),
        Kind::Noise => Ok(Vec::new(alloc)),
    }
}

fn has_noise(symbols: &[Symbol]) -> bool
    ensures { result ≡ list_any is_noise_symbol (map symbol_of symbols.now) }
{
    for s in symbols {
        if let Symbol::Noise(_) = s {
            return true;
        }
    }
    false
}

fn noise_free(alloc: Global, terms: Vec<Term>) -> Result<Vec<Term>, PolyError>
    ensures value { IfOk result (λ v. terms_of v.items ≡ noise_free (terms_of terms.items)) }
    ensures memory { IsOkUnless result PolyError.Memory }
{
    let mut left = Vec::new(alloc);
    for term in terms {
        if !has_noise(term.symbols.as_slice()) {
            keep(&mut left, term)?;
        }
    }
    Ok(left)
}

/// The terms of the right side of a kernel that are left at the root of a tree: the derivatives by
/// the edge types of the root's edges, without those that still have a noise. Their coefficients
/// are in range.
pub(crate) fn left_at_root(
    alloc: Global,
    eq: &Equation,
    kernel: TypeId,
    pool: &Pool<'_>,
    id: TreeId,
) -> Result<Vec<Term>, PolyError>
    requires equation { IsEquation eq.now }
    requires known { id.0 < length pool.now.trees }
    ensures value { IfOk result (λ v. terms_of v.items
        ≡ noise_free (by_edges eq.now.types (tree_at pool.now id.0)
        (right_terms eq.now kernel.0))) }
    ensures memory { IsOkUnless result PolyError.Memory }
{
    let (_, edges) = pool.node(id);
    let mut terms = side(alloc, eq, kernel)?;
    for e in edges {
        terms = edge_derivatives(alloc, &eq.types, e, terms.as_slice())?;
    }
    noise_free(alloc, terms)
}
