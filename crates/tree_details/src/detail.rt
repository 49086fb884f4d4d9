// The detail of a tree.
ghost use Rattle.std.specs.Prelude.{◌≡◌, ◌<◌, ◌++◌, ℕ, List, length, unsigned_abs, IfOk, OnOk};
ghost use Rattle.degree_numbers.specs.Printing.{IsDegreeText};
ghost use Rattle.equations.specs.Accepted.{IsEquation};
ghost use Rattle.plain_trees.specs.Degree.{degree_of};
ghost use Rattle.tree_pool.specs.Content.{tree_at};
ghost use Rattle.tree_details.specs.Detail.{yes_or_no, head_text, IsDetailText};
ghost use Rattle.tree_details.specs.Values.{IsDetail};

use crate::coproducts::{put_extraction, put_recentring};
use crate::pairings::put_pairings;
use crate::polynomials::put_polynomials;
use crate::text::tree_text;
use counterterm_report::{DiffValue, degree_text, put_line};
use elementary_diff::symmetry;
use equations::Equation;
use extraction_coproduct::{ExtractTerm, Tables};
use gaussian_pairings::{Pairing, vanishes};
use itoa::Buffer;
use recentring_coproduct::RightTerm;
use sqlite_items::Items;
use std::alloc::{AllocError, Global};
use symbol_polys::Poly;
use tree_pool::{Pool, TreeId};

/// The twisted antipode of a tree, its constant, and its elementary differential for each unknown,
/// in the order of the unknowns.
#[derive(Drop)]
pub struct Polynomials {
    pub antipode: Poly,
    pub constant: Poly,
    pub differentials: Items<DiffValue>,
}

/// A tree of a pool with what takes memory to compute of it: its pairings, the terms of its
/// extraction and of its recentring coproduct, and its polynomials. Trees in the terms are trees of
/// the same pool.
#[derive(Drop)]
pub struct Detail<'a> {
    pub tree: TreeId,
    pub pairings: Items<Pairing>,
    pub extraction: &'a [ExtractTerm],
    pub recentring: &'a [RightTerm],
    pub polynomials: Polynomials,
}

fn yes_or_no(answer: bool) -> &'static [u8]
    ensures { result.now ≡ yes_or_no answer }
{
    if answer { b"yes" } else { b"no" }
}

// The first lines, up to whether the tree vanishes, of a tree of this degree.
fn put_head_lines(
    out: &mut Vec<u8>,
    alloc: Global,
    pool: &Pool<'_>,
    id: TreeId,
    degree: &[u8],
) -> Result<(), AllocError>
    requires { id.0 < length pool.now.trees }
    ensures { OnOk result (out.new.items ≡ out.old.items
        ++ head_text pool.now.types (tree_at pool.now id.0) degree.now) }
{
    let tree = tree_text(alloc, pool, id)?;
    let answer = yes_or_no(vanishes(pool.types(), pool, id));
    put_line(out, b"tree ", tree.as_slice())?;
    put_line(out, b"degree ", degree)?;
    put_line(
        out,
        b"edges ",
        Buffer::new().format(pool.edge_count(id)).as_bytes(),
    )?;
    put_line(
        out,
        b"symmetry ",
        Buffer::new().format(symmetry(pool, id)).as_bytes(),
    )?;
    put_line(out, b"vanishes ", answer)
}

// The first lines of a tree.
fn put_head(out: &mut Vec<u8>, alloc: Global, pool: &Pool<'_>, id: TreeId) -> Result<(), AllocError>
    requires { id.0 < length pool.now.trees }
    ensures { OnOk result ((degree : List ℕ)
        × IsDegreeText (degree_of pool.now.types (tree_at pool.now id.0))
        (unsigned_abs pool.now.types.units.den) degree
        × (out.new.items ≡ out.old.items
        ++ head_text pool.now.types (tree_at pool.now id.0) degree)) }
{
    let degree = degree_text(pool.types(), pool.degree(id));
    put_head_lines(out, alloc, pool, id, degree.bytes())?;
    Ok(())
}

/// The detail of a tree, for these values of it: the tree, its degree, its number of edges, its
/// symmetry factor, whether it vanishes, its pairings, both coproducts (after Bruned, Hairer and
/// Zambotti), its twisted antipode, its constant, and its elementary differentials (after Bruned,
/// Chandra, Chevyrev and Hairer). The values are those of the tree for this equation, over the
/// trees and the forests of these tables. Trees of the coproducts are made one at a time. Refused
/// only for want of memory.
pub fn print_detail(
    alloc: Global,
    eq: &Equation,
    tables: &Tables<'_>,
    detail: &Detail<'_>,
) -> Result<Vec<u8>, AllocError>
    requires equation { IsEquation eq.now }
    requires detail { IsDetail eq.now tables.now detail.now }
    ensures { IfOk result (λ v.
        IsDetailText eq.now (tree_at tables.now.pool detail.now.tree.0) v.items) }
{
    let mut out = Vec::new(alloc);
    put_head(&mut out, alloc, tables.pool(), detail.tree)?;
    put_pairings(&mut out, detail.pairings.as_slice())?;
    put_extraction(&mut out, alloc, tables, detail.extraction)?;
    put_recentring(&mut out, alloc, tables.pool(), detail.recentring)?;
    put_polynomials(&mut out, alloc, eq, &detail.polynomials)?;
    Ok(out)
}
