// The terms of both coproducts in the detail.
ghost use Rattle.std.specs.Prelude.{◌≡◌, ◌<◌, ◌++◌, codes, flat_map, length, unsigned_abs, IfOk, OnOk};
ghost use Rattle.plain_trees.specs.Text.{tree_text};
ghost use Rattle.tree_pool.specs.Content.{trees_at};
ghost use Rattle.tree_pool.specs.Forests.{numbers, AreKnown};
ghost use Rattle.pooled_cuttings.specs.Groves.{forest_in};
ghost use Rattle.pooled_cuttings.specs.Lines.{extracted_in, recentred_in, IsExtractKey, IsRightKey};
ghost use Rattle.extraction_coproduct.specs.Finished.{grove_of};
ghost use Rattle.extraction_coproduct.specs.Terms as extraction;
ghost use Rattle.recentring_coproduct.specs.Terms as recentring;
ghost use Rattle.twisted_antipode.specs.Known.{pairs_in};
ghost use Rattle.tree_details.specs.Detail.{forest_text, term_line, extraction_line, recentring_line, section};
ghost use Rattle.tree_details.specs.Values.{recentred_pairs};

use crate::text::{put_tree, tree_text};
use counterterm_report::put_line;
use extraction_coproduct::{ExtractTerm, Tables};
use itoa::Buffer;
use recentring_coproduct::RightTerm;
use std::alloc::{AllocError, Global};
use tree_pool::{ForestId, Pool, TreeId};

// The line of a term.
fn put_term(
    out: &mut Vec<u8>,
    coefficient: u128,
    left: &[u8],
    right: &[u8],
) -> Result<(), AllocError>
    ensures { OnOk result (out.new.items
        ≡ out.old.items ++ term_line coefficient left.now right.now) }
{
    out.extend_from_slice(b"  ")?;
    out.extend_from_slice(Buffer::new().format(coefficient).as_bytes())?;
    out.extend_from_slice(b" ")?;
    out.extend_from_slice(left)?;
    out.extend_from_slice(b" | ")?;
    out.extend_from_slice(right)?;
    out.extend_from_slice(b"\n")
}

// The trees of a forest, one after the other.
fn put_trees(
    out: &mut Vec<u8>,
    alloc: Global,
    pool: &Pool<'_>,
    ids: &[TreeId],
) -> Result<(), AllocError>
    requires { AreKnown pool.now (numbers ids.now) }
    ensures { OnOk result (out.new.items ≡ out.old.items
        ++ flat_map (tree_text pool.now.types) (trees_at pool.now (numbers ids.now))) }
{
    for id in ids {
        put_tree(out, alloc, pool, *id)?;
    }
    Ok(())
}

fn forest_text(alloc: Global, tables: &Tables<'_>, f: ForestId) -> Result<Vec<u8>, AllocError>
    requires { f.0 < length tables.now.forests }
    ensures { IfOk result (λ v. v.items
        ≡ forest_text tables.now.pool.types (forest_in (grove_of tables.now) f.0)) }
{
    tables.laws();
    let mut text = Vec::from_slice(alloc, b"{")?;
    put_trees(&mut text, alloc, tables.pool(), tables.forests().trees(f))?;
    text.extend_from_slice(b"}")?;
    Ok(text)
}

// The line of a term of the extraction coproduct.
fn put_extracted(
    out: &mut Vec<u8>,
    alloc: Global,
    tables: &Tables<'_>,
    term: &ExtractTerm,
) -> Result<(), AllocError>
    requires { IsExtractKey (grove_of tables.now) (extraction.key_of term.now) }
    ensures { OnOk result (out.new.items ≡ out.old.items
        ++ extraction_line tables.now.pool.types (
          extracted_in (grove_of tables.now) (extraction.key_of term.now),
          unsigned_abs term.now.coefficient,
        )) }
{
    let forest = forest_text(alloc, tables, term.forest)?;
    let quotient = tree_text(alloc, tables.pool(), term.quotient)?;
    put_term(
        out,
        term.coefficient.unsigned_abs(),
        forest.as_slice(),
        quotient.as_slice(),
    )
}

/// The number of the terms of an extraction coproduct, and the line of each of them.
pub(crate) fn put_extraction(
    out: &mut Vec<u8>,
    alloc: Global,
    tables: &Tables<'_>,
    terms: &[ExtractTerm],
) -> Result<(), AllocError>
    requires { extraction.AreKnownTerms (grove_of tables.now) terms.now }
    ensures { OnOk result (out.new.items ≡ out.old.items
        ++ section (codes "extraction ") (extraction_line tables.now.pool.types)
        (pairs_in (grove_of tables.now) terms.now)) }
{
    put_line(
        out,
        b"extraction ",
        Buffer::new().format(terms.len()).as_bytes(),
    )?;
    for term in terms {
        put_extracted(out, alloc, tables, term)?;
    }
    Ok(())
}

// The line of a term of the recentring coproduct.
fn put_recentred(
    out: &mut Vec<u8>,
    alloc: Global,
    pool: &Pool<'_>,
    term: &RightTerm,
) -> Result<(), AllocError>
    requires { IsRightKey pool.now (recentring.key_of term.now) }
    ensures { OnOk result (out.new.items ≡ out.old.items
        ++ recentring_line pool.now.types (
          recentred_in pool.now (recentring.key_of term.now),
          unsigned_abs term.now.coefficient,
        )) }
{
    let left = tree_text(alloc, pool, term.left)?;
    let right = tree_text(alloc, pool, term.right)?;
    put_term(
        out,
        term.coefficient.unsigned_abs(),
        left.as_slice(),
        right.as_slice(),
    )
}

/// The number of the terms of a recentring coproduct, and the line of each of them.
pub(crate) fn put_recentring(
    out: &mut Vec<u8>,
    alloc: Global,
    pool: &Pool<'_>,
    terms: &[RightTerm],
) -> Result<(), AllocError>
    requires { recentring.AreKnownTerms pool.now terms.now }
    ensures { OnOk result (out.new.items ≡ out.old.items
        ++ section (codes "recentring ") (recentring_line pool.now.types)
        (recentred_pairs pool.now terms.now)) }
{
    put_line(
        out,
        b"recentring ",
        Buffer::new().format(terms.len()).as_bytes(),
    )?;
    for term in terms {
        put_recentred(out, alloc, pool, term)?;
    }
    Ok(())
}
