// The rows of a keeper in memory, as they were put.
ghost use Rattle.std.specs.Prelude.{◌≡◌, map, IfOk, OnOk, OnErr, IfErr, IsOkUnless, filter};
ghost use Rattle.std.specs.FinMap.{insert, entries};
ghost use Rattle.std.specs.Str.{bytes_eq};
ghost use Rattle.result_keeper.specs.Kept.{row_cmp, within, contexts_in, put_rows, new_context, moved};
ghost use Rattle.result_keeper.specs.Entries.{AreApart, pair_of, context_pair, row_entry, rows_of};

use crate::error::KeeperError;
use crate::parts::{ContextPair, KeptRow, StoredRow};
use crate::places::{place_of_row, put_at};
use std::alloc::{AllocError, Global};

fn kept_row(alloc: Global, context: &[u8], tree: &[u8], value: &[u8]) -> Result<KeptRow, AllocError>
    ensures { IfOk result (λ row. row_entry row ≡ ((context.now, tree.now), value.now)) }
{
    Ok(KeptRow {
        context: Vec::from_slice(alloc, context)?,
        tree: Vec::from_slice(alloc, tree)?,
        value: Vec::from_slice(alloc, value)?,
    })
}

fn stored_row(alloc: Global, row: &KeptRow) -> Result<StoredRow, AllocError>
    ensures { IfOk result (λ stored. pair_of stored ≡ (row.now.tree.items, row.now.value.items)) }
{
    Ok(StoredRow {
        tree: Vec::from_slice(alloc, &row.tree)?,
        value: Vec::from_slice(alloc, &row.value)?,
    })
}

fn copies_of(alloc: Global, rows: &[KeptRow]) -> Result<Vec<KeptRow>, AllocError>
    ensures { IfOk result (λ copies. map row_entry copies.items ≡ map row_entry rows.now) }
{
    let mut copies = Vec::new(alloc);
    for row in rows {
        copies.push(kept_row(alloc, &row.context, &row.tree, &row.value)?)?;
    }
    Ok(copies)
}

// Puts one row.
fn put_row(rows: &mut Vec<KeptRow>, row: KeptRow) -> Result<(), AllocError>
    requires { AreApart row_cmp (map row_entry rows.old.items) }
    ensures ok { OnOk result (rows_of rows.new.items ≡ insert (rows_of rows.old.items)
        (row_entry row).0 (row_entry row).1) }
    ensures apart { AreApart row_cmp (map row_entry rows.new.items) }
{
    let place = place_of_row(rows, &row.context, &row.tree);
    put_at(rows, place, row)?;
    Ok(())
}

// The rows after these were put. They are new ones, so that nothing has changed where memory runs
// out.
pub fn with_results(
    alloc: Global,
    rows: &[KeptRow],
    context: &[u8],
    given: &[StoredRow],
) -> Result<Vec<KeptRow>, AllocError>
    requires { AreApart row_cmp (map row_entry rows.now) }
    ensures rows { IfOk result (λ next. rows_of next.items ≡ put_rows context.now
        (map pair_of given.now) (rows_of rows.now)) }
    ensures apart { IfOk result (λ next. AreApart row_cmp (map row_entry next.items)) }
{
    let mut next = copies_of(alloc, rows)?;
    for row in given {
        put_row(&mut next, kept_row(alloc, context, &row.tree, &row.value)?)?;
    }
    Ok(next)
}

// The rows of a context, as they were put.
fn rows_within(
    alloc: Global,
    rows: &[KeptRow],
    context: &[u8],
) -> Result<Vec<StoredRow>, AllocError>
    ensures { IfOk result (λ found. map pair_of found.items
        ≡ within context.now (map row_entry rows.now)) }
{
    let mut found = Vec::new(alloc);
    for row in rows {
        if row.context.as_slice() == context {
            found.push(stored_row(alloc, row)?)?;
        }
    }
    Ok(found)
}

// The rows of a context, in the order of their trees.
pub fn sorted_results(
    alloc: Global,
    rows: &[KeptRow],
    context: &[u8],
) -> Result<Vec<StoredRow>, AllocError>
    requires { AreApart row_cmp (map row_entry rows.now) }
    ensures { IfOk result (λ found. map pair_of found.items
        ≡ within context.now (entries (rows_of rows.now))) }
{
    let mut found = rows_within(alloc, rows, context)?;
    found.sort_unstable();
    Ok(found)
}

fn contexts_of_rows(alloc: Global, rows: &[KeptRow]) -> Result<Vec<Vec<u8>>, AllocError>
    ensures { IfOk result (λ found. map (λ c. c.items) found.items
        ≡ map (λ r. r.context.items) rows.now) }
{
    let mut found = Vec::new(alloc);
    for row in rows {
        found.push(Vec::from_slice(alloc, &row.context)?)?;
    }
    Ok(found)
}

// The contexts of the rows in order, each once.
pub fn sorted_contexts(alloc: Global, rows: &[KeptRow]) -> Result<Vec<Vec<u8>>, AllocError>
    requires { AreApart row_cmp (map row_entry rows.now) }
    ensures { IfOk result (λ found. map (λ c. c.items) found.items
        ≡ contexts_in (rows_of rows.now)) }
{
    let mut found = contexts_of_rows(alloc, rows)?;
    found.sort_unstable();
    found.dedup();
    Ok(found)
}

// The new context of an old one.
fn new_context<'a>(pairs: &'a [ContextPair], context: &'a [u8]) -> &'a [u8]
    ensures { result.now ≡ new_context (map context_pair pairs.now) context.now }
{
    for pair in pairs {
        if context == pair.old.as_slice() {
            return &pair.new;
        }
    }
    context
}

// The rows, each under the new context of its own.
pub fn moved_rows(
    alloc: Global,
    rows: &[KeptRow],
    pairs: &[ContextPair],
) -> Result<Vec<KeptRow>, AllocError>
    ensures { IfOk result (λ next. map row_entry next.items
        ≡ map (moved (map context_pair pairs.now)) (map row_entry rows.now)) }
{
    let mut next = Vec::new(alloc);
    for row in rows {
        let context = new_context(pairs, &row.context);
        next.push(kept_row(alloc, context, &row.tree, &row.value)?)?;
    }
    Ok(next)
}
