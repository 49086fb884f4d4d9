// The audit of all rows.
ghost use Rattle.std.specs.Prelude.{◌≡◌, ◌≢◌, ◌≤◌, ◌⊎◌, ◌+◌, ℕ, List, map, length, Ok, Err, IfOk, IfErr, IfSome, OnOk};
ghost use Rattle.std.specs.List.{AllByRecursion};
ghost use Rattle.wb_outside.specs.Causes.{Rose};
ghost use Rattle.degree_numbers.specs.Types.{AreTypes};
ghost use Rattle.type_contexts.specs.Context.{IsContextText};
ghost use Rattle.type_contexts.specs.Same.{AreInLeastUnits};
ghost use Rattle.result_keeper.specs.Told.{Stays};
ghost use Rattle.result_keeper.specs.Kept.{results_of};
ghost use Rattle.result_keeper.specs.Entries.{pair_of};
ghost use Rattle.stored_constants.specs.Sound.{IsReadRow};
ghost use Rattle.workbench_core.specs.declared.refusal.Refusal.TheVariants.{StoreFault, Memory, CoefficientTooLarge, Differs};
ghost use Rattle.workbench_store.specs.Audit.{pages_of, row_count, IsReadPage, IsUnreadPage, IsTruePage, of_cause, IsFalsePage, IsFirst, row_at, audit_text, AuditsPages, Audits};
ghost use Rattle.workbench_store.specs.Pages.{page_of};
ghost use Rattle.workbench_store.specs.Stepped.{IsHalt, IsDone};

use crate::computing::stored_rows;
use crate::migration::stored_contexts;
use degree_numbers::Types;
use itoa::Buffer;
use result_keeper::{Keeper, StoredRow};
use sqlite_items::Items;
use std::alloc::{AllocError, Global};
use stored_constants::{AuditCause, AuditError, ReadError, audit_rows, check_rows};
use type_contexts::{ContextRefusal, contexts_determine_types, read_context};
use workbench_core::Refusal;

/// A context with its rows.
#[derive(Drop)]
pub struct Page {
    pub context: Vec<u8>,
    pub rows: Vec<StoredRow>,
}

/// Makes every row of every context anew, and compares. All rows are asked for at first. Refused at
/// the first row that is not in the grammar; else at the first that is not true: a quantity of its
/// tree passes 2^127-1, or its value is another. Answers how many rows there are.
pub fn audit<K: Keeper>(alloc: Global, keeper: &mut K) -> Result<Vec<u8>, Refusal>
    ensures done { IsDone Audits (λ v. v.items) (K.told keeper.old) (K.told keeper.new) result }
    ensures fault { IfErr result (λ e. e ≡ StoreFault → Rose (K.faults keeper.old)
        (K.faults keeper.new)) }
    ensures later { K.faults keeper.old ≤ K.faults keeper.new }
    ensures version { K.version keeper.new ≡ K.version keeper.old }
    ensures no_file_fault { result ≢ Err Refusal.FileFault }
{
    if keeper.version() == 1 {
        return Err(Refusal::OldStore);
    }
    let pages = stored_pages(alloc, keeper)?;
    audit_pages(alloc, &pages)
}

// The contexts in order, each with its rows.
fn stored_pages<K: Keeper>(alloc: Global, keeper: &mut K) -> Result<Vec<Page>, Refusal>
    ensures pages { IfOk result (λ ps. IfSome (K.told keeper.old) (λ k. map page_of ps.items
        ≡ pages_of k)) }
    ensures halt { IfErr result IsHalt }
    ensures fault { IfErr result (λ e. e ≡ StoreFault → Rose (K.faults keeper.old)
        (K.faults keeper.new)) }
    ensures stays { Stays (K.told keeper.old) (K.told keeper.new) }
    ensures later { K.faults keeper.old ≤ K.faults keeper.new }
    ensures version { K.version keeper.new ≡ K.version keeper.old }
{
    let contexts = stored_contexts(alloc, keeper)?;
    pages_for(alloc, keeper, &contexts)
}

// These contexts, each with its rows.
fn pages_for<K: Keeper>(
    alloc: Global,
    keeper: &mut K,
    contexts: &[Vec<u8>],
) -> Result<Vec<Page>, Refusal>
    ensures pages { IfOk result (λ ps. IfSome (K.told keeper.old) (λ k. map page_of ps.items ≡ map
        (λ c. (c.items, results_of k c.items)) contexts.now)) }
    ensures halt { IfErr result IsHalt }
    ensures fault { IfErr result (λ e. e ≡ StoreFault → Rose (K.faults keeper.old)
        (K.faults keeper.new)) }
    ensures stays { Stays (K.told keeper.old) (K.told keeper.new) }
    ensures later { K.faults keeper.old ≤ K.faults keeper.new }
    ensures version { K.version keeper.new ≡ K.version keeper.old }
{
    let mut pages = Vec::new(alloc);
    for context in contexts {
        pages.push(stored_page(alloc, keeper, context)?)?;
    }
    Ok(pages)
}

// A context with its rows.
fn stored_page<K: Keeper>(alloc: Global, keeper: &mut K, context: &[u8]) -> Result<Page, Refusal>
    ensures page { IfOk result (λ p. IfSome (K.told keeper.old) (λ k. page_of p ≡ (
      context.now,
      results_of k context.now,
    ))) }
    ensures halt { IfErr result IsHalt }
    ensures fault { IfErr result (λ e. e ≡ StoreFault → Rose (K.faults keeper.old)
        (K.faults keeper.new)) }
    ensures stays { Stays (K.told keeper.old) (K.told keeper.new) }
    ensures later { K.faults keeper.old ≤ K.faults keeper.new }
    ensures version { K.version keeper.new ≡ K.version keeper.old }
{
    let rows = stored_rows(alloc, keeper, context)?;
    Ok(Page {
        context: Vec::from_slice(alloc, context)?,
        rows,
    })
}

// The audit of rows that are there.
fn audit_pages(alloc: Global, pages: &[Page]) -> Result<Vec<u8>, Refusal>
    ensures text { IfOk result (λ v. AuditsPages (map page_of pages.now) (Ok v.items)) }
    ensures refused { IfErr result (λ e. (e ≡ Memory) ⊎ AuditsPages (map page_of pages.now)
        (Err e)) }
    ensures no_fault { IfErr result (λ e. e ≢ StoreFault) }
    ensures no_file_fault { result ≢ Err Refusal.FileFault }
{
    check_pages(alloc, pages)?;
    compare_pages(alloc, pages)?;
    let count = count_rows(pages)?;
    Ok(rows_text(alloc, count)?)
}

// Passes where all rows are in the grammar.
fn check_pages(alloc: Global, pages: &[Page]) -> Result<(), Refusal>
    ensures read { OnOk result (AllByRecursion IsReadPage (map page_of pages.now)) }
    ensures refused { IfErr result (λ e. (e ≡ Memory) ⊎ IsFirst IsReadPage (λ p. (tree : List ℕ)
        × IsUnreadPage p tree × (e ≡ Refusal.StoredRow p.0 tree)) (map page_of pages.now)) }
    ensures no_fault { IfErr result (λ e. e ≢ StoreFault) }
    ensures no_file_fault { result ≢ Err Refusal.FileFault }
{
    for page in pages {
        check_page(alloc, page)?;
    }
    Ok(())
}

// Passes where the rows of a context are in the grammar.
fn check_page(alloc: Global, page: &Page) -> Result<(), Refusal>
    ensures read { OnOk result (IsReadPage (page_of page.now)) }
    ensures refused { IfErr result (λ e. (e ≡ Memory) ⊎ ((tree : List ℕ) × IsUnreadPage
        (page_of page.now) tree × (e ≡ Refusal.StoredRow page.now.context.items tree))) }
    ensures no_fault { IfErr result (λ e. e ≢ StoreFault) }
    ensures no_file_fault { result ≢ Err Refusal.FileFault }
{
    match read_context(alloc, &page.context) {
        Ok(types) => check_over(alloc, &types, page),
        Err(ContextRefusal::ContextText) => Err(unread_row(alloc, page, 0)),
        Err(ContextRefusal::Memory) => Err(Refusal::Memory),
    }
}

// Passes where the rows of a context of these types are in the grammar.
fn check_over(alloc: Global, types: &Types, page: &Page) -> Result<(), Refusal>
    requires types { AreTypes types.now }
    requires units { AreInLeastUnits types.now }
    requires context { IsContextText types.now page.now.context.items }
    ensures read { OnOk result (IsReadPage (page_of page.now)) }
    ensures refused { IfErr result (λ e. (e ≡ Memory) ⊎ ((tree : List ℕ) × IsUnreadPage
        (page_of page.now) tree × (e ≡ Refusal.StoredRow page.now.context.items tree))) }
    ensures no_fault { IfErr result (λ e. e ≢ StoreFault) }
    ensures no_file_fault { result ≢ Err Refusal.FileFault }
{
    match check_rows(alloc, types, &page.rows) {
        Ok(()) => Ok(()),
        Err(ReadError::Unread(place)) => Err(unread_row(alloc, page, place)),
        Err(ReadError::Memory) => Err(Refusal::Memory),
    }
}

// The refusal of a row that is not in the grammar; or want of memory.
fn unread_row(alloc: Global, page: &Page, place: usize) -> Refusal
    ensures { (result ≡ Memory) ⊎ (result ≡ Refusal.StoredRow page.now.context.items ((row_at
        (page_of page.now).1 place).0)) }
{
    let Ok(context) = Vec::from_slice(alloc, &page.context) else {
        return Refusal::Memory;
    };
    let Ok(tree) = Vec::from_slice(alloc, tree_at(page, place)) else {
        return Refusal::Memory;
    };
    Refusal::StoredRow {
        context: Items::from_vec(context),
        tree: Items::from_vec(tree),
    }
}

// The text of the tree of a row; no text, where there is no row.
fn tree_at(page: &Page, place: usize) -> &[u8]
    ensures { result.now ≡ (row_at (page_of page.now).1 place).0 }
{
    match page.rows.get(place) {
        Some(row) => &row.tree,
        None => &[],
    }
}

// Passes where all rows are true. They are in the grammar.
fn compare_pages(alloc: Global, pages: &[Page]) -> Result<(), Refusal>
    requires { AllByRecursion IsReadPage (map page_of pages.now) }
    ensures sound { OnOk result (AllByRecursion IsTruePage (map page_of pages.now)) }
    ensures refused { IfErr result (λ e. (e ≡ Memory) ⊎ IsFirst IsTruePage (λ p. IsFalsePage p e)
        (map page_of pages.now)) }
    ensures no_fault { IfErr result (λ e. e ≢ StoreFault) }
    ensures no_file_fault { result ≢ Err Refusal.FileFault }
{
    for page in pages {
        compare_page(alloc, page)?;
    }
    Ok(())
}

// Passes where the rows of a context are true.
fn compare_page(alloc: Global, page: &Page) -> Result<(), Refusal>
    requires { IsReadPage (page_of page.now) }
    ensures sound { OnOk result (IsTruePage (page_of page.now)) }
    ensures refused { IfErr result (λ e. (e ≡ Memory) ⊎ IsFalsePage (page_of page.now) e) }
    ensures no_fault { IfErr result (λ e. e ≢ StoreFault) }
    ensures no_file_fault { result ≢ Err Refusal.FileFault }
{
    contexts_determine_types();
    match read_context(alloc, &page.context) {
        Ok(types) => compare_over(alloc, &types, page),
        Err(_) => Err(Refusal::Memory),
    }
}

// Passes where the rows of a context of these types are true.
fn compare_over(alloc: Global, types: &Types, page: &Page) -> Result<(), Refusal>
    requires types { AreTypes types.now }
    requires context { IsContextText types.now page.now.context.items }
    requires read { AllByRecursion (IsReadRow types.now) (page_of page.now).1 }
    ensures sound { OnOk result (IsTruePage (page_of page.now)) }
    ensures refused { IfErr result (λ e. (e ≡ Memory) ⊎ IsFalsePage (page_of page.now) e) }
    ensures no_fault { IfErr result (λ e. e ≢ StoreFault) }
    ensures no_file_fault { result ≢ Err Refusal.FileFault }
{
    match audit_rows(alloc, types, &page.rows) {
        Ok(()) => Ok(()),
        Err(AuditError::False { place, cause }) => Err(false_row(alloc, page, place, cause)),
        Err(AuditError::Memory) => Err(Refusal::Memory),
    }
}

// The refusal of a row that is not true; or want of memory.
fn false_row(alloc: Global, page: &Page, place: usize, cause: AuditCause) -> Refusal
    ensures { (result ≡ Memory) ⊎ (result ≡ of_cause (row_at (page_of page.now).1 place) cause) }
{
    let Ok(tree) = Vec::from_slice(alloc, tree_at(page, place)) else {
        return Refusal::Memory;
    };
    match cause {
        AuditCause::Extraction => too_large(alloc, tree, b"extraction"),
        AuditCause::Constant => too_large(alloc, tree, b"constant"),
        AuditCause::Differs { computed } => differs(alloc, tree, value_at(page, place), computed),
    }
}

// The refusal of a quantity of a tree; or want of memory.
fn too_large(alloc: Global, tree: Vec<u8>, quantity: &[u8]) -> Refusal
    ensures { (result ≡ Memory) ⊎ (result ≡ CoefficientTooLarge tree.items quantity.now) }
{
    match Vec::from_slice(alloc, quantity) {
        Ok(quantity) => Refusal::CoefficientTooLarge {
            tree: Items::from_vec(tree),
            quantity: Items::from_vec(quantity),
        },
        Err(_) => Refusal::Memory,
    }
}

// The refusal of a value; or want of memory.
fn differs(alloc: Global, tree: Vec<u8>, stored: &[u8], computed: Vec<u8>) -> Refusal
    ensures { (result ≡ Memory) ⊎ (result ≡ Differs tree.items stored.now computed.items) }
{
    match Vec::from_slice(alloc, stored) {
        Ok(stored) => Refusal::Differs {
            tree: Items::from_vec(tree),
            stored: Items::from_vec(stored),
            computed: Items::from_vec(computed),
        },
        Err(_) => Refusal::Memory,
    }
}

// The value of a row; no text, where there is no row.
fn value_at(page: &Page, place: usize) -> &[u8]
    ensures { result.now ≡ (row_at (page_of page.now).1 place).1 }
{
    match page.rows.get(place) {
        Some(row) => &row.value,
        None => &[],
    }
}

// How many rows there are. There is no memory for more than can be counted.
fn count_rows(pages: &[Page]) -> Result<usize, AllocError>
    ensures { IfOk result (λ n. n ≡ row_count (map page_of pages.now)) }
{
    let mut count: usize = 0;
    for page in pages {
        let Some(more) = count.checked_add(rows_in(page)) else {
            return Err(AllocError);
        };
        count = more;
    }
    Ok(count)
}

// How many rows a page has.
fn rows_in(page: &Page) -> usize
    ensures { result ≡ length (page_of page.now).1 }
{
    page.rows.len()
}

// The line with the number of rows.
fn rows_text(alloc: Global, count: usize) -> Result<Vec<u8>, AllocError>
    ensures { IfOk result (λ v. v.items ≡ audit_text count) }
{
    let mut text = Vec::from_slice(alloc, b"audit rows ")?;
    text.extend_from_slice(Buffer::new().format(count).as_bytes())?;
    text.extend_from_slice(b"\n")?;
    Ok(text)
}
