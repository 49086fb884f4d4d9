// Whether rows are true.
ghost use Rattle.std.specs.Prelude.{◌≡◌, ◌≢◌, ◌<◌, [], length, map, IfOk, IfErr, OnOk, MatchOption};
ghost use Rattle.std.specs.List.{AllByRecursion, AllZip};
ghost use Rattle.degree_numbers.specs.Types.{AreTypes};
ghost use Rattle.symbol_polys.specs.View.{terms_of};
ghost use Rattle.tree_pool.specs.Content.{IsGrown, tree_at};
ghost use Rattle.cutting_sizes.specs.Bounds.{IsFit};
ghost use Rattle.extraction_coproduct.specs.Finished.{AreGrown};
ghost use Rattle.twisted_antipode.specs.Held.{AreHeldOver, IsExtended};
ghost use Rattle.twisted_antipode.specs.Kinds.{AreHeldTyped};
ghost use Rattle.counterterm_report.specs.Stored.{value_text};
ghost use Rattle.counterterm_report.specs.Values.{IsValue};
ghost use Rattle.result_keeper.specs.Entries.{pair_of};
ghost use Rattle.stored_constants.specs.Sound.{IsReadRow, IsTrueFor, IsFalseFor, IsTrueRow};
ghost use Rattle.stored_constants.specs.Audits.{IsAuditRefused, IsTreeAt, IsCauseOf, IsOtherText};

use crate::error::AuditError;
use bumpalo::Bump;
use counterterm_report::print_value;
use degree_numbers::Types;
use extraction_coproduct::{Tables, Work};
use limits::MOST_LISTED_DECORATIONS;
use plain_trees::read_tree;
use result_keeper::StoredRow;
use sqlite_items::Items;
use std::alloc::Global;
use symbol_polys::Poly;
use tree_pool::{Pool, TreeId};
use twisted_antipode::{AntipodeError, Constants, Quantity, constant};

/// Why a row is not true.
#[derive(Debug, PartialEq, Eq, Drop)]
pub enum AuditCause {
    /// A coefficient of the extraction coproduct of its tree passes 2^127-1.
    Extraction,
    /// The mass of the constant of its tree passes 2^127-1.
    Constant,
    /// Its value is not the text of the constant of its tree, which is this.
    Differs { computed: Vec<u8> },
}

/// Passes where each row of a context is true: its value is the text of the mass and of the
/// constant of its tree, which is computed from nothing. Refused exactly at the first row that is
/// not, with the first cause; and for want of memory. Each row is the text of a tree that is not
/// too large.
pub fn audit_rows(alloc: Global, types: &Types, rows: &[StoredRow]) -> Result<(), AuditError>
    requires types { AreTypes types.now }
    requires read { AllByRecursion (IsReadRow types.now) (map pair_of rows.now) }
    ensures sound { OnOk result (AllByRecursion (IsTrueRow types.now) (map pair_of rows.now)) }
    ensures refused { IfErr result (IsAuditRefused types.now (map pair_of rows.now)) }
{
    let arena = Bump::new(alloc);
    let mut pool = pool_of(alloc, &arena, types)?;
    let ids = trees_of_rows(alloc, &mut pool, rows)?;
    let mut tables = tables_over(alloc, &arena, types, pool)?;
    audit_trees(alloc, &mut tables, ids.as_slice(), rows)
}

// A pool of trees of these types, with no tree.
fn pool_of<'a>(alloc: Global, arena: &'a Bump, types: &Types) -> Result<Pool<'a>, AuditError>
    requires { AreTypes types.now }
    ensures types { IfOk result (λ pool. pool.types ≡ types.now) }
    ensures memory { IfErr result (λ e. e ≡ AuditError.Memory) }
{
    match Pool::new(alloc, arena, types) {
        Ok(pool) => Ok(pool),
        Err(_) => Err(AuditError::Memory),
    }
}

// Tables that take the pool over.
fn tables_over<'a>(
    alloc: Global,
    arena: &'a Bump,
    types: &Types,
    pool: Pool<'a>,
) -> Result<Tables<'a>, AuditError>
    requires { pool.types ≡ types.now }
    ensures pool { IfOk result (λ t. t.pool ≡ pool.entry) }
    ensures memory { IfErr result (λ e. e ≡ AuditError.Memory) }
{
    match Tables::new(alloc, arena, types, pool) {
        Ok(tables) => Ok(tables),
        Err(_) => Err(AuditError::Memory),
    }
}

// The trees of the rows, in the pool.
fn trees_of_rows(
    alloc: Global,
    pool: &mut Pool<'_>,
    rows: &[StoredRow],
) -> Result<Items<TreeId>, AuditError>
    requires { AllByRecursion (IsReadRow pool.old.types) (map pair_of rows.now) }
    ensures trees { IfOk result (λ ids.
        AllZip (IsTreeAt pool.new) (map pair_of rows.now) ids) }
    ensures types { pool.new.types ≡ pool.old.types }
    ensures memory { IfErr result (λ e. e ≡ AuditError.Memory) }
{
    let mut ids = Items::new(alloc);
    for row in rows {
        ids.push(tree_of_row(alloc, pool, row)?)?;
    }
    Ok(ids)
}

// The tree of a row, in the pool.
fn tree_of_row(alloc: Global, pool: &mut Pool<'_>, row: &StoredRow) -> Result<TreeId, AuditError>
    requires { IsReadRow pool.old.types (pair_of row.now) }
    ensures tree { IfOk result (IsTreeAt pool.new (pair_of row.now)) }
    ensures grown { IsGrown pool.old pool.new }
    ensures memory { IfErr result (λ e. e ≡ AuditError.Memory) }
{
    pool.laws();
    let Ok(tree) = read_tree(alloc, pool.types(), &row.tree, MOST_LISTED_DECORATIONS) else {
        return Err(AuditError::Memory);
    };
    match pool.intern_tree(alloc, &tree) {
        Ok(id) => Ok(id),
        Err(_) => Err(AuditError::Memory),
    }
}

// The same for rows whose trees stand in the pool of the tables.
fn audit_trees(
    alloc: Global,
    tables: &mut Tables<'_>,
    ids: &[TreeId],
    rows: &[StoredRow],
) -> Result<(), AuditError>
    requires { AllZip (IsTreeAt tables.old.pool) (map pair_of rows.now) ids.now }
    ensures sound { OnOk result
        (AllByRecursion (IsTrueRow tables.old.pool.types) (map pair_of rows.now)) }
    ensures refused { IfErr result
        (IsAuditRefused tables.old.pool.types (map pair_of rows.now)) }
{
    let mut constants = no_constants(alloc)?;
    let mut work = Work { tables: 0 };
    for (place, row) in rows.iter().enumerate() {
        let cause = audit_tree(
            alloc,
            tables,
            &mut constants,
            ids[place],
            &row.value,
            &mut work,
        )?;
        if let Some(cause) = cause {
            return Err(AuditError::False { place, cause });
        }
    }
    Ok(())
}

// Nothing is held.
fn no_constants(alloc: Global) -> Result<Constants, AuditError>
    ensures nothing { IfOk result (λ c. c ≡ []) }
    ensures memory { IfErr result (λ e. e ≡ AuditError.Memory) }
{
    match Constants::new(alloc) {
        Ok(constants) => Ok(constants),
        Err(_) => Err(AuditError::Memory),
    }
}

// Why a value is not that of a tree. Only constants of their trees are held.
fn audit_tree(
    alloc: Global,
    tables: &mut Tables<'_>,
    constants: &mut Constants,
    id: TreeId,
    value: &[u8],
    work: &mut Work,
) -> Result<Option<AuditCause>, AuditError>
    requires known { id.0 < length tables.old.pool.trees }
    requires fit { IsFit (tree_at tables.old.pool id.0) }
    requires held { AreHeldOver tables.old.pool constants.old }
    requires typed { AreHeldTyped tables.old.pool.types constants.old }
    requires computed { IsExtended tables.old.pool [] constants.old }
    ensures truth { IfOk result (λ o. MatchOption o
        (IsTrueFor tables.old.pool.types (tree_at tables.old.pool id.0) value.now)
        (IsFalseFor tables.old.pool.types (tree_at tables.old.pool id.0) value.now)) }
    ensures memory { IfErr result (λ e. e ≡ AuditError.Memory) }
    ensures held { AreHeldOver tables.new.pool constants.new }
    ensures typed { AreHeldTyped tables.new.pool.types constants.new }
    ensures computed { IsExtended tables.new.pool [] constants.new }
    ensures grown { AreGrown tables.old tables.new }
{
    tables.laws();
    let computed = constant(alloc, tables, constants, id, work);
    tables.laws();
    match computed {
        Ok(constant) => judge(alloc, tables.types(), &constant, value),
        Err(e) => cause_of(e),
    }
}

// Why there is no constant.
fn cause_of(e: AntipodeError) -> Result<Option<AuditCause>, AuditError>
    ensures cause { IfOk result (IsCauseOf e) }
    ensures memory { IfErr result (λ f. (f ≡ AuditError.Memory) × (e ≡ AntipodeError.Memory)) }
{
    match e {
        AntipodeError::CoefficientTooLarge(Quantity::Extraction) => {
            Ok(Some(AuditCause::Extraction))
        }
        AntipodeError::CoefficientTooLarge(_) => Ok(Some(AuditCause::Constant)),
        AntipodeError::Memory => Err(AuditError::Memory),
    }
}

// Whether a value is the text of this constant, which is named where it is not.
fn judge(
    alloc: Global,
    types: &Types,
    constant: &Poly,
    value: &[u8],
) -> Result<Option<AuditCause>, AuditError>
    requires types { AreTypes types.now }
    requires constant { IsValue types.now constant.now.mass (terms_of constant.now.terms) }
    ensures text { IfOk result (λ o. MatchOption o
        (value.now ≡ value_text types.now constant.now.mass (terms_of constant.now.terms))
        (IsOtherText value.now
        (value_text types.now constant.now.mass (terms_of constant.now.terms)))) }
    ensures memory { IfErr result (λ e. e ≡ AuditError.Memory) }
{
    let Ok(computed) = print_value(alloc, types, constant) else {
        return Err(AuditError::Memory);
    };
    if value == computed.as_slice() {
        return Ok(None);
    }
    Ok(Some(AuditCause::Differs { computed }))
}
