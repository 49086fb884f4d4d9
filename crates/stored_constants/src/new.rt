// The rows of what was computed.
ghost use Rattle.std.specs.Prelude.{◌≡◌, ◌++◌, ◌∷◌, [], List, map, Option, IfOk, IfErr, OnOk};
ghost use Rattle.std.specs.List.{All};
ghost use Rattle.degree_numbers.specs.Types.{AreTypes};
ghost use Rattle.equations.specs.declared.equation.Equation.{Equation};
ghost use Rattle.plain_trees.specs.Plain.{Plain};
ghost use Rattle.plain_trees.specs.Text.{tree_text};
ghost use Rattle.plain_trees.specs.View.{plain};
ghost use Rattle.antipode_laws.specs.Weighed.{Weighed};
ghost use Rattle.tree_values.specs.Values.{AreValuesOf};
ghost use Rattle.result_keeper.specs.Entries.{pair_of};
ghost use Rattle.stored_constants.specs.Rows.{AreHeldRows, AreNewRows, IsStored, rows_of_values, row_of_values};

use crate::texts::values_by_tree;
use counterterm_report::{ReportError, TreeValues, print_value};
use degree_numbers::Types;
use plain_trees::print_tree;
use result_keeper::StoredRow;
use std::alloc::Global;

/// The rows of those of the trees that have none among `rows`: the text of each with that of its
/// constant, in the order of the trees. Where `rows` were held as the values were computed, these
/// are the rows of the trees whose constants were computed. Fails only for want of memory.
pub fn new_rows(
    alloc: Global,
    types: &Types,
    values: &[TreeValues],
    rows: &[StoredRow],
) -> Result<Vec<StoredRow>, ReportError>
    requires types { AreTypes types.now }
    requires stored { All (IsStored types.now) values.now }
    ensures rows { IfOk result (λ new. map pair_of new.items
        ≡ rows_of_values types.now (map pair_of rows.now) values.now) }
    ensures new { IfOk result (λ new. (eq : Equation) (held : Plain → Option Weighed)
        (k : Plain → Weighed) (ts : List Plain) → eq.types ≡ types.now →
        AreHeldRows types.now (map pair_of rows.now) ts held → AreValuesOf eq held k ts values.now →
        AreNewRows types.now (map pair_of rows.now) k ts (map pair_of new.items)) }
    ensures memory { IfErr result (λ e. e ≡ ReportError.Memory) }
{
    let by_tree = values_by_tree(alloc, rows)?;
    let mut new = Vec::new(alloc);
    for value in values {
        let tree = text_of_tree(alloc, types, value)?;
        if !by_tree.contains_key(tree.as_slice()) {
            put(&mut new, row_of(alloc, types, tree, value)?)?;
        }
    }
    Ok(new)
}

fn text_of_tree(alloc: Global, types: &Types, value: &TreeValues) -> Result<Vec<u8>, ReportError>
    requires types { AreTypes types.now }
    requires stored { IsStored types.now value.now }
    ensures text { IfOk result (λ t. t.items ≡ tree_text types.now (plain value.now.tree)) }
    ensures memory { IfErr result (λ e. e ≡ ReportError.Memory) }
{
    match print_tree(alloc, types, &value.tree) {
        Ok(text) => Ok(text),
        Err(_) => Err(ReportError::Memory),
    }
}

// The row of a tree with this text and of its constant.
fn row_of(
    alloc: Global,
    types: &Types,
    tree: Vec<u8>,
    value: &TreeValues,
) -> Result<StoredRow, ReportError>
    requires types { AreTypes types.now }
    requires stored { IsStored types.now value.now }
    requires tree { tree.items ≡ tree_text types.now (plain value.now.tree) }
    ensures row { IfOk result (λ r. pair_of r ≡ row_of_values types.now value.now) }
    ensures memory { IfErr result (λ e. e ≡ ReportError.Memory) }
{
    let value = print_value(alloc, types, &value.constant)?;
    Ok(StoredRow { tree, value })
}

// Puts a row behind others.
fn put(rows: &mut Vec<StoredRow>, row: StoredRow) -> Result<(), ReportError>
    ensures put { OnOk result (rows.new.items ≡ rows.old.items ++ row ∷ []) }
    ensures memory { IfErr result (λ e. e ≡ ReportError.Memory) }
{
    match rows.push(row) {
        Ok(()) => Ok(()),
        Err(_) => Err(ReportError::Memory),
    }
}
