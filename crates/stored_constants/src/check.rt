// Whether rows are in their grammar.
ghost use Rattle.std.specs.Prelude.{◌≡◌, ◌↔◌, ℕ, map, IfOk, IfErr, OnOk, IsTrue};
ghost use Rattle.std.specs.List.{AllByRecursion};
ghost use Rattle.limits.specs.declared.TheConstants.{MOST_LISTED_DECORATIONS};
ghost use Rattle.degree_numbers.specs.Types.{AreTypes};
ghost use Rattle.plain_trees.specs.Plain.{Plain};
ghost use Rattle.plain_trees.specs.Reading.{IsTreeOf};
ghost use Rattle.antipode_laws.specs.Weighed.{Weighed};
ghost use Rattle.result_keeper.specs.Entries.{pair_of};
ghost use Rattle.stored_constants.specs.Rows.{IsValueText};
ghost use Rattle.stored_constants.specs.Sound.{IsReadRow};
ghost use Rattle.stored_constants.specs.Audits.{IsReadRefused};

use crate::error::ReadError;
use crate::value::value_of;
use degree_numbers::Types;
use limits::MOST_LISTED_DECORATIONS;
use plain_trees::{TreeError, read_tree};
use result_keeper::StoredRow;
use std::alloc::{AllocError, Global};

/// Passes where each row of a context is the text of a tree of these types, with at most 24 edges
/// (`MOST_EDGES`) and a decoration sum of at most 64 (`MOST_LISTED_DECORATIONS`), with the text of
/// a value. Refused exactly at the first row that is not; and for want of memory.
pub fn check_rows(alloc: Global, types: &Types, rows: &[StoredRow]) -> Result<(), ReadError>
    requires { AreTypes types.now }
    ensures read { OnOk result (AllByRecursion (IsReadRow types.now) (map pair_of rows.now)) }
    ensures refused { IfErr result (IsReadRefused types.now (map pair_of rows.now)) }
{
    for (place, row) in rows.iter().enumerate() {
        if !is_read(alloc, types, row)? {
            return Err(ReadError::Unread(place));
        }
    }
    Ok(())
}

fn is_read(alloc: Global, types: &Types, row: &StoredRow) -> Result<bool, AllocError>
    requires { AreTypes types.now }
    ensures { IfOk result (λ b. IsTrue b ↔ IsReadRow types.now (pair_of row.now)) }
{
    if !is_tree(alloc, types, &row.tree)? {
        return Ok(false);
    }
    is_value(alloc, types, &row.value)
}

// Whether a text is that of a tree that is not too large.
fn is_tree(alloc: Global, types: &Types, text: &[u8]) -> Result<bool, AllocError>
    requires { AreTypes types.now }
    ensures { IfOk result (λ b. IsTrue b
        ↔ ((t : Plain) × IsTreeOf types.now MOST_LISTED_DECORATIONS text.now t)) }
{
    match read_tree(alloc, types, text, MOST_LISTED_DECORATIONS) {
        Ok(_) => Ok(true),
        Err(TreeError::Memory) => Err(AllocError),
        Err(_) => Ok(false),
    }
}

// Whether a text is that of a value.
fn is_value(alloc: Global, types: &Types, text: &[u8]) -> Result<bool, AllocError>
    requires { AreTypes types.now }
    ensures { IfOk result (λ b. IsTrue b ↔ ((w : Weighed) × IsValueText types.now w text.now)) }
{
    Ok(value_of(alloc, types, text)?.is_some())
}
