// A table that is given as a text.
ghost use Rattle.std.specs.Prelude.{◌≡◌, ◌≢◌, ◌⊎◌, ◌≤◌, length, Err, IfOk, IfErr, OnOk};
ghost use Rattle.limits.specs.declared.TheConstants.{MOST_FILE_BYTES};
ghost use Rattle.tree_pool.specs.Content.{IsGrown};
ghost use Rattle.character_tables.specs.Rows.{rows_over, IsCharacter};
ghost use Rattle.character_tables.specs.Texts.{IsTableText};
ghost use Rattle.workbench_core.specs.GivenTable.{IsNoTable};

use crate::refusal::Refusal;
use characters::{Character, CharacterError, read_table};
use degree_numbers::Types;
use equation_file::Which;
use limits::MOST_FILE_BYTES;
use std::alloc::Global;
use tree_pool::Pool;

/// The character of the table with this text, whose trees are put into the pool. Refused with
/// `Limit` where the text has more than 65,536 bytes, else with `TableRefused` at the first line
/// that is none of a table over the types.
pub(crate) fn given_table(
    alloc: Global,
    types: &Types,
    pool: &mut Pool<'_>,
    text: &[u8],
) -> Result<Character, Refusal>
    requires { pool.old.types ≡ types.now }
    ensures short { OnOk result (length text.now ≤ MOST_FILE_BYTES) }
    ensures rows { IfOk result (λ g. IsTableText types.now text.now (rows_over pool.new g.rows)) }
    ensures character { IfOk result (λ g. IsCharacter pool.new g.rows) }
    ensures refused { IfErr result (λ e. (e ≡ Refusal.Memory) ⊎ IsNoTable types.now text.now e) }
    ensures no_fault { result ≢ Err Refusal.FileFault }
    ensures grown { IsGrown pool.old pool.new }
{
    if text.len() > MOST_FILE_BYTES {
        return Err(Refusal::Limit {
            which: Which::Bytes,
            count: MOST_FILE_BYTES as i64 + 1,
        });
    }
    match read_table(alloc, types, pool, text) {
        Ok(character) => Ok(character),
        Err(CharacterError::TableRefused { line }) => Err(Refusal::TableRefused { line }),
        Err(_) => Err(Refusal::Memory),
    }
}
