// Rows, to be looked up by the text of a tree.
ghost use Rattle.std.specs.Prelude.{◌≡◌, ℕ, List, map, option_map, bytes_eq, IfOk};
ghost use Rattle.std.specs.HashMap as hash;
ghost use Rattle.std.specs.FinMap.{find};
ghost use Rattle.result_keeper.specs.Kept.{bytes_cmp};
ghost use Rattle.result_keeper.specs.Entries.{pair_of};

use result_keeper::StoredRow;
use std::alloc::{AllocError, Global};
use std::collections::HashMap;

/// The values of the rows by the texts of their trees; of several rows of one tree that of the
/// first.
pub fn values_by_tree<'a>(
    alloc: Global,
    rows: &'a [StoredRow],
) -> Result<HashMap<&'a [u8], &'a [u8]>, AllocError>
    ensures { IfOk result (λ m. (text : List ℕ) →
        option_map (λ v. v.now) (hash.get_by (λ k. bytes_eq text k.now) m)
        ≡ find bytes_cmp text (map pair_of rows.now)) }
{
    let mut values = HashMap::new(alloc);
    for row in rows {
        if !values.contains_key(row.tree.as_slice()) {
            values.insert(row.tree.as_slice(), row.value.as_slice())?;
        }
    }
    Ok(values)
}
