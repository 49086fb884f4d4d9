// Places in the lists of a keeper in memory.
ghost use Rattle.std.specs.Prelude.{◌≡◌, ◌<◌, map, length, OnOk, OnErr, IfSome, vec_len};
ghost use Rattle.std.specs.Ordering.{eq_by_cmp};
ghost use Rattle.result_keeper.specs.Kept.{bytes_cmp, row_cmp};
ghost use Rattle.result_keeper.specs.Entries.{project_entry, row_entry, place_of, put_at};

use crate::parts::{KeptProject, KeptRow};
use crate::project_name::ProjectName;
use std::alloc::AllocFailed;

// The place of the project of that name.
pub fn place_of_project(projects: &[KeptProject], name: &ProjectName) -> Option<usize>
    ensures place { result ≡ place_of bytes_cmp name.now (map project_entry projects.now) }
    ensures within { IfSome result (λ i. i < length projects.now) }
{
    for (i, project) in projects.iter().enumerate() {
        if *name == project.name {
            return Some(i);
        }
    }
    None
}

// Whether the row is that of this context and tree.
fn is_row_of(row: &KeptRow, context: &[u8], tree: &[u8]) -> bool
    ensures { result ≡ eq_by_cmp row_cmp (context.now, tree.now)
        (row.now.context.items, row.now.tree.items) }
{
    context == row.context.as_slice() && tree == row.tree.as_slice()
}

// The place of the row of that context and tree.
pub fn place_of_row(rows: &[KeptRow], context: &[u8], tree: &[u8]) -> Option<usize>
    ensures place { result ≡ place_of row_cmp (context.now, tree.now) (map row_entry rows.now) }
    ensures within { IfSome result (λ i. i < length rows.now) }
{
    for (i, row) in rows.iter().enumerate() {
        if is_row_of(row, context, tree) {
            return Some(i);
        }
    }
    None
}

// Puts an item at its place, or at the end.
pub fn put_at<T: Drop>(
    items: &mut Vec<T>,
    place: Option<usize>,
    item: T,
) -> Result<(), AllocFailed<T>>
    requires { IfSome place (λ i. i < vec_len items.old) }
    ensures ok { OnOk result (items.new.items ≡ put_at place item items.old.items) }
    ensures err { OnErr result (items.new.items ≡ items.old.items) }
{
    match place {
        Some(i) => {
            items[i] = item;
            Ok(())
        }
        None => items.push(item),
    }
}
