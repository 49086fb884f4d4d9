// Terms in an arena, read when the tables that gave them are gone. None can be kept past the arena:
// `.ci/loans` tries to.
use crate::extraction::{asked_extraction, tables_with};
use bumpalo::Bump;
use extraction_coproduct::{ExtractTerm, Tables, Work};
use known_types::kpz_types;
use std::alloc::Global;
use tree_pool::TreeId;

/// The terms of a tree, where it has some.
fn terms_of<'a>(alloc: Global, tables: &mut Tables<'a>, id: TreeId) -> Option<&'a [ExtractTerm]> {
    let mut work = Work { tables: 0 };
    asked_extraction(alloc, tables, id, &mut work)?.ok()
}

/// The number of terms of `[X(0,1)*xi]`, read when the tables are gone.
pub fn terms_without_tables(alloc: Global) -> Option<usize> {
    let arena = Bump::new(alloc);
    let types = kpz_types(alloc).ok()?;
    let (mut tables, id) = tables_with(alloc, &arena, &types, b"[X(0,1)*xi]")?;
    let terms = terms_of(alloc, &mut tables, id)?;
    drop(tables);
    Some(terms.len())
}

#[cfg(test)]
mod tests {
    use super::*;

    #[test]
    fn terms_are_read_without_their_tables(rt: HostRuntime) {
        assert_eq!(rt; terms_without_tables(rt.alloc()), Some(3));
    }
}
