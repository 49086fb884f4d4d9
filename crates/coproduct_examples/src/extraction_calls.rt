// Several calls on the same tables.
ghost use Rattle.degree_numbers.specs.Types.{AreTypes};

use crate::extraction::{asked_extraction, forest_of_two, tables_with};
use crate::trees::interned;
use bumpalo::Bump;
use degree_numbers::Types;
use extraction_coproduct::{Tables, Work};
use known_types::kpz_types;
use std::alloc::Global;
use tree_pool::{ForestId, Pool, TreeId};

/// Tables with the trees of two texts, and their numbers.
fn tables_with_two<'a>(
    alloc: Global,
    arena: &'a Bump,
    types: &Types,
    texts: [&[u8]; 2],
) -> Option<(Tables<'a>, [TreeId; 2])>
    requires { AreTypes types.now }
{
    let [first, second] = texts;
    let mut pool = Pool::new(alloc, arena, types).ok()?;
    let a = interned(alloc, types, &mut pool, first)?;
    let b = interned(alloc, types, &mut pool, second)?;
    let tables = Tables::new(alloc, arena, types, pool).ok()?;
    Some((tables, [a, b]))
}

/// The count of the work after each of two calls, and whether both gave the same terms.
fn two_calls(alloc: Global, tables: &mut Tables<'_>, ids: [TreeId; 2]) -> Option<([u64; 2], bool)> {
    let [a, b] = ids;
    let mut work = Work { tables: 0 };
    let first = asked_extraction(alloc, tables, a, &mut work)?.ok()?;
    let after_first = work.tables;
    let second = asked_extraction(alloc, tables, b, &mut work)?.ok()?;
    Some(([after_first, work.tables], first == second))
}

/// The count of the work after the first and after a second call on `[X(0,1)*xi]`, and whether both
/// gave the same terms.
pub fn work_of_two_calls(alloc: Global) -> Option<([u64; 2], bool)> {
    let arena = Bump::new(alloc);
    let types = kpz_types(alloc).ok()?;
    let (mut tables, id) = tables_with(alloc, &arena, &types, b"[X(0,1)*xi]")?;
    two_calls(alloc, &mut tables, [id, id])
}

/// The count of the work after a call on `[u'(0,1)[xi]*u'(0,1)[xi]]`, and after one on `[xi]`,
/// which is a component of that tree.
pub fn work_of_two_trees(alloc: Global) -> Option<[u64; 2]> {
    let arena = Bump::new(alloc);
    let Ok(types) = kpz_types(alloc) else {
        return None;
    };
    let texts: [&[u8]; 2] = [b"[u'(0,1)[xi]*u'(0,1)[xi]]", b"[xi]"];
    let (mut tables, ids) = tables_with_two(alloc, &arena, &types, texts)?;
    let (counts, _) = two_calls(alloc, &mut tables, ids)?;
    Some(counts)
}

/// The numbers of the forest of `[X(0,1)*xi]` and `[xi]`, given in both orders.
pub fn forest_in_both_orders(alloc: Global) -> Option<[ForestId; 2]> {
    let arena = Bump::new(alloc);
    let types = kpz_types(alloc).ok()?;
    let texts: [&[u8]; 2] = [b"[X(0,1)*xi]", b"[xi]"];
    let (mut tables, [first, second]) = tables_with_two(alloc, &arena, &types, texts)?;
    let one = forest_of_two(alloc, &mut tables, first, second)?;
    let other = forest_of_two(alloc, &mut tables, second, first)?;
    Some([one, other])
}

#[cfg(test)]
mod tests {
    use super::*;

    #[test]
    fn a_finished_tree_is_not_counted_again(rt: HostRuntime) {
        let (counts, same) = work_of_two_calls(rt.alloc()).expect(&rt, "terms");
        assert!(rt; counts == [1, 1]);
        assert!(rt; same);
    }

    #[test]
    fn a_component_is_counted_once_it_is_asked(rt: HostRuntime) {
        assert!(rt; work_of_two_trees(rt.alloc()).expect(&rt, "terms") == [1, 2]);
    }

    #[test]
    fn a_forest_has_one_number(rt: HostRuntime) {
        let [one, other] = forest_in_both_orders(rt.alloc()).expect(&rt, "forest");
        assert!(rt; one == other);
    }
}
