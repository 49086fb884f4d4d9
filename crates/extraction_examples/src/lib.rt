//! Examples of the table of all cuttings of a tree of which all components are extracted, on the
//! types of equations that files write down.
#![tactic(auto)]

ghost use Rattle.std.specs.Prelude.{◌≡◌, ◌<◌, length, IfSome};
ghost use Rattle.degree_numbers.specs.Types.{AreTypes};
ghost use Rattle.tree_pool.specs.Content.{tree_at, IsGrown};
ghost use Rattle.tree_pool.specs.Forests.{numbers, AreKnown};
ghost use Rattle.cutting_sizes.specs.Bounds.{IsBounded};

use bumpalo::Bump;
use degree_numbers::Types;
use equation_file::read_equation;
use exact_sums::Saturated;
use extraction_tables::closed_table;
use plain_trees::read_tree;
use pooled_cuttings::{ExtractKey, Grove};
use std::alloc::Global;
use tree_pool::{Pool, TreeId};

/// The number in a pool of the tree with this text.
fn interned(alloc: Global, types: &Types, pool: &mut Pool<'_>, text: &[u8]) -> Option<TreeId>
    requires accepted { AreTypes types.now }
    requires types { pool.old.types ≡ types.now }
    ensures grown { IsGrown pool.old pool.new }
    ensures known { IfSome result (λ id. id.0 < length pool.new.trees) }
    ensures bounded { IfSome result (λ id. IsBounded (tree_at pool.new id.0)) }
{
    let Ok(tree) = read_tree(alloc, types, text, 64) else {
        return None;
    };
    let Ok(id) = pool.intern_tree(alloc, &tree) else {
        return None;
    };
    Some(id)
}

/// The numbers of the trees with these texts.
fn all_interned(
    alloc: Global,
    types: &Types,
    pool: &mut Pool<'_>,
    texts: &[&[u8]],
) -> Option<Vec<TreeId>>
    requires accepted { AreTypes types.now }
    requires types { pool.old.types ≡ types.now }
    ensures grown { IsGrown pool.old pool.new }
    ensures known { IfSome result (λ ids. AreKnown pool.new (numbers ids.items)) }
{
    let mut ids = Vec::new(alloc);
    for text in texts {
        let id = interned(alloc, types, pool, text)?;
        let Ok(()) = ids.push(id) else {
            return None;
        };
    }
    Some(ids)
}

/// The table of a tree has a line for a forest and a quotient: the number of its lines, and the
/// coefficient of that line.
#[derive(Clone, Copy, Debug, PartialEq, Eq)]
pub struct TableEntry {
    pub lines: usize,
    pub coefficient: Option<Saturated>,
}

/// What the table of the tree with this text has for the forest and the quotient with these texts,
/// on the types of the equation that a file writes down.
pub fn table_entry(
    alloc: Global,
    file: &[u8],
    tree: &[u8],
    forest: &[&[u8]],
    quotient: &[u8],
) -> Option<TableEntry> {
    let Ok(eq) = read_equation(alloc, file) else {
        return None;
    };
    let arena = Bump::new(alloc);
    let mut pool = Pool::new(alloc, &arena, &eq.types).ok()?;
    let quotient = interned(alloc, &eq.types, &mut pool, quotient)?;
    let ids = all_interned(alloc, &eq.types, &mut pool, forest)?;
    let id = interned(alloc, &eq.types, &mut pool, tree)?;
    let Ok(mut grove) = Grove::new(alloc, &arena, pool) else {
        return None;
    };
    let forest = grove.forest(alloc, ids.as_slice()).ok()?;
    let lines = closed_table(&mut grove, alloc, id).ok()?;
    let key = ExtractKey { forest, quotient };
    let line = lines.iter().find(|l| l.0 == key);
    Some(TableEntry {
        lines: lines.len(),
        coefficient: line.map(|l| l.1),
    })
}

#[cfg(test)]
mod tests {
    use super::*;

    const KPZ: &[u8] =
        b"version = 1\nscaling = [2, 1]\n[[noise]]\nname = \"xi\"\ndegree = \"-3/2-k\"\n\
          [[unknown]]\nname = \"u\"\ndegree = \"2\"\nregularity = \"1/4\"\n\
          right = \"u'(0,1)^2+xi\"\n";

    const TWO_NOISES: &[u8] =
        b"version = 1\nscaling = [2, 1, 1]\n[[noise]]\nname = \"xi\"\ndegree = \"-2-k\"\n\
          [[noise]]\nname = \"eta\"\ndegree = \"-2-k\"\n[[unknown]]\nname = \"u\"\n\
          degree = \"2\"\nregularity = \"-1/2\"\nright = \"-u^3+xi+eta\"\n";

    const PHI4: &[u8] =
        b"version = 1\nscaling = [2, 1, 1, 1]\n[[noise]]\nname = \"xi\"\ndegree = \"-5/2-k\"\n\
          [[unknown]]\nname = \"u\"\ndegree = \"2\"\nregularity = \"-3/4\"\n\
          right = \"-u^3+xi\"\n";

    const WEAK_KERNEL: &[u8] =
        b"version = 1\nscaling = [1]\n[[noise]]\nname = \"xi\"\ndegree = \"-1/2\"\n[[unknown]]\n\
          name = \"u\"\ndegree = \"1/10\"\nregularity = \"-1/2\"\nright = \"xi\"\n";

    // A line of a table: the coefficient of a forest and a quotient, `None` where it is out of
    // range.
    #[derive(Drop)]
    struct Row<'a> {
        forest: &'a [&'a [u8]],
        quotient: &'a [u8],
        coefficient: Option<i128>,
    }

    fn exact_row<'a>(coefficient: i128, forest: &'a [&'a [u8]], quotient: &'a [u8]) -> Row<'a> {
        Row {
            forest,
            quotient,
            coefficient: Some(coefficient),
        }
    }

    // Whether the table of the tree has as many lines, and this one among them.
    fn has(alloc: Global, file: &[u8], tree: &[u8], lines: usize, row: &Row<'_>) -> bool {
        match table_entry(alloc, file, tree, row.forest, row.quotient) {
            Some(
                TableEntry {
                    lines: all,
                    coefficient: Some(c),
                },
            ) => all == lines && c.value() == row.coefficient,
            _ => false,
        }
    }

    #[test]
    fn three_terms_of_a_decorated_noise(rt: HostRuntime) {
        let tree = b"[X(0,1)*xi]".as_slice();
        let whole = [tree];
        let rows = [
            exact_row(1, &[], tree),
            exact_row(1, &[b"[xi]"], b"[X(0,1)]"),
            exact_row(1, &whole, b"[]"),
        ];
        for r in &rows {
            assert!(rt; has(rt.alloc(), KPZ, tree, 3, r));
        }
    }

    #[test]
    fn an_edge_that_leaves_a_component_is_raised(rt: HostRuntime) {
        let tree = b"[xi*xi]".as_slice();
        let whole = [tree];
        let rows = [
            exact_row(1, &[], tree),
            exact_row(2, &[b"[xi]"], b"[xi]"),
            exact_row(2, &[b"[X(0,1)*xi]"], b"[xi'(0,1)]"),
            exact_row(1, &whole, b"[]"),
        ];
        for r in &rows {
            assert!(rt; has(rt.alloc(), KPZ, tree, 4, r));
        }
    }

    #[test]
    fn a_planted_tree_is_not_extracted(rt: HostRuntime) {
        let tree = b"[u'(0,1)[u'(0,1)[xi]*u'(0,1)[xi]]]".as_slice();
        let rows = [
            exact_row(1, &[], tree),
            exact_row(2, &[b"[xi]"], b"[u'(0,1)[u'(0,1)[]*u'(0,1)[xi]]]"),
            exact_row(1, &[b"[u'(0,1)[xi]*u'(0,1)[xi]]"], b"[u'(0,1)[]]"),
            exact_row(1, &[b"[xi]", b"[xi]"], b"[u'(0,1)[u'(0,1)[]*u'(0,1)[]]]"),
        ];
        for r in &rows {
            assert!(rt; has(rt.alloc(), KPZ, tree, 4, r));
        }
    }

    #[test]
    fn five_terms_of_two_noises(rt: HostRuntime) {
        let tree = b"[u[xi]*u[eta]]".as_slice();
        let whole = [tree];
        let rows = [
            exact_row(1, &[], tree),
            exact_row(1, &[b"[xi]"], b"[u[]*u[eta]]"),
            exact_row(1, &[b"[eta]"], b"[u[]*u[xi]]"),
            exact_row(1, &whole, b"[]"),
            exact_row(1, &[b"[xi]", b"[eta]"], b"[u[]*u[]]"),
        ];
        for r in &rows {
            assert!(rt; has(rt.alloc(), TWO_NOISES, tree, 5, r));
        }
    }

    #[test]
    fn raised_edges_in_three_dimensions(rt: HostRuntime) {
        let tree = b"[u[xi]*u[u[xi]*u[xi]*u[xi]]]".as_slice();
        let rows = [
            exact_row(3, &[b"[u[xi]*u[xi]]"], b"[u[xi]*u[u[xi]]]"),
            exact_row(
                3,
                &[b"[X(0,0,0,1)*u[xi]*u[xi]]"],
                b"[u[xi]*u[u'(0,0,0,1)[xi]]]",
            ),
        ];
        for r in &rows {
            assert!(rt; has(rt.alloc(), PHI4, tree, 27, r));
        }
        let tree = b"[u[xi]*u[xi]*u[u[xi]*u[xi]]]";
        let noises = exact_row(4, &[b"[xi]", b"[xi]"], b"[u[]*u[xi]*u[u[]*u[xi]]]");
        assert!(rt; has(rt.alloc(), PHI4, tree, 29, &noises));
    }

    // 64! / 16!^4
    const MULTINOMIAL: i128 = 662122768410971464603908403461821400;

    #[test]
    fn coefficients_are_exact_or_out_of_range(rt: HostRuntime) {
        let tree = b"[X(16)*xi*u[X(16)*u[X(16)*u[X(16)]]]]".as_slice();
        let most = exact_row(MULTINOMIAL, &[b"[xi*u[u[u[]]]]"], b"[X(64)]");
        assert!(rt; has(rt.alloc(), WEAK_KERNEL, tree, 5, &most));
        let tree = b"[X(12)*xi*u[X(13)*u[X(13)*u[X(13)*u[X(13)]]]]]".as_slice();
        let past = Row {
            forest: &[b"[xi*u[u[u[u[]]]]]"],
            quotient: b"[X(64)]",
            coefficient: None,
        };
        assert!(rt; has(rt.alloc(), WEAK_KERNEL, tree, 6, &past));
    }
}
