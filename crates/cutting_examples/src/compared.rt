// The term lists of the listed trees of a file, compared with those of the plain program.
ghost use Rattle.std.specs.Prelude.{◌≡◌};
ghost use Rattle.recentring_coproduct.specs.Held.{FitsPool};

use crate::flat::{Code, codes, nodes_of};
use crate::listed::{Listed, listed_trees};
use crate::terms::{Coproduct, Term, forest_and_quotient, left_and_right, terms_of};
use bumpalo::Bump;
use coproduct_examples::{asked_extraction, asked_recentring};
use extraction_coproduct::{ExtractTerm, Tables, Work};
use plain_trees::Tree;
use recentring_coproduct::{Recentrer, RightTerm};
use std::alloc::Global;
use tree_pool::{Pool, TreeId};

/// How many trees were compared, how many of them have the same terms in both lists, and how many
/// terms they have together.
#[derive(Clone, Copy, Debug, PartialEq, Eq)]
pub struct Comparison {
    pub trees: usize,
    pub alike: usize,
    pub terms: usize,
}

impl Comparison {
    fn count(&mut self, terms: &[Term], plain: &[Term]) -> Option<()> {
        self.trees = self.trees.checked_add(1)?;
        self.alike = self.alike.checked_add(usize::from(terms == plain))?;
        self.terms = self.terms.checked_add(plain.len())?;
        Some(())
    }
}

/// The tree with this number.
fn tree_at(alloc: Global, pool: &Pool<'_>, id: TreeId) -> Option<Tree> {
    if id.0 >= pool.len() {
        return None;
    }
    pool.plain(alloc, id).ok()
}

/// The code of the tree with this number.
fn code_at(alloc: Global, pool: &Pool<'_>, id: TreeId) -> Option<Code> {
    let nodes = nodes_of(alloc, &tree_at(alloc, pool, id)?)?;
    codes(alloc, nodes.as_slice())?.into_iter().next()
}

/// The term of an extraction coproduct, written down like the plain program's.
fn extracted(alloc: Global, tables: &Tables<'_>, term: &ExtractTerm) -> Option<Term> {
    if term.forest.0 >= tables.forests().len() {
        return None;
    }
    let mut forest = Vec::new(alloc);
    for id in tables.forests().trees(term.forest) {
        forest.push(code_at(alloc, tables.pool(), *id)?).ok()?;
    }
    let quotient = code_at(alloc, tables.pool(), term.quotient)?;
    Some(Term {
        trees: forest_and_quotient(alloc, forest, &quotient)?,
        coefficient: term.coefficient,
    })
}

/// The term of a recentring coproduct, written down like the plain program's.
fn recentred(alloc: Global, pool: &Pool<'_>, term: &RightTerm) -> Option<Term> {
    let left = code_at(alloc, pool, term.left)?;
    let right = code_at(alloc, pool, term.right)?;
    Some(Term {
        trees: left_and_right(alloc, &left, &right)?,
        coefficient: term.coefficient,
    })
}

/// Compares the extraction coproduct of a tree.
fn compare_extraction(
    alloc: Global,
    tables: &mut Tables<'_>,
    id: TreeId,
    comparison: &mut Comparison,
) -> Option<()> {
    let mut work = Work { tables: 0 };
    let found = asked_extraction(alloc, tables, id, &mut work)?.ok()?;
    let mut terms = Vec::new(alloc);
    for term in found {
        terms.push(extracted(alloc, tables, term)?).ok()?;
    }
    let tree = tree_at(alloc, tables.pool(), id)?;
    let plain = terms_of(alloc, tables.types(), Coproduct::Extraction, &tree)?;
    comparison.count(terms.as_slice(), plain.as_slice())
}

/// Compares the recentring coproduct of a tree.
fn compare_recentring<'a>(
    alloc: Global,
    recentrer: &mut Recentrer<'a>,
    pool: &mut Pool<'a>,
    id: TreeId,
    comparison: &mut Comparison,
) -> Option<()>
    requires { FitsPool recentrer.old pool.old }
    ensures { FitsPool recentrer.new pool.new }
{
    let found = asked_recentring(alloc, recentrer, pool, id)?.ok()?;
    let mut terms = Vec::new(alloc);
    for term in found {
        terms.push(recentred(alloc, pool, term)?).ok()?;
    }
    let tree = tree_at(alloc, pool, id)?;
    let plain = terms_of(alloc, pool.types(), Coproduct::Recentring, &tree)?;
    comparison.count(terms.as_slice(), plain.as_slice())
}

/// Nothing is compared yet.
const NOTHING: Comparison = Comparison {
    trees: 0,
    alike: 0,
    terms: 0,
};

/// The extraction coproducts of all listed trees of the completed rule of a file.
pub fn compared_extractions(alloc: Global, file: &[u8]) -> Option<Comparison> {
    let arena = Bump::new(alloc);
    let Listed { eq, trees, pool } = listed_trees(alloc, &arena, file)?;
    let mut tables = Tables::new(alloc, &arena, &eq.types, pool).ok()?;
    let mut comparison = NOTHING;
    for id in trees.as_slice() {
        compare_extraction(alloc, &mut tables, *id, &mut comparison)?;
    }
    Some(comparison)
}

/// The recentring coproducts of all listed trees of the completed rule of a file.
pub fn compared_recentrings(alloc: Global, file: &[u8]) -> Option<Comparison> {
    let arena = Bump::new(alloc);
    let Listed {
        trees,
        mut pool,
        ..
    } = listed_trees(alloc, &arena, file)?;
    let Ok(mut recentrer) = Recentrer::new(alloc, &arena) else {
        return None;
    };
    let mut comparison = NOTHING;
    for id in trees.as_slice() {
        compare_recentring(alloc, &mut recentrer, &mut pool, *id, &mut comparison)?;
    }
    Some(comparison)
}
