// Terms are summed: by tree, and all together.
ghost use Rattle.std.specs.Prelude.{◌≡◌, ◌<◌, ◌+◌, ◌+ℤ◌, ◌++◌, ◌∷◌, [], map, unsigned_abs, ℤ, IfOk, OnOk};
ghost use Rattle.std.specs.List.Sorted.{IsSorted, IsPermutation};
ghost use Rattle.exact_sums.specs.Saturating.{overflow};
ghost use Rattle.signed_sums.specs.Signed.{size_of, IsSumOf};
ghost use Rattle.plain_trees.specs.Plain.{tree_order};
ghost use Rattle.characters.specs.Asked.{AreKnownTerms, terms_over, key_order, line_of};
ghost use Rattle.characters.specs.Sums.{AreKnownLines, lines_over, sum_of};

use crate::line::Line;
use signed_sums::sum_of_neighbours;
use std::alloc::{AllocError, Global};
use tree_pool::{Pool, TreeId};

/// Sorts terms by their trees, in tree order.
fn sort_terms(pool: &Pool<'_>, terms: &mut Vec<(TreeId, i128)>)
    ensures sorted { IsSorted (key_order pool.now) terms.new.items }
    ensures same { IsPermutation terms.old.items terms.new.items }
{
    terms.sort_unstable_by(|s, t| pool.order(s.0, t.0));
}

/// The line of a term.
fn line_of(term: &(TreeId, i128)) -> Line
    ensures { result ≡ line_of term.now }
{
    Line {
        coefficient: term.1,
        tree: term.0,
    }
}

/// Puts a line behind others.
fn push_line(lines: &mut Vec<Line>, line: Line) -> Result<(), AllocError>
    ensures { OnOk result (lines.new.items ≡ lines.old.items ++ line ∷ []) }
{
    lines.push(line)?;
    Ok(())
}

/// The lines of terms.
fn lines_of(alloc: Global, terms: &[(TreeId, i128)]) -> Result<Vec<Line>, AllocError>
    ensures { IfOk result (λ v. v.items ≡ map line_of terms.now) }
{
    let mut lines = Vec::new(alloc);
    for term in terms {
        push_line(&mut lines, line_of(term))?;
    }
    Ok(lines)
}

/// The sum of terms by tree: lines in tree order, without zeros.
pub(crate) fn sum_by_tree(
    alloc: Global,
    pool: &Pool<'_>,
    terms: &mut Vec<(TreeId, i128)>,
) -> Result<Vec<Line>, AllocError>
    requires known { AreKnownTerms pool.now terms.old.items }
    requires range { size_of (terms_over pool.now terms.old.items) < overflow }
    ensures sum { IfOk result (λ v. IsSumOf tree_order (terms_over pool.now terms.old.items)
        (lines_over pool.now v.items)) }
    ensures known { IfOk result (λ v. AreKnownLines pool.now v.items) }
{
    pool.laws();
    sort_terms(pool, terms);
    let sums = sum_of_neighbours(alloc, terms.as_slice())?;
    lines_of(alloc, sums.as_slice())
}

/// Adds the coefficient of a term to a number.
fn add_to(sum: &mut i128, term: &(TreeId, i128))
    requires { unsigned_abs sum.old + unsigned_abs term.now.1 < overflow }
    ensures { sum.new ≡ sum.old +ℤ term.now.1 }
{
    *sum += term.1;
}

/// The sum of all terms.
pub(crate) fn sum_of(terms: &[(TreeId, i128)]) -> i128
    requires { size_of terms.now < overflow }
    ensures { result ≡ sum_of terms.now }
{
    let mut sum = 0;
    for term in terms {
        add_to(&mut sum, term);
    }
    sum
}
