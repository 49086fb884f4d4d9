// The terms of extraction coproducts as texts.
ghost use Rattle.degree_numbers.specs.Types.{AreTypes};

use crate::extraction::{asked_extraction, tables_with};
use crate::trees::put_tree;
use bumpalo::Bump;
use degree_numbers::Types;
use equation_file::read_equation;
use extraction_coproduct::{CoproductError, ExtractTerm, Tables, Work};
use std::alloc::Global;
use tree_pool::TreeId;

/// Puts the texts of trees behind others.
fn put_trees(alloc: Global, out: &mut Vec<u8>, tables: &Tables<'_>, ids: &[TreeId]) -> Option<()> {
    let pool = tables.pool();
    for id in ids {
        if id.0 < pool.len() {
            put_tree(alloc, out, pool, *id)?;
        }
    }
    Some(())
}

/// Puts a term behind others, on a line of its own: the coefficient, the trees of the forest, the
/// quotient.
fn put_term(
    alloc: Global,
    out: &mut Vec<u8>,
    tables: &Tables<'_>,
    term: &ExtractTerm,
) -> Option<()> {
    if term.forest.0 >= tables.forests().len() || term.quotient.0 >= tables.pool().len() {
        return None;
    }
    let coefficient = term.coefficient;
    let front = format!(in alloc; "{coefficient} {{").ok()?;
    out.extend_from_slice(front.as_bytes()).ok()?;
    put_trees(alloc, out, tables, tables.forests().trees(term.forest))?;
    out.extend_from_slice(b"} | ").ok()?;
    put_tree(alloc, out, tables.pool(), term.quotient)?;
    out.push(b'\n').ok()
}

/// The terms of a tree, one a line; or the refusal.
fn terms_text(
    alloc: Global,
    tables: &mut Tables<'_>,
    id: TreeId,
) -> Option<Result<Vec<u8>, CoproductError>> {
    let mut work = Work { tables: 0 };
    match asked_extraction(alloc, tables, id, &mut work)? {
        Ok(terms) => {
            let mut out = Vec::new(alloc);
            for term in terms {
                put_term(alloc, &mut out, tables, term)?;
            }
            Some(Ok(out))
        }
        Err(refusal) => Some(Err(refusal)),
    }
}

/// The terms of the coproduct of the tree with this text, one a line; or the refusal.
pub fn extraction_text(
    alloc: Global,
    types: &Types,
    text: &[u8],
) -> Option<Result<Vec<u8>, CoproductError>>
    requires { AreTypes types.now }
{
    let arena = Bump::new(alloc);
    let (mut tables, id) = tables_with(alloc, &arena, types, text)?;
    terms_text(alloc, &mut tables, id)
}

/// The same, on the types of the equation that a file writes down.
pub fn extraction_of_file(
    alloc: Global,
    file: &[u8],
    text: &[u8],
) -> Option<Result<Vec<u8>, CoproductError>> {
    let Ok(eq) = read_equation(alloc, file) else {
        return None;
    };
    extraction_text(alloc, &eq.types, text)
}

#[cfg(test)]
mod tests {
    use super::*;
    use known_types::{kpz_types, phi43_types};

    fn has_terms(alloc: Global, types: &Types, text: &[u8], terms: &[u8]) -> bool
        requires { AreTypes types.now }
    {
        match extraction_text(alloc, types, text) {
            Some(Ok(out)) => out.as_slice() == terms,
            _ => false,
        }
    }

    #[test]
    fn a_noise_with_a_decoration(rt: HostRuntime) {
        let types = kpz_types(rt.alloc()).expect(&rt, "types");
        let terms = b"1 {} | [X(0,1)*xi]\n1 {[xi]} | [X(0,1)]\n1 {[X(0,1)*xi]} | []\n";
        assert!(rt; has_terms(rt.alloc(), &types, b"[X(0,1)*xi]", terms));
    }

    // The dynamic Phi^4 model in two dimensions with a second noise.
    const TWO_NOISES: &[u8] =
        b"version = 1\nscaling = [2, 1, 1]\n[[noise]]\nname = \"xi\"\ndegree = \"-2-k\"\n\
          [[noise]]\nname = \"eta\"\ndegree = \"-2-k\"\n[[unknown]]\nname = \"u\"\n\
          degree = \"2\"\nregularity = \"-1/2\"\nright = \"-u^3+xi+eta\"\n";

    #[test]
    fn forests_of_one_and_of_two_noises(rt: HostRuntime) {
        let terms = b"1 {} | [u[xi]*u[eta]]\n1 {[xi]} | [u[]*u[eta]]\n1 {[eta]} | [u[]*u[xi]]\n\
              1 {[u[xi]*u[eta]]} | []\n1 {[xi][eta]} | [u[]*u[]]\n";
        let out = extraction_of_file(rt.alloc(), TWO_NOISES, b"[u[xi]*u[eta]]")
            .expect(&rt, "read")
            .expect(&rt, "terms");
        assert!(rt; out.as_slice() == terms.as_slice());
    }

    #[test]
    fn equal_noises_are_cut_in_two_ways(rt: HostRuntime) {
        let types = phi43_types(rt.alloc()).expect(&rt, "types");
        let terms = b"1 {} | [u[xi]*u[xi]]\n2 {[xi]} | [u[]*u[xi]]\n1 {[u[xi]*u[xi]]} | []\n\
              1 {[xi][xi]} | [u[]*u[]]\n";
        assert!(rt; has_terms(rt.alloc(), &types, b"[u[xi]*u[xi]]", terms));
    }

    // One direction of scaling 1, a noise of degree -1/2, a kernel of degree 1/10.
    const DECORATED: &[u8] =
        b"version = 1\nscaling = [1]\n[[noise]]\nname = \"xi\"\ndegree = \"-1/2\"\n[[unknown]]\n\
          name = \"u\"\ndegree = \"1/10\"\nregularity = \"-1/2\"\nright = \"xi\"\n";

    #[test]
    fn a_coefficient_of_multinomials_is_in_range_or_not(rt: HostRuntime) {
        let within = extraction_of_file(
            rt.alloc(),
            DECORATED,
            b"[X(16)*xi*u[X(16)*u[X(16)*u[X(16)]]]]",
        )
        .expect(&rt, "read");
        assert!(rt; within.is_ok());
        let beyond = extraction_of_file(
            rt.alloc(),
            DECORATED,
            b"[X(12)*xi*u[X(13)*u[X(13)*u[X(13)*u[X(13)]]]]]",
        )
        .expect(&rt, "read");
        assert!(rt; matches!(beyond, Err(CoproductError::CoefficientTooLarge)));
    }
}
