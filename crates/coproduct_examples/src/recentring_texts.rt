// The terms of recentring coproducts as texts.
ghost use Rattle.degree_numbers.specs.Types.{AreTypes};

use crate::recentring::asked_recentring;
use crate::trees::{interned, put_tree};
use bumpalo::Bump;
use degree_numbers::Types;
use equation_file::read_equation;
use recentring_coproduct::{CoproductError, Recentrer, RightTerm};
use std::alloc::Global;
use tree_pool::Pool;

/// Puts a term behind others, on a line of its own: the coefficient, the left tree, the right tree.
fn put_term(alloc: Global, out: &mut Vec<u8>, pool: &Pool<'_>, term: &RightTerm) -> Option<()> {
    if term.left.0 >= pool.len() || term.right.0 >= pool.len() {
        return None;
    }
    let coefficient = term.coefficient;
    let front = format!(in alloc; "{coefficient} ").ok()?;
    out.extend_from_slice(front.as_bytes()).ok()?;
    put_tree(alloc, out, pool, term.left)?;
    out.extend_from_slice(b" | ").ok()?;
    put_tree(alloc, out, pool, term.right)?;
    out.push(b'\n').ok()
}

/// The text of terms, one a line.
fn terms_text(alloc: Global, pool: &Pool<'_>, terms: &[RightTerm]) -> Option<Vec<u8>> {
    let mut out = Vec::new(alloc);
    for term in terms {
        put_term(alloc, &mut out, pool, term)?;
    }
    Some(out)
}

/// A pool with the tree of this text, and its terms or the refusal.
fn terms_of<'a>(
    alloc: Global,
    arena: &'a Bump,
    types: &Types,
    text: &[u8],
) -> Option<(Pool<'a>, Result<&'a [RightTerm], CoproductError>)>
    requires { AreTypes types.now }
{
    let mut pool = Pool::new(alloc, arena, types).ok()?;
    let id = interned(alloc, types, &mut pool, text)?;
    let mut recentrer = Recentrer::new(alloc, arena).ok()?;
    let terms = asked_recentring(alloc, &mut recentrer, &mut pool, id)?;
    Some((pool, terms))
}

/// The terms of the recentring coproduct of the tree with this text, one a line; or the refusal.
pub fn recentring_text(
    alloc: Global,
    types: &Types,
    text: &[u8],
) -> Option<Result<Vec<u8>, CoproductError>>
    requires { AreTypes types.now }
{
    let arena = Bump::new(alloc);
    let (pool, terms) = terms_of(alloc, &arena, types, text)?;
    match terms {
        Ok(terms) => Some(Ok(terms_text(alloc, &pool, terms)?)),
        Err(refusal) => Some(Err(refusal)),
    }
}

/// The same, on the types of the equation that a file writes down.
pub fn recentring_of_file(
    alloc: Global,
    file: &[u8],
    text: &[u8],
) -> Option<Result<Vec<u8>, CoproductError>> {
    let Ok(eq) = read_equation(alloc, file) else {
        return None;
    };
    recentring_text(alloc, &eq.types, text)
}

/// How many terms a recentring coproduct has, and the greatest of their coefficients.
#[derive(Clone, Copy, Debug, PartialEq, Eq)]
pub struct TermCount {
    pub terms: usize,
    pub greatest: i128,
}

/// The number of these terms, and the greatest of their coefficients.
fn counted(terms: &[RightTerm]) -> TermCount {
    let mut greatest = 0;
    for term in terms {
        greatest = term.coefficient.max(greatest);
    }
    TermCount {
        terms: terms.len(),
        greatest,
    }
}

/// The number of terms of the tree with this text on the types of the equation that a file writes
/// down, and the greatest of their coefficients; or the refusal.
pub fn term_count_of_file(
    alloc: Global,
    file: &[u8],
    text: &[u8],
) -> Option<Result<TermCount, CoproductError>> {
    let Ok(eq) = read_equation(alloc, file) else {
        return None;
    };
    let arena = Bump::new(alloc);
    let (_, terms) = terms_of(alloc, &arena, &eq.types, text)?;
    match terms {
        Ok(terms) => Some(Ok(counted(terms))),
        Err(refusal) => Some(Err(refusal)),
    }
}

#[cfg(test)]
mod tests {
    use super::*;
    use known_types::{kpz_types, phi43_types};

    fn has_terms(alloc: Global, types: &Types, text: &[u8], terms: &[u8]) -> bool
        requires { AreTypes types.now }
    {
        match recentring_text(alloc, types, text) {
            Some(Ok(out)) => out.as_slice() == terms,
            _ => false,
        }
    }

    #[test]
    fn a_noise_with_a_decoration(rt: HostRuntime) {
        let types = kpz_types(rt.alloc()).expect(&rt, "types");
        let terms = b"1 [xi] | [X(0,1)]\n1 [X(0,1)*xi] | []\n";
        assert!(rt; has_terms(rt.alloc(), &types, b"[X(0,1)*xi]", terms));
        assert!(rt; has_terms(rt.alloc(), &types, b"[xi*xi]", b"1 [xi*xi] | []\n"));
    }

    #[test]
    fn a_branch_is_raised_as_far_as_it_stays_above_zero(rt: HostRuntime) {
        let types = phi43_types(rt.alloc()).expect(&rt, "types");
        let terms = b"1 [] | [u[u[xi]]]\n\
            1 [X(0,0,0,1)] | [u'(0,0,0,1)[u[xi]]]\n\
            1 [X(0,0,1,0)] | [u'(0,0,1,0)[u[xi]]]\n\
            1 [X(0,1,0,0)] | [u'(0,1,0,0)[u[xi]]]\n\
            1 [u[u[xi]]] | []\n";
        assert!(rt; has_terms(rt.alloc(), &types, b"[u[u[xi]]]", terms));
    }

    // A noise of positive degree.
    const HIGH_NOISE: &[u8] = b"version = 1\n\
        scaling = [2, 1, 1]\n\
        [[noise]]\n\
        name = \"xi\"\n\
        degree = \"1/2-k\"\n\
        [[unknown]]\n\
        name = \"u\"\n\
        degree = \"2\"\n\
        regularity = \"-1/2\"\n\
        right = \"xi\"\n";

    #[test]
    fn a_noise_above_zero_is_a_branch(rt: HostRuntime) {
        let terms = b"1 [] | [X(0,1,0)*xi]\n\
            1 [X(0,1,0)] | [xi]\n\
            1 [xi] | [X(0,1,0)]\n\
            1 [X(0,1,0)*xi] | []\n";
        let out = recentring_of_file(rt.alloc(), HIGH_NOISE, b"[X(0,1,0)*xi]")
            .expect(&rt, "read")
            .expect(&rt, "terms");
        assert!(rt; out.as_slice() == terms.as_slice());
    }

    // One direction of scaling 1, and kernels of degrees 16 and 7.
    const STRONG_KERNELS: &[u8] =
        b"version = 1\nscaling = [1]\n[[noise]]\nname = \"xi\"\ndegree = \"-1/2\"\n\
          [[unknown]]\nname = \"u\"\ndegree = \"16\"\nregularity = \"1\"\nright = \"xi\"\n\
          [[unknown]]\nname = \"v\"\ndegree = \"7\"\nregularity = \"1\"\nright = \"xi\"\n";

    // 4 * 67! / (16! * 17!^3): three edges are raised by 17, one by 16.
    const GREATEST: i128 = 154947239832579302317200400901307816000;

    #[test]
    fn a_coefficient_of_multinomials_is_in_range_or_not(rt: HostRuntime) {
        let tree = b"[u[X(2)]*u[X(2)]*u[X(2)]*u[X(2)]]";
        let within = term_count_of_file(rt.alloc(), STRONG_KERNELS, tree).expect(&rt, "read");
        let count = TermCount {
            terms: 10626,
            greatest: GREATEST,
        };
        assert!(rt; within == Ok(count));
        // 8 * 47! / (5! * 6!^7) is just past 2^127 - 1
        let tree = b"[v[]*v[]*v[]*v[]*v[]*v[]*v[]*v[]]";
        let beyond = term_count_of_file(rt.alloc(), STRONG_KERNELS, tree).expect(&rt, "read");
        assert!(rt; matches!(beyond, Err(CoproductError::CoefficientTooLarge)));
    }
}
