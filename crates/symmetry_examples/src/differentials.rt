// Elementary differentials of trees, for equations that files write down.
use crate::interned;
use bumpalo::Bump;
use elementary_diff::{DiffRefusal, differential};
use equation_file::read_equation;
use std::alloc::Global;
use symbol_polys::print_poly;
use tree_pool::Pool;

/// The differential at the first unknown of the tree with this text, for the equation that a file writes down: the text of the polynomial, and the denominator; or the
/// refusal.
pub fn differential_text(
    alloc: Global,
    file: &[u8],
    text: &[u8],
) -> Option<Result<(Vec<u8>, u128), DiffRefusal>> {
    let Ok(eq) = read_equation(alloc, file) else {
        return None;
    };
    let unknown = eq.unknowns.as_slice().first()?;
    let arena = Bump::new(alloc);
    let Ok(mut pool) = Pool::new(alloc, &arena, &eq.types) else {
        return None;
    };
    let id = interned(alloc, &eq.types, &mut pool, text)?;
    match differential(alloc, &eq, unknown.kernel, &pool, id) {
        Ok(d) => {
            let printed = print_poly(alloc, &eq.types, eq.parameters.as_slice(), &d.poly).ok()?;
            Some(Ok((printed, d.denominator)))
        }
        Err(refusal) => Some(Err(refusal)),
    }
}

#[cfg(test)]
mod tests {
    use super::*;

    // A file in two dimensions with the noise xi and the unknown u.
    fn kpz_file(alloc: Global, right: &str) -> Option<String> {
        let mut text = String::new(alloc);
        text.push_str(
            "version = 1\nscaling = [2, 1]\nparameters = [\"a\"]\n[[noise]]\nname = \"xi\"\ndegree = \"-3/2-k\"\n[[unknown]]\nname = \"u\"\ndegree = \"2\"\nregularity = \"1/4\"\nright = \"",
        ).ok()?;
        text.push_str(right).ok()?;
        text.push_str("\"\n").ok()?;
        Some(text)
    }

    // Whether the tree has this differential, over this denominator.
    fn has(alloc: Global, right: &str, text: &[u8], poly: &[u8], denominator: u128) -> bool {
        let Some(file) = kpz_file(alloc, right) else {
            return false;
        };
        match differential_text(alloc, file.as_bytes(), text) {
            Some(Ok((printed, d))) => printed.as_slice() == poly && d == denominator,
            _ => false,
        }
    }

    fn is_refused(alloc: Global, right: &str, text: &[u8], refusal: DiffRefusal) -> bool {
        let Some(file) = kpz_file(alloc, right) else {
            return false;
        };
        match differential_text(alloc, file.as_bytes(), text) {
            Some(Err(why)) => why == refusal,
            _ => false,
        }
    }

    const KPZ: &str = "u'(0,1)^2+xi";

    const FIFTH: &[u8] = b"[u'(0,1)[xi]*u'(0,1)[u'(0,1)[xi]*u'(0,1)[u'(0,1)[xi]*u'(0,1)[xi]]]]";

    #[test]
    fn differentials_of_the_kpz_equation(rt: HostRuntime) {
        let cases = [
            (b"[xi]".as_slice(), b"1".as_slice(), 1),
            (b"[u'(0,1)[xi]*u'(0,1)[xi]]", b"2", 2),
            (b"[u'(0,1)[xi]*u'(0,1)[u'(0,1)[xi]*u'(0,1)[xi]]]", b"4", 2),
            (b"[X(0,1)*xi]", b"0", 1),
            (FIFTH, b"8", 2),
            (
                b"[u'(0,1)[u'(0,1)[xi]*u'(0,1)[xi]]*u'(0,1)[u'(0,1)[xi]*u'(0,1)[xi]]]",
                b"8",
                8,
            ),
            (b"[u'(0,1)[xi]*u'(0,1)[X(0,1)*xi]]", b"0", 1),
            (b"[X(0,1)*u'(0,1)[xi]*u'(0,1)[xi]]", b"0", 1),
            (b"[u'(0,1)[xi]*u'(0,1)[u'(0,1)[xi]]]", b"4*u'(0,1)", 1),
            (b"[xi'(0,1)]", b"0", 1),
        ];
        for (text, poly, denominator) in cases {
            assert!(rt; has(rt.alloc(), KPZ, text, poly, denominator));
        }
    }

    #[test]
    fn total_derivatives_noises_and_fractions(rt: HostRuntime) {
        let cases = [
            (
                "u^2*xi",
                b"[X(0,2)*xi]".as_slice(),
                b"2*u*u'(0,2)+2*u'(0,1)^2".as_slice(),
                1,
            ),
            (
                "a*u^2*xi",
                b"[X(1,1)*xi]",
                b"2*a*u*u'(1,1)+2*a*u'(0,1)*u'(1,0)",
                1,
            ),
            ("u^2*xi", b"[xi*u[xi]]", b"2*u^3", 1),
            ("u^2*xi", b"[u[xi]]", b"0", 1),
            ("u^3-u*xi", b"[u[]*u[xi]]", b"-6*u^5", 1),
            ("1/2*u-1/2*u+xi", b"[xi]", b"2", 2),
            ("1/2*u^2-2/3*xi", b"[u[xi]*u[xi]]", b"96", 432),
        ];
        for (right, text, poly, denominator) in cases {
            assert!(rt; has(rt.alloc(), right, text, poly, denominator));
        }
    }

    #[test]
    fn the_mass_is_at_most_the_largest_number(rt: HostRuntime) {
        let past = "1000000*u'(0,1)^2+67910*xi";
        assert!(rt; is_refused(rt.alloc(), past, FIFTH, DiffRefusal::CoefficientTooLarge));
        let most = b"170137218361290103688000000000000000000";
        assert!(rt; has(rt.alloc(), "1000000*u'(0,1)^2+67909*xi", FIFTH, most, 2));
    }

    #[test]
    fn a_factor_0_wins_over_a_mass_that_is_too_large(rt: HostRuntime) {
        let text =
            b"[u'(0,1)[xi'(0,1)]*u'(0,1)[u'(0,1)[xi]*u'(0,1)[u'(0,1)[xi]*u'(0,1)[u'(0,1)[xi]*u'(0,1)[xi]]]]]";
        assert!(rt; has(rt.alloc(), "1000000*u'(0,1)^2+1000000*xi", text, b"0", 1));
    }

    #[test]
    fn the_denominator_is_at_most_the_largest_number(rt: HostRuntime) {
        let right = "1/1000000*u'(0,1)^2+xi";
        assert!(rt; is_refused(rt.alloc(), right, FIFTH, DiffRefusal::DenominatorTooLarge));
    }
}
