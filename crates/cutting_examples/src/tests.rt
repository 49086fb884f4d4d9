// The term lists of known equations.
use crate::{
    Comparison, Count, compared_extractions, compared_recentrings, extraction_terms,
    recentring_terms,
};
use known_equations::{BURGERS_SYSTEM, COUPLED_KPZ, KPZ, PAM_2D, PHI4_2D, PHI4_3D};
use std::alloc::Global;
use std::process::Abort;

// So many trees, whose terms are all alike, and so many terms. The numbers of terms come from another
// program.
fn all_alike(trees: usize, terms: usize) -> Option<Comparison> {
    Some(Comparison {
        trees,
        alike: trees,
        terms,
    })
}

// Compares both coproducts of the listed trees of a file.
fn compare(
    rt: &impl Abort,
    alloc: Global,
    file: &[u8],
    trees: usize,
    extracted: usize,
    recentred: usize,
) {
    assert_eq!(rt;
        compared_extractions(alloc, file),
        all_alike(trees, extracted)
    );
    assert_eq!(rt;
        compared_recentrings(alloc, file),
        all_alike(trees, recentred)
    );
}

#[test]
fn terms_of_small_equations(rt: HostRuntime) {
    for (file, trees, extracted, recentred) in [
        (KPZ, 9, 76, 15),
        (PAM_2D, 4, 17, 7),
        (PHI4_2D, 9, 35, 19),
        (BURGERS_SYSTEM, 8, 30, 14),
    ] {
        compare(&rt, rt.alloc(), file, trees, extracted, recentred);
    }
}

#[test]
fn terms_of_phi4_in_three_dimensions(rt: HostRuntime) {
    compare(&rt, rt.alloc(), PHI4_3D, 43, 489, 98);
}

#[test]
fn terms_of_coupled_kpz_equations(rt: HostRuntime) {
    compare(&rt, rt.alloc(), COUPLED_KPZ, 46, 642, 79);
}

#[test]
fn terms_are_counted(rt: HostRuntime) {
    let trees = 9;
    assert_eq!(rt;
        extraction_terms(rt.alloc(), KPZ),
        Some(Count { trees, terms: 76 })
    );
    assert_eq!(rt;
        recentring_terms(rt.alloc(), KPZ),
        Some(Count { trees, terms: 15 })
    );
}
