// The shifts of an edge that leave its branch a degree above 0.
ghost use Rattle.std.specs.Prelude.{◌≡◌, ◌≤◌, ◌*◌, ◌<ℤ◌, ◌-ℤ◌, suc, sum, map, filter, length, pos, unsigned_abs, FitsSigned, IfOk};
ghost use Rattle.std.specs.Int.{w64};
ghost use Rattle.std.specs.List.{AllByRecursion};
ghost use Rattle.degree_numbers.specs.Degree.{IsWithin};
ghost use Rattle.degree_numbers.specs.Types.{AreTypes};
ghost use Rattle.plain_trees.specs.Coproducts.{is_above_zero};
ghost use Rattle.cutting_sizes.specs.Bounds.{most_shift};
ghost use Rattle.pooled_cuttings.specs.RightProducts.{IsRightEdge, IsRightShifts, branch_of, lowered};

use crate::steps::shift_size;
use cutting_tables::shifts_below;
use degree_numbers::{Degree, Multi, Types};
use plain_trees::edge_degree;
use std::alloc::{AllocError, Global};
use tree_pool::{EdgeTo, Pool, PoolError};

/// The degree of a branch: that of its edge and of the tree above it together.
fn branch_degree(pool: &Pool<'_>, edge: &EdgeTo) -> Degree
    requires edge { IsRightEdge pool.now edge.now }
    ensures within { IsWithin result.a 1000000000000 }
    ensures degree { result ≡ branch_of pool.now edge.now }
{
    pool.laws();
    edge_degree(pool.types(), edge.kind, &edge.p).plus(&pool.degree(edge.child))
}

/// A degree less a size, which is a standard part.
fn less(branch: &Degree, size: i64) -> Degree
    requires { FitsSigned w64 (branch.now.a -ℤ size) }
    ensures a { result.a ≡ branch.now.a -ℤ size }
    ensures b { result.b ≡ branch.now.b }
{
    Degree {
        a: branch.a - size,
        b: branch.b,
    }
}

/// Whether a branch of this degree has one above 0 when its edge is raised by `s`.
fn stays_above_zero(types: &Types, branch: &Degree, s: &Multi) -> bool
    requires types { AreTypes types.now }
    requires within { IsWithin branch.now.a 1000000000000 }
    requires small { sum s.now.entries ≤ 8192 }
    ensures { result ≡ is_above_zero (lowered types.now branch.now s.now.entries) }
{
    let left = less(branch, shift_size(types, s));
    left.order(&Degree { a: 0, b: 0 }).is_gt()
}

/// The greatest shift in one direction that a branch of this degree has to be tried with.
fn most_to_try(types: &Types, branch: &Degree) -> u32
    requires types { AreTypes types.now }
    requires high { branch.now.a <ℤ pos (unsigned_abs types.now.units.den * suc most_shift) }
    ensures within { result ≤ most_shift }
    ensures ample { branch.now.a <ℤ pos (unsigned_abs types.now.units.den * suc result) }
{
    if branch.a < 0 {
        return 0;
    }
    (branch.a.unsigned_abs() / types.units.den.unsigned_abs()) as u32
}

/// Those of some shifts that leave a branch of this degree one above 0.
fn kept_shifts(
    alloc: Global,
    types: &Types,
    branch: &Degree,
    shifts: &[Multi],
) -> Result<Vec<Multi>, AllocError>
    requires types { AreTypes types.now }
    requires within { IsWithin branch.now.a 1000000000000 }
    requires small { AllByRecursion (λ s. sum s.entries ≤ 8192) shifts.now }
    ensures { IfOk result (λ ss. map (λ m. m.entries) ss.items
        ≡ filter (λ s. is_above_zero (lowered types.now branch.now s))
        (map (λ m. m.entries) shifts.now)) }
{
    let mut kept = Vec::new(alloc);
    for s in shifts {
        if stays_above_zero(types, branch, s) {
            kept.push(*s)?;
        }
    }
    Ok(kept)
}

/// The shifts of an edge that leave its branch a degree above 0.
pub(crate) fn right_shifts(
    pool: &Pool<'_>,
    alloc: Global,
    edge: &EdgeTo,
) -> Result<Vec<Multi>, AllocError>
    requires edge { IsRightEdge pool.now edge.now }
    requires decoration { length edge.now.p.entries ≡ 5 }
    requires high { (branch_of pool.now edge.now).a
        <ℤ pos (unsigned_abs pool.now.types.units.den * suc most_shift) }
    ensures small { IfOk result (λ ss. AllByRecursion (λ s. sum s.entries ≤ 8192) ss.items) }
    ensures shifts { IfOk result (λ ss. IsRightShifts pool.now edge.now
        (map (λ m. m.entries) ss.items)) }
{
    let branch = branch_degree(pool, edge);
    let most = most_to_try(pool.types(), &branch);
    let all = shifts_below(alloc, pool.types(), most)?;
    kept_shifts(alloc, pool.types(), &branch, all.as_slice())
}
