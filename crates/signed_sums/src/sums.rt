// Formal sums as lists of terms, each a key with a coefficient.
ghost use Rattle.std.specs.Prelude.{◌≡◌, ◌<◌, ◌+◌, ◌++◌, ◌∷◌, [], ◌+ℤ◌, unsigned_abs, IfOk, OnOk};
ghost use Rattle.exact_sums.specs.Saturating.{overflow, saturated};
ghost use Rattle.signed_sums.specs.Signed.{size_of, joined, without_zeros};

use exact_sums::Saturated;
use std::alloc::{AllocError, Global};

/// The sum of the absolute coefficients. Takes no memory.
pub fn size<K: Copy>(terms: &[(K, i128)]) -> Saturated
    ensures { result ≡ saturated (size_of terms.now) }
{
    let mut sum = Saturated::of(0);
    for term in terms {
        sum = sum.plus(Saturated::of(term.1.unsigned_abs()));
    }
    sum
}

/// Puts a term behind others, unless its coefficient is 0.
fn push_nonzero<K: Copy>(terms: &mut Vec<(K, i128)>, term: &(K, i128)) -> Result<(), AllocError>
    ensures { OnOk result (terms.new.items ≡ terms.old.items ++ without_zeros (term.now ∷ [])) }
{
    if term.1 != 0 {
        terms.push(*term)?;
    }
    Ok(())
}

/// Adds the coefficient of a term to that of another.
fn add_to<K: Copy>(sum: &mut (K, i128), term: &(K, i128))
    requires { unsigned_abs sum.old.1 + unsigned_abs term.now.1 < overflow }
    ensures key { sum.new.0 ≡ sum.old.0 }
    ensures coefficient { sum.new.1 ≡ sum.old.1 +ℤ term.now.1 }
{
    sum.1 += term.1;
}

/// The sum of terms of which those with equal keys are neighbours: each key once, with the sum of
/// its coefficients, unless that is 0.
pub fn sum_of_neighbours<K: Copy + PartialEq>(
    alloc: Global,
    terms: &[(K, i128)],
) -> Result<Vec<(K, i128)>, AllocError>
    requires { size_of terms.now < overflow }
    ensures { IfOk result (λ sums. sums.items ≡ without_zeros (joined K.eq terms.now)) }
{
    let mut sums = Vec::new(alloc);
    let [first, rest @ ..] = terms else {
        return Ok(sums);
    };
    let mut open = *first;
    for next in rest {
        if next.0 == open.0 {
            add_to(&mut open, next);
        } else {
            push_nonzero(&mut sums, &open)?;
            open = *next;
        }
    }
    push_nonzero(&mut sums, &open)?;
    Ok(sums)
}
