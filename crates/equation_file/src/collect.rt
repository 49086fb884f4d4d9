// Equal terms of a right side, added up.
ghost use Rattle.std.specs.Prelude.{◌≡◌, ◌*◌, ◌≤◌, ◌^◌, length, map, IfOk};
ghost use Rattle.std.specs.List.{list_any};
ghost use Rattle.equation_file.specs.Collect.{same, different, size, sum_under, coefficient_of, collected};

use crate::product::Product;
use equations::RightTerm;
use sqlite_items::Items;
use std::alloc::{AllocError, Global};

// Whether the parameters and the factors are the same.
fn is_same(a: &Product, b: &Product) -> bool
    ensures { result ≡ same a.now b.now }
{
    let p = a.parameters.as_slice();
    let q = b.parameters.as_slice();
    let f = a.factors.as_slice();
    let g = b.factors.as_slice();
    p.cmp(q).is_eq() && f.len().cmp(&g.len()).then(f.cmp(g)).is_eq()
}

fn is_seen(seen: &[&Product], term: &Product) -> bool
    ensures { result ≡ list_any (same term.now) (map (λ s. s.now) seen.now) }
{
    for s in seen {
        if is_same(term, *s) {
            return true;
        }
    }
    false
}

fn different<'a>(alloc: Global, terms: &'a [Product]) -> Result<Vec<&'a Product>, AllocError>
    ensures { IfOk result (λ v. map (λ s. s.now) v.items ≡ different terms.now) }
{
    let mut seen = Vec::new(alloc);
    for term in terms {
        if !is_seen(&seen, term) {
            seen.push(term)?;
        }
    }
    Ok(seen)
}

// The size of a coefficient, cleared by this denominator.
fn size(den: u64, term: &Product) -> u128
    requires { den ≤ 1000000 }
    ensures value { result ≡ size den term.now }
    ensures fits { result ≤ 1000000 * 2 ^ 64 }
{
    u128::from(den) * u128::from(term.coefficient.num) / u128::from(term.coefficient.den.get())
}

// The sum of the sizes of the terms under a sign that are the same as this one.
fn sum_under(negative: bool, den: u64, terms: &[Product], like: &Product) -> u128
    requires den { den ≤ 1000000 }
    requires few { length terms.now ≤ 64 }
    ensures value { result ≡ sum_under negative den terms.now like.now }
    ensures fits { result ≤ 64 * (1000000 * 2 ^ 64) }
{
    let mut sum = 0;
    for term in terms {
        if term.coefficient.negative == negative && is_same(like, term) {
            sum += size(den, term);
        }
    }
    sum
}

fn coefficient(den: u64, terms: &[Product], like: &Product) -> i128
    requires den { den ≤ 1000000 }
    requires few { length terms.now ≤ 64 }
    ensures { result ≡ coefficient_of den terms.now like.now }
{
    let plus = sum_under(false, den, terms, like);
    let minus = sum_under(true, den, terms, like);
    plus as i128 - minus as i128
}

/// The collected terms, in the order in which they are first written. Their coefficients are
/// cleared by `den`, and those that add up to 0 are left out.
pub fn collected(alloc: Global, den: u64, terms: &[Product]) -> Result<Items<RightTerm>, AllocError>
    requires den { den ≤ 1000000 }
    requires few { length terms.now ≤ 64 }
    ensures { IfOk result (λ v. v ≡ collected den terms.now) }
{
    let mut found = Items::new(alloc);
    for term in &different(alloc, terms)? {
        let coefficient = coefficient(den, terms, *term);
        if coefficient != 0 {
            found.push(RightTerm {
                coefficient,
                parameters: Items::from_slice(alloc, term.parameters.as_slice())?,
                factors: Items::from_slice(alloc, term.factors.as_slice())?,
            })?;
        }
    }
    Ok(found)
}
