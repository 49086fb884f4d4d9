// Sums and multinomials of multiindices, each `None` where a number is out of its range.
use degree_numbers::{Degree, Multi, Types};
use std::alloc::Global;

/// The sum, entry by entry.
pub fn sum(m: &Multi, other: &Multi) -> Option<Multi> {
    let [a, b, c, d, e] = m.entries;
    let [v, w, x, y, z] = other.entries;
    Some(Multi {
        entries: [
            a.checked_add(v)?,
            b.checked_add(w)?,
            c.checked_add(x)?,
            d.checked_add(y)?,
            e.checked_add(z)?,
        ],
    })
}

/// The sum of a list.
pub fn sum_of(ms: &[Multi]) -> Option<Multi> {
    let mut all = Multi::zero();
    for m in ms {
        all = sum(&all, m)?;
    }
    Some(all)
}

/// The number of ways to choose `k` of `n` things.
fn binomial(n: u32, k: u32) -> Option<i128> {
    let mut ways = 1i128;
    for i in 0..k {
        let rest = i128::from(n.checked_sub(i)?);
        ways = ways.checked_mul(rest)?.checked_div(i128::from(i) + 1)?;
    }
    Some(ways)
}

/// The binomial of multiindices.
fn choose(n: &Multi, k: &Multi) -> Option<i128> {
    let mut ways = 1i128;
    for (n, k) in n.entries.iter().zip(k.entries.iter()) {
        ways = ways.checked_mul(binomial(*n, *k)?)?;
    }
    Some(ways)
}

/// The multinomial of multiindices.
pub fn multinomial(parts: &[Multi]) -> Option<i128> {
    let mut all = Multi::zero();
    let mut ways = 1i128;
    for part in parts {
        all = sum(&all, part)?;
        ways = ways.checked_mul(choose(&all, part)?)?;
    }
    Some(ways)
}

/// The multiindex with this entry in a direction.
fn with_entry(m: &Multi, direction: usize, entry: u32) -> Option<Multi> {
    let [a, b, c, d, e] = m.entries;
    let entries = match direction {
        0 => [entry, b, c, d, e],
        1 => [a, entry, c, d, e],
        2 => [a, b, entry, d, e],
        3 => [a, b, c, entry, e],
        4 => [a, b, c, d, entry],
        _ => return None,
    };
    Some(Multi { entries })
}

/// Each of the multiindices with each entry in this direction up to the greatest.
fn extended(alloc: Global, ms: &[Multi], direction: usize, greatest: u32) -> Option<Vec<Multi>> {
    let mut all = Vec::new(alloc);
    for m in ms {
        for entry in 0..=greatest {
            all.push(with_entry(m, direction, entry)?).ok()?;
        }
    }
    Some(all)
}

/// The multiindices that are at most this one.
pub fn below(alloc: Global, most: &Multi) -> Option<Vec<Multi>> {
    let mut all = Vec::new(alloc);
    all.push(Multi::zero()).ok()?;
    for (direction, greatest) in most.entries.iter().enumerate() {
        all = extended(alloc, all.as_slice(), direction, *greatest)?;
    }
    Some(all)
}

/// What a decoration with this multiindex adds to the degree of a node, and takes from that of an
/// edge.
pub fn size(types: &Types, m: &Multi) -> Option<i64> {
    let mut size = 0i64;
    for (weight, entry) in types.scaling.iter().zip(m.entries.iter()) {
        let more = i64::from(*weight).checked_mul(i64::from(*entry))?;
        size = size.checked_add(more)?;
    }
    size.checked_mul(types.units.den)
}

/// The degree with so much more.
pub fn raised(degree: &Degree, more: i64) -> Option<Degree> {
    Some(Degree {
        a: degree.a.checked_add(more)?,
        b: degree.b,
    })
}

/// The sum of two degrees.
pub fn plus(degree: &Degree, more: &Degree) -> Option<Degree> {
    Some(Degree {
        a: degree.a.checked_add(more.a)?,
        b: degree.b.checked_add(more.b)?,
    })
}

/// The degree with the other sign.
pub fn minus(degree: &Degree) -> Option<Degree> {
    Some(Degree {
        a: degree.a.checked_neg()?,
        b: degree.b.checked_neg()?,
    })
}

/// Whether a degree is below 0.
pub fn is_below_zero(degree: &Degree) -> bool {
    *degree < Degree { a: 0, b: 0 }
}

/// Whether a degree stays below 0 where this multiindex is added.
fn stays_below_zero(types: &Types, degree: &Degree, m: &Multi) -> Option<bool> {
    Some(is_below_zero(&raised(degree, size(types, m)?)?))
}

/// The multiindex with the greatest entry in each direction by which a degree stays below 0.
fn greatest_entries(types: &Types, degree: &Degree) -> Option<Multi> {
    let mut most = Multi::zero();
    for (entry, weight) in most
        .entries
        .iter_mut()
        .zip(types.scaling.iter())
        .take(usize::from(types.dims))
    {
        let unit = i64::from(*weight).checked_mul(types.units.den)?;
        let whole = degree.a.checked_neg()?.checked_div(unit)?;
        *entry = u32::try_from(whole.max(0)).ok()?;
    }
    Some(most)
}

/// The multiindices by which a degree stays below 0.
pub fn raises(alloc: Global, types: &Types, degree: &Degree) -> Option<Vec<Multi>> {
    let most = greatest_entries(types, degree)?;
    let mut all = Vec::new(alloc);
    for m in below(alloc, &most)?.as_slice() {
        if stays_below_zero(types, degree, m)? {
            all.push(*m).ok()?;
        }
    }
    Some(all)
}
