// The text of a degree.
ghost use Rattle.std.specs.Prelude.{◌≡◌, ◌++◌, ◌+◌, ◌≤◌, ◌<◌, ◌<ℤ◌, ◌≤ℤ◌, length, pos, codes, decimal, unsigned_abs};
ghost use Rattle.degree_numbers.specs.Printing.{fraction_text, plain_text, k_text, k_sign, IsDegreeText, IsLowestOf};
ghost use Rattle.degree_numbers.specs.View.{lowest};

use crate::degree::{Degree, Units};
use crate::fraction::lowest;
use crate::lowest::Lowest;
use crate::small_text::SmallText;
use itoa::Buffer;

/// The text of a degree, in place of what the buffer holds: the plain part where it is not 0, then
/// the part with `k` where it is not 0, each a fraction in lowest terms; `0` where both are 0.
pub fn print_degree(d: Degree, units: Units, out: &mut SmallText)
    requires above { pos 0 <ℤ units.den }
    requires fits { units.den ≤ℤ pos 1000000 }
    ensures { IsDegreeText d (unsigned_abs units.den) out.new }
{
    let den = units.den.unsigned_abs();
    let plain = lowest_of(d.a, den);
    let with_k = lowest_of(d.b, den);
    out.clear();
    print_plain(plain, out);
    if with_k.num != 0 {
        print_k(plain.num == 0, with_k, out);
    } else if plain.num == 0 {
        out.push(b'0');
    }
}

// z over den, in lowest terms.
fn lowest_of(z: i64, den: u64) -> Lowest
    requires above { 0 < den }
    requires fits { den ≤ 1000000 }
    ensures { IsLowestOf z den (lowest result) }
{
    let (num, den) = lowest(z.unsigned_abs(), den);
    Lowest {
        negative: z.is_negative(),
        num,
        den,
    }
}

fn print_plain(f: Lowest, out: &mut SmallText)
    requires { length out.old ≤ 2 }
    ensures text { out.new ≡ out.old ++ plain_text (lowest f) }
    ensures length { length out.new ≤ length out.old + 28 }
{
    if f.num == 0 {
        return;
    }
    if f.negative {
        out.push(b'-');
    }
    print_fraction(f, out);
}

fn print_k(first: bool, f: Lowest, out: &mut SmallText)
    requires { length out.old ≤ 30 }
    ensures text { out.new ≡ out.old ++ k_sign first (lowest f) ++ k_text (lowest f) }
{
    if f.negative {
        out.push(b'-');
    } else if !first {
        out.push(b'+');
    }
    if f.num == 1 && f.den == 1 {
        out.push(b'k');
    } else {
        print_fraction(f, out);
        out.push_all(b"*k");
    }
}

#[tactic(auto, using(crate::proofs::Lengths::decimal_lengths))]
fn print_fraction(f: Lowest, out: &mut SmallText)
    requires { length out.old ≤ 32 }
    ensures text { out.new ≡ out.old ++ fraction_text (lowest f) }
    ensures length { length out.new ≤ length out.old + 27 }
{
    print_number(f.num, out);
    if f.den != 1 {
        out.push(b'/');
        print_number(f.den, out);
    }
}

fn print_number(n: u64, out: &mut SmallText)
    requires { length out.old + length (decimal n) ≤ 64 }
    ensures { out.new ≡ out.old ++ decimal n }
{
    let mut buffer = Buffer::new();
    out.push_all(buffer.format(n).as_bytes());
}
