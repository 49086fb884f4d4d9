// Fractions in lowest terms.
ghost use Rattle.std.specs.Prelude.{◌≤◌, ◌<ℤ◌, ◌≤ℤ◌, unsigned_abs, pos};
ghost use Rattle.std.specs.Int.{IsGcd};

/// A fraction in lowest terms.
#[derive(Clone, Copy, Debug, PartialEq, Eq)]
pub struct Reduced {
    pub num: i64,
    pub den: i64,
    ghost num_fits: { unsigned_abs num ≤ 1000000 },
    ghost den_above: { pos 0 <ℤ den },
    ghost den_fits: { den ≤ℤ pos 1000000 },
    ghost lowest: { IsGcd (unsigned_abs num) (unsigned_abs den) 1 },
}
