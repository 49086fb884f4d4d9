// Degrees as they are written.
ghost use Rattle.std.specs.Prelude.{◌≤◌, ◌<ℤ◌, ◌≤ℤ◌, unsigned_abs, pos};
ghost use Rattle.std.specs.Int.{IsGcd};

/// The degree `a + b*k` as it is written: the fractions `a_num / a_den` and `b_num / b_den` in
/// lowest terms, with denominators from 1 to 1,000,000 (`LARGEST_NUMBER`) and numerators of
/// absolute value at most 1,000,000. Zero is 0 over 1.
#[derive(Clone, Copy, Debug, PartialEq, Eq)]
pub struct WrittenDegree {
    pub a_num: i64,
    pub a_den: i64,
    pub b_num: i64,
    pub b_den: i64,
    ghost a_num_fits: { unsigned_abs a_num ≤ 1000000 },
    ghost a_den_above: { pos 0 <ℤ a_den },
    ghost a_den_fits: { a_den ≤ℤ pos 1000000 },
    ghost a_lowest: { IsGcd (unsigned_abs a_num) (unsigned_abs a_den) 1 },
    ghost b_num_fits: { unsigned_abs b_num ≤ 1000000 },
    ghost b_den_above: { pos 0 <ℤ b_den },
    ghost b_den_fits: { b_den ≤ℤ pos 1000000 },
    ghost b_lowest: { IsGcd (unsigned_abs b_num) (unsigned_abs b_den) 1 },
}
