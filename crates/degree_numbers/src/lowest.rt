// Fractions in lowest terms, to be printed.
ghost use Rattle.std.specs.Prelude.{◌≤◌, ◌^◌};

/// A fraction in lowest terms, under its sign.
#[derive(Clone, Copy, Debug, PartialEq, Eq)]
pub struct Lowest {
    pub negative: bool,
    pub num: u64,
    pub den: u64,
    ghost num_fits: { num ≤ 2 ^ 63 },
    ghost den_fits: { den ≤ 1000000 },
}
