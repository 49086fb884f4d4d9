// The parts of a degree text.
ghost use Rattle.std.specs.Prelude.{◌<◌, ◌^◌};

/// A fraction as it is written, under its sign.
#[derive(Clone, Copy, Debug, PartialEq, Eq)]
pub struct Fraction {
    pub negative: bool,
    pub num: u64,
    pub den: u64,
    ghost num_fits: { num < 2 ^ 63 },
    ghost den_above: { 0 < den },
    ghost den_fits: { den < 2 ^ 63 },
}

/// A fraction, and whether `k` stands behind it.
#[derive(Clone, Copy, Debug, PartialEq, Eq)]
pub struct Part {
    pub fraction: Fraction,
    pub has_k: bool,
}

/// The parts in the order in which they are written.
#[derive(Clone, Copy, Debug, PartialEq, Eq)]
pub struct Parts {
    pub first: Part,
    pub second: Option<Part>,
}
