// Refusals of degree texts.

/// Why a text is no degree, or degrees have no common denominator.
#[derive(Clone, Copy, Debug, PartialEq, Eq)]
pub enum DegreeRefusal {
    /// The text is no degree.
    DegreeText,
    /// A written number passes 1,000,000 (`LARGEST_NUMBER`): the first such number, which stops at
    /// 2^63-1; whether the coefficient of `k` is not 0; whether the plain part is not 0 and has no
    /// minus sign.
    NumberTooLarge {
        count: i64,
        has_k: bool,
        above_zero: bool,
    },
    /// The least common denominator passes 1,000,000 (`LARGEST_NUMBER`).
    DenominatorTooLarge,
}
