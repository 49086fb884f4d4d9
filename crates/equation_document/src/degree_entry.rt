// Degrees as a file writes them.
ghost use Rattle.std.specs.Prelude.{◌≡◌, ◌≤◌, None};
ghost use Rattle.degree_numbers.specs.DegreeText.{written_of};
ghost use Rattle.degree_numbers.specs.View.{fraction};
ghost use Rattle.degree_numbers.specs.Written.{has_k, above_zero, in_units_of, degree_in};
ghost use Rattle.equation_document.specs.DegreeEntry.{written, is_standard, is_positive, rounded_up, degree_size};

use crate::bounds::LARGEST_DEGREE;
use crate::terms::over;
use degree_numbers::{Degree, Fraction, Parts, degree_parts, first_large, fraction_with};
use right_side_text::{Denominator, WrittenFraction};
use std::marker::Model;

/// A degree as a file writes it. Contracts see its plain fraction, that of `k`, and its first
/// number past 1,000,000 (`LARGEST_NUMBER`).
#[derive(Debug, Drop)]
pub struct DegreeEntry {
    read: Parts,
}

impl Model for DegreeEntry {
    ghost use Rattle.degree_numbers.specs.DegreeText.{Written};
    ghost use Rattle.degree_numbers.specs.View.{parts};
    ghost use Rattle.equation_document.specs.DegreeEntry.{coded_written};

    ghost Value = { Written };

    ghost coded = { coded_written };

    ghost view = { λ d. parts d.read };
}

impl DegreeEntry {
    /// The degree that a text writes: `None` exactly where the text is no degree text.
    pub fn new(text: &[u8]) -> Option<DegreeEntry>
        ensures { result ≡ written_of text.now }
    {
        let read = degree_parts(text)?;
        Some(DegreeEntry { read })
    }

    /// The plain fraction.
    pub fn plain(&self) -> Fraction
        ensures value { fraction result ≡ self.now.plain }
        ensures small { self.now.large ≡ None → (result.num ≤ 1000000) × (result.den ≤ 1000000) }
    {
        fraction_with(false, self.read)
    }

    /// The fraction of `k`.
    pub fn with_k(&self) -> Fraction
        ensures value { fraction result ≡ self.now.with_k }
        ensures small { self.now.large ≡ None → (result.num ≤ 1000000) × (result.den ≤ 1000000) }
    {
        fraction_with(true, self.read)
    }

    /// The first written number past 1,000,000 (`LARGEST_NUMBER`).
    pub fn large(&self) -> Option<u64>
        ensures { result ≡ self.now.large }
    {
        first_large(self.read)
    }

    /// Whether the coefficient of `k` is 0.
    pub fn is_standard(&self) -> bool
        ensures { result ≡ is_standard self.now }
    {
        self.with_k().num == 0
    }

    /// Whether there is no `k` part and the degree is above 0.
    pub fn is_positive(&self) -> bool
        ensures { result ≡ is_positive self.now }
    {
        let plain = self.plain();
        self.is_standard() && plain.num != 0 && !plain.negative
    }

    /// The size of the plain part, else of the coefficient of `k`, rounded up, where it passes 20
    /// (`LARGEST_DEGREE`).
    pub fn size(&self) -> Option<u64>
        ensures { result ≡ degree_size self.now }
    {
        if let Some(passed) = over(LARGEST_DEGREE, rounded_up(self.plain())) {
            return Some(passed);
        }
        over(LARGEST_DEGREE, rounded_up(self.with_k()))
    }

    /// The degree in units of one over `den`.
    pub fn in_units(&self, den: u64) -> Degree
        requires den { den ≤ 1000000 }
        requires small { self.now.large ≡ None }
        ensures { result ≡ degree_in den self.now }
    {
        Degree {
            a: in_units_of(den, self.plain()),
            b: in_units_of(den, self.with_k()),
        }
    }
}

fn rounded_up(f: Fraction) -> u64
    ensures { result ≡ rounded_up (fraction f) }
{
    (f.num + (f.den - 1)) / f.den
}

// A fraction in units of one over `den`.
fn in_units_of(den: u64, f: Fraction) -> i64
    requires den { den ≤ 1000000 }
    requires num { f.num ≤ 1000000 }
    ensures { result ≡ in_units_of den (fraction f) }
{
    let size = (den * f.num / f.den) as i64;
    if f.negative { -size } else { size }
}

/// The fraction as a written one.
pub fn written(f: Fraction) -> WrittenFraction
    ensures { result ≡ written (fraction f) }
{
    WrittenFraction {
        negative: f.negative,
        num: f.num,
        den: Denominator::new(f.den),
    }
}
