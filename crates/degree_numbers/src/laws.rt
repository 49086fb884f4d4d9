// Laws of multiindices, degrees and their texts.
ghost use Rattle.std.specs.Prelude.{◌≡◌, ◌<◌, ℕ, List, length, Some, None};
ghost use Rattle.std.specs.Cmp.{IsTotalOrder};
ghost use Rattle.std.specs.declared.cmp.Ordering.TheVariants.{Equal};
ghost use Rattle.degree_numbers.specs.declared.degree.Degree.{Degree};
ghost use Rattle.degree_numbers.specs.Multi.{plus_of, minus_of, IsAtMost, multi_order};
ghost use Rattle.degree_numbers.specs.Degree.{degree_plus, degree_order};
ghost use Rattle.degree_numbers.specs.DegreeText.{Written, written_of};
ghost use Rattle.degree_numbers.specs.Fraction.{IsFractionInRange};
ghost use Rattle.degree_numbers.specs.Printing.{IsDegreeText};
ghost use Rattle.degree_numbers.specs.Written.{degree_in};

/// The order of multiindices is total, and multiindices that compare equal are equal. A difference
/// is what is to be added.
pub fn multis_are_ordered()
    ensures total { IsTotalOrder multi_order }
    ensures exact { (m l : List ℕ) → multi_order m l ≡ Equal → m ≡ l }
    ensures difference { (m l : List ℕ) → length m ≡ 5 → length l ≡ 5 → IsAtMost l m →
        plus_of (minus_of m l) l ≡ m }
    ensures sum { (m l : List ℕ) → length m ≡ length l → minus_of (plus_of m l) l ≡ m }
{}

/// The order of degrees is total, degrees that compare equal are equal, and adding the same degree
/// to both changes no comparison.
pub fn degrees_are_ordered()
    ensures total { IsTotalOrder degree_order }
    ensures exact { (d e : Degree) → degree_order d e ≡ Equal → d ≡ e }
    ensures sums { (d e f : Degree) →
        degree_order (degree_plus d f) (degree_plus e f) ≡ degree_order d e }
{}

/// What is printed of a degree whose fractions have numerators and denominators up to 1,000,000
/// (`LARGEST_NUMBER`) is read as the same degree.
pub fn degrees_are_read_back()
    ensures { (d : Degree) (den : ℕ) (text : List ℕ) → 0 < den → IsFractionInRange den d.a → IsFractionInRange den d.b → IsDegreeText d den text
        → (w : Written) × (written_of text ≡ Some w) × (w.large ≡ None) × (degree_in den w ≡ d) }
{}
