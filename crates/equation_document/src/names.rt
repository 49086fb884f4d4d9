// The names of a file.
ghost use Rattle.std.specs.Prelude.{◌≡◌, ◌≤◌, ◌-◌, ◌^◌, nat_le, min, length};
ghost use Rattle.std.specs.List.{list_all};
ghost use Rattle.std.specs.Str.{bytes_eq};
ghost use Rattle.equation_document.specs.Names.{place_of, stands_in, is_known, is_noise, are_known, noise_power, have_one_noise};

use degree_numbers::Name;
use right_side_text::{WrittenFactor, WrittenTerm};
use sqlite_items::Items;

/// All names of a file, parameters before noises before unknowns, with the places where the noises
/// and the unknowns begin.
#[derive(Debug, Drop)]
pub struct Names {
    pub list: Items<Name>,
    pub first_noise: usize,
    pub first_unknown: usize,
}

fn is_same(a: &Name, b: &Name) -> bool
    ensures { result ≡ bytes_eq a.now b.now }
{
    a.bytes() == b.bytes()
}

/// The place of a name in a list; the length of the list where it is not there.
pub fn place_of(names: &[Name], name: &Name) -> usize
    ensures value { result ≡ place_of names.now name.now }
    ensures within { result ≤ length names.now }
{
    names.iter().take_while(|n| !is_same(*n, name)).count()
}

/// Whether a name is in a list.
pub fn stands_in(names: &[Name], name: &Name) -> bool
    ensures { result ≡ stands_in names.now name.now }
{
    place_of(names, name) < names.len()
}

fn is_known(names: &Names, factor: &WrittenFactor) -> bool
    ensures { result ≡ is_known names.now factor.now }
{
    let place = place_of(names.list.as_slice(), &factor.name);
    place < names.list.len() && (factor.entries.len() == 0 || names.first_unknown <= place)
}

/// Whether a factor is a noise.
pub fn is_noise(names: &Names, factor: &WrittenFactor) -> bool
    ensures { result ≡ is_noise names.now factor.now }
{
    let place = place_of(names.list.as_slice(), &factor.name);
    names.first_noise <= place && place < names.first_unknown
}

fn has_known_factors(names: &Names, term: &WrittenTerm) -> bool
    ensures { result ≡ list_all (is_known names.now) term.now.factors }
{
    term.factors.as_slice().iter().all(|f| is_known(names, f))
}

/// Whether the names of all factors are known, and only unknowns have a derivative.
pub fn are_known(names: &Names, terms: &[WrittenTerm]) -> bool
    ensures { result ≡ are_known names.now terms.now }
{
    terms.iter().all(|t| has_known_factors(names, t))
}

// How many noises a term has, counted with their powers.
fn noise_power(names: &Names, term: &WrittenTerm) -> u64
    ensures { result ≡ min (noise_power names.now term.now) (2 ^ 64 - 1) }
{
    let mut power = 0u64;
    for factor in term.factors.as_slice() {
        if is_noise(names, factor) {
            power = power.saturating_add(factor.power);
        }
    }
    power
}

fn has_one_noise(names: &Names, term: &WrittenTerm) -> bool
    ensures { result ≡ nat_le (noise_power names.now term.now) 1 }
{
    noise_power(names, term) <= 1
}

/// Whether no term has more than one noise, counted with their powers.
pub fn have_one_noise(names: &Names, terms: &[WrittenTerm]) -> bool
    ensures { result ≡ have_one_noise names.now terms.now }
{
    terms.iter().all(|t| has_one_noise(names, t))
}
