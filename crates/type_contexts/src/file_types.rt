// Whether types are those of some equation file.
ghost use Rattle.std.specs.Prelude.{◌≡◌, ◌≤◌, ◌<◌, ◌+◌, ◌^◌, ◌&&◌, ◌==◌, ◌↔◌, ◌∷◌, not, ℕ, ℤ, unsigned_abs, List, IsTrue, IfSome, IfOk, MatchOption, nat_lt, nat_le, length, map};
ghost use Rattle.std.specs.List.{AllByRecursion, list_all, prefix_len};
ghost use Rattle.std.specs.Str.{bytes_eq};
ghost use Rattle.degree_numbers.specs.Fraction.{IsLowest};
ghost use Rattle.degree_numbers.specs.Name.{is_name};
ghost use Rattle.type_contexts.specs.Different.{begins_new};
ghost use Rattle.degree_numbers.specs.Types.{is_noise, IsScaling, IsWritable, IsMoments, AreDirections, IsNoiseEntry, IsKernelEntry, AreDifferent, AreNames, AreInOrder, AreTypes};

use degree_numbers::{Kind, Name, TypeEntry, Types, with_denominator};
use std::alloc::{AllocError, Global};

const MOST_DIMENSIONS: u8 = 5;

const LARGEST_SCALING: u32 = 10;

const LARGEST_DEGREE: u64 = 20;

const LARGEST_MOMENT: u8 = 20;

const LARGEST_NUMBER: u64 = 1_000_000;

const MOST_TYPES: usize = 8;

fn are_scaling_entries(entries: &[u32]) -> bool
    ensures { result ≡ list_all (λ s. nat_lt 0 s && nat_le s 10) entries.now }
{
    entries.iter().all(|s| 0 < *s && *s <= LARGEST_SCALING)
}

fn are_zero(entries: &[u32]) -> bool
    ensures { result ≡ list_all (λ s. s == 0) entries.now }
{
    entries.iter().all(|s| *s == 0)
}

fn is_scaling(dims: u8, scaling: &[u32; 5]) -> bool
    ensures { IsTrue result ↔ IsScaling dims scaling.now }
{
    if dims == 0 || dims > MOST_DIMENSIONS {
        return false;
    }
    let (entries, rest) = scaling.split_at(dims as usize);
    are_scaling_entries(entries) && are_zero(rest)
}

// The numerator of a fraction in lowest terms.
fn lowest_numerator(size: u64, den: u64) -> u64
    requires above { 0 < den }
    requires fits { den ≤ 1000000 }
    ensures { (n d : ℕ) → IsLowest size den n d → result ≡ n }
{
    let lowest_den = with_denominator(1, size, den);
    size / (den / lowest_den)
}

// Whether a fraction of this size is written with whole numbers up to 1,000,000 (`LARGEST_NUMBER`),
// and is at most 20.
fn is_writable(den: u64, size: u64) -> bool
    requires above { 0 < den }
    requires fits { den ≤ 1000000 }
    ensures { (z : ℤ) → unsigned_abs z ≡ size → IsTrue result ↔ IsWritable den z }
{
    size <= LARGEST_DEGREE * den && lowest_numerator(size, den) <= LARGEST_NUMBER
}

fn is_moments(moments: Option<u8>) -> bool
    ensures { IsTrue result ↔ IsMoments moments }
{
    match moments {
        Some(number) => number <= LARGEST_MOMENT,
        None => true,
    }
}

fn is_noise_entry(den: u64, entry: &TypeEntry) -> bool
    requires above { 0 < den }
    requires fits { den ≤ 1000000 }
    ensures { IsTrue result ↔ IsNoiseEntry den entry.now }
{
    match entry.kind {
        Kind::Noise => {
            if entry.moments.is_some() {
                return false;
            }
            is_writable(den, entry.degree.a.unsigned_abs())
                && is_writable(den, entry.degree.b.unsigned_abs())
        }
        Kind::Kernel => false,
    }
}

fn is_kernel_entry(den: u64, entry: &TypeEntry) -> bool
    requires above { 0 < den }
    requires fits { den ≤ 1000000 }
    ensures { IsTrue result ↔ IsKernelEntry den entry.now }
{
    match entry.kind {
        Kind::Noise => false,
        Kind::Kernel => {
            entry.degree.a > 0
                && entry.degree.b == 0
                && entry.group == 0
                && is_moments(entry.moments)
                && is_writable(den, entry.degree.a.unsigned_abs())
        }
    }
}

fn are_noise_entries(den: u64, entries: &[TypeEntry]) -> bool
    requires above { 0 < den }
    requires fits { den ≤ 1000000 }
    ensures { IsTrue result ↔ AllByRecursion (IsNoiseEntry den) entries.now }
{
    for entry in entries {
        if !is_noise_entry(den, entry) {
            return false;
        }
    }
    true
}

fn are_kernel_entries(den: u64, entries: &[TypeEntry]) -> bool
    requires above { 0 < den }
    requires fits { den ≤ 1000000 }
    ensures { IsTrue result ↔ AllByRecursion (IsKernelEntry den) entries.now }
{
    for entry in entries {
        if !is_kernel_entry(den, entry) {
            return false;
        }
    }
    true
}

// How many groups are met with one more noise; none where its group leaves out the next one.
fn next_met(met: usize, group: usize) -> Option<usize>
    requires { met < 2 ^ 63 }
    ensures value { (gs : List ℕ) (all : ℕ) →
        MatchOption result (¬ AreInOrder met (group ∷ gs) all) (λ m. AreInOrder met (group ∷ gs) all
        ↔ AreInOrder m gs all) }
    ensures few { IfSome result (λ m. m ≤ met + 1) }
{
    if group > met {
        None
    } else if group == met {
        Some(met + 1)
    } else {
        Some(met)
    }
}

// Each group number is one met before or the next one, and all groups are met.
fn are_in_order(noises: &[TypeEntry], groups: usize) -> bool
    ensures { IsTrue result ↔ AreInOrder 0 (map (λ e. e.group) noises.now) groups }
{
    let mut met = 0;
    for noise in noises {
        let Some(next) = next_met(met, noise.group as usize) else {
            return false;
        };
        met = next;
    }
    met == groups
}

fn is_new(names: &[Name], text: &[u8]) -> bool
    ensures { result ≡ list_all (λ n. not (bytes_eq n text.now)) names.now }
{
    names.iter().all(|n| n.bytes() != text)
}

fn begins_new(names: &[Name]) -> bool
    ensures { result ≡ begins_new names.now }
{
    match names {
        [] => true,
        [name, others @ ..] => is_new(others, name.bytes()),
    }
}

fn are_different(names: &[Name]) -> bool
    ensures { IsTrue result ↔ AreDifferent names.now }
{
    for i in 0..names.len() {
        if !begins_new(&names[i..]) {
            return false;
        }
    }
    true
}

// No contract says of a `Name` that its text is one, so it is asked again.
fn have_name_texts(names: &[Name]) -> bool
    ensures { result ≡ list_all is_name names.now }
{
    names.iter().all(|n| Name::new(n.bytes()).is_some())
}

fn are_names(names: &[Name]) -> bool
    ensures { IsTrue result ↔ AreNames names.now }
{
    have_name_texts(names) && are_different(names)
}

fn noise_count(list: &[TypeEntry]) -> usize
    ensures value { result ≡ prefix_len (λ e. is_noise e.kind) list.now }
    ensures within { result ≤ length list.now }
{
    list.iter().take_while(|e| e.kind == Kind::Noise).count()
}

// The names of the types.
fn names_of(alloc: Global, list: &[TypeEntry]) -> Result<Vec<Name>, AllocError>
    ensures { IfOk result (λ v. v.items ≡ map (λ e. e.name) list.now) }
{
    list.iter().map(|e| e.name).collect(alloc)
}

fn are_few(noises: usize, kernels: usize) -> bool
    ensures { IsTrue result ↔ (noises ≤ 8) × (0 < kernels) × (kernels ≤ 8) }
{
    noises <= MOST_TYPES && 0 < kernels && kernels <= MOST_TYPES
}

fn are_entries(den: u64, noises: &[TypeEntry], kernels: &[TypeEntry]) -> bool
    requires above { 0 < den }
    requires fits { den ≤ 1000000 }
    ensures { IsTrue result ↔ AllByRecursion (IsNoiseEntry den) noises.now
        × AllByRecursion (IsKernelEntry den) kernels.now }
{
    are_noise_entries(den, noises) && are_kernel_entries(den, kernels)
}

fn are_grouped(noises: &[TypeEntry], groups: &[Name]) -> bool
    ensures { IsTrue result ↔ AreNames groups.now
        × AreInOrder 0 (map (λ e. e.group) noises.now) (length groups.now) }
{
    are_names(groups) && are_in_order(noises, groups.len())
}

// Whether these are directions, each behind the one before.
fn are_directions(dims: u8, directions: &[u8]) -> bool
    ensures { IsTrue result ↔ AreDirections 0 dims directions.now }
{
    let mut past = 0;
    for direction in directions {
        if *direction <= past || *direction > dims {
            return false;
        }
        past = *direction;
    }
    true
}

/// Whether these are the types of some equation file that is accepted with all its limits. Fails
/// only for want of memory.
pub fn are_file_types(alloc: Global, types: &Types) -> Result<bool, AllocError>
    ensures { IfOk result (λ holds. IsTrue holds ↔ AreTypes types.now) }
{
    if types.units.den < 1 || types.units.den > 1_000_000 {
        return Ok(false);
    }
    let den = types.units.den.unsigned_abs();
    let list = types.list.as_slice();
    let names = names_of(alloc, list)?;
    let (noises, kernels) = list.split_at(noise_count(list));
    Ok(
        is_scaling(types.dims, &types.scaling)
            && are_few(noises.len(), kernels.len())
            && are_entries(den, noises, kernels)
            && are_names(names.as_slice())
            && are_grouped(noises, types.groups.as_slice())
            && are_directions(types.dims, types.reflect.as_slice()),
    )
}
