//! The types of equations that people know, for tests.
#![tactic(auto)]

ghost use Rattle.std.specs.Prelude.{IfOk, ◌≡◌, ◌∷◌, []};
ghost use Rattle.degree_numbers.specs.Types.{AreTypes};
ghost use Rattle.known_types.specs.Known.{one_noise, kpz, kpz_symmetric, phi43, phi43_mean_zero, two_noises, apart, together};

use degree_numbers::{Degree, Kind, Name, TypeEntry, Types, Units};
use sqlite_items::Items;
use std::alloc::{AllocError, Global};

fn noise() -> Name
    ensures { result ≡ 120 ∷ 105 ∷ [] }
{
    Name::new(b"xi").unwrap()
}

fn unknown() -> Name
    ensures { result ≡ 117 ∷ [] }
{
    Name::new(b"u").unwrap()
}

const KPZ_NOISE: Degree = Degree { a: -3, b: -2 };

const PHI43_NOISE: Degree = Degree { a: -5, b: -2 };

fn one_noise(
    alloc: Global,
    dims: u8,
    scaling: [u32; 5],
    degree: Degree,
    moments: Option<u8>,
    reflect: Items<u8>,
) -> Result<Types, AllocError>
    ensures { IfOk result (λ ty. ty ≡ one_noise dims scaling degree moments reflect) }
{
    let mut list = Items::new(alloc);
    list.push(TypeEntry {
        name: noise(),
        kind: Kind::Noise,
        degree,
        group: 0,
        moments: None,
    })?;
    list.push(TypeEntry {
        name: unknown(),
        kind: Kind::Kernel,
        degree: Degree { a: 4, b: 0 },
        group: 0,
        moments,
    })?;
    let mut groups = Items::new(alloc);
    groups.push(noise())?;
    Ok(Types {
        dims,
        scaling,
        units: Units { den: 2 },
        list,
        groups,
        reflect,
    })
}

/// The types of the KPZ equation: two directions of scaling 2 and 1, a noise `xi` of degree -3/2-k,
/// a kernel `u` of degree 2.
#[tactic(auto, using(crate::proofs::KnownTypes::kpz_types))]
pub fn kpz_types(alloc: Global) -> Result<Types, AllocError>
    ensures value { IfOk result (λ ty. ty ≡ kpz) }
    ensures types { IfOk result AreTypes }
{
    let none = Items::new(alloc);
    one_noise(alloc, 2, [2, 1, 0, 0, 0], KPZ_NOISE, None, none)
}

/// The same, with the reflection of space declared.
#[tactic(auto, using(crate::proofs::KnownTypes::kpz_symmetric_types))]
pub fn kpz_symmetric_types(alloc: Global) -> Result<Types, AllocError>
    ensures value { IfOk result (λ ty. ty ≡ kpz_symmetric) }
    ensures types { IfOk result AreTypes }
{
    let mut reflect = Items::new(alloc);
    reflect.push(2)?;
    one_noise(alloc, 2, [2, 1, 0, 0, 0], KPZ_NOISE, None, reflect)
}

/// The types of the dynamic Phi^4 model in three dimensions: four directions of scaling 2, 1, 1 and
/// 1, a noise `xi` of degree -5/2-k, a kernel `u` of degree 2.
#[tactic(auto, using(crate::proofs::KnownTypes::phi43_types))]
pub fn phi43_types(alloc: Global) -> Result<Types, AllocError>
    ensures value { IfOk result (λ ty. ty ≡ phi43) }
    ensures types { IfOk result AreTypes }
{
    let none = Items::new(alloc);
    one_noise(alloc, 4, [2, 1, 1, 1, 0], PHI43_NOISE, None, none)
}

/// The same, with a kernel whose mean is 0.
#[tactic(auto, using(crate::proofs::KnownTypes::phi43_mean_zero_types))]
pub fn phi43_mean_zero_types(alloc: Global) -> Result<Types, AllocError>
    ensures value { IfOk result (λ ty. ty ≡ phi43_mean_zero) }
    ensures types { IfOk result AreTypes }
{
    let none = Items::new(alloc);
    one_noise(alloc, 4, [2, 1, 1, 1, 0], PHI43_NOISE, Some(0), none)
}

fn second_noise() -> Name
    ensures { result ≡ 101 ∷ 116 ∷ 97 ∷ [] }
{
    Name::new(b"eta").unwrap()
}

fn shared_group() -> Name
    ensures { result ≡ 103 ∷ [] }
{
    Name::new(b"g").unwrap()
}

fn two_noises(alloc: Global, group: u8, groups: Items<Name>) -> Result<Types, AllocError>
    ensures { IfOk result (λ ty. ty ≡ two_noises group groups) }
{
    let noise_degree = Degree { a: -3, b: -2 };
    let mut list = Items::new(alloc);
    list.push(TypeEntry {
        name: noise(),
        kind: Kind::Noise,
        degree: noise_degree,
        group: 0,
        moments: None,
    })?;
    list.push(TypeEntry {
        name: second_noise(),
        kind: Kind::Noise,
        degree: noise_degree,
        group,
        moments: None,
    })?;
    list.push(TypeEntry {
        name: unknown(),
        kind: Kind::Kernel,
        degree: Degree { a: 4, b: 0 },
        group: 0,
        moments: None,
    })?;
    Ok(Types {
        dims: 2,
        scaling: [2, 1, 0, 0, 0],
        units: Units { den: 2 },
        list,
        groups,
        reflect: Items::new(alloc),
    })
}

/// Types with two noises `xi` and `eta` that are not correlated: each is in a noise group of its
/// own. The rest is as in the KPZ equation.
#[tactic(auto, using(crate::proofs::KnownTypes::apart_types))]
pub fn apart_types(alloc: Global) -> Result<Types, AllocError>
    ensures value { IfOk result (λ ty. ty ≡ apart) }
    ensures types { IfOk result AreTypes }
{
    let mut groups = Items::new(alloc);
    groups.push(noise())?;
    groups.push(second_noise())?;
    two_noises(alloc, 1, groups)
}

/// The same with both noises in one noise group `g`.
#[tactic(auto, using(crate::proofs::KnownTypes::together_types))]
pub fn together_types(alloc: Global) -> Result<Types, AllocError>
    ensures value { IfOk result (λ ty. ty ≡ together) }
    ensures types { IfOk result AreTypes }
{
    let mut groups = Items::new(alloc);
    groups.push(shared_group())?;
    two_noises(alloc, 0, groups)
}
