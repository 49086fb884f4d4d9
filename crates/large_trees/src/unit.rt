// The least degree of one entry of a decoration.
ghost use Rattle.std.specs.Prelude.{◌≡◌, ℕ, ◌<◌, ◌≤◌, slice_index, unsigned_abs};
ghost use Rattle.degree_numbers.specs.Types.{AreTypes};
ghost use Rattle.large_trees.specs.Large.{IsUnit, IsLeastEntry};

use degree_numbers::Types;

// The least entry of the scaling.
fn least_entry(types: &Types) -> u32
    requires { AreTypes types.now }
    ensures { IsLeastEntry types.now.scaling types.now.dims result }
{
    let mut least = types.scaling[0];
    for i in 1..types.dims as usize {
        least = least.min(types.scaling[i]);
    }
    least
}

/// The common denominator of the degrees.
pub fn denominator(types: &Types) -> u64
    requires { AreTypes types.now }
    ensures value { result ≡ unsigned_abs types.now.units.den }
    ensures small { result ≤ 1000000 }
{
    types.units.den.unsigned_abs()
}

/// The least degree of one entry of a decoration: the least entry of the scaling, in units of one
/// over the common denominator.
pub fn unit(types: &Types) -> u64
    requires { AreTypes types.now }
    ensures unit { IsUnit types.now result }
    ensures small { result ≤ 10000000 }
{
    denominator(types) * u64::from(least_entry(types))
}
