// What vanishing has to do with pairings.
ghost use Rattle.std.specs.Prelude.{◌≡◌, ◌↔◌, false, List};
ghost use Rattle.degree_numbers.specs.declared.Types.{Types};
ghost use Rattle.degree_numbers.specs.Types.{AreTypes};
ghost use Rattle.plain_trees.specs.Plain.{Plain};
ghost use Rattle.gaussian_pairings.specs.Pairings.{Pair, noise_edges, IsPairing};
ghost use Rattle.gaussian_pairings.specs.Vanishing.{has_odd_group};

/// No noise group has an odd number of noise edges in a tree exactly where its noise edges have a
/// pairing.
pub fn vanishing_law()
    ensures { (ty : Types) (t : Plain) → AreTypes ty →
        (has_odd_group ty t ≡ false) ↔ ((ps : List Pair) × IsPairing (noise_edges ty t) ps) }
{}
