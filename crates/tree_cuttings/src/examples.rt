// The two coproducts of small trees, worked out in full: each is a clause of a function that does
// nothing.

ghost use Rattle.std.specs.Prelude.{◌≡◌, ℕ, List, [], ◌∷◌};
ghost use Rattle.plain_trees.specs.Plain.{Plain};
ghost use Rattle.plain_trees.specs.Coproducts.{extraction_terms, recentring_terms};
ghost use Rattle.tree_cuttings.specs.Examples.{kpz, phi4, pam, zero, space, xi, u, node, empty, noise, decorated_noise, two_noises, leg, stump, cherry, planted_cherry, smooth_noise, mixed};

/// On the types of the KPZ equation: a noise with a decorated root; two noises, where an edge of
/// the quotient is raised; and a tree of which the planted subtree is no component.
pub fn extraction_of_small_trees()
    ensures decorated_noise { extraction_terms kpz decorated_noise ≡ (([], decorated_noise), 1)
        ∷ ((noise ∷ [], node (space 1)), 1) ∷ ((decorated_noise ∷ [], empty), 1) ∷ [] }
    ensures two_noises { extraction_terms kpz two_noises ≡ (([], two_noises), 1)
        ∷ ((noise ∷ [], noise), 2) ∷ ((decorated_noise ∷ [], xi (space 1) empty), 2)
        ∷ ((two_noises ∷ [], empty), 1) ∷ [] }
    ensures planted { extraction_terms kpz planted_cherry ≡ (([], planted_cherry), 1) ∷ ((noise ∷ [], u (space 1) (stump (leg empty)) empty), 2) ∷ ((cherry ∷ [], stump empty), 1) ∷ ((noise ∷ noise ∷ [], u (space 1) (stump (stump empty)) empty), 1) ∷ [] }
{}

/// On the types of the KPZ equation, of the Phi^4 equation in three dimensions, and of the
/// parabolic Anderson model in two.
pub fn recentring_of_small_trees()
    ensures decorated_noise { recentring_terms kpz decorated_noise ≡ ((noise, node (space 1)), 1)
        ∷ ((decorated_noise, empty), 1) ∷ [] }
    ensures two_noises { recentring_terms kpz two_noises ≡ ((two_noises, empty), 1) ∷ [] }
    ensures smooth_noise { recentring_terms phi4 smooth_noise ≡ ((empty, smooth_noise), 1) ∷ ((node (0 ∷ 0 ∷ 0 ∷ 1 ∷ 0 ∷ []), u (0 ∷ 0 ∷ 0 ∷ 1 ∷ 0 ∷ []) (u zero noise empty) empty), 1) ∷ ((node (0 ∷ 0 ∷ 1 ∷ 0 ∷ 0 ∷ []), u (0 ∷ 0 ∷ 1 ∷ 0 ∷ 0 ∷ []) (u zero noise empty) empty), 1) ∷ ((node (0 ∷ 1 ∷ 0 ∷ 0 ∷ 0 ∷ []), u (0 ∷ 1 ∷ 0 ∷ 0 ∷ 0 ∷ []) (u zero noise empty) empty), 1) ∷ ((smooth_noise, empty), 1) ∷ [] }
    ensures mixed { recentring_terms pam mixed ≡ ((empty, mixed), 1) ∷ ((node (0 ∷ 0 ∷ 1 ∷ 0 ∷ 0 ∷ []), u (0 ∷ 0 ∷ 1 ∷ 0 ∷ 0 ∷ []) decorated_noise (node (space 1))), 1) ∷ ((node (space 1), u zero decorated_noise empty), 1) ∷ ((node (space 1), u (space 1) decorated_noise (node (space 1))), 1) ∷ ((node (0 ∷ 1 ∷ 1 ∷ 0 ∷ 0 ∷ []), u (0 ∷ 0 ∷ 1 ∷ 0 ∷ 0 ∷ []) decorated_noise empty), 1) ∷ ((node (space 2), u (space 1) decorated_noise empty), 2) ∷ ((u zero noise empty, node (space 2)), 2) ∷ ((u zero decorated_noise empty, node (space 1)), 1) ∷ ((u zero noise (node (space 1)), node (space 1)), 1) ∷ ((mixed, empty), 1) ∷ [] }
{}
