// Laws of what the contracts of pools and forest pools speak of.
ghost use Rattle.std.specs.Prelude.{◌≡◌, ◌<◌, ℕ, List, [], length};
ghost use Rattle.plain_trees.specs.Plain.{Plain};
ghost use Rattle.plain_trees.specs.Canon.{canon};
ghost use Rattle.plain_trees.specs.Coproducts.{forest_order};
ghost use Rattle.tree_pool.specs.Content.{Content, trees_at, IsGrown, IsPooled};
ghost use Rattle.tree_pool.specs.Forests.{forest_at, forest_id_order, AreKnown, IsSorting, Fits};
ghost use Rattle.plain_trees.specs.Joined.{joined};

/// The product of trees is commutative.
pub fn product_laws()
    ensures { (s t : Plain) → canon (joined s t) ≡ canon (joined t s) }
{}

/// In the content of a pool the numbers of some trees have one list in tree order: the forest of
/// these trees.
pub fn forest_laws()
    ensures { (c : Content) (ids f g : List ℕ) → IsPooled c → AreKnown c ids → IsSorting c ids f →
        IsSorting c ids g → f ≡ g }
{}

/// The order of two forests of a pool by their numbers is that of the forests of their trees.
pub fn order_laws()
    ensures { (c : Content) (fs : List (List ℕ)) (f g : ℕ) → Fits fs c → f < length fs →
        g < length fs →
        forest_id_order c.trees fs f g ≡ forest_order (trees_at c (forest_at fs f))
        (trees_at c (forest_at fs g)) }
{}

/// A new forest pool fits every pool, and a forest pool that fits a pool still fits it when the
/// pool has grown.
pub fn fit_laws()
    ensures new { (c : Content) → Fits [] c }
    ensures growth { (fs : List (List ℕ)) (old new : Content) → IsGrown old new → Fits fs old →
        Fits fs new }
{}
