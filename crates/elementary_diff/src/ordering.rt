// The symmetry factor and the orders in which a tree can be drawn.
ghost use Rattle.std.specs.Prelude.{◌≡◌, ◌*◌, List, length};
ghost use Rattle.plain_trees.specs.Plain.{Plain};
ghost use Rattle.plain_trees.specs.Canon.{IsCanonical};
ghost use Rattle.elementary_diff.specs.Symmetry.{symmetry_of};
ghost use Rattle.elementary_diff.specs.Orders.{AreDrawings, node_factorials};

/// The ordering law. The ordered trees whose canonical form is a given tree can be listed, each
/// once, and their number times the symmetry factor of the tree is the product, over its nodes, of
/// the factorial of the number of edges that leave the node upward.
pub fn ordering_law()
    ensures drawings { (t : Plain) → IsCanonical t → (ss : List Plain) × AreDrawings t ss }
    ensures law { (t : Plain) (ss : List Plain) → IsCanonical t → AreDrawings t ss →
        symmetry_of t * length ss ≡ node_factorials t }
{}
