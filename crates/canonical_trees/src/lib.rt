//! Canonical trees within the bounds, as elements of sorted lists and sets. They stand apart,
//! because the order laws of a type may not name lemmas of its own crate.
#![tactic(auto)]

ghost use Rattle.std.specs.Prelude.{◌≡◌, IfOk, IsOkUnless};
ghost use Rattle.plain_trees.specs.Canon.{canon, IsCanonical};
ghost use Rattle.plain_trees.specs.Plain.{IsSmall};
ghost use Rattle.plain_trees.specs.View.{plain};

use plain_trees::{Tree, TreeError, canonical, copy_tree, order};
use std::alloc::Global;
use std::cmp::Ordering;
use std::marker::Model;

/// A canonical tree with at most 24 edges (`MOST_EDGES`) and a decoration sum of at most 4,096
/// (`MOST_DECORATIONS`). It is ordered by tree order, and equal to exactly the same trees.
#[derive(Drop)]
pub struct CanonicalTree {
    tree: Tree,
}

impl Model for CanonicalTree {
    ghost use Rattle.plain_trees.specs.Canon.{IsCanonical};
    ghost use Rattle.plain_trees.specs.Plain.{Plain, IsSmall};
    ghost use Rattle.plain_trees.specs.Code.{plain_code};
    ghost use Rattle.plain_trees.specs.View.{plain};

    ghost Value = { Plain };

    ghost coded = { plain_code };

    ghost view = { λ s. plain s.tree };

    ghost invariant = { λ s. IsCanonical (plain s.tree) × IsSmall (plain s.tree) };
}

impl PartialEq for CanonicalTree {
    ghost use Rattle.std.specs.Cmp.{partial_equiv_from_equiv, eq_by_cmp_equiv};
    ghost use Rattle.std.specs.Ordering.{eq_by_cmp};
    ghost use Rattle.plain_trees.specs.Plain.{tree_order};
    ghost use Rattle.plain_trees.proofs.OrderLaws.{tree_order_total};

    ghost eq = { eq_by_cmp tree_order };

    ghost laws = { partial_equiv_from_equiv (eq_by_cmp_equiv tree_order_total) };

    fn eq(&self, other: &CanonicalTree) -> bool {
        self.cmp(other) == Ordering::Equal
    }
}

impl Eq for CanonicalTree {
    ghost use Rattle.std.specs.Cmp.{eq_by_cmp_equiv};
    ghost use Rattle.plain_trees.proofs.OrderLaws.{tree_order_total};

    ghost laws = { eq_by_cmp_equiv tree_order_total };
}

impl PartialOrd for CanonicalTree {
    ghost use Rattle.std.specs.Cmp.{partial_order_from_total};
    ghost use Rattle.std.specs.Ordering.{as_partial_cmp};
    ghost use Rattle.plain_trees.specs.Plain.{tree_order};
    ghost use Rattle.plain_trees.proofs.OrderLaws.{tree_order_total};

    ghost partial_cmp = { as_partial_cmp tree_order };

    ghost laws = { partial_order_from_total tree_order_total };

    fn partial_cmp(&self, other: &CanonicalTree) -> Option<Ordering> {
        Some(self.cmp(other))
    }
}

impl Ord for CanonicalTree {
    ghost use Rattle.std.proofs.Common.{refl};
    ghost use Rattle.plain_trees.specs.Plain.{tree_order};
    ghost use Rattle.plain_trees.proofs.OrderLaws.{tree_order_total};

    ghost cmp = { tree_order };

    ghost total = { tree_order_total };

    ghost matches_partial_cmp = { λ _ _. refl };

    ghost matches_eq = { λ _ _. refl };

    fn cmp(&self, other: &CanonicalTree) -> Ordering {
        order(&self.tree, &other.tree)
    }
}

impl CanonicalTree {
    /// A tree that is canonical and within the bounds.
    pub fn new(tree: Tree) -> CanonicalTree
        requires canonical { IsCanonical (plain tree) }
        requires small { IsSmall (plain tree) }
        ensures { result ≡ plain tree }
    {
        CanonicalTree { tree }
    }

    /// The canonical form of a tree within the bounds. Fails only for want of memory.
    pub fn of(alloc: Global, tree: &Tree) -> Result<CanonicalTree, TreeError>
        requires { IsSmall (plain tree.now) }
        ensures tree { IfOk result (λ c. c ≡ canon (plain tree.now)) }
        ensures memory { IsOkUnless result TreeError.Memory }
    {
        Ok(CanonicalTree {
            tree: canonical(alloc, tree)?,
        })
    }

    /// The tree.
    pub fn tree(&self) -> &Tree
        ensures tree { plain result.now ≡ self.now }
        ensures canonical { IsCanonical self.now }
        ensures small { IsSmall self.now }
    {
        &self.tree
    }

    /// The tree alone.
    pub fn into_tree(self) -> Tree
        ensures tree { plain result ≡ self }
        ensures canonical { IsCanonical self }
        ensures small { IsSmall self }
    {
        let CanonicalTree { tree } = self;
        tree
    }

    /// A copy. Fails only for want of memory.
    pub fn copy(&self, alloc: Global) -> Result<CanonicalTree, TreeError>
        ensures copy { IfOk result (λ c. c ≡ self.now) }
        ensures memory { IsOkUnless result TreeError.Memory }
    {
        Ok(CanonicalTree {
            tree: copy_tree(alloc, &self.tree)?,
        })
    }
}
