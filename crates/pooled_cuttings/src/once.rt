// Trees and forests that are made once over an edge.
ghost use Rattle.std.specs.Prelude.{◌≡◌, ◌<◌, ◌++◌, [], length, IfOk, OnOk};
ghost use Rattle.plain_trees.specs.Plain.{graft};
ghost use Rattle.plain_trees.specs.Canon.{canon};
ghost use Rattle.plain_trees.specs.Coproducts.{canon_forest};
ghost use Rattle.tree_pool.specs.Content.{Holds, tree_at};
ghost use Rattle.pooled_cuttings.specs.Groves.{IsGrownGrove, forest_in};
ghost use Rattle.pooled_cuttings.specs.MadeOver.{AreGrafts, AreUnions};
ghost use Rattle.pooled_cuttings.specs.Products.{HoldsForest, CanHold};

use crate::grove::Grove;
use crate::made_once::MadeOnce;
use degree_numbers::{Multi, TypeId};
use std::alloc::Global;
use tree_pool::{ForestId, PoolError, TreeId};

/// What was made over one edge so far: trees with the edge at their roots, and unions of forests.
#[derive(Drop)]
pub(crate) struct MadeOver {
    pub grafts: MadeOnce,
    pub unions: MadeOnce,
}

impl MadeOver {
    /// Nothing yet.
    pub fn new(alloc: Global) -> MadeOver
        ensures grafts { result.grafts ≡ [] }
        ensures unions { result.unions ≡ [] }
    {
        MadeOver {
            grafts: MadeOnce::new(alloc),
            unions: MadeOnce::new(alloc),
        }
    }
}

/// The number of the tree `rest` with one more edge at its root, of this type and derivative
/// decoration, and with the tree `child` above it: the one that was made before, if any.
pub(crate) fn grafted_once(
    grove: &mut Grove<'_>,
    alloc: Global,
    kind: TypeId,
    p: Multi,
    child: TreeId,
    rest: TreeId,
    grafts: &mut MadeOnce,
) -> Result<TreeId, PoolError>
    requires child { child.0 < length grove.old.pool.trees }
    requires rest { rest.0 < length grove.old.pool.trees }
    requires fits { CanHold grove.old.pool.types
        (graft kind.0 p.entries (tree_at grove.old.pool child.0)
        (tree_at grove.old.pool rest.0)) }
    requires grafts { AreGrafts grove.old.pool kind.0 p.entries grafts.old }
    ensures tree { IfOk result (λ id. Holds grove.new.pool id.0
        (canon (graft kind.0 p.entries (tree_at grove.old.pool child.0)
        (tree_at grove.old.pool rest.0)))) }
    ensures grafts { OnOk result (AreGrafts grove.new.pool kind.0 p.entries grafts.new) }
    ensures grown { IsGrownGrove grove.old grove.new }
{
    if let Some(id) = grafts.get(child.0, rest.0) {
        return Ok(TreeId(id));
    }
    let id = grove.grafted(alloc, kind, p, child, rest)?;
    grafts.push(child.0, rest.0, id.0)?;
    Ok(id)
}

/// The number of the forest that has the trees of two forests: the one that was made before, if
/// any.
pub(crate) fn united_once(
    grove: &mut Grove<'_>,
    alloc: Global,
    f: ForestId,
    g: ForestId,
    unions: &mut MadeOnce,
) -> Result<ForestId, PoolError>
    requires known_f { f.0 < length grove.old.forests }
    requires known_g { g.0 < length grove.old.forests }
    requires unions { AreUnions grove.old unions.old }
    ensures forest { IfOk result (λ h. HoldsForest grove.new h.0
        (canon_forest (forest_in grove.old f.0 ++ forest_in grove.old g.0))) }
    ensures unions { OnOk result (AreUnions grove.new unions.new) }
    ensures grown { IsGrownGrove grove.old grove.new }
{
    grove.laws();
    if let Some(h) = unions.get(f.0, g.0) {
        return Ok(ForestId(h));
    }
    let h = grove.united(alloc, f, g)?;
    unions.push(f.0, g.0, h.0)?;
    Ok(h)
}
