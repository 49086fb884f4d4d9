// The values of one tree.
ghost use Rattle.std.specs.Prelude.{◌≡◌, ◌<◌, ◌∷◌, [], length, IfOk, IfErr};
ghost use Rattle.plain_trees.specs.Plain.{Plain};
ghost use Rattle.equations.specs.Accepted.{IsEquation};
ghost use Rattle.tree_pool.specs.Content.{tree_at};
ghost use Rattle.cutting_sizes.specs.Bounds.{IsBounded};
ghost use Rattle.extraction_coproduct.specs.Finished.{AreGrown};
ghost use Rattle.counterterm_report.specs.Values.{IsTreeValues};
ghost use Rattle.antipode_laws.specs.Weighed.{Weighed};
ghost use Rattle.antipode_laws.specs.Constants.{IsConstants};
ghost use Rattle.twisted_antipode.specs.Counts.{IsCountOf, AreFinishedOver};
ghost use Rattle.twisted_antipode.specs.Held.{held_over, AreHeldOver, IsExtended};
ghost use Rattle.twisted_antipode.specs.Kinds.{AreHeldTyped};
ghost use Rattle.tree_values.specs.Ranges.{IsInRange, IsFirstPast};
ghost use Rattle.tree_values.specs.Values.{IsValuesOf, IsRefusedFor};

use crate::differentials::differentials_of;
use crate::error::ValuesError;
use counterterm_report::TreeValues;
use elementary_diff::symmetry;
use equations::Equation;
use extraction_coproduct::{Tables, Work};
use std::alloc::Global;
use tree_pool::TreeId;
use twisted_antipode::{Constants, constant};

/// The values of a tree, as a report has them: its degree, its symmetry factor, its constant over
/// what is held at the start of the call, and its differentials. Refused exactly where a quantity
/// is out of range, with the first one in this order: a coefficient of the extraction coproduct
/// and the mass of the constant, of a tree that is not held; for each unknown the mass of the
/// differential and its denominator (after Bruned, Chandra, Chevyrev and Hairer); and for want of
/// memory. Constants that are found on the way may be held afterwards.
pub fn values_of<'a>(
    alloc: Global,
    eq: &Equation,
    tables: &mut Tables<'a>,
    constants: &mut Constants,
    id: TreeId,
    work: &mut Work,
) -> Result<TreeValues, ValuesError>
    requires equation { IsEquation eq.now }
    requires types { tables.old.pool.types ≡ eq.now.types }
    requires known { id.0 < length tables.old.pool.trees }
    requires bounded { IsBounded (tree_at tables.old.pool id.0) }
    requires held { AreHeldOver tables.old.pool constants.old }
    requires typed { AreHeldTyped eq.now.types constants.old }
    ensures values { IfOk result (λ v. (c : Plain → Weighed) →
        IsConstants eq.now.types (held_over tables.old.pool constants.old) c →
        IsInRange eq.now (held_over tables.old.pool constants.old) c (tree_at tables.old.pool id.0)
        × IsValuesOf eq.now c (tree_at tables.old.pool id.0) v) }
    ensures printed { IfOk result (IsTreeValues eq.now) }
    ensures refusal { IfErr result (λ e. (c : Plain → Weighed) →
        IsConstants eq.now.types (held_over tables.old.pool constants.old) c →
        IsRefusedFor id (IsFirstPast eq.now (held_over tables.old.pool constants.old) c
        (tree_at tables.old.pool id.0)) e) }
    ensures extended { IsExtended tables.new.pool constants.old constants.new }
    ensures held { AreHeldOver tables.new.pool constants.new }
    ensures held_typed { AreHeldTyped eq.now.types constants.new }
    ensures grown { AreGrown tables.old tables.new }
    ensures counted { IsCountOf tables.old tables.new work.old.tables work.new.tables }
    ensures finished { AreFinishedOver tables.old tables.new constants.old
        (tree_at tables.old.pool id.0 ∷ []) }
{
    tables.laws();
    let constant = match constant(alloc, tables, constants, id, work) {
        Ok(constant) => constant,
        Err(e) => return Err(ValuesError::of_antipode(id, e)),
    };
    let pool = tables.pool();
    let differentials = differentials_of(alloc, eq, pool, id)?;
    Ok(TreeValues {
        tree: pool.plain(alloc, id)?,
        degree: pool.degree(id),
        symmetry: symmetry(pool, id),
        constant,
        differentials,
    })
}
