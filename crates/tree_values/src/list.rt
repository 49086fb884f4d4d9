// The values of several trees.
ghost use Rattle.std.specs.Prelude.{◌≡◌, ◌<◌, ◌++◌, [], ◌∷◌, length, IfOk, IfErr, OnOk, IsOkUnless};
ghost use Rattle.std.specs.List.{All};
ghost use Rattle.plain_trees.specs.Plain.{Plain};
ghost use Rattle.equations.specs.Accepted.{IsEquation};
ghost use Rattle.tree_pool.specs.Content.{tree_at, trees_of};
ghost use Rattle.cutting_sizes.specs.Bounds.{IsBounded};
ghost use Rattle.extraction_coproduct.specs.Finished.{AreGrown};
ghost use Rattle.counterterm_report.specs.Values.{IsTreeValues};
ghost use Rattle.antipode_laws.specs.Weighed.{Weighed};
ghost use Rattle.antipode_laws.specs.Constants.{IsConstants};
ghost use Rattle.twisted_antipode.specs.Counts.{IsCountOf, AreFinishedOver};
ghost use Rattle.twisted_antipode.specs.Held.{held_over, AreHeldOver, IsExtended};
ghost use Rattle.twisted_antipode.specs.Kinds.{AreHeldTyped};
ghost use Rattle.tree_values.specs.Values.{AreValuesOf, IsListRefused, IsKnownRefusal};

use crate::error::ValuesError;
use crate::values::values_of;
use counterterm_report::TreeValues;
use equations::Equation;
use extraction_coproduct::{Tables, Work};
use sqlite_items::Items;
use std::alloc::Global;
use tree_pool::TreeId;
use twisted_antipode::Constants;

/// The values of these trees, in order, with the constants over what is held at the start of the
/// call. Refused exactly where some quantity of some tree is out of range, with the first such tree
/// and its first quantity, in the order of `values_of`; and for want of memory. Constants that are
/// found on the way are held for the trees that follow, and afterwards.
pub fn all_values<'a>(
    alloc: Global,
    eq: &Equation,
    tables: &mut Tables<'a>,
    constants: &mut Constants,
    ids: &[TreeId],
    work: &mut Work,
) -> Result<Items<TreeValues>, ValuesError>
    requires equation { IsEquation eq.now }
    requires types { tables.old.pool.types ≡ eq.now.types }
    requires known { All (λ id. id.0 < length tables.old.pool.trees) ids.now }
    requires bounded { All (λ id. IsBounded (tree_at tables.old.pool id.0)) ids.now }
    requires held { AreHeldOver tables.old.pool constants.old }
    requires typed { AreHeldTyped eq.now.types constants.old }
    ensures values { IfOk result (λ vs. (c : Plain → Weighed) →
        IsConstants eq.now.types (held_over tables.old.pool constants.old) c →
        AreValuesOf eq.now (held_over tables.old.pool constants.old) c
        (trees_of tables.old.pool ids.now) vs) }
    ensures printed { IfOk result (All (IsTreeValues eq.now)) }
    ensures refusal { IfErr result (λ e. (c : Plain → Weighed) →
        IsConstants eq.now.types (held_over tables.old.pool constants.old) c →
        IsListRefused eq.now (held_over tables.old.pool constants.old) c tables.old.pool ids.now
        e) }
    ensures refused { IfErr result (IsKnownRefusal tables.old.pool) }
    ensures extended { IsExtended tables.new.pool constants.old constants.new }
    ensures held { AreHeldOver tables.new.pool constants.new }
    ensures held_typed { AreHeldTyped eq.now.types constants.new }
    ensures grown { AreGrown tables.old tables.new }
    ensures counted { IsCountOf tables.old tables.new work.old.tables work.new.tables }
    ensures finished { AreFinishedOver tables.old tables.new constants.old
        (trees_of tables.old.pool ids.now) }
{
    tables.laws();
    let mut values = Items::new(alloc);
    for id in ids {
        let v = values_of(alloc, eq, tables, constants, *id, work);
        tables.laws();
        put(&mut values, v?)?;
    }
    Ok(values)
}

/// Puts the values of a tree behind others.
fn put(values: &mut Items<TreeValues>, value: TreeValues) -> Result<(), ValuesError>
    ensures put { OnOk result (values.new ≡ values.old ++ value ∷ []) }
    ensures memory { IsOkUnless result ValuesError.Memory }
{
    values.push(value)?;
    Ok(())
}
