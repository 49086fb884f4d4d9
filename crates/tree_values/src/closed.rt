// The values of the trees of a list that has all their components.
ghost use Rattle.std.specs.Prelude.{◌≡◌, ◌<◌, length, IfOk, IfErr};
ghost use Rattle.std.specs.List.{All};
ghost use Rattle.plain_trees.specs.Plain.{Plain};
ghost use Rattle.equations.specs.Accepted.{IsEquation};
ghost use Rattle.tree_pool.specs.Content.{tree_at, trees_of};
ghost use Rattle.cutting_sizes.specs.Bounds.{IsBounded};
ghost use Rattle.extraction_coproduct.specs.Finished.{AreGrown};
ghost use Rattle.counterterm_report.specs.Values.{IsTreeValues};
ghost use Rattle.antipode_laws.specs.Weighed.{Weighed};
ghost use Rattle.antipode_laws.specs.Constants.{IsConstants};
ghost use Rattle.twisted_antipode.specs.Counts.{HasAllComponents, IsCountOf, AreFinishedOver};
ghost use Rattle.twisted_antipode.specs.Held.{held_over, AreHeldOver, IsExtended};
ghost use Rattle.twisted_antipode.specs.Kinds.{AreHeldTyped};
ghost use Rattle.tree_values.specs.Values.{AreValuesOf, IsListRefused, IsKnownRefusal};

use crate::error::ValuesError;
use crate::list::all_values;
use counterterm_report::TreeValues;
use equations::Equation;
use extraction_coproduct::{Tables, Work};
use sqlite_items::Items;
use std::alloc::Global;
use tree_pool::TreeId;
use twisted_antipode::Constants;
use vanishing_constants::hold_zeros;

/// The values of these trees, in order, as `all_values` gives them, where the list has all
/// components of its trees. For trees that vanish 0 is held at first, where that is known to be
/// their constant, so no coproduct is made for them. Refused where `all_values` refuses, with the
/// same first tree and quantity, and for want of memory.
pub fn closed_values<'a>(
    alloc: Global,
    eq: &Equation,
    tables: &mut Tables<'a>,
    constants: &mut Constants,
    ids: &[TreeId],
    work: &mut Work,
) -> Result<Items<TreeValues>, ValuesError>
    requires equation { IsEquation eq.now }
    requires types { tables.old.pool.types ≡ eq.now.types }
    requires known { All (λ id. id.0 < length tables.old.pool.trees) ids.now }
    requires bounded { All (λ id. IsBounded (tree_at tables.old.pool id.0)) ids.now }
    requires closed { HasAllComponents eq.now.types (trees_of tables.old.pool ids.now) }
    requires held { AreHeldOver tables.old.pool constants.old }
    requires typed { AreHeldTyped eq.now.types constants.old }
    ensures values { IfOk result (λ vs. (c : Plain → Weighed) →
        IsConstants eq.now.types (held_over tables.old.pool constants.old) c →
        AreValuesOf eq.now (held_over tables.old.pool constants.old) c
        (trees_of tables.old.pool ids.now) vs) }
    ensures printed { IfOk result (All (IsTreeValues eq.now)) }
    ensures refusal { IfErr result (λ e. (c : Plain → Weighed) →
        IsConstants eq.now.types (held_over tables.old.pool constants.old) c →
        IsListRefused eq.now (held_over tables.old.pool constants.old) c tables.old.pool ids.now
        e) }
    ensures refused { IfErr result (IsKnownRefusal tables.old.pool) }
    ensures extended { IsExtended tables.new.pool constants.old constants.new }
    ensures held { AreHeldOver tables.new.pool constants.new }
    ensures held_typed { AreHeldTyped eq.now.types constants.new }
    ensures grown { AreGrown tables.old tables.new }
    ensures counted { IsCountOf tables.old tables.new work.old.tables work.new.tables }
    ensures finished { AreFinishedOver tables.old tables.new constants.old
        (trees_of tables.old.pool ids.now) }
{
    tables.laws();
    if hold_zeros(alloc, tables.pool(), ids, constants).is_err() {
        return Err(ValuesError::Memory);
    }
    let values = all_values(alloc, eq, tables, constants, ids, work);
    tables.laws();
    values
}
