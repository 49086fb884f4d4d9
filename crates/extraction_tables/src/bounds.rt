// Within which bounds the tables of a tree are made.
ghost use Rattle.std.specs.Prelude.{◌<◌, length};
ghost use Rattle.tree_pool.specs.Content.{tree_at};
ghost use Rattle.cutting_sizes.specs.Bounds.{IsBounded};
ghost use Rattle.extraction_tables.specs.Asked.{AreBoundsOf};

use cutting_tables::lows_of;
use pooled_cuttings::TableBounds;
use tree_pool::{Pool, TreeId};

/// The bounds within which the tables of a bounded tree are made, and those of all its subtrees:
/// the excess is as large as the lowest component of the tree is low, so a component that is beyond
/// it has no degree below 0, whatever is added to it. Takes no memory.
pub fn bounds_of(pool: &Pool<'_>, id: TreeId) -> TableBounds
    requires known { id.0 < length pool.now.trees }
    requires bounded { IsBounded (tree_at pool.now id.0) }
    ensures { AreBoundsOf pool.now result id.0 }
{
    pool.laws();
    let excess = lows_of(pool, id).lowest.unsigned_abs();
    let unit = pool.types().units.den.unsigned_abs();
    TableBounds {
        excess,
        shift: (excess / unit) as u32,
    }
}
