// Lines of tables in vectors.
ghost use Rattle.std.specs.Prelude.{◌≡◌, ◌∷◌, ◌++◌, [], OnOk};

use exact_sums::Saturated;
use std::alloc::AllocError;

/// Puts a line behind others.
pub(crate) fn push_line<K: Copy>(
    lines: &mut Vec<(K, Saturated)>,
    line: (K, Saturated),
) -> Result<(), AllocError>
    ensures { OnOk result (lines.new.items ≡ lines.old.items ++ line ∷ []) }
{
    lines.push(line)?;
    Ok(())
}
