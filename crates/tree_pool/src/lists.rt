// Lists of elements that are copied.
ghost use Rattle.std.specs.Prelude.{◌≡◌, ◌++◌, IfOk};

use std::alloc::{AllocError, Global};

/// The elements of two lists, one after the other.
pub fn appended<T: Copy>(alloc: Global, xs: &[T], ys: &[T]) -> Result<Vec<T>, AllocError>
    ensures { IfOk result (λ all. all.items ≡ xs.now ++ ys.now) }
{
    let mut all = Vec::new(alloc);
    all.extend_from_slice(xs)?;
    all.extend_from_slice(ys)?;
    Ok(all)
}
