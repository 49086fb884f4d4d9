// The quantities of a tree, and their texts.
ghost use Rattle.std.specs.Prelude.{◌≡◌, ◌++◌, IfOk};
ghost use Rattle.degree_numbers.specs.Types.{name_of};
ghost use Rattle.tree_values.specs.Quantities.{quantity_text};

use counterterm_report::type_name;
use degree_numbers::{TypeId, Types};
use std::alloc::{AllocError, Global};

/// A quantity of a tree that may be out of range.
#[derive(Clone, Copy, Debug, PartialEq, Eq)]
pub enum Quantity {
    /// A coefficient of the extraction coproduct.
    Extraction,
    /// A coefficient of the recentring coproduct.
    Recentring,
    /// The mass of the twisted antipode.
    Antipode,
    /// The mass of the constant.
    Constant,
    /// The mass of the elementary differential at the unknown of a kernel.
    Differential { kernel: TypeId },
    /// The denominator of that differential.
    Denominator { kernel: TypeId },
}

/// The words for a quantity; those of one at an unknown end with the unknown's name. Fails only for
/// want of memory.
pub fn quantity_text(
    alloc: Global,
    types: &Types,
    quantity: Quantity,
) -> Result<Vec<u8>, AllocError>
    ensures { IfOk result (λ v. v.items ≡ quantity_text types.now quantity) }
{
    match quantity {
        Quantity::Extraction => Vec::from_slice(alloc, b"extraction"),
        Quantity::Recentring => Vec::from_slice(alloc, b"recentring"),
        Quantity::Antipode => Vec::from_slice(alloc, b"antipode"),
        Quantity::Constant => Vec::from_slice(alloc, b"constant"),
        Quantity::Differential { kernel } => labelled(alloc, b"differential ", types, kernel),
        Quantity::Denominator { kernel } => labelled(alloc, b"denominator ", types, kernel),
    }
}

/// A label with the name of a type behind it.
fn labelled(
    alloc: Global,
    label: &[u8],
    types: &Types,
    kernel: TypeId,
) -> Result<Vec<u8>, AllocError>
    ensures { IfOk result (λ v. v.items ≡ label.now ++ name_of types.now kernel.0) }
{
    let mut text = Vec::from_slice(alloc, label)?;
    text.extend_from_slice(type_name(types, kernel))?;
    Ok(text)
}
