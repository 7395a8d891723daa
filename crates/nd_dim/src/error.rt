//! The error of shapes that are incompatible.
ghost use Rattle.std.specs.Prelude.{◌≡◌};
ghost use Rattle.nd_base.specs.declared.error.ErrorKind.TheVariants.{IncompatibleShape};

use nd_base::{ErrorKind, Lengths, ShapeError, from_kind};

/// The error of two shapes that are incompatible, whatever they are: `IncompatibleShape`. ndarray's
/// `incompatible_shapes`.
pub fn incompatible_shapes<D: Lengths, E: Lengths>(_dim: &D, _other: &E) -> ShapeError
    ensures { result ≡ IncompatibleShape }
{
    from_kind(ErrorKind::IncompatibleShape)
}
