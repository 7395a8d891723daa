//! Reads two views as views of the shape that both have in common.
ghost use Rattle.std.specs.Option.{option_map_or};
ghost use Rattle.std.specs.Prelude.{◌≡◌, ℕ, IfOk, IsOk, None, Some, length, max};
ghost use Rattle.ndarray_layout.specs.declared.ErrorKind.{ErrorKind};
ghost use Rattle.ndarray_layout.specs.declared.ErrorKind.TheVariants.{IncompatibleShape};
ghost use Rattle.ndarray_layout.specs.BroadcastView.{broadcast_fault, broadcast_of};
ghost use Rattle.ndarray_layout.specs.CommonShape.{common_shape};
ghost use Rattle.ndarray_layout.specs.Lengths.{IsCount};
ghost use Rattle.ndarray_layout.specs.Memory.{NeedsNoMemory};
ghost use Rattle.ndarray_layout.specs.ShapeFault.{shape_fault};
ghost use Rattle.ndarray_layout.specs.View.{LiesWithin};

use ndarray_layout::{LayoutError, Lengths, Strided, co_broadcast};
use std::alloc::Global;

/// Two views as views of the shape that NumPy's rule gives them in common. The caller ensures that the type allows the
/// greater of their counts of axes: any type that fixes a count does, and `IxDyn`.
///
/// Errors: `IncompatibleShape` where they have no shape in common. Then out of memory for the common shape, never where the
/// type fixes the count or there are at most four axes. Then `Overflow` where the product of its lengths that are not 0 is
/// greater than `isize::MAX`. Then out of memory for the views, never at such types or counts.
pub fn on_common_shape<D: Lengths>(
    alloc: Global,
    one: &Strided<D>,
    other: &Strided<D>,
) -> Result<(Strided<D>, Strided<D>), LayoutError>
    requires { IsCount D.NDIM (max (length one.now.shape) (length other.now.shape)) }
    ensures fault { NeedsNoMemory D.NDIM (max (length one.now.shape) (length other.now.shape)) →
        shape_fault result ≡ option_map_or
        (λ common. broadcast_fault common one.now.shape)
        (common_shape one.now.shape other.now.shape)
        (Some IncompatibleShape) }
    ensures failed { (kind : ErrorKind) → shape_fault result ≡ Some kind → option_map_or
        (λ common. broadcast_fault common one.now.shape)
        (common_shape one.now.shape other.now.shape)
        (Some IncompatibleShape) ≡ Some kind }
    ensures none { common_shape one.now.shape other.now.shape ≡ None →
        shape_fault result ≡ Some IncompatibleShape }
    ensures memory { NeedsNoMemory D.NDIM (max (length one.now.shape) (length other.now.shape)) →
        shape_fault result ≡ None → IsOk result }
    ensures common { IfOk result (λ both. common_shape one.now.shape other.now.shape ≡
        Some both.0.shape) }
    ensures one { IfOk result (λ both. both.0 ≡ broadcast_of both.0.shape one.now) }
    ensures other { IfOk result (λ both. both.1 ≡ broadcast_of both.0.shape other.now) }
    ensures in_bounds { IfOk result (λ both. (len : ℕ) → LiesWithin len one.now →
        LiesWithin len both.0) }
    ensures in_bounds_other { IfOk result (λ both. (len : ℕ) → LiesWithin len other.now →
        LiesWithin len both.1) }
{
    let shape: D = co_broadcast(alloc, one.dim(), other.dim())?;
    Ok((
        one.broadcast(alloc, &shape)?,
        other.broadcast(alloc, &shape)?,
    ))
}
