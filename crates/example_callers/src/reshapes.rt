//! Reads a view along another shape, or learns that no strides would do.
ghost use Rattle.std.specs.Prelude.{◌≡◌, IfNone, IfOk, IfSome, IsOk, OnErr, length};
ghost use Rattle.ndarray_layout.specs.declared.Order.TheVariants.{RowMajor};
ghost use Rattle.ndarray_layout.specs.Memory.{NeedsNoMemory};
ghost use Rattle.ndarray_layout.specs.ReshapedView.{MayAskForMemory, ReshapeFits};
ghost use Rattle.ndarray_layout.specs.View.{view_places};

use ndarray_layout::{LayoutError, Lengths, Order, Strided};
use std::alloc::{AllocError, Global};

/// The places of a view along another shape, in row-major order, or `None` where no strides keep that list: then the
/// elements have to be copied.
///
/// Errors: out of memory; never where the type fixes the count of axes or there are at most four. Nor does it come where the
/// shape's size doesn't fit, or one of the two shapes alone has no index.
pub fn along_shape<D: Lengths, E: Lengths>(
    alloc: Global,
    view: &Strided<D>,
    shape: &E,
) -> Result<Option<Strided<E>>, AllocError>
    ensures shape { IfOk result (λ found. IfSome found (λ same. same.shape ≡ E.list shape.now)) }
    ensures kept { IfOk result (λ found. IfSome found (λ same.
        view_places RowMajor same ≡ view_places RowMajor view.now)) }
    ensures none { IfOk result (λ found. IfNone found
        (ReshapeFits RowMajor (E.list shape.now) view.now → ⊥)) }
    ensures memory { NeedsNoMemory E.NDIM (length (E.list shape.now)) → IsOk result }
    ensures asked { OnErr result (MayAskForMemory (E.list shape.now) view.now) }
{
    match view.reshape(alloc, shape, Order::RowMajor) {
        Ok(same) => Ok(Some(same)),
        Err(LayoutError::Shape(_)) => Ok(None),
        Err(LayoutError::Memory(failed)) => Err(failed),
    }
}
