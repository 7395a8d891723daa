//! The chunks of an axis: views of `size` coordinates of it, fewer in the last one.
ghost use Rattle.std.specs.Prelude.{◌≡◌, ◌*◌, ◌<◌, IfOk, IsOk, None, length, slice_index};
ghost use Rattle.std.specs.Result.{result_err};
ghost use Rattle.ndarray_layout.specs.Memory.{NeedsNoMemory};
ghost use Rattle.ndarray_layout.specs.ShapeFault.{shape_fault};
ghost use Rattle.nd_lent.specs.ChunksAlong.{axis_chunks_fault, chunk_view, chunk_views_along};
ghost use Rattle.nd_lent.specs.private.Chunks.{HasChunks, HasChunks-prop};

use crate::views::numbered::{ByNumber, Numbered};
use ndarray_layout::{
    Axis, ErrorKind, LayoutError, Lengths, ShapeError, Strided, axis_of, from_kind, has_axis,
};
use std::alloc::{AllocError, Global};

/// The view of each chunk along an axis.
#[derive(Drop)]
pub struct AxisChunks<D: Lengths> {
    pub(crate) view: Strided<D>,
    pub(crate) axis: Axis,
    // How many coordinates a chunk has; the last one may have fewer.
    pub(crate) size: usize,
    ghost chunks: { HasChunks view.shape axis.0 size } by { HasChunks-prop view.shape axis.0 size },
}

/// The view of one chunk, by its number: `size` coordinates of an axis, fewer in the last one. The caller ensures that it exists.
/// Errors: out of memory.
#[inline]
fn view_of_chunk<D: Lengths>(
    alloc: Global,
    view: &Strided<D>,
    axis: Axis,
    size: usize,
    number: usize,
) -> Result<Strided<D>, LayoutError>
    requires axis { axis.0 < length view.now.shape }
    requires some { number * size < slice_index view.now.shape axis.0 }
    ensures fault { shape_fault result ≡ None }
    ensures memory { NeedsNoMemory D.NDIM (length view.now.shape) → IsOk result }
    ensures chunk { IfOk result (λ chunk. chunk ≡ chunk_view axis.0 size number view.now) }
{
    let len = axis_of(view.dim().slice(), axis);
    let start = number * size;
    let count = size.min(len - start);
    let (_, rest) = view.duplicate(alloc)?.split_at(alloc, axis, start)?;
    let (chunk, _) = rest.split_at(alloc, axis, count)?;
    Ok(chunk)
}

impl<D: Lengths> ByNumber for AxisChunks<D> {
    ghost use Rattle.nd_lent.specs.ChunksAlong.{chunk_count, chunk_view};

    type Dim = D;

    ghost count = { λ views. chunk_count views.view.shape views.axis.0 views.size };

    ghost at = { λ views number. chunk_view views.axis.0 views.size number views.view };

    #[inline]
    fn view_at(&self, alloc: Global, number: usize) -> Result<Strided<D>, AllocError> {
        match view_of_chunk(alloc, &self.view, self.axis, self.size, number) {
            Ok(view) => Ok(view),
            // (the axis has the coordinates, so an allocation has failed)
            Err(_) => Err(AllocError),
        }
    }
}

impl<D: Lengths> Numbered<AxisChunks<D>> {
    /// The views of all chunks of an axis, of `size` coordinates each.
    /// Errors: `OutOfBounds` where there is no such axis; then `Unsupported` where `size` is 0.
    pub(crate) fn chunks(view: Strided<D>, axis: Axis, size: usize) -> Result<Self, ShapeError>
        ensures fault { result_err result ≡ axis_chunks_fault view.shape axis.0 size }
        ensures there { IfOk result (λ _. HasChunks view.shape axis.0 size) }
        ensures views { IfOk result (λ left. left ≡ chunk_views_along axis.0 size view) }
    {
        if !has_axis(view.dim().slice(), axis) {
            return Err(from_kind(ErrorKind::OutOfBounds));
        }
        if size == 0 {
            return Err(from_kind(ErrorKind::Unsupported));
        }
        let count = axis_of(view.dim().slice(), axis).div_ceil(size);
        Ok(Numbered::new(AxisChunks { view, axis, size }, count))
    }
}
