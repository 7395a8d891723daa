//! The chunks of an array along an axis one after another, each lent for as long as the data is.
ghost use Rattle.std.specs.Prelude.{◌≡◌, IfOk};
ghost use Rattle.std.specs.Result.{result_err};
ghost use Rattle.nd_lent.specs.ChunksAlong.{axis_chunks_fault, chunks_along};

use crate::array_view::ArrayView;
use crate::array_view::arrays::Arrays;
use crate::views::axis_chunks::AxisChunks;
use crate::views::numbered::Numbered;
use ndarray_layout::{Axis, Lengths, ShapeError};

/// The chunks of an array along an axis that are still to come. ndarray's `AxisChunksIter`.
pub type AxisChunksIter<'a, T, D> = Arrays<'a, T, Numbered<AxisChunks<D>>>;

impl<'a, T, D: Lengths> ArrayView<'a, T, D> {
    /// An iterator over chunks of so many coordinates of an axis, from both ends, each lent for as long as the data is; the last one may
    /// have fewer. It ends the array.
    ///
    /// # Errors
    ///
    /// `OutOfBounds` where there is no such axis; then `Unsupported` where `size` is 0.
    ///
    /// Takes no memory. A chunk takes the time of `split_at`, twice.
    ///
    /// Chunks of 2 of axis 0 of `[3,2]` over 1 2 3 4 5 6: `[2,2]` with 1 2 3 4, and `[1,2]` with 5 6. ndarray's `axis_chunks_iter`.
    pub fn into_axis_chunks(
        self,
        axis: Axis,
        size: usize,
    ) -> Result<AxisChunksIter<'a, T, D>, ShapeError>
        ensures fault { result_err result ≡ axis_chunks_fault self.entry.view.shape axis.0 size }
        ensures chunks { IfOk result (λ left. left ≡ chunks_along axis.0 size self.entry) }
    {
        let ArrayView { reader, view } = self;
        let views = Numbered::chunks(view, axis, size)?;
        Ok(Arrays { reader, views })
    }
}
