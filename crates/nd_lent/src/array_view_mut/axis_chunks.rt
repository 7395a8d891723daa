//! The chunks of a part along an axis one after another, each a part of its own.
ghost use Rattle.std.specs.Prelude.{◌≡◌, IfOk};
ghost use Rattle.std.specs.Result.{result_err};
ghost use Rattle.nd_lent.specs.ChunksAlong.{axis_chunks_fault, chunks_along};
ghost use Rattle.nd_lent.specs.Lent.{access_of, array_of};

use crate::array_view_mut::ArrayViewMut;
use crate::array_view_mut::parts::Parts;
use crate::views::axis_chunks::AxisChunks;
use crate::views::numbered::Numbered;
use ndarray_layout::{Axis, Lengths, ShapeError};

/// The chunks of a part along an axis that are still to come. ndarray's `AxisChunksIterMut`.
pub type AxisChunksIterMut<'a, T, D> = Parts<'a, T, Numbered<AxisChunks<D>>>;

impl<'a, T: Drop, D: Lengths> ArrayViewMut<'a, T, D> {
    /// An iterator over chunks of so many coordinates of an axis, from both ends, each a part of its own; the last one may have fewer.
    /// Several may be used at once, and in threads, whatever the strides are. It ends this part.
    ///
    /// # Errors
    ///
    /// `OutOfBounds` where there is no such axis; then `Unsupported` where `size` is 0. The part is gone then.
    ///
    /// Takes no memory. A chunk takes the time of `split_at`, twice.
    ///
    /// Chunks of 2 of axis 0 of `[3,2]` over 1 2 3 4 5 6: `[2,2]` with 1 2 3 4, and `[1,2]` with 5 6. ndarray's
    /// `axis_chunks_iter_mut`.
    pub fn into_chunk_parts(
        self,
        axis: Axis,
        size: usize,
    ) -> Result<AxisChunksIterMut<'a, T, D>, ShapeError>
        ensures fault { result_err result ≡
            axis_chunks_fault (array_of self.entry).view.shape axis.0 size }
        ensures chunks { IfOk result (λ left. left.arrays ≡ chunks_along axis.0 size (array_of self.entry)) }
        ensures keeps_access { IfOk result (λ left. left.access ≡ access_of self.entry) }
    {
        let ArrayViewMut { cells, view } = self;
        let views = Numbered::chunks(view, axis, size)?;
        Ok(Parts { cells, views })
    }
}
