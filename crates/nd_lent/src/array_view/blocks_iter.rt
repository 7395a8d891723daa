//! The windows or the chunks of an array one after another, each lent for as long as the data is.
ghost use Rattle.std.specs.Prelude.{◌≡◌, IfOk, IsOk, None, length};
ghost use Rattle.ndarray_layout.specs.ChunksView.{chunk_views, chunks_fault};
ghost use Rattle.ndarray_layout.specs.Memory.{NeedsNoMemory};
ghost use Rattle.ndarray_layout.specs.ShapeFault.{shape_fault};
ghost use Rattle.ndarray_layout.specs.WindowsView.{window_views, windows_fault};
ghost use Rattle.nd_lent.specs.Blocks.{arrays_of};

use crate::array_view::ArrayView;
use crate::array_view::arrays::Arrays;
use ndarray_layout::{BlockViews, LayoutError, Lengths};
use std::alloc::Global;

/// The blocks of a shape that are still to come, in row-major order: the windows of an array, or its chunks. ndarray's `Windows` and
/// `ExactChunksIter`.
pub type BlocksIter<'a, T, D> = Arrays<'a, T, BlockViews<D>>;

impl<'a, T, D: Lengths> ArrayView<'a, T, D> {
    /// An iterator over the chunks of a shape that lie side by side, in row-major order of their numbers, from both ends, each lent for
    /// as long as the data is. It ends the array.
    ///
    /// `chunk` is the shape of a chunk, one length for each axis. An axis has `len / chunk` chunks; what is left over at its end is
    /// left out.
    ///
    /// # Errors
    ///
    /// `IncompatibleShape` where `chunk` has more or fewer axes than the array; then `Unsupported` where a length of `chunk` is 0; then
    /// `Overflow` where the product of the counts of chunks and the lengths that are not 0 is greater than `isize::MAX`; then out of
    /// memory, never where the type fixes the count of axes or there are at most 4.
    ///
    /// Takes time in proportion to the count of axes. A chunk takes the time of `BlocksIter::try_next`.
    ///
    /// Chunks of `[2]` of `[5]` over 5 6 7 8 9: 5 6, then 7 8. ndarray's `exact_chunks`, with `into_iter`.
    pub fn into_exact_chunks(
        self,
        alloc: Global,
        chunk: &D,
    ) -> Result<BlocksIter<'a, T, D>, LayoutError>
        ensures fault { shape_fault result ≡ chunks_fault None self.entry.view.shape (D.list chunk.now) }
        ensures memory { shape_fault result ≡ None →
            NeedsNoMemory D.NDIM (length self.entry.view.shape) → IsOk result }
        ensures chunks { IfOk result (λ left. left ≡
            arrays_of self.entry.items (chunk_views (D.list chunk.now) self.entry.view)) }
    {
        let ArrayView { reader, view } = self;
        let views = view.into_chunks(alloc, chunk)?;
        Ok(Arrays { reader, views })
    }

    /// An iterator over all windows of a shape, in row-major order of their first indices, from both ends, each lent for as long as the
    /// data is. It ends the array.
    ///
    /// `window` is the shape of a window, one length for each axis. An axis has `len - window + 1` windows, and none where the window is
    /// longer.
    ///
    /// # Errors
    ///
    /// `IncompatibleShape` where `window` has more or fewer axes than the array; then `Unsupported` where a length of `window` is 0;
    /// then `Overflow` where the product of the counts of windows and the lengths that are not 0 is greater than `isize::MAX`; then out
    /// of memory, never where the type fixes the count of axes or there are at most 4.
    ///
    /// Takes time in proportion to the count of axes. A window takes the time of `BlocksIter::try_next`.
    ///
    /// Windows of `[2]` of `[3]` over 7 8 9: 7 8, then 8 9. ndarray's `windows`, with `into_iter`.
    pub fn into_windows(
        self,
        alloc: Global,
        window: &D,
    ) -> Result<BlocksIter<'a, T, D>, LayoutError>
        ensures fault { shape_fault result ≡ windows_fault None self.entry.view.shape (D.list window.now) }
        ensures memory { shape_fault result ≡ None →
            NeedsNoMemory D.NDIM (length self.entry.view.shape) → IsOk result }
        ensures windows { IfOk result (λ left. left ≡
            arrays_of self.entry.items (window_views (D.list window.now) self.entry.view)) }
    {
        let ArrayView { reader, view } = self;
        let views = view.into_windows(alloc, window)?;
        Ok(Arrays { reader, views })
    }
}
