//! The chunks of a shape of a part one after another, each a part of its own.
ghost use Rattle.std.specs.Prelude.{◌≡◌, IfOk, IsOk, None, length};
ghost use Rattle.ndarray_layout.specs.ChunksView.{chunk_views, chunks_fault};
ghost use Rattle.ndarray_layout.specs.Memory.{NeedsNoMemory};
ghost use Rattle.ndarray_layout.specs.ShapeFault.{shape_fault};
ghost use Rattle.nd_lent.specs.Blocks.{AreApart, arrays_of};
ghost use Rattle.nd_lent.specs.Lent.{access_of, array_of};

use crate::array_view_mut::ArrayViewMut;
use crate::array_view_mut::parts::Parts;
use ndarray_layout::{BlockViews, LayoutError, Lengths};
use std::alloc::Global;

/// The chunks of a shape of a part that are still to come, in row-major order of their numbers. ndarray's `ExactChunksIterMut`.
pub type TilesMut<'a, T, D> = Parts<'a, T, BlockViews<D>>;

impl<'a, T: Drop, D: Lengths> ArrayViewMut<'a, T, D> {
    /// An iterator over the chunks of a shape that lie side by side, in row-major order of their numbers, from both ends, each a part of
    /// its own: no two have a place in common, so several may be used at once, and in threads, whatever the strides are. It ends this
    /// part.
    ///
    /// `chunk` is the shape of a chunk, one length for each axis. An axis has `len / chunk` chunks; what is left over at its end is in
    /// none.
    ///
    /// # Errors
    ///
    /// `IncompatibleShape` where `chunk` has more or fewer axes than the part; then `Unsupported` where a length of `chunk` is 0; then
    /// `Overflow` where the product of the counts of chunks and the lengths that are not 0 is greater than `isize::MAX`; then out of
    /// memory, never where the type fixes the count of axes or there are at most 4. The part is gone then.
    ///
    /// Takes time in proportion to the count of axes. A chunk takes the time of `Parts::try_next`.
    ///
    /// Chunks of `[2]` of `[5]` over 5 6 7 8 9: 5 6, then 7 8. ndarray's `exact_chunks_mut`, with `into_iter`.
    pub fn into_tiles(self, alloc: Global, chunk: &D) -> Result<TilesMut<'a, T, D>, LayoutError>
        ensures fault { shape_fault result ≡
            chunks_fault None (array_of self.entry).view.shape (D.list chunk.now) }
        ensures memory { shape_fault result ≡ None →
            NeedsNoMemory D.NDIM (length (array_of self.entry).view.shape) → IsOk result }
        ensures tiles { IfOk result (λ left. left.arrays ≡ arrays_of (array_of self.entry).items
            (chunk_views (D.list chunk.now) (array_of self.entry).view)) }
        ensures apart { IfOk result (λ _. AreApart
            (chunk_views (D.list chunk.now) (array_of self.entry).view)) }
        ensures keeps_access { IfOk result (λ left. left.access ≡ access_of self.entry) }
    {
        let ArrayViewMut { cells, view } = self;
        let views = view.into_chunks(alloc, chunk)?;
        Ok(Parts { cells, views })
    }
}
