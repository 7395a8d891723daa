//! The chunks of a view that have one shape.
ghost use Rattle.std.specs.Prelude.{◌≡◌, ◌+◌, None, length, IfOk, IsOk};
ghost use Rattle.nd_base.specs.Memory.{NeedsNoMemory};
ghost use Rattle.nd_base.specs.ShapeFault.{shape_fault};
ghost use Rattle.ndarray_layout.specs.ChunksView.{chunk_source, chunk_starts_of, chunks_fault, chunks_of};
ghost use Rattle.ndarray_layout.specs.Descends.{Descends};
ghost use Rattle.ndarray_layout.specs.View.{IsView};

use crate::strided::Strided;
use crate::strided::blocks::{Blocks, block_axes, start_axes};
use nd_base::{LayoutError, Lengths};
use std::alloc::Global;

impl<D: Lengths> Strided<D> {
    /// The view of all chunks of a shape that lie side by side: first the number of the chunk along each
    /// axis, then the index in it.
    ///
    /// `chunk` is the shape of a chunk, one length for each axis. Index `i` in chunk `n` has the
    /// place of the index `n * chunk + i` of the view. An axis has `len / chunk` chunks; what is left
    /// over at its end is left out. From one chunk to the next the stride is that of the view times
    /// the chunk's length, and 0 where there is no next one; without an index all strides are 0.
    ///
    /// # Errors
    ///
    /// `IncompatibleShape` where `chunk` has more or fewer axes than the view, or the type `E` fixes
    /// another count than twice as many; then `Unsupported` where a length of `chunk` is 0; then
    /// `Overflow` where the product of the lengths of the result that are not 0 is greater than
    /// `isize::MAX`; then out of memory, never where `E` fixes the count of axes or the result has at
    /// most 4.
    ///
    /// Takes time in proportion to the count of axes.
    ///
    /// `[5]`, `[1]` in chunks of `[2]`: `[2,2]`, `[2,1]`. ndarray's `exact_chunks`, as one view.
    pub fn exact_chunks<E: Lengths>(
        &self,
        alloc: Global,
        chunk: &D,
    ) -> Result<Strided<E>, LayoutError>
        ensures fault { shape_fault result ≡
            chunks_fault E.NDIM self.now.shape (D.list chunk.now) }
        ensures memory { chunks_fault E.NDIM self.now.shape (D.list chunk.now) ≡ None →
            NeedsNoMemory E.NDIM (length self.now.shape + length self.now.shape) → IsOk result }
        ensures chunks { IfOk result (λ v. v ≡ chunks_of (D.list chunk.now) self.now) }
        ensures kept { IfOk result (λ v. Descends (chunk_source (D.list chunk.now)) self.now v) }
    {
        let (shape, strides) = (self.dim.slice(), self.strides.slice());
        let (dim, strides) = block_axes(alloc, Blocks::Chunks, shape, strides, chunk)?;
        Ok(Strided {
            start: self.start,
            dim,
            strides,
        })
    }

    /// The view of the first index of each chunk of a shape: its indices are the numbers of the chunks. Errors: those of
    /// `Strided::into_chunks`.
    pub(super) fn chunk_starts(&self, alloc: Global, chunk: &D) -> Result<Self, LayoutError>
        ensures fault { shape_fault result ≡ chunks_fault None self.now.shape (D.list chunk.now) }
        ensures memory { chunks_fault None self.now.shape (D.list chunk.now) ≡ None →
            NeedsNoMemory D.NDIM (length self.now.shape) → IsOk result }
        ensures starts { IfOk result (λ v. v ≡ chunk_starts_of (D.list chunk.now) self.now) }
        ensures is_view { IsView self.now }
    {
        let (shape, strides) = (self.dim.slice(), self.strides.slice());
        let (dim, strides) = start_axes(alloc, Blocks::Chunks, shape, strides, chunk)?;
        Ok(Strided {
            start: self.start,
            dim,
            strides,
        })
    }
}
