//! The views of the blocks of a shape one after another: its windows, or the chunks that lie side by side.
ghost use Rattle.std.specs.List.{All};
ghost use Rattle.std.specs.Prelude.{◌≡◌, ◌-◌, IfErr, IfOk, IsOk, MatchOption, None, [], ◌∷◌, ◌++◌, drop, length, take};
ghost use Rattle.nd_base.specs.Memory.{NeedsNoMemory};
ghost use Rattle.nd_base.specs.ShapeFault.{shape_fault};
ghost use Rattle.ndarray_layout.specs.ChunksView.{chunk_views, chunks_fault};
ghost use Rattle.ndarray_layout.specs.WindowsView.{window_views, windows_fault};

use crate::strided::Strided;
use crate::strided::into_places::IntoPlaces;
use nd_base::{LayoutError, Lengths, Order};
use std::alloc::{AllocError, Global};
use std::marker::Model;

/// The views of the windows or the chunks that are still to come, in row-major order, from both ends. A contract sees the list of them.
/// The layout of ndarray's `Windows` and `ExactChunksIter`.
#[derive(Drop)]
pub struct BlockViews<D: Lengths> {
    // The view that has the blocks, and their shape.
    view: Strided<D>,
    block: D,
    // The places of the first indices of those that are left.
    starts: IntoPlaces<D>,
}

impl<D: Lengths> Model for BlockViews<D> {
    ghost use Rattle.std.specs.List.{All};
    ghost use Rattle.std.specs.Prelude.{List, map};
    ghost use Rattle.ndarray_layout.specs.BlocksView.{block_at};
    ghost use Rattle.ndarray_layout.specs.View.{IsView, View};

    ghost Value = { List View };

    ghost view = { λ left. map (block_at (D.list left.block) left.view) left.starts };

    ghost invariant = { λ left. All IsView (map (block_at (D.list left.block) left.view) left.starts) };
}

impl<D: Lengths> BlockViews<D> {
    /// How many are left.
    ///
    /// Of the windows of `[2]` of `[4]`: 3. ndarray's `len`.
    #[inline]
    pub fn len(&self) -> usize
        ensures { result ≡ length self.now }
    {
        self.starts.len()
    }

    /// Skips the next `count`, or all that remain.
    ///
    /// Takes no memory, and no time for each of them.
    ///
    /// Of the windows of `[2]` of `[4]`, after 2 of them: the last one. What `nth` of std's iterators skips one by one.
    #[inline]
    pub fn advance(&mut self, count: usize)
        ensures { self.new ≡ drop count self.old }
    {
        self.starts.advance(count);
    }

    /// Skips the last `count`, or all that remain.
    ///
    /// Takes no memory, and no time for each of them.
    ///
    /// Of the windows of `[2]` of `[4]`, without the last 2: the first one. What `nth_back` of std's iterators skips one by one.
    #[inline]
    pub fn advance_back(&mut self, count: usize)
        ensures { self.new ≡ take (length self.old - count) self.old }
    {
        self.starts.advance_back(count);
    }

    /// The next view; `None` where none is left.
    ///
    /// # Errors
    ///
    /// Out of memory; never where the type fixes the count of axes or there are at most 4. The iterator is unchanged after it.
    ///
    /// Takes the time to copy the lengths of a block and the strides, and that of its place (`into_places`).
    ///
    /// Of the windows of `[2]` of `[3]`, `[1]` from 0: `[2]`, `[1]` from 0, then from 1, then `None`. ndarray's `next`.
    #[inline]
    pub fn try_next(&mut self, alloc: Global) -> Result<Option<Strided<D>>, AllocError>
        ensures memory { All (λ view. NeedsNoMemory D.NDIM (length view.shape)) self.old → IsOk result }
        ensures unchanged { IfErr result (λ _. self.new ≡ self.old) }
        ensures first { IfOk result (λ next. MatchOption next
            ((self.old ≡ []) × (self.new ≡ [])) (λ view. self.old ≡ view ∷ self.new)) }
    {
        if self.starts.has_ended() {
            return Ok(None);
        }
        let dim = self.block.duplicate(alloc)?;
        let strides = self.view.strides().duplicate(alloc)?;
        match self.starts.next() {
            Some(start) => Ok(Some(Strided {
                start,
                dim,
                strides,
            })),
            None => Ok(None),
        }
    }

    /// The last view; `None` where none is left.
    ///
    /// # Errors
    ///
    /// Those of `try_next`. The iterator is unchanged after one.
    ///
    /// Takes the time of `try_next`.
    ///
    /// Of the windows of `[2]` of `[3]`, `[1]` from 0: `[2]`, `[1]` from 1, then from 0, then `None`. ndarray's `next_back`.
    #[inline]
    pub fn try_next_back(&mut self, alloc: Global) -> Result<Option<Strided<D>>, AllocError>
        ensures memory { All (λ view. NeedsNoMemory D.NDIM (length view.shape)) self.old → IsOk result }
        ensures unchanged { IfErr result (λ _. self.new ≡ self.old) }
        ensures last { IfOk result (λ next. MatchOption next
            ((self.old ≡ []) × (self.new ≡ [])) (λ view. self.old ≡ self.new ++ view ∷ [])) }
    {
        if self.starts.has_ended() {
            return Ok(None);
        }
        let dim = self.block.duplicate(alloc)?;
        let strides = self.view.strides().duplicate(alloc)?;
        match self.starts.next_back() {
            Some(start) => Ok(Some(Strided {
                start,
                dim,
                strides,
            })),
            None => Ok(None),
        }
    }
}

impl<D: Lengths> Strided<D> {
    /// An iterator over the views of the chunks of a shape that lie side by side, in row-major order of their numbers, from both ends.
    ///
    /// `chunk` is the shape of a chunk, one length for each axis. Index `i` of chunk `n` has the place of the index `n * chunk + i` of
    /// the view. An axis has `len / chunk` chunks; what is left over at its end is left out.
    ///
    /// # Errors
    ///
    /// `IncompatibleShape` where `chunk` has more or fewer axes than the view; then `Unsupported` where a length of `chunk` is 0; then
    /// `Overflow` where the product of the counts of chunks and the lengths that are not 0 is greater than `isize::MAX`; then out of
    /// memory, never where the type fixes the count of axes or there are at most 4.
    ///
    /// Takes time in proportion to the count of axes. A chunk takes the time of `BlockViews::try_next`.
    ///
    /// `[5]`, `[1]` from 0 in chunks of `[2]`: `[2]`, `[1]` from 0, and from 2. The layout of ndarray's `exact_chunks`.
    pub fn into_chunks(self, alloc: Global, chunk: &D) -> Result<BlockViews<D>, LayoutError>
        ensures fault { shape_fault result ≡ chunks_fault None self.shape (D.list chunk.now) }
        ensures memory { shape_fault result ≡ None → NeedsNoMemory D.NDIM (length self.shape) →
            IsOk result }
        ensures views { IfOk result (λ left. left ≡ chunk_views (D.list chunk.now) self) }
    {
        let starts = self.chunk_starts(alloc, chunk)?;
        let block = chunk.duplicate(alloc)?;
        Ok(BlockViews {
            view: self,
            block,
            starts: starts.into_places(Order::RowMajor),
        })
    }

    /// An iterator over the views of all windows of a shape, in row-major order of their first indices, from both ends.
    ///
    /// `window` is the shape of a window, one length for each axis. Index `i` of window `w` has the place of the index `w + i` of the
    /// view. An axis has `len - window + 1` windows, and none where the window is longer.
    ///
    /// # Errors
    ///
    /// `IncompatibleShape` where `window` has more or fewer axes than the view; then `Unsupported` where a length of `window` is 0; then
    /// `Overflow` where the product of the counts of windows and the lengths that are not 0 is greater than `isize::MAX`; then out of
    /// memory, never where the type fixes the count of axes or there are at most 4.
    ///
    /// Takes time in proportion to the count of axes. A window takes the time of `BlockViews::try_next`.
    ///
    /// `[3]`, `[1]` from 0 in windows of `[2]`: `[2]`, `[1]` from 0, and from 1. The layout of ndarray's `windows`.
    pub fn into_windows(self, alloc: Global, window: &D) -> Result<BlockViews<D>, LayoutError>
        ensures fault { shape_fault result ≡ windows_fault None self.shape (D.list window.now) }
        ensures memory { shape_fault result ≡ None → NeedsNoMemory D.NDIM (length self.shape) →
            IsOk result }
        ensures views { IfOk result (λ left. left ≡ window_views (D.list window.now) self) }
    {
        let starts = self.window_starts(alloc, window)?;
        let block = window.duplicate(alloc)?;
        Ok(BlockViews {
            view: self,
            block,
            starts: starts.into_places(Order::RowMajor),
        })
    }
}
