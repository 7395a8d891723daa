//! Several parts of the same items one after another, each a part of its own.
ghost use Rattle.std.specs.List.{All};
ghost use Rattle.std.specs.Prelude.{◌≡◌, ◌-◌, IfErr, IfOk, IsOk, MatchOption, [], ◌∷◌, ◌++◌, drop, length, take};
ghost use Rattle.ndarray_layout.specs.Memory.{NeedsNoMemory};
ghost use Rattle.nd_lent.specs.Lent.{array_of};

use crate::array_view_mut::ArrayViewMut;
use crate::views::Views;
use nd_access::Cells;
use std::alloc::{AllocError, Global};
use std::marker::Model;

/// Several parts that are still to come, from both ends, each a part of its own: those along an axis (`AxisIterMut`), its chunks
/// (`AxisChunksIterMut`), or the chunks of a shape (`TilesMut`). Several may be used at once, and in threads, whatever the strides are.
#[derive(Drop)]
pub struct Parts<'a, T, V: Views> {
    pub(super) cells: Cells<'a, T>,
    pub(super) views: V,
}

impl<'a, T, V: Views> Model for Parts<'a, T, V> {
    ghost use Rattle.nd_access.specs.Rights.{right_of};
    ghost use Rattle.nd_lent.specs.Blocks.{arrays_of};
    ghost use Rattle.nd_lent.specs.PartsValue.{PartsValue};
    ghost use Rattle.nd_lent.specs.private.OwnedViews.{OwnsEach};

    ghost Value = { PartsValue T };

    ghost view = { λ left. record {
      arrays = arrays_of left.cells.items (V.left left.views);
      access = right_of left.cells;
    } };

    ghost invariant = { λ left. OwnsEach left.cells.marks (V.left left.views) };
}

impl<'a, T: Drop, V: Views> Parts<'a, T, V> {
    /// How many parts are left.
    ///
    /// Of the columns of `[2,3]`: 3. ndarray's `len`.
    #[inline]
    pub fn len(&self) -> usize
        ensures { result ≡ length self.now.arrays }
    {
        self.views.len()
    }

    /// Skips the next `count` parts, or all that remain. They are unchanged.
    ///
    /// Takes no memory, and no time for each of them.
    ///
    /// Of the columns of `[2,3]`, after 2 of them: the last one. What `nth` of std's iterators skips one by one.
    #[inline]
    pub fn advance(&mut self, count: usize)
        ensures left { self.new.arrays ≡ drop count self.old.arrays }
        ensures keeps_access { self.new.access ≡ self.old.access }
    {
        self.views.advance(count);
    }

    /// Skips the last `count` parts, or all that remain. They are unchanged.
    ///
    /// Takes no memory, and no time for each of them.
    ///
    /// Of the columns of `[2,3]`, without the last 2: the first one. What `nth_back` of std's iterators skips one by one.
    #[inline]
    pub fn advance_back(&mut self, count: usize)
        ensures left { self.new.arrays ≡ take (length self.old.arrays - count) self.old.arrays }
        ensures keeps_access { self.new.access ≡ self.old.access }
    {
        self.views.advance_back(count);
    }

    /// The next part; `None` where none is left. That the parts keep what is written is tested, and in no clause.
    ///
    /// # Errors
    ///
    /// Out of memory; never where the type fixes the count of axes or a part has at most 4. The iterator is unchanged after it.
    ///
    /// Takes time in proportion to the count of axes.
    ///
    /// Of the columns of `[2,2]` over 5 6 7 8: 5 7, then 6 8, then `None`. ndarray's `next`.
    #[inline]
    pub fn try_next(
        &mut self,
        alloc: Global,
    ) -> Result<Option<ArrayViewMut<'a, T, V::Dim>>, AllocError>
        ensures memory { All (λ array. NeedsNoMemory V.Dim.NDIM (length array.view.shape)) self.old.arrays → IsOk result }
        ensures unchanged { IfErr result (λ _. self.new.arrays ≡ self.old.arrays) }
        ensures first { IfOk result (λ next. MatchOption next
            ((self.old.arrays ≡ []) × (self.new.arrays ≡ []))
            (λ part. self.old.arrays ≡ array_of part ∷ self.new.arrays)) }
    {
        match self.views.try_next(alloc)? {
            Some(view) => Ok(Some(ArrayViewMut::take_from(&mut self.cells, view))),
            None => Ok(None),
        }
    }

    /// The last part; `None` where none is left.
    ///
    /// # Errors
    ///
    /// Those of `try_next`. The iterator is unchanged after one.
    ///
    /// Takes the time of `try_next`.
    ///
    /// Of the columns of `[2,2]` over 5 6 7 8: 6 8, then 5 7, then `None`. ndarray's `next_back`.
    #[inline]
    pub fn try_next_back(
        &mut self,
        alloc: Global,
    ) -> Result<Option<ArrayViewMut<'a, T, V::Dim>>, AllocError>
        ensures memory { All (λ array. NeedsNoMemory V.Dim.NDIM (length array.view.shape)) self.old.arrays → IsOk result }
        ensures unchanged { IfErr result (λ _. self.new.arrays ≡ self.old.arrays) }
        ensures last { IfOk result (λ next. MatchOption next
            ((self.old.arrays ≡ []) × (self.new.arrays ≡ []))
            (λ part. self.old.arrays ≡ self.new.arrays ++ array_of part ∷ [])) }
    {
        match self.views.try_next_back(alloc)? {
            Some(view) => Ok(Some(ArrayViewMut::take_from(&mut self.cells, view))),
            None => Ok(None),
        }
    }
}
