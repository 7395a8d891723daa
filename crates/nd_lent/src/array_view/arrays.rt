//! Several arrays of the same items one after another, each lent for as long as the data is.
ghost use Rattle.std.specs.List.{All};
ghost use Rattle.std.specs.Prelude.{◌≡◌, ◌-◌, IfErr, IfOk, IsOk, MatchOption, [], ◌∷◌, ◌++◌, drop, length, take};
ghost use Rattle.ndarray_layout.specs.Memory.{NeedsNoMemory};

use crate::array_view::ArrayView;
use crate::views::Views;
use nd_access::Reader;
use std::alloc::{AllocError, Global};
use std::marker::Model;

/// Several arrays of the same items that are still to come, from both ends, each lent for as long as the data is: those along an
/// axis (`AxisIter`), its chunks (`AxisChunksIter`), or windows and chunks of a shape (`BlocksIter`). A contract sees the list of them.
#[derive(Drop)]
pub struct Arrays<'a, T, V: Views> {
    pub(super) reader: Reader<'a, T>,
    pub(super) views: V,
}

impl<'a, T, V: Views> Model for Arrays<'a, T, V> {
    ghost use Rattle.std.specs.List.{All};
    ghost use Rattle.std.specs.Prelude.{List, length};
    ghost use Rattle.nd_lent.specs.Blocks.{arrays_of};
    ghost use Rattle.nd_access.specs.Items.{ArrayValue};
    ghost use Rattle.nd_access.specs.Read.{IsRead};

    ghost Value = { List (ArrayValue T) };

    ghost view = { λ left. arrays_of left.reader.items (V.left left.views) };

    ghost invariant = { λ left. All (IsRead left.reader.marks (length left.reader.items)) (V.left left.views) };
}

impl<'a, T, V: Views> Arrays<'a, T, V> {
    /// How many arrays are left.
    ///
    /// Of the columns of `[2,3]`: 3. ndarray's `len`.
    #[inline]
    pub fn len(&self) -> usize
        ensures { result ≡ length self.now }
    {
        self.views.len()
    }

    /// Skips the next `count` arrays, or all that remain.
    ///
    /// Takes no memory, and no time for each of them.
    ///
    /// Of the columns of `[2,3]`, after 2 of them: the last one. What `nth` of std's iterators skips one by one.
    #[inline]
    pub fn advance(&mut self, count: usize)
        ensures { self.new ≡ drop count self.old }
    {
        self.views.advance(count);
    }

    /// Skips the last `count` arrays, or all that remain.
    ///
    /// Takes no memory, and no time for each of them.
    ///
    /// Of the columns of `[2,3]`, without the last 2: the first one. What `nth_back` of std's iterators skips one by one.
    #[inline]
    pub fn advance_back(&mut self, count: usize)
        ensures { self.new ≡ take (length self.old - count) self.old }
    {
        self.views.advance_back(count);
    }

    /// The next array; `None` where none is left.
    ///
    /// # Errors
    ///
    /// Out of memory; never where the type fixes the count of axes or an array has at most 4. The iterator is unchanged after it.
    ///
    /// Takes time in proportion to the count of axes.
    ///
    /// Of the columns of `[2,2]` over 5 6 7 8: 5 7, then 6 8, then `None`. ndarray's `next`.
    #[inline]
    pub fn try_next(
        &mut self,
        alloc: Global,
    ) -> Result<Option<ArrayView<'a, T, V::Dim>>, AllocError>
        ensures memory { All (λ array. NeedsNoMemory V.Dim.NDIM (length array.view.shape)) self.old → IsOk result }
        ensures unchanged { IfErr result (λ _. self.new ≡ self.old) }
        ensures first { IfOk result (λ next. MatchOption next
            ((self.old ≡ []) × (self.new ≡ [])) (λ array. self.old ≡ array ∷ self.new)) }
    {
        match self.views.try_next(alloc)? {
            Some(view) => Ok(Some(ArrayView::of_reader(self.reader.copied(), view))),
            None => Ok(None),
        }
    }

    /// The last array; `None` where none is left.
    ///
    /// # Errors
    ///
    /// Those of `try_next`. The iterator is unchanged after one.
    ///
    /// Takes the time of `try_next`.
    ///
    /// Of the columns of `[2,2]` over 5 6 7 8: 6 8, then 5 7, then `None`. ndarray's `next_back`.
    #[inline]
    pub fn try_next_back(
        &mut self,
        alloc: Global,
    ) -> Result<Option<ArrayView<'a, T, V::Dim>>, AllocError>
        ensures memory { All (λ array. NeedsNoMemory V.Dim.NDIM (length array.view.shape)) self.old → IsOk result }
        ensures unchanged { IfErr result (λ _. self.new ≡ self.old) }
        ensures last { IfOk result (λ next. MatchOption next
            ((self.old ≡ []) × (self.new ≡ [])) (λ array. self.old ≡ self.new ++ array ∷ [])) }
    {
        match self.views.try_next_back(alloc)? {
            Some(view) => Ok(Some(ArrayView::of_reader(self.reader.copied(), view))),
            None => Ok(None),
        }
    }
}
