//! The items of a part one after another, with or without their indices, each lent to be written, without a list of them.
ghost use Rattle.std.specs.Prelude.{◌≡◌, ◌≢◌, ◌++◌, [], IfSome, MatchOption, map, IfOk, IsOk, length};
ghost use Rattle.nd_access.specs.Items.{item_at_place, items_of};
ghost use Rattle.nd_items.specs.IndexedItems.{indexed_items};
ghost use Rattle.nd_lent.specs.Lent.{access_of, array_of};
ghost use Rattle.ndarray_layout.specs.Memory.{NeedsNoMemory};
ghost use Rattle.ndarray_layout.specs.View.{view_places};
ghost use Rattle.ndarray_layout.specs.declared.Order.TheVariants.{RowMajor};

use crate::array_view_mut::ArrayViewMut;
use nd_items::{IndexedIterMut, IndexedOf, IterMut, NextIndex};
use ndarray_layout::{Ix1, Lengths};
use std::alloc::{AllocError, Global};

impl<'a, T: Drop, D: Lengths> ArrayViewMut<'a, T, D> {
    ghost use Rattle.nd_items.specs.ItemsLeft.{access_left, items_left};

    /// An iterator over the items of all indices, in row-major order (the last axis moves fastest), from both ends, each lent to be
    /// written for as long as the whole is. It knows how many are left. That they keep what is written is tested, and in no clause.
    ///
    /// Takes no memory. Items that follow one another cost what those of a slice do; else an item takes the time of its place
    /// (`Strided::into_places`), and `map_in_place` or rows as slices (`rows_mut`) take less time than a `for`.
    ///
    /// The transpose of `[2,2]` over 5 6 7 8: 5 7 6 8. ndarray's `into_iter` of a view to be written.
    pub fn into_items(self) -> IterMut<'a, T, D>
        ensures items { items_left result ≡ map (item_at_place (array_of self.entry).items)
            (view_places RowMajor (array_of self.entry).view) }
        ensures keeps_access { access_left result ≡ access_of self.entry }
    {
        let ArrayViewMut { cells, view } = self;
        IterMut::of_cells(cells, view)
    }
}

/// Items to be written that come row by row, each row as a part of its own.
pub trait RowParts<'a, T> {
    /// The items that come next and lie evenly, at once.
    fn next_row(&mut self) -> Option<ArrayViewMut<'a, T, Ix1>>;

    /// The last items that lie evenly, at once.
    fn next_row_back(&mut self) -> Option<ArrayViewMut<'a, T, Ix1>>;
}

impl<'a, T: Drop, D: Lengths> RowParts<'a, T> for IterMut<'a, T, D> {
    ghost use Rattle.nd_items.specs.ItemsLeft.{items_left};

    /// The items that come next and lie evenly, at once, as a part of their own: what is left of the row in progress, or else the
    /// next row; `None` after the last item.
    ///
    /// Takes no memory. Costs as much as an item.
    ///
    /// Of the items of `[2,2]` with strides `[3,1]` over 5 6 7 8 9, after one item: a part of 6, and then one of 8 9. The project's own.
    fn next_row(&mut self) -> Option<ArrayViewMut<'a, T, Ix1>>
        ensures row { MatchOption result ((items_left self.old ≡ []) × (items_left self.new ≡ []))
            (λ row. items_left self.old ≡ items_of (array_of row) ++ items_left self.new) }
        ensures some { IfSome result (λ row. items_of (array_of row) ≢ []) }
    {
        let (cells, view) = self.next_part()?;
        Some(ArrayViewMut::of_cells(cells, view))
    }

    /// The last items that lie evenly, at once, as a part of their own: what is left of the row in progress at the back, or else
    /// the last row; `None` before the first item.
    ///
    /// Takes no memory. Costs as much as an item from the back.
    ///
    /// Of the items of `[2,2]` with strides `[3,1]` over 5 6 7 8 9, without the last one: a part of 8, and then one of 5 6. The
    /// project's own.
    fn next_row_back(&mut self) -> Option<ArrayViewMut<'a, T, Ix1>>
        ensures row { MatchOption result ((items_left self.old ≡ []) × (items_left self.new ≡ []))
            (λ row. items_left self.old ≡ items_left self.new ++ items_of (array_of row)) }
        ensures some { IfSome result (λ row. items_of (array_of row) ≢ []) }
    {
        let (cells, view) = self.next_part_back()?;
        Some(ArrayViewMut::of_cells(cells, view))
    }
}

impl<'a, T: Drop, D: Lengths> ArrayViewMut<'a, T, D> {
    ghost use Rattle.nd_items.specs.IndexedLeft.{indexed_left};
    ghost use Rattle.nd_items.specs.ItemsLeft.{access_left};

    /// An iterator over the items with their indices, in row-major order (the last axis moves fastest), each lent to be written for
    /// as long as the whole is. It ends the part.
    ///
    /// # Errors
    ///
    /// Out of memory; never where the type fixes the count of axes or there are at most 4. The part is gone then.
    ///
    /// Takes time in proportion to the count of axes. An item takes that of `IndexedIterMut::try_next`.
    ///
    /// The transpose of `[2,2]` over 5 6 7 8: 5 at (0, 0), 7 at (0, 1), 6 at (1, 0), 8 at (1, 1). ndarray's `indexed_iter_mut`.
    pub fn into_indexed_items(self, alloc: Global) -> Result<IndexedIterMut<'a, T, D>, AllocError>
        ensures items { IfOk result (λ left. indexed_left left ≡ indexed_items (array_of self.entry)) }
        ensures keeps_access { IfOk result (λ left. access_left left.items ≡ access_of self.entry) }
        ensures memory { NeedsNoMemory D.NDIM (length (array_of self.entry).view.shape) → IsOk result }
    {
        let index = NextIndex::first(alloc, self.dim(), self.len())?;
        Ok(IndexedOf::of_items(self.into_items(), index))
    }
}
