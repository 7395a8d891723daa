//! The items of an array one after another, with or without their indices, each lent, without a list of them.
ghost use Rattle.std.specs.Borrow.{Bor};
ghost use Rattle.std.specs.Iterator.{YieldsFirstBy};
ghost use Rattle.std.specs.Iterator.Runs.{EveryRun, ItemsMapTo};
ghost use Rattle.std.specs.Prelude.{◌≡◌, ◌-◌, List, Option, Some, length, map, IfOk, IsOk};
ghost use Rattle.nd_access.specs.Items.{item_at_place};
ghost use Rattle.nd_items.specs.IndexedItems.{indexed_items};
ghost use Rattle.nd_items.specs.IndexedLeft.{indexed_left};
ghost use Rattle.ndarray_layout.specs.Memory.{NeedsNoMemory};
ghost use Rattle.ndarray_layout.specs.Size.{size};
ghost use Rattle.ndarray_layout.specs.View.{view_places};
ghost use Rattle.ndarray_layout.specs.declared.Order.TheVariants.{RowMajor};

use crate::array_view::ArrayView;
use nd_items::{IndexedIter, IndexedOf, Iter, IterOf, NextIndex, ViewIter};
use ndarray_layout::{Lengths, Order};
use std::alloc::{AllocError, Global};

impl<'a, T, D: Lengths> ArrayView<'a, T, D> {
    /// An iterator over the items of all indices, in row-major order (the last axis moves fastest), which knows how many
    /// are left and gives the last ones as well. Spare items aren't among them.
    ///
    /// Takes no memory, and lists nothing. Items that follow one another cost what those of a slice do; else an item takes the time of
    /// its place (`Strided::iter_places`). There `fold`, `for_each` and rows as slices (`rows`) take less time than a `for`, and
    /// `map_to_vec` less than `collect`.
    ///
    /// `a.iter()` gives 8 7. ndarray's `iter`.
    pub fn iter(&self) -> Iter<'_, T>
        ensures items { result ≡ map (item_at_place self.now.items)
            (view_places RowMajor self.now.view) }
        ensures count { length result ≡ size self.now.view.shape }
        ensures in_order { EveryRun
            (YieldsFirstBy (λ (item : Bor T). Some item.now) (λ (left : List (Option T)). left))
            (λ turns. ItemsMapTo turns (λ (item : Bor T). Some item.now) turns.from) }
    {
        IterOf::of_reader(self.reader(), self.strided().iter_places(Order::RowMajor))
    }
}

/// Iterates over the items in row-major order.
///
/// Takes no memory. An item takes the time of its place (`Strided::into_places`), as of `iter`.
///
/// `a.into_iter()` gives 8 7. ndarray's `into_iter` of a view.
impl<'a, T, D: Lengths> IntoIterator for ArrayView<'a, T, D> {
    type Item = &'a T;

    type IntoIter = ViewIter<'a, T, D>;

    ghost into_iter_gives = { λ array left.
        (left ≡ map (item_at_place array.items) (view_places RowMajor array.view))
        × EveryRun (YieldsFirstBy (λ (item : Bor T). Some item.now) (λ (items : List (Option T)). items))
        (λ turns. ItemsMapTo turns (λ (item : Bor T). Some item.now) turns.from) };

    #[inline]
    fn into_iter(self) -> ViewIter<'a, T, D> {
        let ArrayView { reader, view } = self;
        IterOf::of_reader(reader, view.into_places(Order::RowMajor))
    }
}

impl<'a, T, D: Lengths> ArrayView<'a, T, D> {
    /// An iterator over the items with their indices, in row-major order (the last axis moves fastest), each lent for as long as the
    /// data is. It ends the array.
    ///
    /// # Errors
    ///
    /// Out of memory; never where the type fixes the count of axes or there are at most 4.
    ///
    /// Takes time in proportion to the count of axes. An item takes that of `IndexedIter::try_next`.
    ///
    /// `a.into_indexed_iter()` gives 8 at 0 and 7 at 1. ndarray's `indexed_iter`.
    pub fn into_indexed_iter(self, alloc: Global) -> Result<IndexedIter<'a, T, D>, AllocError>
        ensures items { IfOk result (λ left. indexed_left left ≡ indexed_items self.entry) }
        ensures memory { NeedsNoMemory D.NDIM (length self.entry.view.shape) → IsOk result }
    {
        let index = NextIndex::first(alloc, self.dim(), self.len())?;
        Ok(IndexedOf::of_items(self.into_iter(), index))
    }
}
