//! The items of a part one after another, each lent to be read, without a list of them.
ghost use Rattle.std.specs.Borrow.{Bor};
ghost use Rattle.std.specs.Iterator.{YieldsFirstBy};
ghost use Rattle.std.specs.Iterator.Runs.{EveryRun, ItemsMapTo};
ghost use Rattle.std.specs.Option.{IsSome};
ghost use Rattle.std.specs.Prelude.{◌≡◌, ◌↔◌, IfOk, IfSome, IsOk, List, Option, Some, length, map};
ghost use Rattle.ndarray_layout.specs.declared.Order.TheVariants.{RowMajor};
ghost use Rattle.ndarray_layout.specs.Memory.{NeedsNoMemory};
ghost use Rattle.ndarray_layout.specs.Size.{size};
ghost use Rattle.ndarray_layout.specs.Stretch.{IsStretch};
ghost use Rattle.ndarray_layout.specs.View.{view_places};
ghost use Rattle.nd_access.specs.Items.{item_at_place};

use crate::array_view::ArrayView;
use crate::array_view_mut::ArrayViewMut;
use nd_items::{Iter, IterOf};
use ndarray_layout::{Lengths, Order};
use std::alloc::{AllocError, Global};

impl<'a, T: Drop, D: Lengths> ArrayViewMut<'a, T, D> {
    ghost use Rattle.nd_lent.specs.Lent.{array_of};

    /// The part as an array, to be read for as long as this one isn't written. Parts beside it may be written meanwhile.
    ///
    /// # Errors
    ///
    /// Out of memory; never where the type fixes the count of axes or there are at most 4.
    ///
    /// `[2]`, `[-1]` from 1 over 7 8 9: an array of 8 7. ndarray's `view`.
    pub fn try_view(&self, alloc: Global) -> Result<ArrayView<'_, T, D>, AllocError>
        ensures array { IfOk result (λ a. a ≡ array_of self.now) }
        ensures memory { NeedsNoMemory D.NDIM (length (array_of self.now).view.shape) →
            IsOk result }
    {
        let view = self.view.duplicate(alloc)?;
        Ok(ArrayView::of_reader(self.cells.shared(), view))
    }

    /// The items as a slice, to be read, where their places follow one another in row-major order; else `None`.
    ///
    /// Takes no memory, and time in proportion to the count of axes.
    ///
    /// `[2]`, `[1]` from 1 over 7 8 9: 8 9; with the stride `[-1]` `None`. ndarray's `as_slice`.
    pub fn as_slice(&self) -> Option<&[T]>
        ensures found { IsSome result ↔ IsStretch RowMajor (array_of self.now).view }
        ensures items { IfSome result (λ items. map Some items.now ≡
            map (item_at_place (array_of self.now).items)
            (view_places RowMajor (array_of self.now).view)) }
    {
        let places = self.view.stretch(Order::RowMajor)?;
        Some(
            self.cells
                .shared()
                .slice(places.start, places.end - places.start),
        )
    }

    /// An iterator over the items of all indices, in row-major order (the last axis moves fastest), each lent to be read. It knows how
    /// many are left.
    ///
    /// Takes no memory. An item takes the time of its place (`Strided::iter_places`).
    ///
    /// The transpose of `[2,2]` over 5 6 7 8: 5 7 6 8. ndarray's `iter`.
    pub fn iter(&self) -> Iter<'_, T>
        ensures items { result ≡ map (item_at_place (array_of self.now).items)
            (view_places RowMajor (array_of self.now).view) }
        ensures count { length result ≡ size (array_of self.now).view.shape }
        ensures in_order { EveryRun
            (YieldsFirstBy (λ (item : Bor T). Some item.now) (λ (left : List (Option T)). left))
            (λ turns. ItemsMapTo turns (λ (item : Bor T). Some item.now) turns.from) }
    {
        IterOf::of_reader(self.cells.shared(), self.view.iter_places(Order::RowMajor))
    }
}
