//! Items that are kept elsewhere, lent as an array.
ghost use Rattle.std.specs.Option.{IsSome};
ghost use Rattle.std.specs.Prelude.{◌≡◌, ◌↔◌, IsTrue, IfOk, IfSome, IsOk, Some, length, map, option_copied};
ghost use Rattle.ndarray_layout.specs.declared.Order.TheVariants.{RowMajor};
ghost use Rattle.ndarray_layout.specs.Indices.{is_index};
ghost use Rattle.ndarray_layout.specs.Memory.{NeedsNoMemory};
ghost use Rattle.ndarray_layout.specs.Size.{size};
ghost use Rattle.ndarray_layout.specs.Stretch.{IsStretch};
ghost use Rattle.ndarray_layout.specs.View.{view_places};
ghost use Rattle.nd_access.specs.ArrayView.{HasItems};
ghost use Rattle.nd_access.specs.Items.{item_at, item_at_place};
ghost use Rattle.nd_access.specs.Read.{IsRead};

mod arrays;
mod axis_chunks;
mod axis_iter;
mod blocks_iter;
mod comparing;
mod copying;
mod extremes;
mod folding;
mod folding_with;
mod items;
mod making;
mod memory_order;
mod rows;
mod searching;
mod steps;
mod totals;

pub use arrays::Arrays;
pub use axis_chunks::AxisChunksIter;
pub use axis_iter::AxisIter;
pub use blocks_iter::BlocksIter;
use nd_access::Reader;
use ndarray_layout::{Lengths, NdIndex, Order, Strided};
pub use rows::IntoArray;
use std::alloc::{AllocError, Global};
use std::marker::Model;

/// Items of any type that are kept elsewhere and lent, with a view that has a place among them for each index. Two indices
/// may have one item, as after a broadcast. Items at no place of the view are spare ones, and no call reads them.
/// ndarray's `ArrayView`.
///
/// In the examples `a` is `[2]` with the stride `[-1]` over 7 8 9: (0) is 8, (1) is 7, and 9 is spare.
#[derive(Drop)]
pub struct ArrayView<'a, T, D: Lengths> {
    reader: Reader<'a, T>,
    view: Strided<D>,
}

impl<'a, T, D: Lengths> Model for ArrayView<'a, T, D> {
    ghost use Rattle.std.specs.Prelude.{length};
    ghost use Rattle.nd_access.specs.Items.{ArrayValue};
    ghost use Rattle.nd_access.specs.Read.{IsRead};

    ghost Value = { ArrayValue T };

    ghost view = { λ a. record { items = a.reader.items; view = a.view } };

    ghost invariant = { λ a. IsRead a.reader.marks (length a.reader.items) a.view };
}

impl<'a, T, D: Lengths> ArrayView<'a, T, D> {
    /// The view: the shape, the strides and the place of the first index. Each place of it has an item.
    ///
    /// `a.strided()` is `[2]`, `[-1]` from 1. The project's own.
    #[inline]
    pub fn strided(&self) -> &Strided<D>
        ensures view { result.now ≡ self.now.view }
        ensures has_items { HasItems (length self.now.items) self.now.view }
    {
        &self.view
    }

    /// The shape. ndarray's `raw_dim`, which copies it.
    #[inline]
    pub fn dim(&self) -> &D
        ensures list { D.list result.now ≡ self.now.view.shape }
    {
        self.view.dim()
    }

    /// How many indices the shape has; spare items don't count.
    ///
    /// `a.len()` is 2. ndarray's `len`.
    pub fn len(&self) -> usize
        ensures { result ≡ size self.now.view.shape }
    {
        self.view.len()
    }

    /// Whether the shape has no index. ndarray's `is_empty`.
    pub fn is_empty(&self) -> bool
        ensures { IsTrue result ↔ (size self.now.view.shape ≡ 0) }
    {
        self.view.is_empty()
    }

    /// The items, to be read by their places: each index of the view has one.
    #[inline]
    pub(crate) fn reader(&self) -> Reader<'_, T>
        ensures items { result.items ≡ self.now.items }
        ensures read { IsRead result.marks (length result.items) self.now.view }
    {
        self.reader.lent()
    }

    /// The items as a slice, where their places follow one another in row-major order; else `None`.
    ///
    /// Takes no memory, and time in proportion to the count of axes.
    ///
    /// `[2]`, `[1]` from 1 over 7 8 9: 8 9; `a.as_slice()` is `None`. ndarray's `as_slice` and `to_slice`.
    #[inline]
    pub fn as_slice(&self) -> Option<&'a [T]>
        ensures found { IsSome result ↔ IsStretch RowMajor self.now.view }
        ensures items { IfSome result (λ slice. map Some slice.now ≡
            map (item_at_place self.now.items) (view_places RowMajor self.now.view)) }
    {
        let places = self.view.stretch(Order::RowMajor)?;
        Some(self.reader.slice(places.start, places.end - places.start))
    }

    /// The item of an index; `None` where it is no index of the shape.
    ///
    /// `a.get(&0)` is 8, and `a.get(&2)` is `None`. ndarray's `get`.
    #[inline]
    pub fn get<I: NdIndex<D>>(&self, index: &I) -> Option<&'a T>
        ensures found { IsSome result ↔
            IsTrue (is_index self.now.view.shape (I.index_list index.now)) }
        ensures item { option_copied result ≡ item_at self.now (I.index_list index.now) }
    {
        let place = self.view.place(index)?;
        Some(self.reader.get(place))
    }

    /// An array that lends the same items, with a shape and strides of its own.
    ///
    /// # Errors
    ///
    /// Out of memory; never where the type fixes the count of axes or there are at most 4.
    ///
    /// In place of ndarray's `Clone`.
    pub fn duplicate(&self, alloc: Global) -> Result<Self, AllocError>
        ensures array { IfOk result (λ a. a ≡ self.now) }
        ensures memory { NeedsNoMemory D.NDIM (length self.now.view.shape) → IsOk result }
    {
        let view = self.view.duplicate(alloc)?;
        Ok(ArrayView {
            reader: self.reader.copied(),
            view,
        })
    }
}
