//! An array that owns its items.
ghost use Rattle.std.specs.Borrow.{Array, Lends, sem};
ghost use Rattle.std.specs.List.{All};
ghost use Rattle.std.specs.Option.{IsSome};
ghost use Rattle.std.specs.Prelude.{◌≡◌, ◌↔◌, ◌∷◌, [], IsTrue, Some, None, IfOk, IfSome, IsOk, OnErr, OnOk, length, map, slice_get};
ghost use Rattle.ndarray_layout.specs.declared.Fit.TheVariants.{Strict};
ghost use Rattle.ndarray_layout.specs.declared.Order.TheVariants.{RowMajor};
ghost use Rattle.ndarray_layout.specs.SliceFault.{argument_fault};
ghost use Rattle.ndarray_layout.specs.Indices.{is_index};
ghost use Rattle.ndarray_layout.specs.Memory.{NeedsNoMemory};
ghost use Rattle.ndarray_layout.specs.ShapeFault.{shape_fault};
ghost use Rattle.ndarray_layout.specs.Size.{size};
ghost use Rattle.ndarray_layout.specs.SlicedView.{slice_of};
ghost use Rattle.ndarray_layout.specs.Stretch.{IsStretch};
ghost use Rattle.ndarray_layout.specs.View.{view_places};
ghost use Rattle.nd_owned.specs.Owned.{IsOfNone, with_items};
ghost use Rattle.nd_lent.specs.Items.{IsOwned, item_at, item_at_place, with_item};
ghost use Rattle.nd_owned.specs.MultiSet.{HaveNoItems, IsFaultOfWrites, IsWritten, KeepsOthers, counts_fault, write_of, write_places};
ghost use Rattle.nd_owned.specs.private.Written.{HasWritten};

mod by_index;
mod indexing;
mod making;
mod mapping;
mod taking;
mod tiles;

use crate::even_rows::even_rows_of;
use crate::multi_set::{check_apart, check_counts, picked_by_write, picked_views, write_all};
use crate::picked_view::PickedView;
use crate::rows::{read_rows, write_rows};
use nd_lent::{ArrayView, ArrayViewMut};
use ndarray_layout::{
    ErrorKind, LayoutError, Lengths, NdIndex, Order, SliceElems, SliceInfoElem, Strided, from_kind,
};
use std::alloc::{AllocError, Global};
use std::marker::Model;

/// An array that owns its items. Each index of its shape has an item, at its place in the list of the items, and no two
/// indices alias. Items at no place of the layout are spare ones, and no call shows them but `stored`, `stored_mut` and
/// `into_stored`.
///
/// In the examples `a` is `[2]` with the stride `[-1]` over 7 8 9: (0) is 8, (1) is 7, and 9 is spare.
#[derive(Drop)]
pub struct OwnedArray<T, D: Lengths> {
    items: Vec<T>,
    view: Strided<D>,
}

impl<T, D: Lengths> Model for OwnedArray<T, D> {
    ghost use Rattle.std.specs.Prelude.{length};
    ghost use Rattle.nd_lent.specs.Items.{ArrayValue, IsOwned};

    ghost Value = { ArrayValue T };

    ghost view = { λ a. record { items = a.items.items; view = a.view } };

    ghost invariant = { λ a. IsOwned (length a.items.items) a.view };
}

impl<T: Drop, D: Lengths> OwnedArray<T, D> {
    ghost use Rattle.nd_owned.specs.contracts.owned.OwnedArray.{the_row};
    ghost use Rattle.nd_lent.specs.Lent.{array_of};

    /// The view: the shape, the strides and the place of the first index. Each place of it has an item, and no two indices
    /// alias.
    ///
    /// `a.strided()` is `[2]`, `[-1]` from 1. The project's own.
    #[inline]
    pub fn strided(&self) -> &Strided<D>
        ensures view { result.now ≡ self.now.view }
        ensures owned { IsOwned (length self.now.items) self.now.view }
    {
        &self.view
    }

    /// The shape. ndarray's `raw_dim`, which copies it.
    #[inline]
    pub fn dim(&self) -> &D
        ensures list { D.list result.now ≡ self.now.view.shape }
    {
        self.view.dim()
    }

    /// How many indices the shape has; spare items don't count.
    ///
    /// `a.len()` is 2. ndarray's `len`.
    pub fn len(&self) -> usize
        ensures { result ≡ size self.now.view.shape }
    {
        self.view.len()
    }

    /// Whether the shape has no index. ndarray's `is_empty`.
    pub fn is_empty(&self) -> bool
        ensures { IsTrue result ↔ (size self.now.view.shape ≡ 0) }
    {
        self.view.is_empty()
    }

    /// All items as they are stored, spare ones too.
    ///
    /// `a.stored()` is 7 8 9. ndarray's `as_slice_memory_order`, where no item is spare.
    #[inline]
    pub fn stored(&self) -> &[T]
        ensures items { result.now ≡ self.now.items }
        ensures owned { IsOwned (length self.now.items) self.now.view }
    {
        self.items.as_slice()
    }

    /// The items as a slice, to be read, where their places follow one another in row-major order; else `None`.
    ///
    /// Takes no memory, and time in proportion to the count of axes.
    ///
    /// `[2]` of 7 8 9: 7 8; `a.as_slice()` is `None`. ndarray's `as_slice`.
    #[inline]
    pub fn as_slice(&self) -> Option<&[T]>
        ensures found { IsSome result ↔ IsStretch RowMajor self.now.view }
        ensures items { IfSome result (λ slice. map Some slice.now ≡
            map (item_at_place self.now.items) (view_places RowMajor self.now.view)) }
    {
        let places = self.view.stretch(Order::RowMajor)?;
        let items = self.stored();
        Some(&items[places.start..places.end])
    }

    /// All items as they are stored, spare ones too, to be written. Their count and the view are unchanged.
    ///
    /// Of `a`, 5 at the end of the list makes it 7 8 5, and (0) is 8 still. ndarray's `as_slice_memory_order_mut`, where no item
    /// is spare.
    #[inline]
    pub fn stored_mut(&mut self) -> &mut [T]
        ensures* writes_back { sem 𝓛 (Lends
            (the_row T.row D.row D.Lengths.own D.FixedCount D.PartialEq D.Debug D.Index)
            (Array T.row 0) self.entry result (with_items self.old)) }
        ensures items { result.now ≡ self.old.items }
        ensures owned { IsOwned (length self.old.items) self.old.view }
    {
        self.items.as_mut_slice()
    }

    /// The view, and all items as they are stored, to be written by its places. Their count and the view are unchanged.
    ///
    /// No clause says what the array is once the items were written; `stored_mut` has one.
    ///
    /// The view of `a` starts at 1, and 5 at this place of the list makes it 7 5 9. The project's own.
    #[inline]
    pub fn parts_mut(&mut self) -> (&Strided<D>, &mut [T])
        ensures view { result.0.now ≡ self.old.view }
        ensures items { result.1.now ≡ self.old.items }
        ensures owned { IsOwned (length result.1.now) result.0.now }
    {
        let items = self.items.as_mut_slice();
        (&self.view, items)
    }

    /// The list of all items as they are stored, spare ones too, and no copy of it. It ends the array.
    ///
    /// Of `a`: 7 8 9. ndarray's `into_raw_vec_and_offset`, whose offset the view's start is.
    #[inline]
    pub fn into_stored(self) -> Vec<T>
        ensures { result.items ≡ self.items }
    {
        let OwnedArray { items, view: _ } = self;
        items
    }

    /// Replaces the item of an index, and returns whether it is an index of the shape; else the array is unchanged.
    ///
    /// `a.set(&1, 5)` makes it 5 8 9. ndarray's `get_mut`, with the write.
    pub fn set<I: NdIndex<D>>(&mut self, index: &I, item: T) -> bool
        ensures is_index { result ≡ is_index self.old.view.shape (I.index_list index.now) }
        ensures written { self.new ≡ with_item self.old (I.index_list index.now) item }
    {
        match self.view.place(index) {
            Some(place) => {
                self.items[place] = item;
                true
            }
            None => false,
        }
    }

    /// The array with its items lent, for the calls of `ArrayView`.
    ///
    /// # Errors
    ///
    /// Out of memory; never where the type fixes the count of axes or there are at most 4.
    ///
    /// `(0)` of it is 8, as of `a`. ndarray's `view`.
    pub fn try_view(&self, alloc: Global) -> Result<ArrayView<'_, T, D>, AllocError>
        ensures array { IfOk result (λ a. a ≡ self.now) }
        ensures memory { NeedsNoMemory D.NDIM (length self.now.view.shape) → IsOk result }
    {
        let view = self.view.duplicate(alloc)?;
        Ok(ArrayView::new(view, self.items.as_slice()))
    }

    /// The array with its items lent to be written, for the calls of `ArrayViewMut`.
    ///
    /// # Errors
    ///
    /// Out of memory; never where the type fixes the count of axes or there are at most 4.
    ///
    /// No clause says what the array is once the result is gone. A proof that needs it duplicates the view of `strided` first, and
    /// passes the duplicate and `stored_mut` to a function over a slice, which lends it by `Whole`.
    ///
    /// 5 at (1) of that of `a` makes it 5 8 9. ndarray's `view_mut`.
    pub fn try_view_mut(&mut self, alloc: Global) -> Result<ArrayViewMut<'_, T, D>, AllocError>
        ensures array { IfOk result (λ a. array_of a ≡ self.old) }
        ensures memory { NeedsNoMemory D.NDIM (length self.old.view.shape) → IsOk result }
    {
        let view = self.view.duplicate(alloc)?;
        Ok(ArrayViewMut::new(view, self.items.as_mut_slice()))
    }
}

impl<T: Copy, D: Lengths> OwnedArray<T, D> {
    /// A copy of the item of an index; `None` where it is no index of the shape.
    ///
    /// `a.get(&0)` is 8, and `a.get(&2)` is `None`. ndarray's `get`.
    pub fn get<I: NdIndex<D>>(&self, index: &I) -> Option<T>
        ensures found { IsSome result ↔
            IsTrue (is_index self.now.view.shape (I.index_list index.now)) }
        ensures item { result ≡ item_at self.now (I.index_list index.now) }
    {
        match self.try_item(index) {
            Ok(item) => Some(*item),
            Err(_) => None,
        }
    }

    /// Copies of the items that a slice picks, in row-major order.
    ///
    /// Goes over the longest rows that the axes of the part allow (`Strided::joined_rows`): each of 16 neighbours or more is copied
    /// as a whole.
    ///
    /// # Errors
    ///
    /// Those of `check_slice` on the shape, then out of memory; none of memory where the slice picks nothing and leaves at
    /// most 4 axes.
    ///
    /// `..;-1,1..` of `[2,3]` over 0 1 2 3 4 5: 4 5 1 2. The project's own.
    pub fn items<S: SliceElems>(&self, alloc: Global, slices: &S) -> Result<Vec<T>, LayoutError>
        ensures fault { shape_fault result ≡
            argument_fault Strict self.now.view.shape (S.list slices.now) }
        ensures items { IfOk result (λ v. map Some v.items ≡ map (item_at_place self.now.items)
            (view_places RowMajor (slice_of Strict (S.list slices.now) self.now.view))) }
        ensures memory { IsOfNone self.now.view.shape (S.list slices.now) → IsOk result }
    {
        if let Some(rows) = even_rows_of(&self.view, slices.elems())? {
            return Ok(read_rows(alloc, rows, self.items.as_slice())?);
        }
        let part = PickedView::new(alloc, &self.view, slices)?;
        Ok(part.read(alloc, self.items.as_slice())?)
    }

    /// Writes items at several slices at once, all of them or none.
    ///
    /// Each slice comes with the items for its indices, in row-major order. All other items are unchanged, spare ones too.
    /// A slice that picks nothing intersects no other, and an empty list of writes is no error.
    ///
    /// The slices are compared as `first_intersection_sorted` does, which takes memory for more than four: rows, columns and tiles, with
    /// steps or without, in any order take time in proportion to `k * log(k)` for `k` slices. If that memory fails, they are compared
    /// without it. Before the first write the parts that the slices pick are listed if there are several.
    ///
    /// # Errors
    ///
    /// That of `check_slice` on the shape for the first slice that doesn't fit; then `IncompatibleShape` where a list has
    /// more items or fewer than its slice picks; then `Unsupported` where two slices share an index; then out of memory,
    /// never where no list has an item, as where each slice picks nothing. The array is unchanged after an error.
    ///
    /// `0,..` with 7 8 9 and `1,..;2` with 5 6 make 7 8 9 5 4 6 of `[2,3]` over 0 1 2 3 4 5; `0,..` and `..,0` share
    /// (0,0). ndarray's `multi_slice_move`, with the writes.
    pub fn multi_set(
        &mut self,
        alloc: Global,
        writes: &[(Vec<SliceInfoElem>, Vec<T>)],
    ) -> Result<(), LayoutError>
        ensures fault { IsFaultOfWrites self.old.view.shape (map write_of writes.now)
            (shape_fault result) }
        ensures memory { shape_fault result ≡ None → HaveNoItems (map write_of writes.now) →
            IsOk result }
        ensures unchanged { OnErr result (self.new ≡ self.old) }
        ensures view { self.new.view ≡ self.old.view }
        ensures count { length self.new.items ≡ length self.old.items }
        ensures written { OnOk result (All (IsWritten self.old.view self.new.items)
            (map write_of writes.now)) }
        ensures others { OnOk result (KeepsOthers self.old.view
            (map write_of writes.now) self.old.items self.new.items) }
    {
        if let [write] = writes
            && !write.1.is_empty()
        {
            return self.set_one(alloc, write);
        }
        check_counts(&self.view, writes)?;
        check_apart(alloc, &self.view, writes)?;
        let parts = picked_views(alloc, &self.view, writes)?;
        write_all(self.items.as_mut_slice(), parts.as_slice());
        Ok(())
    }

    /// Writes items at one slice, as `multi_set` does with a list of this write, which takes no memory to list.
    fn set_one(
        &mut self,
        alloc: Global,
        write: &(Vec<SliceInfoElem>, Vec<T>),
    ) -> Result<(), LayoutError>
        ensures fault { shape_fault result ≡
            counts_fault self.old.view.shape (write_of write.now ∷ []) }
        ensures unchanged { OnErr result (self.new ≡ self.old) }
        ensures view { self.new.view ≡ self.old.view }
        ensures count { length self.new.items ≡ length self.old.items }
        ensures written { OnOk result (HasWritten (write_places self.old.view (write_of write.now))
            write.now.1.items self.old.items self.new.items) }
    {
        if let Some(rows) = even_rows_of(&self.view, write.0.as_slice())? {
            if rows.size() != write.1.len() {
                return Err(LayoutError::Shape(from_kind(ErrorKind::IncompatibleShape)));
            }
            write_rows(self.items.as_mut_slice(), rows, write.1.as_slice());
            return Ok(());
        }
        let part = picked_by_write(alloc, &self.view, write)?;
        part.write(self.items.as_mut_slice(), write.1.as_slice());
        Ok(())
    }
}
