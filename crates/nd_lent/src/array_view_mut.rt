//! A part of an array: a view, and the right to its items alone.
ghost use Rattle.std.specs.Borrow.{sem};
ghost use Rattle.std.specs.Option.{IsSome};
ghost use Rattle.std.specs.Prelude.{◌≡◌, ◌↔◌, IsTrue, IfErr, IfOk, IfSome, IsOk, None, Some, length, map, option_copied};
ghost use Rattle.ndarray_layout.specs.Indices.{is_index};
ghost use Rattle.ndarray_layout.specs.Memory.{NeedsNoMemory};
ghost use Rattle.ndarray_layout.specs.ShapeFault.{shape_fault};
ghost use Rattle.ndarray_layout.specs.declared.Order.TheVariants.{RowMajor};
ghost use Rattle.ndarray_layout.specs.Size.{size};
ghost use Rattle.ndarray_layout.specs.SplitView.{first_part_of, second_part_of, second_source, split_fault};
ghost use Rattle.ndarray_layout.specs.Stretch.{IsStretch};
ghost use Rattle.ndarray_layout.specs.View.{view_places};
ghost use Rattle.nd_access.specs.Items.{IsOwned};
ghost use Rattle.nd_access.specs.Cells.{without};
ghost use Rattle.nd_access.specs.Part.{IsPart, IsPart-prop, marks_of};
ghost use Rattle.nd_lent.specs.SplitItems.{ShowsPartOf};

mod axes;
mod axis_chunks;
mod axis_iter;
mod borrowing;
mod items;
mod making;
mod mapping;
mod mapping_into;
mod memory_order;
mod pairs;
mod parts;
mod reading;
mod rows;
mod slice_parts;
mod slices;
mod steps;
mod tiles;
mod triples;
mod writing;
mod zipping;

pub use axis_chunks::AxisChunksIterMut;
pub use axis_iter::AxisIterMut;
pub use items::RowParts;
use nd_access::Cells;
use ndarray_layout::{Axis, LayoutError, Lengths, NdIndex, Order, Strided};
pub use parts::Parts;
pub use rows::LanesMut;
pub use slice_parts::SliceParts;
use std::alloc::Global;
use std::mem::replace;
pub use tiles::TilesMut;

/// A part of an array, to be read and written beside other parts of the same items: a view, and the right to the items at its
/// places, at the price of a pointer. Nothing else of the items is read or written.
///
/// The rows of `[2,2]` over 7 8 9 10: one part has 7 8, the other 9 10. The project's own.
#[derive(Drop)]
pub struct ArrayViewMut<'a, T, D: Lengths> {
    pub(crate) cells: Cells<'a, T>,
    pub(crate) view: Strided<D>,
    ghost part: { IsPart cells.marks view } by { IsPart-prop cells.marks view },
}

impl<'a, T: Drop, D: Lengths> ArrayViewMut<'a, T, D> {
    ghost use Rattle.nd_access.specs.Items.{item_at, item_at_place, with_item};
    ghost use Rattle.nd_lent.specs.LendsItem.{LendsItemIf};
    ghost use Rattle.nd_lent.specs.Lent.{access_of, array_of};
    ghost use Rattle.nd_access.specs.Rights.{right_of};

    /// The part of all indices of a view. The caller ensures that each index has a place to itself, which has a mark.
    fn of_cells(cells: Cells<'a, T>, view: Strided<D>) -> Self
        requires { IsPart cells.marks view }
        ensures items { (array_of result).items ≡ cells.entry.items }
        ensures view { (array_of result).view ≡ view }
        ensures keeps_access { access_of result ≡ right_of cells.entry }
    {
        ArrayViewMut { cells, view }
    }

    /// The part of all indices of a view, taken from a right to more items; that to the others stays. The caller ensures that each
    /// index has a place to itself, which has a mark.
    fn take_from(cells: &mut Cells<'a, T>, view: Strided<D>) -> Self
        requires { IsPart cells.old.marks view }
        ensures array { array_of result ≡ record { items = cells.old.items; view = view } }
        ensures items { cells.new.items ≡ cells.old.items }
        ensures left { cells.new.marks ≡
            without (marks_of (length cells.old.marks) view) cells.old.marks }
    {
        let taken = cells.take_view(&view);
        ArrayViewMut { cells: taken, view }
    }

    /// The view, by which each index of the part has its place among all items; no two indices alias. The project's own.
    pub fn strided(&self) -> &Strided<D>
        ensures view { result.now ≡ (array_of self.now).view }
        ensures owned { IsOwned (length (array_of self.now).items) (array_of self.now).view }
        ensures part { IsPart (access_of self.now).marks (array_of self.now).view }
    {
        // (each mark has an item: for the proof alone)
        let _shared = self.cells.shared();
        &self.view
    }

    /// The shape. ndarray's `raw_dim`, which copies it.
    #[inline]
    pub fn dim(&self) -> &D
        ensures list { D.list result.now ≡ (array_of self.now).view.shape }
    {
        self.view.dim()
    }

    /// How many indices the shape has.
    ///
    /// `[2]`, `[-1]` from 1 over 7 8 9: 2. ndarray's `len`.
    #[inline]
    pub fn len(&self) -> usize
        ensures { result ≡ size (array_of self.now).view.shape }
    {
        self.view.len()
    }

    /// Whether the shape has no index. ndarray's `is_empty`.
    #[inline]
    pub fn is_empty(&self) -> bool
        ensures { IsTrue result ↔ (size (array_of self.now).view.shape ≡ 0) }
    {
        self.view.is_empty()
    }

    /// The item of an index; `None` where it is no index of the shape.
    ///
    /// `[2]`, `[-1]` from 1 over 7 8 9: (0) is 8, and (2) is `None`. ndarray's `get`.
    pub fn get<I: NdIndex<D>>(&self, index: &I) -> Option<&T>
        ensures found { IsSome result ↔
            IsTrue (is_index (array_of self.now).view.shape (I.index_list index.now)) }
        ensures item { option_copied result ≡
            item_at (array_of self.now) (I.index_list index.now) }
    {
        let place = self.view.place(index)?;
        Some(self.cells.get(place))
    }

    /// The item of an index, to be written; `None` where it is no index of the shape.
    ///
    /// `[2]`, `[-1]` from 1 over 7 8 9: (0) is 8; 5 written there makes the items 7 5 9. ndarray's `get_mut`.
    pub fn get_mut<I: NdIndex<D>>(&mut self, index: &I) -> Option<&mut T>
        ensures* writes_back { sem 𝓛 (LendsItemIf T.row D.row self.entry (I.index_list index.now) result) }
        ensures found { IsSome result ↔
            IsTrue (is_index (array_of self.old).view.shape (I.index_list index.now)) }
        ensures item { IfSome result (λ item.
            item_at (array_of self.old) (I.index_list index.now) ≡ Some item.now) }
    {
        match self.view.place(index) {
            Some(place) => Some(self.item_mut(place)),
            None => None,
        }
    }

    /// Replaces the item of an index, and returns whether it is an index of the shape; else the part is unchanged.
    ///
    /// `[2]`, `[-1]` from 1 over 7 8 9: 5 at (1) makes the items 5 8 9. ndarray's `get_mut`, with the write.
    pub fn set<I: NdIndex<D>>(&mut self, index: &I, item: T) -> bool
        ensures is_index { result ≡
            is_index (array_of self.old).view.shape (I.index_list index.now) }
        ensures written { array_of self.new ≡
            with_item (array_of self.old) (I.index_list index.now) item }
        ensures keeps_access { access_of self.new ≡ access_of self.old }
    {
        match self.view.place(index) {
            Some(place) => {
                *self.item_mut(place) = item;
                true
            },
            None => false,
        }
    }

    /// Replaces the item of an index by another one, and returns the one that was there; the given one comes back as the error
    /// where it is no index of the shape, and the part is unchanged. So no item is dropped.
    ///
    /// `[2]`, `[-1]` from 1 over 7 8 9: 5 at (1) returns 7 and makes the items 5 8 9; at (2) `Err(5)`. ndarray's `get_mut`, with
    /// `std::mem::replace`.
    pub fn replace<I: NdIndex<D>>(&mut self, index: &I, item: T) -> Result<T, T>
        ensures found { IsOk result ↔
            IsTrue (is_index (array_of self.old).view.shape (I.index_list index.now)) }
        ensures returned { IfOk result (λ old.
            item_at (array_of self.old) (I.index_list index.now) ≡ Some old) }
        ensures handed_back { IfErr result (λ given. given ≡ item) }
        ensures written { array_of self.new ≡
            with_item (array_of self.old) (I.index_list index.now) item }
        ensures keeps_access { access_of self.new ≡ access_of self.old }
    {
        match self.view.place(index) {
            Some(place) => Ok(replace(self.item_mut(place), item)),
            None => Err(item),
        }
    }

    /// The items as a slice, for as long as the whole is lent, where their places follow one another in row-major order; else the
    /// part. That the items keep what is written is tested, and in no clause.
    ///
    /// `[2]`, `[1]` from 1 over 7 8 9: 8 9. ndarray's `into_slice`.
    pub fn into_slice(self) -> Result<&'a mut [T], Self>
        ensures found { IsOk result ↔ IsStretch RowMajor (array_of self.entry).view }
        ensures items { IfOk result (λ items. map Some items.now ≡
            map (item_at_place (array_of self.entry).items)
            (view_places RowMajor (array_of self.entry).view)) }
        ensures kept { IfErr result (λ part. array_of part ≡ array_of self.entry) }
        ensures keeps_access { IfErr result (λ part. access_of part ≡ access_of self.entry) }
    {
        let ArrayViewMut { cells, view } = self;
        match view.stretch(Order::RowMajor) {
            Some(places) => {
                let mut cells = cells;
                Ok(cells.take_slice(places.start, places.end - places.start))
            },
            None => Err(ArrayViewMut { cells, view }),
        }
    }

    /// The parts of the coordinates below `index` on an axis, and of those from `index` on; both may be used at once, and in
    /// threads, whatever the strides are. That the items keep what is written is tested, and in no clause.
    ///
    /// # Errors
    ///
    /// Those of `Strided::split_at`: `OutOfBounds` where there is no such axis or the index is greater than its length; then out
    /// of memory, never where the type fixes the count of axes or there are at most 4. The part is gone then.
    ///
    /// Columns of `[2,2]`, `[2,1]` from 0 over 7 8 9 10, at 1: one part has 7 9, the other 8 10. ndarray's `split_at`.
    pub fn split_at(
        self,
        alloc: Global,
        axis: Axis,
        index: usize,
    ) -> Result<(Self, Self), LayoutError>
        ensures fault { shape_fault result ≡ split_fault (array_of self.entry).view.shape axis.0 index }
        ensures memory { shape_fault result ≡ None →
            NeedsNoMemory D.NDIM (length (array_of self.entry).view.shape) → IsOk result }
        ensures items { IfOk result (λ (first, second).
            ((array_of first).items ≡ (array_of self.entry).items)
            × ((array_of second).items ≡ (array_of self.entry).items)) }
        ensures first { IfOk result (λ (first, second).
            (array_of first).view ≡ first_part_of axis.0 index (array_of self.entry).view) }
        ensures second { IfOk result (λ (first, second).
            (array_of second).view ≡ second_part_of axis.0 index (array_of self.entry).view) }
        ensures first_items { IfOk result (λ (first, second).
            ShowsPartOf (λ coordinates. coordinates) (array_of self.entry) (array_of first)) }
        ensures second_items { IfOk result (λ (first, second).
            ShowsPartOf (second_source axis.0 index) (array_of self.entry) (array_of second)) }
    {
        let ArrayViewMut { cells, view } = self;
        let (first, second) = view.split_at(alloc, axis, index)?;
        let mut cells = cells;
        let one = cells.take_view(&first);
        Ok((
            ArrayViewMut {
                cells: one,
                view: first,
            },
            ArrayViewMut {
                cells,
                view: second,
            },
        ))
    }
}
