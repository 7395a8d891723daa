//! The rows of an array one after another, each lent.
ghost use Rattle.std.specs.Iterator.{YieldsFirst};
ghost use Rattle.std.specs.Iterator.Runs.{YieldsInOrder};
ghost use Rattle.std.specs.List.Sorted.{IsPermutation};
ghost use Rattle.std.specs.Prelude.{◌≡◌, IfSome, List, map, ◌-◌, IfOk, OnOk};
ghost use Rattle.std.specs.Result.{result_err};
ghost use Rattle.nd_access.specs.Items.{item_at_place};
ghost use Rattle.nd_access.specs.LentRow.{RowValue, row_of, rows_items};
ghost use Rattle.nd_lent.specs.AxisLast.{axis_last_of};
ghost use Rattle.nd_lent.specs.RowsLeft.{row_array};
ghost use Rattle.ndarray_layout.specs.InvertedView.{invert_fault};
ghost use Rattle.ndarray_layout.specs.Rows.{view_rows};
ghost use Rattle.ndarray_layout.specs.View.{view_places};
ghost use Rattle.ndarray_layout.specs.declared.Order.TheVariants.{RowMajor};

use crate::array_view::ArrayView;
use crate::axis_last::with_axis_last;
use nd_access::{LentRow, LentRows};
use nd_items::IntoRows;
use nd_loops::nearest_rows;
use ndarray_layout::{Axis, Ix1, Ix6, Lengths, Order, ShapeError, Strided};

impl<'a, T, D: Lengths> ArrayView<'a, T, D> {
    /// The items of all indices as the longest rows that the axes allow, in row-major order.
    pub(crate) fn joined_rows(&self) -> LentRows<'_, T>
        ensures { rows_items result
            ≡ map (item_at_place self.now.items) (view_places RowMajor self.now.view) }
    {
        LentRows::new(self.reader(), self.strided().joined_rows(Order::RowMajor))
    }

    /// The items of all indices as the rows of the nearest view, or as `joined_rows` where there is none.
    pub(crate) fn rows_in<'s>(&'s self, nearest: &'s Option<Strided<Ix6>>) -> LentRows<'s, T>
        requires { IfSome nearest.now (λ nearest.
            IsPermutation (view_places RowMajor nearest) (view_places RowMajor self.now.view)) }
        ensures { IsPermutation (rows_items result)
            (map (item_at_place self.now.items) (view_places RowMajor self.now.view)) }
    {
        LentRows::new(self.reader(), nearest_rows(self.strided(), nearest))
    }

    /// An iterator over the rows along the last axis, in row-major order, from both ends, which knows how many are left. Each is
    /// lent. An array without axes has one row, of one item; an array without indices has none.
    ///
    /// Takes no memory, and lists nothing. A row takes the time of its places (`Strided::rows`).
    ///
    /// `[2,2]` over 5 6 7 8: the rows 5 6 and 7 8; of the transpose 5 7 and 6 8. ndarray's `rows`.
    pub fn rows(&self) -> LentRows<'_, T>
        ensures rows { result ≡ map (row_of self.now.items) (view_rows RowMajor self.now.view) }
        ensures items { rows_items result
            ≡ map (item_at_place self.now.items) (view_places RowMajor self.now.view) }
        ensures in_order { YieldsInOrder
            (YieldsFirst (λ (left : List (RowValue T)). left)) (λ left. left) }
    {
        LentRows::new(self.reader(), self.strided().rows(Order::RowMajor))
    }
}

/// A row that becomes an array of one axis.
pub trait IntoArray<'a, T> {
    /// The row as an array of one axis.
    fn into_array(self) -> ArrayView<'a, T, Ix1>;
}

impl<'a, T> IntoArray<'a, T> for LentRow<'a, T> {
    /// The row as an array of one axis.
    ///
    /// Takes no memory.
    ///
    /// Of `[2,2]` over 5 6 7 8 the second row: `[2]` from 2, 7 8. ndarray's rows are such arrays.
    #[inline]
    fn into_array(self) -> ArrayView<'a, T, Ix1>
        ensures { result ≡ row_array self.entry.items self.entry.row }
    {
        let LentRow { reader, row } = self;
        ArrayView {
            reader,
            view: row.layout(),
        }
    }
}

impl<'a, T, D: Lengths> ArrayView<'a, T, D> {
    /// An iterator over the rows along the last axis, in row-major order, from both ends, each lent for as long as the data is. It
    /// ends the array; `rows` keeps it.
    ///
    /// Takes no memory. A row takes the time of its places (`Strided::into_rows`).
    ///
    /// `[2,2]` over 5 6 7 8: the rows 5 6 and 7 8. ndarray's `rows`.
    pub fn into_rows(self) -> IntoRows<'a, T, D>
        ensures rows { result ≡ map (row_of self.entry.items) (view_rows RowMajor self.entry.view) }
        ensures items { rows_items result
            ≡ map (item_at_place self.entry.items) (view_places RowMajor self.entry.view) }
        ensures in_order { YieldsInOrder
            (YieldsFirst (λ (left : List (RowValue T)). left)) (λ left. left) }
    {
        let ArrayView { reader, view } = self;
        IntoRows::of_reader(reader, view)
    }

    /// An iterator over the rows along an axis, in row-major order of the other coordinates, from both ends, each lent for as long as
    /// the data is. It ends the array.
    ///
    /// # Errors
    ///
    /// `OutOfBounds` where there is no such axis.
    ///
    /// Takes no memory, and time in proportion to the count of axes. A row takes the time of its places (`Strided::into_rows`).
    ///
    /// Axis 0 of `[2,2]` over 5 6 7 8: the rows 5 7 and 6 8. ndarray's `lanes`.
    pub fn into_lanes(self, axis: Axis) -> Result<IntoRows<'a, T, D>, ShapeError>
        ensures fault { result_err result ≡ invert_fault self.entry.view.shape axis.0 }
        ensures rows { IfOk result (λ rows. rows ≡ map (row_of self.entry.items)
            (view_rows RowMajor (axis_last_of axis.0 self.entry.view))) }
        ensures items { IfOk result (λ rows. rows_items rows
            ≡ map (item_at_place self.entry.items)
            (view_places RowMajor (axis_last_of axis.0 self.entry.view))) }
        ensures in_order { OnOk result (YieldsInOrder
            (YieldsFirst (λ (left : List (RowValue T)). left)) (λ left. left)) }
    {
        let ArrayView { reader, view } = self;
        let view = with_axis_last(view, axis)?;
        Ok(IntoRows::of_reader(reader, view))
    }
}
