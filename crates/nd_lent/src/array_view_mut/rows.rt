//! The rows of a part one after another, each a part of its own, without a list of them.
ghost use Rattle.std.specs.Iterator.{UpTo, YieldsFirstBy, YieldsLastBy, item_count};
ghost use Rattle.std.specs.Iterator.SizeHint.{IsWithinCount};
ghost use Rattle.std.specs.Prelude.{◌≡◌, ◌-◌, IfOk, IfSome, Some, drop, length, map, take};
ghost use Rattle.std.specs.Result.{result_err};
ghost use Rattle.ndarray_layout.specs.declared.Order.TheVariants.{RowMajor};
ghost use Rattle.ndarray_layout.specs.InvertedView.{invert_fault};
ghost use Rattle.ndarray_layout.specs.Rows.{view_rows};
ghost use Rattle.nd_lent.specs.AxisLast.{axis_last_of};
ghost use Rattle.nd_access.specs.Own.{OwnsRows, OwnsRows-prop};

use crate::array_view_mut::ArrayViewMut;
use crate::axis_last::with_axis_last;
use nd_access::Cells;
use ndarray_layout::{Axis, Ix1, Lengths, Order, ShapeError, Strided};
use std::iter::FusedIterator;

/// The rows of a part that are still to come, along its last axis, in row-major order, from both ends, each a part of its own.
/// ndarray's `LanesMut`.
#[derive(Drop)]
pub struct LanesMut<'a, T, D: Lengths> {
    pub(crate) cells: Cells<'a, T>,
    pub(crate) view: Strided<D>,
    // The number of the row that comes next, and the one after that of the last row that is left.
    pub(crate) begun: usize,
    pub(crate) end: usize,
    ghost own: { OwnsRows cells.marks view begun end } by { OwnsRows-prop cells.marks view begun end },
}

impl<'a, T: Drop, D: Lengths> Iterator for LanesMut<'a, T, D> {
    ghost use Rattle.nd_lent.specs.RowsLeft.{rows_left};
    ghost use Rattle.nd_lent.specs.Lent.{array_of};

    type Item = ArrayViewMut<'a, T, Ix1>;

    ghost next_gives = { YieldsFirstBy array_of rows_left };

    ghost remaining = { item_count rows_left };

    #[inline]
    fn next(&mut self) -> Option<ArrayViewMut<'a, T, Ix1>> {
        if self.begun == self.end {
            return None;
        }
        let row = self.view.nth_row(Order::RowMajor, self.begun)?;
        self.begun += 1;
        Some(ArrayViewMut::take_from(&mut self.cells, row))
    }

    fn size_hint(&self) -> (usize, Option<usize>)
        ensures lower { IsWithinCount result.0 (item_count rows_left self.now) }
        ensures upper { IfSome result.1 (UpTo (item_count rows_left self.now)) }
        ensures exact { (result.0 ≡ length (rows_left self.now))
            × (result.1 ≡ Some (length (rows_left self.now))) }
    {
        let left = self.len();
        (left, Some(left))
    }
}

impl<'a, T: Drop, D: Lengths> DoubleEndedIterator for LanesMut<'a, T, D> {
    ghost use Rattle.nd_lent.specs.RowsLeft.{rows_left};
    ghost use Rattle.nd_lent.specs.Lent.{array_of};

    ghost next_back_gives = { YieldsLastBy array_of rows_left };

    #[inline]
    fn next_back(&mut self) -> Option<ArrayViewMut<'a, T, Ix1>> {
        if self.begun == self.end {
            return None;
        }
        let row = self.view.nth_row(Order::RowMajor, self.end - 1)?;
        self.end -= 1;
        Some(ArrayViewMut::take_from(&mut self.cells, row))
    }
}

impl<'a, T: Drop, D: Lengths> ExactSizeIterator for LanesMut<'a, T, D> {
    fn len(&self) -> usize {
        self.end - self.begun
    }
}

impl<'a, T: Drop, D: Lengths> FusedIterator for LanesMut<'a, T, D> {}

impl<'a, T: Drop, D: Lengths> LanesMut<'a, T, D> {
    ghost use Rattle.nd_lent.specs.RowsLeft.{access_left, rows_left};

    /// Skips the next `count` rows, or all that remain. They are unchanged.
    ///
    /// Takes no memory, and no time for each of them.
    ///
    /// Of the rows of `[4,2]`, after 3 of them: the last one. What `nth` of std's iterators skips one by one.
    pub fn advance(&mut self, count: usize)
        ensures left { rows_left self.new ≡ drop count (rows_left self.old) }
        ensures keeps_access { access_left self.new ≡ access_left self.old }
    {
        self.begun += count.min(self.end - self.begun);
    }

    /// Skips the last `count` rows, or all that remain. They are unchanged.
    ///
    /// Takes no memory, and no time for each of them.
    ///
    /// Of the rows of `[4,2]`, without the last 3: the first one. What `nth_back` of std's iterators skips one by one.
    pub fn advance_back(&mut self, count: usize)
        ensures left { rows_left self.new ≡
            take (length (rows_left self.old) - count) (rows_left self.old) }
        ensures keeps_access { access_left self.new ≡ access_left self.old }
    {
        self.end -= count.min(self.end - self.begun);
    }
}

impl<'a, T: Drop, D: Lengths> ArrayViewMut<'a, T, D> {
    ghost use Rattle.nd_lent.specs.RowsLeft.{access_left, row_array, rows_left};
    ghost use Rattle.nd_lent.specs.Lent.{access_of, array_of};

    /// An iterator over the rows along the last axis, in row-major order, from both ends, each a part of its own: several may be used
    /// at once, and in threads, whatever the strides are. It knows how many are left. A part without axes has one row, of one item; a
    /// part without indices has none. That the rows keep what is written is tested, and in no clause.
    ///
    /// Takes no memory. A row takes the time of `Strided::nth_row`.
    ///
    /// The transpose of `[2,2]` over 5 6 7 8: the rows 5 7 and 6 8. ndarray's `rows_mut`.
    pub fn into_rows(self) -> LanesMut<'a, T, D>
        ensures rows { rows_left result ≡ map (row_array (array_of self.entry).items)
            (view_rows RowMajor (array_of self.entry).view) }
        ensures keeps_access { access_left result ≡ access_of self.entry }
    {
        let ArrayViewMut { cells, view } = self;
        let end = view.rows(Order::RowMajor).len();
        LanesMut {
            cells,
            view,
            begun: 0,
            end,
        }
    }

    /// An iterator over the rows along an axis, in row-major order of the other coordinates, from both ends, each a part of its own, as
    /// those of `into_rows` are. It ends the part.
    ///
    /// # Errors
    ///
    /// `OutOfBounds` where there is no such axis.
    ///
    /// Takes no memory, and time in proportion to the count of axes. A row takes the time of `Strided::nth_row`.
    ///
    /// Axis 0 of `[2,2]` over 5 6 7 8: the rows 5 7 and 6 8. ndarray's `lanes_mut`.
    pub fn into_lanes(self, axis: Axis) -> Result<LanesMut<'a, T, D>, ShapeError>
        ensures fault { result_err result ≡
            invert_fault (array_of self.entry).view.shape axis.0 }
        ensures rows { IfOk result (λ lanes. rows_left lanes
            ≡ map (row_array (array_of self.entry).items)
            (view_rows RowMajor (axis_last_of axis.0 (array_of self.entry).view))) }
        ensures keeps_access { IfOk result (λ lanes. access_left lanes ≡ access_of self.entry) }
    {
        let ArrayViewMut { cells, view } = self;
        let view = with_axis_last(view, axis)?;
        Ok(ArrayViewMut::of_cells(cells, view).into_rows())
    }
}
