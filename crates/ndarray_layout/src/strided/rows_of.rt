//! A cursor over the rows along an axis, from both ends: one for all that has rows.
ghost use Rattle.std.specs.Iterator.{UpTo, YieldsFirst, YieldsLast, item_count};
ghost use Rattle.std.specs.Iterator.SizeHint.{IsWithinCount};
ghost use Rattle.std.specs.List.{All};
ghost use Rattle.std.specs.Prelude.{◌≡◌, ◌==◌, ◌-◌, ◌+◌, ◌*◌, ◌<◌, ◌≤◌, ◌^◌, ◌∷◌, [], ℕ, if◌then◌else◌, drop, take, length, min, pos, IfSome, MatchOption, Some};
ghost use Rattle.nd_base.specs.Signed.{all_signed};
ghost use Rattle.nd_base.specs.Size.{limit, size};
ghost use Rattle.nd_base.specs.ValidLayout.{IsValidLayout};
ghost use Rattle.ndarray_layout.specs.NumberedRows.{HasColumns, IsAfter, numbered_place, rows_between};
ghost use Rattle.ndarray_layout.specs.Rows.{rows_places};
ghost use Rattle.ndarray_layout.specs.View.{IsView, view_of};

use crate::strided::places::{offset_place, place_after};
use crate::strided::rows::{Row, fastest_axis, joined_axis};
use crate::strided::slower_axes::SlowerAxes;
use nd_base::{Order, signed};
use nd_dim::product;
use std::iter::FusedIterator;
use std::marker::Model;

/// Rows that follow one another along the fastest of the slower axes are a column: how many, and how far each begins from the one
/// before it.
#[derive(Clone, Copy)]
pub(crate) struct Columns {
    len: usize,
    stride: isize,
}

/// The columns of the rows that begin at the places of axes, and how many rows these are. Along one axis they are one column: so
/// small views begin their rows at once.
#[inline(always)]
fn columns_of(order: Order, lens: &[usize], strides: &[usize]) -> (Columns, usize)
    requires { IsValidLayout lens.now (all_signed strides.now) }
    ensures columns { (start : ℕ) → IsView (view_of start lens.now strides.now)
        → HasColumns order (view_of start lens.now strides.now) result.0 }
    ensures count { result.1 ≡ size lens.now }
{
    if lens.len() > 1 {
        return columns_of_many(order, lens, strides);
    }
    let axis = fastest_axis(order, lens, strides);
    let columns = Columns {
        len: axis.len,
        stride: signed(axis.stride),
    };
    (columns, axis.len)
}

/// `columns_of` of any axes, of which those that lie evenly together are one.
#[inline(never)]
fn columns_of_many(order: Order, lens: &[usize], strides: &[usize]) -> (Columns, usize)
    requires { IsValidLayout lens.now (all_signed strides.now) }
    ensures columns { (start : ℕ) → IsView (view_of start lens.now strides.now)
        → HasColumns order (view_of start lens.now strides.now) result.0 }
    ensures count { result.1 ≡ size lens.now }
{
    let axis = joined_axis(order, lens, strides);
    let columns = Columns {
        len: axis.len,
        stride: signed(axis.stride),
    };
    (columns, product(lens))
}

/// Where a row begins, and how many rows of its column are left with it: at the front the row that comes next, at the back the one
/// that came last, and those before it.
#[derive(Clone, Copy)]
pub(crate) struct InColumn {
    place: usize,
    left: usize,
}

/// The row of a number in its column, before the one that came last from the back.
#[inline(always)]
fn previous_in_column<A: SlowerAxes>(
    axes: &A,
    columns: Columns,
    number: usize,
    last: InColumn,
) -> InColumn
    requires is_view { IsView (A.starts axes.now) }
    requires below { number < size (A.starts axes.now).shape }
    requires columns { HasColumns (A.order axes.now) (A.starts axes.now) columns }
    requires last { IsAfter (A.order axes.now) (A.starts axes.now) columns (number + 1) last }
    ensures place { pos result.place ≡ numbered_place (A.order axes.now) (A.starts axes.now) number }
    ensures left { IsAfter (A.order axes.now) (A.starts axes.now) columns number result }
    ensures some { 0 < result.left }
{
    if last.left > 1 {
        return InColumn {
            place: offset_place(last.place, -columns.stride),
            left: last.left - 1,
        };
    }
    InColumn {
        place: axes.place_of_number(number),
        left: number % columns.len + 1,
    }
}

/// The column that begins with the row of a number, and the number after its last one that is left; `None` where all have begun.
#[inline(always)]
fn next_column<A: SlowerAxes>(
    axes: &A,
    columns: Columns,
    begun: usize,
    end: usize,
) -> Option<(InColumn, usize)>
    requires is_view { IsView (A.starts axes.now) }
    requires order { begun ≤ end }
    requires below { end ≤ size (A.starts axes.now).shape }
    ensures { MatchOption result (begun ≡ end) (λ (front, next). (begun < end)
        × (pos front.place ≡ numbered_place (A.order axes.now) (A.starts axes.now) begun)
        × (front.left ≡ min columns.len (end - begun)) × (next ≡ begun + front.left)) }
{
    if begun == end {
        return None;
    }
    let left = columns.len.min(end - begun);
    let place = axes.place_of_number(begun);
    Some((InColumn { place, left }, begun + left))
}

/// The rows of a view that are still to come, in an order, from both ends: `Rows` of a view that is borrowed, `StridedRows` where the
/// iterator has the view. A contract sees the list of them.
#[derive(Drop)]
pub struct RowsOf<A: SlowerAxes> {
    axes: A,
    // How long a row is, and its stride.
    len: usize,
    stride: isize,
    columns: Columns,
    // The row that comes next, of a column that has begun, and the one that came last from the back.
    front: InColumn,
    back: InColumn,
    // The numbers after those of the last row of the columns that have begun at the front, and of the last row that is left.
    begun: usize,
    end: usize,
}

impl<A: SlowerAxes> Model for RowsOf<A> {
    ghost use Rattle.std.specs.Prelude.{List};
    ghost use Rattle.ndarray_layout.specs.declared.strided.rows.Row.{Row};
    ghost use Rattle.ndarray_layout.specs.NumberedRows.{AreRowsInColumns, count_given, rows_between};

    ghost Value = { List Row };

    ghost view = { λ rows. rows_between (A.order rows.axes) (A.starts rows.axes)
        (record { start = 0; stride = rows.stride; len = rows.len }) (count_given rows.begun rows.front.left) rows.end };

    ghost invariant = { λ rows. AreRowsInColumns (A.order rows.axes) (A.starts rows.axes) rows.len rows.columns
        rows.front rows.back rows.begun rows.end };
}

impl<A: SlowerAxes> RowsOf<A> {
    /// The rows of this length and stride from each place of axes; none where they have no place.
    pub(super) fn along(axes: A, len: usize, stride: isize) -> Self
        requires is_view { IsView (A.starts axes) }
        requires fits { (if len == 0 then 0 else size (A.starts axes).shape) * len ≤ limit }
        ensures { result ≡ rows_between (A.order axes) (A.starts axes) (record { start = 0; stride = stride; len = len }) 0
            (if len == 0 then 0 else size (A.starts axes).shape) }
    {
        let lent = axes.lent();
        let (columns, count) = columns_of(lent.order, lent.lens, lent.strides);
        let end = if len == 0 { 0 } else { count };
        let begun = columns.len.min(end);
        let front = InColumn {
            place: lent.start,
            left: begun,
        };
        RowsOf {
            axes,
            len,
            stride,
            columns,
            front,
            back: InColumn { place: 0, left: 1 },
            begun,
            end,
        }
    }

    /// How many places each row has; unspecified where none is left.
    ///
    /// Of the rows of `[2,3]`: 3. The project's own.
    #[inline]
    pub fn row_len(&self) -> usize
        ensures { All (λ row. row.len ≡ result) self.now }
    {
        self.len
    }

    /// The one row that is left, where its column has begun; else `None`.
    pub(super) fn only(&self) -> Option<Row>
        ensures { IfSome result (λ row. self.now ≡ row ∷ []) }
    {
        if self.front.left != 1 || self.begun != self.end {
            return None;
        }
        Some(Row {
            start: self.front.place,
            stride: self.stride,
            len: self.len,
        })
    }

    /// How many places the rows have that are left.
    pub(super) fn count_of_places(&self) -> usize
        ensures { result ≡ length (rows_places self.now) }
    {
        self.len() * self.len
    }

    /// Skips the next `count` rows, or all that remain.
    ///
    /// Takes no memory. Costs a division and two products for each axis but that of the rows.
    ///
    /// Of the rows of `[4,2]` with strides `[2,1]` from 0, which begin at 0 2 4 6, after 3 rows: 6. What `nth` of std's
    /// iterators skips one by one.
    pub fn advance(&mut self, count: usize)
        ensures { self.new ≡ drop count self.old }
    {
        if count >= self.len() {
            self.begun = self.end;
            self.front.left = 0;
            return;
        }
        if count > 0 {
            let next = self.begun - self.front.left + count;
            let in_column = self.columns.len - next % self.columns.len;
            self.front = InColumn {
                place: self.axes.place_of_number(next),
                left: in_column.min(self.end - next),
            };
            self.begun = next + self.front.left;
        }
    }

    /// Skips the last `count` rows, or all that remain.
    ///
    /// Takes no time for each row, and has the last one cost a division. Of the rows of `[4,2]` with strides `[2,1]` from 0,
    /// which begin at 0 2 4 6, without the last 3: 0. What `nth_back` of std's iterators skips one by one.
    pub fn advance_back(&mut self, count: usize)
        ensures { self.new ≡ take (length self.old - count) self.old }
    {
        if count == 0 {
            return;
        }
        self.end -= count.min(self.len());
        let begun = self.begun.min(self.end);
        self.front.left -= self.begun - begun;
        self.begun = begun;
        self.back.left = 1;
    }
}

impl<A: SlowerAxes> Iterator for RowsOf<A> {
    type Item = Row;

    ghost next_gives = { YieldsFirst (λ left. left) };

    ghost remaining = { item_count (λ left. left) };

    #[inline(always)]
    fn next(&mut self) -> Option<Row> {
        let (front, begun) = if self.front.left > 0 {
            (self.front, self.begun)
        } else {
            next_column(&self.axes, self.columns, self.begun, self.end)?
        };
        self.front = InColumn {
            place: place_after(front.place, self.columns.stride),
            left: front.left - 1,
        };
        self.begun = begun;
        Some(Row {
            start: front.place,
            stride: self.stride,
            len: self.len,
        })
    }

    fn size_hint(&self) -> (usize, Option<usize>)
        ensures lower { IsWithinCount result.0 (item_count (λ left. left) self.now) }
        ensures upper { IfSome result.1 (UpTo (item_count (λ left. left) self.now)) }
        ensures exact { (result.0 ≡ length self.now) × (result.1 ≡ Some (length self.now)) }
    {
        let left = self.len();
        (left, Some(left))
    }
}

impl<A: SlowerAxes> DoubleEndedIterator for RowsOf<A> {
    ghost next_back_gives = { YieldsLast (λ left. left) };

    fn next_back(&mut self) -> Option<Row> {
        if self.len() == 0 {
            return None;
        }
        self.end -= 1;
        let begun = self.begun.min(self.end);
        self.front.left -= self.begun - begun;
        self.begun = begun;
        self.back = previous_in_column(&self.axes, self.columns, self.end, self.back);
        Some(Row {
            start: self.back.place,
            stride: self.stride,
            len: self.len,
        })
    }
}

impl<A: SlowerAxes> ExactSizeIterator for RowsOf<A> {
    fn len(&self) -> usize {
        self.end + self.front.left - self.begun
    }
}

impl<A: SlowerAxes> FusedIterator for RowsOf<A> {}
