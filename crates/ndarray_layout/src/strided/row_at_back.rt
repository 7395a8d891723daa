//! A row that has begun at the back, from which the last places come.
ghost use Rattle.std.specs.List.{All};
ghost use Rattle.std.specs.Prelude.{◌≡◌, ◌-◌, ◌<◌, ◌≤◌, ◌^◌, ◌+ℤ◌, ◌*ℤ◌, pos, MatchOption, drop};
ghost use Rattle.nd_base.specs.Bounds.{IsInBounds};
ghost use Rattle.nd_base.specs.Size.{limit};
ghost use Rattle.ndarray_layout.specs.PlacesLeft.{but_last};
ghost use Rattle.ndarray_layout.specs.Rows.{row_places};

use crate::strided::places::{offset_place, place_along_axis};
use crate::strided::rows::Row;
use nd_base::unsigned;
use std::marker::Model;

/// What is left of a row that has begun at the back. A contract sees it as a row, which has no place where nothing is left.
#[derive(Drop)]
pub(super) struct RowAtBack {
    // What is left, and the place that came last, after it.
    row: Row,
    last: usize,
}

impl Model for RowAtBack {
    ghost use Rattle.ndarray_layout.specs.declared.strided.rows.Row.{Row};
    ghost use Rattle.ndarray_layout.specs.PlacesLeft.{ComesAfter};

    ghost Value = { Row };

    ghost view = { λ back. back.row };

    ghost invariant = { λ back. ComesAfter back.row back.last };
}

impl RowAtBack {
    /// None has begun.
    pub(super) fn none() -> Self
        ensures { result.len ≡ 0 }
    {
        let row = Row {
            start: 0,
            stride: 0,
            len: 0,
        };
        RowAtBack { row, last: 0 }
    }

    /// The row without its last place, and that place.
    pub(super) fn of_row(row: Row) -> (Self, usize)
        requires in_bounds { All (IsInBounds (2 ^ 63)) (row_places row.start row.stride row.len) }
        requires some { 0 < row.len }
        requires few { row.len ≤ limit }
        ensures left { result.0 ≡ but_last row }
        ensures place { pos result.1 ≡ pos row.start +ℤ (pos (row.len - 1) *ℤ row.stride) }
    {
        let left = row.len - 1;
        let last = place_along_axis(row.start, left, unsigned(row.stride));
        let row = Row {
            start: row.start,
            stride: row.stride,
            len: left,
        };
        (RowAtBack { row, last }, last)
    }

    /// How many places are left.
    pub(super) fn len(&self) -> usize
        ensures { result ≡ self.now.len }
    {
        self.row.len
    }

    /// All that are left, as a row; `None` where none is.
    pub(super) fn take(&mut self) -> Option<Row>
        ensures row { MatchOption result (self.old.len ≡ 0) (λ row. (0 < row.len) × (row ≡ self.old)) }
        ensures none { self.new.len ≡ 0 }
    {
        if self.row.len == 0 {
            return None;
        }
        let row = self.row;
        self.row.len = 0;
        Some(row)
    }

    /// The last one.
    #[inline(always)]
    pub(super) fn next_back(&mut self) -> Option<usize>
        requires { All (IsInBounds (2 ^ 63)) (row_places self.old.start self.old.stride self.old.len) }
        ensures { MatchOption result ((self.old.len ≡ 0) × (self.new ≡ self.old)) (λ place. (0 < self.old.len)
            × (self.new ≡ but_last self.old)
            × (pos place ≡ pos self.old.start +ℤ (pos (self.old.len - 1) *ℤ self.old.stride))) }
    {
        if self.row.len == 0 {
            return None;
        }
        self.row.len -= 1;
        self.last = offset_place(self.last, -self.row.stride);
        Some(self.last)
    }

    /// Skips the next `count`, or all that remain.
    pub(super) fn advance(&mut self, count: usize)
        requires in_bounds { All (IsInBounds (2 ^ 63)) (row_places self.old.start self.old.stride self.old.len) }
        requires few { self.old.len ≤ limit }
        ensures { row_places self.new.start self.new.stride self.new.len
            ≡ drop count (row_places self.old.start self.old.stride self.old.len) }
    {
        if count >= self.row.len {
            self.row.len = 0;
            return;
        }
        self.row.start = place_along_axis(self.row.start, count, unsigned(self.row.stride));
        self.row.len -= count;
    }

    /// Skips the last `count`. The caller ensures that there are as many.
    pub(super) fn advance_back(&mut self, count: usize)
        requires in_bounds { All (IsInBounds (2 ^ 63)) (row_places self.old.start self.old.stride self.old.len) }
        requires few { self.old.len ≤ limit }
        requires left { count ≤ self.old.len }
        ensures { self.new ≡ record self.old { len = self.old.len - count } }
    {
        if count == 0 {
            return;
        }
        self.row.len -= count;
        self.last = place_along_axis(self.row.start, self.row.len, unsigned(self.row.stride));
    }
}
