//! Places that follow one another, from both ends.
ghost use Rattle.std.specs.List.{All};
ghost use Rattle.std.specs.Prelude.{◌≡◌, ◌↔◌, ◌-◌, ◌<◌, ◌≤◌, ◌^◌, ◌∷◌, ◌++◌, [], pos, IfSome, IsTrue, MatchOption, drop, take, length};
ghost use Rattle.nd_base.specs.Bounds.{IsInBounds};
ghost use Rattle.nd_base.specs.Size.{limit};
ghost use Rattle.ndarray_layout.specs.Rows.{row_places, row_view};
ghost use Rattle.ndarray_layout.specs.View.{IsView};

use crate::strided::rows::Row;
use std::marker::Model;

/// Places that follow one another and are still to come: those from `start` on that are less than `end`.
#[derive(Drop)]
pub(crate) struct Stretch {
    start: usize,
    end: usize,
}

impl Model for Stretch {
    ghost use Rattle.std.specs.Prelude.{ℤ, List};
    ghost use Rattle.ndarray_layout.specs.PlacesLeft.{IsStretchLeft, stretch_places};

    ghost Value = { List ℤ };

    ghost view = { λ left. stretch_places left.start left.end };

    ghost invariant = { λ left. IsStretchLeft left.start left.end };
}

impl Stretch {
    /// The places of a row, where they follow one another.
    pub(super) fn of_row(row: Row) -> Option<Self>
        requires in_bounds { All (IsInBounds (2 ^ 63)) (row_places row.start row.stride row.len) }
        requires some { 0 < row.len }
        requires few { row.len ≤ limit }
        ensures { IfSome result (λ left. left ≡ row_places row.start row.stride row.len) }
    {
        if row.stride != 1 {
            return None;
        }
        Some(Stretch {
            start: row.start,
            end: row.start + row.len,
        })
    }

    /// All that are left, as a row; `None` where none is.
    pub(super) fn take_row(&mut self) -> Option<Row>
        ensures front { MatchOption result ((self.old ≡ []) × (self.new ≡ [])) (λ row. (0 < row.len)
            × (self.old ≡ row_places row.start row.stride row.len ++ self.new)) }
        ensures back { MatchOption result ((self.old ≡ []) × (self.new ≡ [])) (λ row. (0 < row.len)
            × (self.old ≡ self.new ++ row_places row.start row.stride row.len)) }
        ensures none { self.new ≡ [] }
        ensures row_is_view { IfSome result (λ row. IsView (row_view row)) }
    {
        if self.start == self.end {
            return None;
        }
        let row = Row {
            start: self.start,
            stride: 1,
            len: self.end - self.start,
        };
        self.start = self.end;
        Some(row)
    }

    /// The next one.
    #[inline(always)]
    pub(super) fn next(&mut self) -> Option<usize>
        ensures { MatchOption result ((self.old ≡ []) × (self.new ≡ [])) (λ place. self.old ≡ pos place ∷ self.new) }
    {
        if self.start == self.end {
            return None;
        }
        let place = self.start;
        self.start += 1;
        Some(place)
    }

    /// The last one.
    #[inline(always)]
    pub(super) fn next_back(&mut self) -> Option<usize>
        ensures { MatchOption result ((self.old ≡ []) × (self.new ≡ [])) (λ place. self.old ≡ self.new ++ pos place ∷ []) }
    {
        if self.start == self.end {
            return None;
        }
        self.end -= 1;
        Some(self.end)
    }

    /// Skips the next `count`, or all that remain.
    pub(super) fn advance(&mut self, count: usize)
        ensures { self.new ≡ drop count self.old }
    {
        self.start += count.min(self.end - self.start);
    }

    /// Skips the last `count`, or all that remain.
    pub(super) fn advance_back(&mut self, count: usize)
        ensures { self.new ≡ take (length self.old - count) self.old }
    {
        self.end -= count.min(self.end - self.start);
    }

    /// Whether none is left.
    pub(super) fn has_ended(&self) -> bool
        ensures { IsTrue result ↔ (length self.now ≡ 0) }
    {
        self.start == self.end
    }

    /// How many are left.
    pub(super) fn len(&self) -> usize
        ensures { result ≡ length self.now }
    {
        self.end - self.start
    }
}
