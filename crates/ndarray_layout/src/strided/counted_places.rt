//! The places of rows one after another, counted, from both ends.
ghost use Rattle.std.specs.List.{All};
ghost use Rattle.std.specs.Prelude.{◌≡◌, ◌↔◌, ◌-◌, ◌<◌, ◌≤◌, ◌^◌, ◌∷◌, ◌++◌, [], pos, ◌+ℤ◌, IfSome, IsTrue, MatchOption, drop, take, length};
ghost use Rattle.nd_base.specs.Bounds.{IsInBounds};
ghost use Rattle.nd_base.specs.Size.{limit};
ghost use Rattle.ndarray_layout.specs.PlacesLeft.{ArePlacesLeft, places_after, places_of_row, rows_and};
ghost use Rattle.ndarray_layout.specs.Rows.{row_places, row_view, rows_places};
ghost use Rattle.ndarray_layout.specs.View.{IsPlace, IsView};

use crate::strided::places::{offset_place, place_along_axis};
use crate::strided::row_at_back::RowAtBack;
use crate::strided::rows::Row;
use crate::strided::rows_of::RowsOf;
use crate::strided::slower_axes::SlowerAxes;
use nd_base::unsigned;
use std::marker::Model;

/// The places of rows that are still to come, from both ends.
#[derive(Drop)]
pub(super) struct CountedPlaces<A: SlowerAxes> {
    rows: RowsOf<A>,
    // What is left of the last row that has begun at the back.
    back: RowAtBack,
    // The place that was given last at the front, and how many its row has from there on.
    place: usize,
    left: usize,
    stride: isize,
}

impl<A: SlowerAxes> Model for CountedPlaces<A> {
    ghost use Rattle.std.specs.Prelude.{◌-◌, ◌<◌, ℤ, List};
    ghost use Rattle.ndarray_layout.specs.PlacesLeft.{ArePlacesLeft, places_after, rows_and};

    ghost Value = { List ℤ };

    ghost view = { λ places. places_after places.place places.stride (places.left - 1) (rows_and places.rows places.back) };

    ghost invariant = { λ places. (0 < places.left)
        × ArePlacesLeft places.place places.stride (places.left - 1) (rows_and places.rows places.back) };
}

/// The row that comes next: one of the rows, or else what is left of the one at the back.
#[inline(always)]
fn first_row<A: SlowerAxes>(rows: &mut RowsOf<A>, back: &mut RowAtBack) -> Option<Row>
    ensures { MatchOption result
        ((rows_and rows.old back.old ≡ []) × (rows_and rows.new back.new ≡ []))
        (λ row. rows_and rows.old back.old ≡ row ∷ rows_and rows.new back.new) }
{
    if let Some(row) = rows.next() {
        return Some(row);
    }
    back.take()
}

/// The last places that lie evenly: what is left of the row at the back, or else the last one of the rows, or else what is left of
/// the one at the front.
fn last_row<A: SlowerAxes>(
    rows: &mut RowsOf<A>,
    back: &mut RowAtBack,
    place: usize,
    stride: isize,
    left: &mut usize,
) -> Option<Row>
    requires begun { 0 < left.old }
    requires left { ArePlacesLeft place stride (left.old - 1) (rows_and rows.old back.old) }
    ensures begun { 0 < left.new }
    ensures back { back.new.len ≡ 0 }
    ensures row { MatchOption result ((places_after place stride (left.old - 1) (rows_and rows.old back.old) ≡ [])
        × (places_after place stride (left.new - 1) rows.new ≡ []))
        (λ row. (0 < row.len) × (places_after place stride (left.old - 1) (rows_and rows.old back.old)
        ≡ places_after place stride (left.new - 1) rows.new ++ row_places row.start row.stride row.len)) }
    ensures some { All (λ row. 0 < row.len) rows.new }
{
    if let Some(row) = back.take() {
        return Some(row);
    }
    if let Some(row) = rows.next_back() {
        return Some(row);
    }
    if *left == 1 {
        return None;
    }
    let row = Row {
        start: offset_place(place, stride),
        stride,
        len: *left - 1,
    };
    *left = 1;
    Some(row)
}

/// What is left of a row after this place, of `left` with it; `None` where nothing is.
#[inline(always)]
fn rest_of_row(place: usize, stride: isize, left: usize) -> Option<Row>
    requires some { 0 < left }
    requires here { place ≤ limit }
    requires next { 1 < left → IsPlace (pos place +ℤ stride) }
    ensures { MatchOption result (left ≡ 1) (λ row. (1 < left) × (pos row.start ≡ pos place +ℤ stride)
        × (row.stride ≡ stride) × (row.len ≡ left - 1)) }
{
    if left == 1 {
        return None;
    }
    Some(Row {
        start: offset_place(place, stride),
        stride,
        len: left - 1,
    })
}

impl<A: SlowerAxes> CountedPlaces<A> {
    /// All places of rows.
    pub(super) fn new(rows: RowsOf<A>) -> Self
        requires in_bounds { All (IsInBounds (2 ^ 63)) (rows_places rows) }
        requires some { All (λ row. 0 < row.len) rows }
        requires few { length (rows_places rows) ≤ limit }
        ensures { result ≡ rows_places rows }
    {
        CountedPlaces {
            rows,
            back: RowAtBack::none(),
            place: 0,
            left: 1,
            stride: 0,
        }
    }

    /// What is left of the row in progress, or else the next row; `None` after the last place.
    pub(super) fn next_row(&mut self) -> Option<Row>
        ensures row { MatchOption result ((self.old ≡ []) × (self.new ≡ [])) (λ row. (0 < row.len)
            × (self.old ≡ row_places row.start row.stride row.len ++ self.new)) }
        ensures row_is_view { IfSome result (λ row. IsView (row_view row)) }
    {
        if self.left == 1 {
            let row = first_row(&mut self.rows, &mut self.back)?;
            return Some(row);
        }
        let row = Row {
            start: offset_place(self.place, self.stride),
            stride: self.stride,
            len: self.left - 1,
        };
        self.left = 1;
        Some(row)
    }

    /// What is left of the row in progress at the back, or else the last row; `None` before the first place.
    pub(super) fn next_row_back(&mut self) -> Option<Row>
        ensures row { MatchOption result ((self.old ≡ []) × (self.new ≡ [])) (λ row. (0 < row.len)
            × (self.old ≡ self.new ++ row_places row.start row.stride row.len)) }
        ensures row_is_view { IfSome result (λ row. IsView (row_view row)) }
    {
        let row = last_row(
            &mut self.rows,
            &mut self.back,
            self.place,
            self.stride,
            &mut self.left,
        )?;
        Some(row)
    }

    /// What is left of the row in progress, the rows that haven't begun, and what is left of the row in progress at the back.
    pub(super) fn into_rows_left(self) -> (Option<Row>, RowsOf<A>, Option<Row>)
        ensures places { self ≡ (places_of_row result.0 ++ rows_places result.1) ++ places_of_row result.2 }
        ensures some { All (λ row. 0 < row.len) result.1 }
        ensures views { All (λ row. IsView (row_view row)) result.1 }
        ensures first { IfSome result.0 (λ row. (0 < row.len) × IsView (row_view row)) }
        ensures last { IfSome result.2 (λ row. (0 < row.len) × IsView (row_view row)) }
    {
        let CountedPlaces {
            rows,
            back,
            place,
            left,
            stride,
        } = self;
        let mut back = back;
        (rest_of_row(place, stride, left), rows, back.take())
    }

    /// Skips the next `count` places, or all that remain.
    pub(super) fn advance(&mut self, count: usize)
        ensures { self.new ≡ drop count self.old }
    {
        let left = self.left - 1;
        if count <= left {
            self.place = place_along_axis(self.place, count, unsigned(self.stride));
            self.left -= count;
            return;
        }
        let (count, in_rows) = (count - left, self.rows.count_of_places());
        self.left = 1;
        if count >= in_rows {
            self.rows.advance(in_rows);
            self.back.advance(count - in_rows);
            return;
        }
        let len = self.rows.row_len();
        self.rows.advance(count / len);
        let in_row = count % len;
        if in_row == 0 {
            return;
        }
        if let Some(row) = self.rows.next() {
            self.place = place_along_axis(row.start, in_row - 1, unsigned(row.stride));
            self.stride = row.stride;
            self.left = row.len - in_row + 1;
        }
    }

    /// Skips the last `count` places, or all that remain.
    pub(super) fn advance_back(&mut self, count: usize)
        ensures { self.new ≡ take (length self.old - count) self.old }
    {
        let left = self.back.len();
        if count <= left {
            self.back.advance_back(count);
            return;
        }
        let (count, in_rows) = (count - left, self.rows.count_of_places());
        if count > in_rows {
            self.rows.advance_back(in_rows);
            self.back = RowAtBack::none();
            self.left -= (self.left - 1).min(count - in_rows);
            return;
        }
        let len = self.rows.row_len();
        self.rows.advance_back((count - 1) / len);
        if let Some(mut row) = self.rows.next_back() {
            row.len -= (count - 1) % len;
            let (back, _) = RowAtBack::of_row(row);
            self.back = back;
        }
    }

    /// The next place.
    #[inline(always)]
    pub(super) fn next(&mut self) -> Option<usize>
        ensures { MatchOption result ((self.old ≡ []) × (self.new ≡ [])) (λ place. self.old ≡ pos place ∷ self.new) }
    {
        self.left -= 1;
        if self.left > 0 {
            self.place = offset_place(self.place, self.stride);
            return Some(self.place);
        }
        match first_row(&mut self.rows, &mut self.back) {
            Some(row) => {
                self.place = row.start;
                self.stride = row.stride;
                self.left = row.len;
                Some(row.start)
            },
            None => {
                self.left = 1;
                None
            },
        }
    }

    /// The last place.
    #[inline(always)]
    pub(super) fn next_back(&mut self) -> Option<usize>
        ensures { MatchOption result ((self.old ≡ []) × (self.new ≡ [])) (λ place. self.old ≡ self.new ++ pos place ∷ []) }
    {
        if let Some(place) = self.back.next_back() {
            return Some(place);
        }
        let row = last_row(
            &mut self.rows,
            &mut self.back,
            self.place,
            self.stride,
            &mut self.left,
        )?;
        let (back, place) = RowAtBack::of_row(row);
        self.back = back;
        Some(place)
    }

    /// Whether none is left: how many rows there are is asked where none has begun.
    pub(super) fn has_ended(&self) -> bool
        ensures { IsTrue result ↔ (length self.now ≡ 0) }
    {
        self.left == 1 && self.len() == 0
    }

    /// How many places are left.
    pub(super) fn len(&self) -> usize
        ensures { result ≡ length self.now }
    {
        self.left - 1 + self.rows.count_of_places() + self.back.len()
    }
}
