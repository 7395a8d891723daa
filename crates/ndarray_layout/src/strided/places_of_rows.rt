//! The places of a view one after another, from both ends, whatever has its rows.
ghost use Rattle.std.specs.Iterator.{UpTo, YieldsFirstBy, YieldsLastBy, item_count};
ghost use Rattle.std.specs.Iterator.SizeHint.{IsWithinCount};
ghost use Rattle.std.specs.List.{All};
ghost use Rattle.std.specs.Prelude.{◌≡◌, ◌↔◌, ◌-◌, ◌<◌, ◌≤◌, ◌^◌, ◌++◌, [], pos, IfSome, IsTrue, MatchOption, Some, drop, take, length};
ghost use Rattle.nd_base.specs.Bounds.{IsInBounds};
ghost use Rattle.nd_base.specs.Size.{limit};
ghost use Rattle.ndarray_layout.specs.PlacesLeft.{places_of_row};
ghost use Rattle.ndarray_layout.specs.Rows.{row_places, row_view, rows_places};
ghost use Rattle.ndarray_layout.specs.View.{IsView};

use crate::strided::counted_places::CountedPlaces;
use crate::strided::rows::Row;
use crate::strided::rows_of::RowsOf;
use crate::strided::slower_axes::SlowerAxes;
use crate::strided::stretch_left::Stretch;
use std::iter::FusedIterator;
use std::marker::Model;

/// The places of a view that are still to come, in an order, from both ends: `Places` of `iter_places` and `IntoPlaces` of
/// `into_places`. A contract sees the list of them.
#[derive(Drop)]
pub struct PlacesOf<A: SlowerAxes> {
    // What is left where all places follow one another: a loop over them does nothing else.
    stretch: Option<Stretch>,
    // What is left otherwise.
    places: CountedPlaces<A>,
}

impl<A: SlowerAxes> Model for PlacesOf<A> {
    ghost use Rattle.std.specs.Prelude.{ℤ, List};
    ghost use Rattle.ndarray_layout.specs.PlacesLeft.{AreFewLeft, places_left};

    ghost Value = { List ℤ };

    ghost view = { λ left. places_left left.stretch left.places };

    ghost invariant = { λ left. AreFewLeft (places_left left.stretch left.places) };
}

impl<A: SlowerAxes> PlacesOf<A> {
    /// All places of rows.
    pub(super) fn new(rows: RowsOf<A>) -> Self
        requires in_bounds { All (IsInBounds (2 ^ 63)) (rows_places rows) }
        requires some { All (λ row. 0 < row.len) rows }
        requires few { length (rows_places rows) ≤ limit }
        ensures { result ≡ rows_places rows }
    {
        let stretch = match rows.only() {
            Some(row) => Stretch::of_row(row),
            None => None,
        };
        PlacesOf {
            stretch,
            places: CountedPlaces::new(rows),
        }
    }

    /// Whether none is left.
    pub(super) fn has_ended(&self) -> bool
        ensures { IsTrue result ↔ (length self.now ≡ 0) }
    {
        match &self.stretch {
            Some(stretch) => stretch.has_ended(),
            None => self.places.has_ended(),
        }
    }

    /// The places that come next and lie evenly, at once: what is left of the row in progress, or else the next row;
    /// `None` after the last place.
    ///
    /// Takes no memory. Costs as much as a place of `iter_places`, and of `into_places` a row (`into_joined_rows`).
    ///
    /// Of the places of `[2,3]` with strides `[5,1]` from 0, after one place: the row of 1 2, and then that of 5 6 7.
    /// The project's own.
    pub fn next_row(&mut self) -> Option<Row>
        ensures row { MatchOption result ((self.old ≡ []) × (self.new ≡ [])) (λ row. (0 < row.len)
            × (self.old ≡ row_places row.start row.stride row.len ++ self.new)) }
        ensures row_is_view { IfSome result (λ row. IsView (row_view row)) }
    {
        match &mut self.stretch {
            Some(stretch) => stretch.take_row(),
            None => self.places.next_row(),
        }
    }

    /// The last places that lie evenly, at once: what is left of the row in progress at the back, or else the last row;
    /// `None` before the first place.
    ///
    /// Takes no memory. Costs as much as a place from the back of `iter_places`, and of `into_places` a row
    /// (`into_joined_rows`).
    ///
    /// Of the places of `[2,3]` with strides `[5,1]` from 0, without the last one: the row of 5 6, and then that of 0 1 2.
    /// The project's own.
    pub fn next_row_back(&mut self) -> Option<Row>
        ensures row { MatchOption result ((self.old ≡ []) × (self.new ≡ [])) (λ row. (0 < row.len)
            × (self.old ≡ self.new ++ row_places row.start row.stride row.len)) }
        ensures row_is_view { IfSome result (λ row. IsView (row_view row)) }
    {
        match &mut self.stretch {
            Some(stretch) => stretch.take_row(),
            None => self.places.next_row_back(),
        }
    }

    /// The places that are left as rows: what is left of the row in progress, the rows that haven't begun, and what is left of the row
    /// in progress at the back. So a loop over the rows does nothing else.
    ///
    /// Takes no memory, and no time for each row.
    ///
    /// Of the places of `[3,3]` with strides `[5,1]` from 0, after one place from each end: the row of 1 2, that of 5 6 7, and the row
    /// of 10 11. The project's own.
    #[inline(always)]
    pub fn into_rows_left(self) -> (Option<Row>, RowsOf<A>, Option<Row>)
        ensures places { self ≡ (places_of_row result.0 ++ rows_places result.1) ++ places_of_row result.2 }
        ensures some { All (λ row. 0 < row.len) result.1 }
        ensures views { All (λ row. IsView (row_view row)) result.1 }
        ensures first { IfSome result.0 (λ row. (0 < row.len) × IsView (row_view row)) }
        ensures last { IfSome result.2 (λ row. (0 < row.len) × IsView (row_view row)) }
    {
        let PlacesOf { stretch, places } = self;
        let (first, rows, last) = places.into_rows_left();
        match stretch {
            Some(stretch) => {
                let (mut stretch, mut none) = (stretch, rows);
                none.advance(none.len());
                (stretch.take_row(), none, None)
            },
            None => (first, rows, last),
        }
    }

    /// Skips the next `count` places, or all that remain.
    ///
    /// Takes no memory. Costs a division and two products for each axis, however many places are left out.
    ///
    /// Of the places of `[2,3]` with strides `[5,1]` from 0, after 4 places: 6 7. What `nth` of std's iterators skips one by one.
    pub fn advance(&mut self, count: usize)
        ensures { self.new ≡ drop count self.old }
    {
        match &mut self.stretch {
            Some(stretch) => stretch.advance(count),
            None => self.places.advance(count),
        }
    }

    /// Skips the last `count` places, or all that remain.
    ///
    /// Takes no memory. Costs a division and two products for each axis, however many places are left out.
    ///
    /// Of the places of `[2,3]` with strides `[5,1]` from 0, without the last 4: 0 1. What `nth_back` of std's iterators skips one by one.
    pub fn advance_back(&mut self, count: usize)
        ensures { self.new ≡ take (length self.old - count) self.old }
    {
        match &mut self.stretch {
            Some(stretch) => stretch.advance_back(count),
            None => self.places.advance_back(count),
        }
    }
}

impl<A: SlowerAxes> Iterator for PlacesOf<A> {
    type Item = usize;

    ghost next_gives = { YieldsFirstBy pos (λ left. left) };

    ghost remaining = { item_count (λ left. left) };

    #[inline(always)]
    fn next(&mut self) -> Option<usize> {
        match &mut self.stretch {
            Some(stretch) => stretch.next(),
            None => self.places.next(),
        }
    }

    fn size_hint(&self) -> (usize, Option<usize>)
        ensures lower { IsWithinCount result.0 (item_count (λ left. left) self.now) }
        ensures upper { IfSome result.1 (UpTo (item_count (λ left. left) self.now)) }
        ensures exact { (result.0 ≡ length self.now) × (result.1 ≡ Some (length self.now)) }
    {
        let left = self.len();
        (left, Some(left))
    }
}

impl<A: SlowerAxes> DoubleEndedIterator for PlacesOf<A> {
    ghost next_back_gives = { YieldsLastBy pos (λ left. left) };

    fn next_back(&mut self) -> Option<usize> {
        match &mut self.stretch {
            Some(stretch) => stretch.next_back(),
            None => self.places.next_back(),
        }
    }
}

impl<A: SlowerAxes> ExactSizeIterator for PlacesOf<A> {
    fn len(&self) -> usize {
        match &self.stretch {
            Some(stretch) => stretch.len(),
            None => self.places.len(),
        }
    }
}

impl<A: SlowerAxes> FusedIterator for PlacesOf<A> {}
