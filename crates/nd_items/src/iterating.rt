//! The items of an array one after another, each lent, without a list of them.
ghost use Rattle.std.specs.Iterator.{UpTo, YieldsFirstBy, YieldsLastBy, item_count};
ghost use Rattle.std.specs.Iterator.SizeHint.{IsWithinCount};
ghost use Rattle.std.specs.Prelude.{◌≡◌, ◌-◌, ◌++◌, IfSome, List, Option, Some, drop, length, map, take};
ghost use Rattle.ndarray_layout.specs.declared.Order.TheVariants.{RowMajor};
ghost use Rattle.ndarray_layout.specs.View.{view_places};
ghost use Rattle.nd_access.specs.ArrayView.{HasItems};
ghost use Rattle.nd_access.specs.Items.{item_at_place};
ghost use Rattle.nd_access.specs.LentRow.{items_of_row, row_of, rows_items};
ghost use Rattle.nd_access.specs.Read.{AreRead, IsRowRead};
ghost use Rattle.std.specs.Option.{option_map};

use nd_access::{LentRow, LentRowsOf, Reader, RowByRow};
use ndarray_layout::{KeptAxes, Lengths, LentAxes, Order, PlacesOf, Row, SlowerAxes, Strided};
use std::iter::FusedIterator;
use std::marker::Model;

/// The items of an array that are still to come, in row-major order of their indices, from both ends, each lent: `Iter` where the view
/// is borrowed, `ViewIter` where the iterator has it. A contract sees the list of them.
#[derive(Drop)]
pub struct IterOf<'a, T, A: SlowerAxes> {
    reader: Reader<'a, T>,
    places: PlacesOf<A>,
}

/// The items of an array that are still to come, in row-major order of their indices, from both ends, each lent. A contract
/// sees the list of them.
pub type Iter<'a, T> = IterOf<'a, T, LentAxes<'a>>;

/// The items of an array that are still to come, in row-major order of their indices, from both ends, each lent for as long as
/// the data is: a function that is handed an `ArrayView` may return this. A contract sees the list of them. ndarray's `Iter`.
pub type ViewIter<'a, T, D> = IterOf<'a, T, KeptAxes<D>>;

impl<'a, T, A: SlowerAxes> Model for IterOf<'a, T, A> {
    ghost use Rattle.std.specs.Prelude.{List, Option, length, map};
    ghost use Rattle.nd_access.specs.Items.{item_at_place};
    ghost use Rattle.nd_access.specs.Read.{AreRead};

    ghost Value = { List (Option T) };

    ghost view = { λ items. map (item_at_place items.reader.items) items.places };

    ghost invariant = { λ items. AreRead items.reader.marks (length items.reader.items) items.places };
}

impl<'a, T> Iter<'a, T> {
    /// The items of all indices of a view, in row-major order. The caller ensures that each place of it has an item.
    ///
    /// `[2]`, `[-1]` from 1 over 7 8 9: 8 7. The project's own.
    pub fn new<D: Lengths>(view: &'a Strided<D>, items: &'a [T]) -> Self
        requires { HasItems (length items.now) view.now }
        ensures { result ≡ map (item_at_place items.now) (view_places RowMajor view.now) }
    {
        IterOf::of_reader(Reader::of_slice(items), view.iter_places(Order::RowMajor))
    }
}

/// A row, lent; `None` of none. The caller ensures that it has an item at each place.
#[inline(always)]
fn lent_row<'a, T>(reader: &Reader<'a, T>, row: Option<Row>) -> Option<LentRow<'a, T>>
    requires { IfSome row (IsRowRead reader.now.marks (length reader.now.items)) }
    ensures { result ≡ option_map (row_of reader.now.items) row }
{
    let row = row?;
    Some(LentRow {
        reader: reader.copied(),
        row,
    })
}

impl<'a, T, A: SlowerAxes> IterOf<'a, T, A> {
    /// The items at places, which the caller ensures to have marks.
    #[doc(hidden)]
    #[inline]
    pub fn of_reader(reader: Reader<'a, T>, places: PlacesOf<A>) -> Self
        requires { AreRead reader.marks (length reader.items) places }
        ensures { result ≡ map (item_at_place reader.entry.items) places }
    {
        IterOf { reader, places }
    }

    /// Skips the next `count` items, or all that remain.
    ///
    /// Takes no memory, and no time for each item (`PlacesOf::advance`).
    ///
    /// Of 8 7, after one item: 7. What `nth` of std's iterators skips one by one.
    pub fn advance(&mut self, count: usize)
        ensures { self.new ≡ drop count self.old }
    {
        self.places.advance(count);
    }

    /// Skips the last `count` items, or all that remain.
    ///
    /// Takes no memory, and no time for each item (`PlacesOf::advance_back`).
    ///
    /// Of 8 7, without the last item: 8. What `nth_back` of std's iterators skips one by one.
    pub fn advance_back(&mut self, count: usize)
        ensures { self.new ≡ take (length self.old - count) self.old }
    {
        self.places.advance_back(count);
    }

    /// The items that are left as rows: what is left of the row in progress, the rows that haven't begun, and what is left of the row
    /// in progress at the back.
    #[doc(hidden)]
    #[inline(always)]
    pub fn into_rows_left(
        self,
    ) -> (
        Option<LentRow<'a, T>>,
        LentRowsOf<'a, T, A>,
        Option<LentRow<'a, T>>,
    )
        ensures { self.entry ≡ (items_of_row result.0 ++ rows_items result.1) ++ items_of_row result.2 }
    {
        let IterOf { reader, places } = self;
        let (first, rows, last) = places.into_rows_left();
        let (first, last) = (lent_row(&reader, first), lent_row(&reader, last));
        (first, LentRowsOf::new(reader, rows), last)
    }
}

impl<'a, T, A: SlowerAxes> RowByRow<'a, T> for IterOf<'a, T, A> {
    ghost left = { λ left. left };

    #[inline]
    fn next_row(&mut self) -> Option<LentRow<'a, T>> {
        let row = self.places.next_row()?;
        Some(LentRow {
            reader: self.reader.copied(),
            row,
        })
    }

    #[inline]
    fn next_row_back(&mut self) -> Option<LentRow<'a, T>> {
        let row = self.places.next_row_back()?;
        Some(LentRow {
            reader: self.reader.copied(),
            row,
        })
    }
}

impl<'a, T, A: SlowerAxes> Iterator for IterOf<'a, T, A> {
    type Item = &'a T;

    ghost next_gives = { YieldsFirstBy (λ item. Some item.now) (λ left. left) };

    ghost remaining = { item_count (λ left. left) };

    #[inline(always)]
    fn next(&mut self) -> Option<&'a T> {
        let place = self.places.next()?;
        Some(self.reader.get(place))
    }

    #[inline]
    fn size_hint(&self) -> (usize, Option<usize>)
        ensures lower { IsWithinCount result.0 (item_count (λ left. left) self.now) }
        ensures upper { IfSome result.1 (UpTo (item_count (λ left. left) self.now)) }
        ensures exact { (result.0 ≡ length self.now) × (result.1 ≡ Some (length self.now)) }
    {
        let left = self.len();
        (left, Some(left))
    }
}

impl<'a, T, A: SlowerAxes> DoubleEndedIterator for IterOf<'a, T, A> {
    ghost next_back_gives = { YieldsLastBy (λ item. Some item.now) (λ left. left) };

    #[inline]
    fn next_back(&mut self) -> Option<&'a T> {
        let place = self.places.next_back()?;
        Some(self.reader.get(place))
    }
}

impl<T, A: SlowerAxes> ExactSizeIterator for IterOf<'_, T, A> {
    #[inline]
    fn len(&self) -> usize {
        self.places.len()
    }
}

impl<T, A: SlowerAxes> FusedIterator for IterOf<'_, T, A> {}
