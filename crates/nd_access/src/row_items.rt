//! The items of a row one after another, lent for as long as the data is.
ghost use Rattle.std.specs.Borrow.{Bor};
ghost use Rattle.std.specs.Iterator.{UpTo, YieldsFirstBy, YieldsLastBy, item_count};
ghost use Rattle.std.specs.Iterator.Runs.{EveryRun, ItemsMapTo};
ghost use Rattle.std.specs.Iterator.SizeHint.{IsWithinCount};
ghost use Rattle.std.specs.Prelude.{◌≡◌, ◌-◌, ◌<◌, [], IfSome, List, MatchOption, Option, Some, drop, length, take};
ghost use Rattle.nd_access.specs.LentRow.{row_items};

use crate::cells::Reader;
use crate::row_by_row::RowByRow;
use crate::rows::{LentRow, place_in_row};
use ndarray_layout::Row;
use std::iter::FusedIterator;
use std::marker::Model;

/// The items of a row that are still to come, from both ends, each lent for as long as the data is. A contract sees the list of
/// them. ndarray's `Iter` of a row.
#[derive(Drop)]
pub struct RowItems<'a, T> {
    reader: Reader<'a, T>,
    row: Row,
    // The coordinate that comes next, and the one after the last that is left.
    begun: usize,
    end: usize,
}

impl<'a, T> Model for RowItems<'a, T> {
    ghost use Rattle.std.specs.Prelude.{List, Option, length};
    ghost use Rattle.nd_access.specs.LentRow.{row_of};
    ghost use Rattle.nd_access.specs.Read.{IsRowLeftRead};
    ghost use Rattle.nd_access.specs.RowItemsLeft.{row_items_left};

    ghost Value = { List (Option T) };

    ghost view = { λ left. row_items_left (row_of left.reader.items left.row) left.begun left.end };

    ghost invariant = { λ left.
        IsRowLeftRead left.reader.marks (length left.reader.items) left.row left.begun left.end };
}

impl<'a, T> RowItems<'a, T> {
    /// The items that are left, as a row; `None` where none is.
    #[inline]
    fn rest(&mut self) -> Option<LentRow<'a, T>>
        ensures { MatchOption result ((self.old ≡ []) × (self.new ≡ []))
            (λ row. (0 < row.row.len) × (self.old ≡ row_items row) × (self.new ≡ [])) }
    {
        if self.begun == self.end {
            return None;
        }
        let row = Row {
            start: place_in_row(self.row, self.begun),
            stride: self.row.stride,
            len: self.end - self.begun,
        };
        self.begun = self.end;
        Some(LentRow {
            reader: self.reader.copied(),
            row,
        })
    }

    /// Skips the next `count` items, or all that remain.
    ///
    /// Of a row of 5 6 7, after two items: 7. What `nth` of std's iterators skips one by one.
    pub fn advance(&mut self, count: usize)
        ensures { self.new ≡ drop count self.old }
    {
        self.begun += count.min(self.end - self.begun);
    }

    /// Skips the last `count` items, or all that remain.
    ///
    /// Of a row of 5 6 7, without the last two: 5. What `nth_back` of std's iterators skips one by one.
    pub fn advance_back(&mut self, count: usize)
        ensures { self.new ≡ take (length self.old - count) self.old }
    {
        self.end -= count.min(self.end - self.begun);
    }
}

impl<'a, T> RowByRow<'a, T> for RowItems<'a, T> {
    ghost left = { λ left. left };

    #[inline]
    fn next_row(&mut self) -> Option<LentRow<'a, T>> {
        self.rest()
    }

    #[inline]
    fn next_row_back(&mut self) -> Option<LentRow<'a, T>> {
        self.rest()
    }
}

impl<'a, T> Iterator for RowItems<'a, T> {
    type Item = &'a T;

    ghost next_gives = { YieldsFirstBy (λ item. Some item.now) (λ left. left) };

    ghost remaining = { item_count (λ left. left) };

    #[inline]
    fn next(&mut self) -> Option<&'a T> {
        if self.begun == self.end {
            return None;
        }
        let row = LentRow {
            reader: self.reader.copied(),
            row: self.row,
        };
        let item = row.item(self.begun);
        self.begun += 1;
        Some(item)
    }

    #[inline]
    fn size_hint(&self) -> (usize, Option<usize>)
        ensures lower { IsWithinCount result.0 (item_count (λ left. left) self.now) }
        ensures upper { IfSome result.1 (UpTo (item_count (λ left. left) self.now)) }
        ensures exact { (result.0 ≡ length self.now) × (result.1 ≡ Some (length self.now)) }
    {
        let left = self.len();
        (left, Some(left))
    }
}

impl<'a, T> DoubleEndedIterator for RowItems<'a, T> {
    ghost next_back_gives = { YieldsLastBy (λ item. Some item.now) (λ left. left) };

    #[inline]
    fn next_back(&mut self) -> Option<&'a T> {
        if self.begun == self.end {
            return None;
        }
        self.end -= 1;
        let row = LentRow {
            reader: self.reader.copied(),
            row: self.row,
        };
        Some(row.item(self.end))
    }
}

impl<T> ExactSizeIterator for RowItems<'_, T> {
    #[inline]
    fn len(&self) -> usize {
        self.end - self.begun
    }
}

impl<T> FusedIterator for RowItems<'_, T> {}

/// Iterates over the items of the row.
///
/// Takes no memory. An item costs a product.
///
/// Of `[2,2]` over 5 6 7 8 the second row gives 7 8. ndarray's `into_iter` of a row.
impl<'a, T> IntoIterator for LentRow<'a, T> {
    type Item = &'a T;

    type IntoIter = RowItems<'a, T>;

    ghost into_iter_gives = { λ row left. (left ≡ row_items row)
        × EveryRun (YieldsFirstBy (λ (item : Bor T). Some item.now) (λ (items : List (Option T)). items))
        (λ turns. ItemsMapTo turns (λ (item : Bor T). Some item.now) turns.from) };

    #[inline]
    fn into_iter(self) -> RowItems<'a, T> {
        let LentRow { reader, row } = self;
        RowItems {
            reader,
            row,
            begun: 0,
            end: row.len,
        }
    }
}
