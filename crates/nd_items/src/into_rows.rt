//! The rows of an array one after another, lent for as long as the data is: the iterator has the view.
ghost use Rattle.std.specs.Iterator.{UpTo, YieldsFirst, YieldsLast, item_count};
ghost use Rattle.std.specs.Iterator.Runs.{YieldsInOrder};
ghost use Rattle.std.specs.Iterator.SizeHint.{IsWithinCount};
ghost use Rattle.std.specs.Prelude.{◌≡◌, ◌-◌, IfSome, List, Some, drop, length, map, take};
ghost use Rattle.ndarray_layout.specs.declared.Order.TheVariants.{RowMajor};
ghost use Rattle.ndarray_layout.specs.Rows.{view_rows};
ghost use Rattle.ndarray_layout.specs.View.{view_places};
ghost use Rattle.nd_access.specs.Items.{item_at_place};
ghost use Rattle.nd_access.specs.LentRow.{RowValue, row_of, rows_items};
ghost use Rattle.nd_access.specs.Read.{IsRead};

use nd_access::{LentRow, Reader};
use ndarray_layout::{Lengths, Order, Strided, StridedRows};
use std::iter::FusedIterator;
use std::marker::Model;

/// The rows of an array that are still to come, in row-major order, from both ends, each lent for as long as the data is. A
/// contract sees the list of them. ndarray's `Lanes`.
#[derive(Drop)]
pub struct IntoRows<'a, T, D: Lengths> {
    reader: Reader<'a, T>,
    rows: StridedRows<D>,
}

impl<'a, T, D: Lengths> Model for IntoRows<'a, T, D> {
    ghost use Rattle.std.specs.Prelude.{List, length, map};
    ghost use Rattle.nd_access.specs.LentRow.{RowValue, row_of};
    ghost use Rattle.nd_access.specs.Read.{AreRowsRead};

    ghost Value = { List (RowValue T) };

    ghost view = { λ left. map (row_of left.reader.items) left.rows };

    ghost invariant = { λ left. AreRowsRead left.reader.marks (length left.reader.items) left.rows };
}

impl<'a, T, D: Lengths> IntoRows<'a, T, D> {
    /// The rows of a view along its last axis. The caller ensures that each index has an item.
    #[doc(hidden)]
    #[inline]
    pub fn of_reader(reader: Reader<'a, T>, view: Strided<D>) -> Self
        requires { IsRead reader.marks (length reader.items) view }
        ensures rows { result ≡ map (row_of reader.entry.items) (view_rows RowMajor view) }
        ensures items { rows_items result ≡ map (item_at_place reader.entry.items) (view_places RowMajor view) }
        ensures in_order { YieldsInOrder
            (YieldsFirst (λ (left : List (RowValue T)). left)) (λ left. left) }
    {
        IntoRows {
            reader,
            rows: view.into_rows(Order::RowMajor),
        }
    }

    /// Skips the next `count` rows, or all that remain.
    ///
    /// Takes no time for each row, and a division for each axis but that of the rows (`RowsOf::advance`).
    ///
    /// Of the rows of `[2,2]` over 5 6 7 8, after one row: 7 8. What `nth` of std's iterators skips one by one.
    pub fn advance(&mut self, count: usize)
        ensures { self.new ≡ drop count self.old }
    {
        self.rows.advance(count);
    }

    /// Skips the last `count` rows, or all that remain.
    ///
    /// Takes no time for each row, and has the last one cost a division (`RowsOf::advance_back`).
    ///
    /// Of the rows of `[2,2]` over 5 6 7 8, without the last row: 5 6. What `nth_back` of std's iterators skips one by one.
    pub fn advance_back(&mut self, count: usize)
        ensures { self.new ≡ take (length self.old - count) self.old }
    {
        self.rows.advance_back(count);
    }
}

impl<'a, T, D: Lengths> Iterator for IntoRows<'a, T, D> {
    type Item = LentRow<'a, T>;

    ghost next_gives = { YieldsFirst (λ left. left) };

    ghost remaining = { item_count (λ left. left) };

    #[inline]
    fn next(&mut self) -> Option<LentRow<'a, T>> {
        let row = self.rows.next()?;
        Some(LentRow {
            reader: self.reader.copied(),
            row,
        })
    }

    #[inline]
    fn size_hint(&self) -> (usize, Option<usize>)
        ensures lower { IsWithinCount result.0 (item_count (λ left. left) self.now) }
        ensures upper { IfSome result.1 (UpTo (item_count (λ left. left) self.now)) }
        ensures exact { (result.0 ≡ length self.now) × (result.1 ≡ Some (length self.now)) }
    {
        self.rows.size_hint()
    }
}

impl<'a, T, D: Lengths> DoubleEndedIterator for IntoRows<'a, T, D> {
    ghost next_back_gives = { YieldsLast (λ left. left) };

    #[inline]
    fn next_back(&mut self) -> Option<LentRow<'a, T>> {
        let row = self.rows.next_back()?;
        Some(LentRow {
            reader: self.reader.copied(),
            row,
        })
    }
}

impl<'a, T, D: Lengths> ExactSizeIterator for IntoRows<'a, T, D> {
    fn len(&self) -> usize {
        self.rows.len()
    }
}

impl<'a, T, D: Lengths> FusedIterator for IntoRows<'a, T, D> {}
