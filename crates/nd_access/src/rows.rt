//! Rows of items that are lent to be read, one after another.
ghost use Rattle.std.specs.List.{All};
ghost use Rattle.std.specs.Iterator.{UpTo, YieldsFirst, YieldsLast, item_count};
ghost use Rattle.std.specs.Iterator.SizeHint.{IsWithinCount};
ghost use Rattle.std.specs.Prelude.{◌≡◌, ◌<◌, ◌^◌, ◌↔◌, ◌+ℤ◌, ◌*ℤ◌, pos, None, IfSome, IsSome, IsTrue, List, Some, length, map, option_copied, reverse, slice_index_or};
ghost use Rattle.ndarray_layout.specs.Bounds.{IsInBounds};
ghost use Rattle.nd_access.specs.Backwards.{is_backwards};
ghost use Rattle.nd_access.specs.LentRow.{RowValue, is_contiguous, row_items, row_of};
ghost use Rattle.nd_access.specs.Read.{AreRowsRead};

use crate::cells::Reader;
use ndarray_layout::{LentAxes, Row, RowsOf, SlowerAxes};
use std::iter::FusedIterator;
use std::marker::Model;

/// A row of an array: items that lie evenly among those that are lent. There is at least one. ndarray's one-dimensional
/// `ArrayView`.
#[derive(Drop)]
pub struct LentRow<'a, T> {
    #[doc(hidden)]
    pub reader: Reader<'a, T>,
    #[doc(hidden)]
    pub row: Row,
}

impl<'a, T> Model for LentRow<'a, T> {
    ghost use Rattle.std.specs.Prelude.{length};
    ghost use Rattle.nd_access.specs.LentRow.{RowValue, row_of};
    ghost use Rattle.nd_access.specs.Read.{IsRowRead};

    ghost Value = { RowValue T };

    ghost view = { λ row. row_of row.reader.items row.row };

    ghost invariant = { λ row. IsRowRead row.reader.marks (length row.reader.items) row.row };
}

/// The place of a coordinate of a row. The caller ensures that neither it nor the first place is past an `isize`.
#[inline(always)]
pub fn place_in_row(row: Row, coordinate: usize) -> usize
    requires first { row.start < 2 ^ 63 }
    requires small { coordinate < 2 ^ 63 }
    requires in_bounds { IsInBounds (2 ^ 63) (pos row.start +ℤ (pos coordinate *ℤ row.stride)) }
    ensures { pos result ≡ pos row.start +ℤ (pos coordinate *ℤ row.stride) }
{
    (row.start as isize + coordinate as isize * row.stride) as usize
}

/// Whether the places of a row lie side by side.
#[inline(always)]
pub fn is_contiguous(row: Row) -> bool
    ensures { result ≡ is_contiguous row }
{
    row.stride == 1 || row.len <= 1
}

impl<'a, T> LentRow<'a, T> {
    /// How many items it has.
    #[inline]
    pub fn len(&self) -> usize
        ensures len { result ≡ self.now.row.len }
        ensures count { result ≡ length (row_items self.now) }
    {
        self.row.len
    }

    /// The items as a slice, where they follow one another: by the stride 1, or if there is one; else `None`.
    ///
    /// Of `[2,2]` over 5 6 7 8 the second row is 7 8; the transpose has `None`. ndarray's `to_slice` of a row.
    #[inline]
    pub fn as_slice(&self) -> Option<&'a [T]>
        ensures found { IsSome result ↔ IsTrue (is_contiguous self.now.row) }
        ensures items { IfSome result (λ slice. map Some slice.now ≡ row_items self.now) }
    {
        let row = self.row;
        if !is_contiguous(row) {
            return None;
        }
        Some(self.reader.slice(row.start, row.len))
    }

    /// The row as all of a slice, where the items follow one another; else `None`.
    #[inline(always)]
    #[doc(hidden)]
    pub fn alone(&self) -> Option<LentRow<'a, T>>
        ensures items { IfSome result (λ row. row_items row ≡ row_items self.now) }
        ensures len { IfSome result (λ row. row.row.len ≡ self.now.row.len) }
    {
        let len = self.row.len;
        let items = self.as_slice()?;
        let row = Row {
            start: 0,
            stride: 1,
            len,
        };
        Some(LentRow {
            reader: Reader::of_slice(items),
            row,
        })
    }

    /// The items as a slice, the last one first, where each lies just before the one that it follows: by the stride -1; else `None`.
    ///
    /// Of `[2]`, `[-1]` from 1 over 7 8 9: 7 8, of which 8 is the first item. The project's own.
    #[inline]
    #[doc(hidden)]
    pub fn as_slice_backwards(&self) -> Option<&'a [T]>
        ensures found { IsSome result ↔ IsTrue (is_backwards self.now.row) }
        ensures items { IfSome result (λ slice. reverse (map Some slice.now) ≡ row_items self.now) }
    {
        let row = self.row;
        if row.stride != -1 {
            return None;
        }
        Some(self.reader.slice(row.start + 1 - row.len, row.len))
    }

    /// The item of a coordinate. The caller ensures that it is one of the row.
    #[inline(always)]
    #[doc(hidden)]
    pub fn item(&self, coordinate: usize) -> &'a T
        requires { coordinate < self.now.row.len }
        ensures { slice_index_or (row_items self.now) coordinate None ≡ Some result.now }
    {
        self.reader.get(place_in_row(self.row, coordinate))
    }

    /// The item of a coordinate; `None` where it is past the row.
    ///
    /// Of `[2,2]` over 5 6 7 8, the second row at 0: 7; at 2: `None`. ndarray's `get` of a row.
    #[inline]
    pub fn get(&self, coordinate: usize) -> Option<&'a T>
        ensures found { IsSome result ↔ (coordinate < self.now.row.len) }
        ensures item { option_copied result ≡ slice_index_or (row_items self.now) coordinate None }
    {
        if coordinate >= self.row.len {
            return None;
        }
        Some(self.item(coordinate))
    }
}

/// Rows of an array that are still to come, in row-major order, from both ends, each lent: `LentRows` where the view is borrowed. A
/// contract sees the list of them.
#[derive(Drop)]
pub struct LentRowsOf<'a, T, A: SlowerAxes> {
    reader: Reader<'a, T>,
    rows: RowsOf<A>,
}

/// The rows of an array that are still to come, in row-major order, from both ends, each lent. A contract sees the list of them.
pub type LentRows<'a, T> = LentRowsOf<'a, T, LentAxes<'a>>;

impl<'a, T, A: SlowerAxes> Model for LentRowsOf<'a, T, A> {
    ghost use Rattle.std.specs.Prelude.{List, length, map};
    ghost use Rattle.nd_access.specs.LentRow.{RowValue, row_of};
    ghost use Rattle.nd_access.specs.Read.{AreRowsRead};

    ghost Value = { List (RowValue T) };

    ghost view = { λ rows. map (row_of rows.reader.items) rows.rows };

    ghost invariant = { λ rows. AreRowsRead rows.reader.marks (length rows.reader.items) rows.rows };
}

impl<'a, T, A: SlowerAxes> LentRowsOf<'a, T, A> {
    /// These rows, each lent. The caller ensures that each has an item at each place.
    #[doc(hidden)]
    pub fn new(reader: Reader<'a, T>, rows: RowsOf<A>) -> Self
        requires { AreRowsRead reader.marks (length reader.items) rows }
        ensures { result ≡ map (row_of reader.entry.items) rows }
    {
        LentRowsOf { reader, rows }
    }

    /// How many items each row has; unspecified where none is left.
    #[doc(hidden)]
    #[inline]
    pub fn row_len(&self) -> usize
        ensures { All (λ row. row.row.len ≡ result) self.now }
    {
        self.rows.row_len()
    }
}

impl<'a, T, A: SlowerAxes> Iterator for LentRowsOf<'a, T, A> {
    type Item = LentRow<'a, T>;

    ghost next_gives = { YieldsFirst (λ left. left) };

    ghost remaining = { item_count (λ left. left) };

    #[inline]
    fn next(&mut self) -> Option<LentRow<'a, T>> {
        let row = self.rows.next()?;
        Some(LentRow {
            reader: self.reader.copied(),
            row,
        })
    }

    fn size_hint(&self) -> (usize, Option<usize>)
        ensures lower { IsWithinCount result.0 (item_count (λ left. left) self.now) }
        ensures upper { IfSome result.1 (UpTo (item_count (λ left. left) self.now)) }
        ensures exact { (result.0 ≡ length self.now) × (result.1 ≡ Some (length self.now)) }
    {
        self.rows.size_hint()
    }
}

impl<'a, T, A: SlowerAxes> DoubleEndedIterator for LentRowsOf<'a, T, A> {
    ghost next_back_gives = { YieldsLast (λ left. left) };

    #[inline]
    fn next_back(&mut self) -> Option<LentRow<'a, T>> {
        let row = self.rows.next_back()?;
        Some(LentRow {
            reader: self.reader.copied(),
            row,
        })
    }
}

impl<T, A: SlowerAxes> ExactSizeIterator for LentRowsOf<'_, T, A> {
    fn len(&self) -> usize {
        self.rows.len()
    }
}

impl<T, A: SlowerAxes> FusedIterator for LentRowsOf<'_, T, A> {}
