//! The place of an index of a view, and a list of the places of all.
ghost use Rattle.std.specs.List.{All};
ghost use Rattle.std.specs.Option.{option_map};
ghost use Rattle.std.specs.Prelude.{◌≡◌, ◌+◌, ◌<◌, ◌≤◌, ◌^◌, pos, ◌+ℤ◌, ◌*ℤ◌, ◌++◌, map, length, vec_len, vec_capacity, ℕ, IfOk, IsOk, Some, slice_get};
ghost use Rattle.nd_base.specs.FlatIndex.{index_of_flat_in};
ghost use Rattle.nd_base.specs.Bounds.{IsInBounds};
ghost use Rattle.nd_base.specs.Signed.{signed as signed_reading};
ghost use Rattle.nd_base.specs.Size.{size, limit};
ghost use Rattle.ndarray_layout.specs.Rows.{row_places, rows_places};
ghost use Rattle.ndarray_layout.specs.View.{IsPlace, checked_place, view_places, LiesWithin, place_at};

use crate::strided::Strided;
use crate::strided::rows::{Row, Rows};
use nd_base::{Lengths, Order, stride_offset, unsigned};
use nd_dim::product;
use nd_shape::NdIndex;
use std::alloc::{AllocError, Global};

/// Appends the places of rows, one row after another, to a list with room for them.
fn push_rows(mut places: Vec<usize>, rows: Rows<'_>) -> Vec<usize>
    requires in_bounds { All (IsInBounds (2 ^ 63)) (rows_places rows) }
    requires few { length (rows_places rows) ≤ limit }
    requires room { vec_len places + length (rows_places rows) ≤ vec_capacity places }
    ensures items { map pos result.items ≡ map pos places.items ++ rows_places rows.entry }
    ensures len { vec_len result ≡ vec_len places + length (rows_places rows.entry) }
    ensures capacity { vec_capacity result ≡ vec_capacity places }
{
    for row in rows {
        places = push_row(places, row);
    }
    places
}

/// Appends the places of a row. The list is passed by value: through a reference its length would be
/// written at each place, and the loop would not become vector code.
fn push_row(mut places: Vec<usize>, row: Row) -> Vec<usize>
    requires in_bounds { All (IsInBounds (2 ^ 63)) (row_places row.start row.stride row.len) }
    requires few { row.len < 2 ^ 63 }
    requires room { vec_len places + row.len ≤ vec_capacity places }
    ensures items { map pos result.items ≡ map pos places.items
        ++ row_places row.start row.stride row.len }
    ensures len { vec_len result ≡ vec_len places + row.len }
    ensures capacity { vec_capacity result ≡ vec_capacity places }
{
    let stride = unsigned(row.stride);
    for i in 0..row.len {
        places.push_reserved(place_along_axis(row.start, i, stride));
    }
    places
}

/// The place of coordinate `i` of an axis whose first coordinate lies at `start`.
pub(super) fn place_along_axis(start: usize, i: usize, stride: usize) -> usize
    requires small { i < 2 ^ 63 }
    requires first { start ≤ limit }
    requires there { IsPlace (pos start +ℤ (pos i *ℤ signed_reading stride)) }
    ensures { pos result ≡ pos start +ℤ (pos i *ℤ signed_reading stride) }
{
    offset_place(start, stride_offset(i, stride))
}

/// The place at an offset from another one. The caller ensures that neither is greater than
/// `isize::MAX`, and that the new one is not less than 0.
#[inline]
pub(super) fn offset_place(start: usize, offset: isize) -> usize
    requires first { start ≤ limit }
    requires there { IsPlace (pos start +ℤ offset) }
    ensures { pos result ≡ pos start +ℤ offset }
{
    (start as isize + offset) as usize
}

/// The place at an offset from another one, where there is one; else any number.
#[inline(always)]
pub(super) fn place_after(start: usize, offset: isize) -> usize
    requires { start ≤ limit }
    ensures { IsPlace (pos start +ℤ offset) → pos result ≡ pos start +ℤ offset }
{
    start.wrapping_add(unsigned(offset))
}

impl<D: Lengths> Strided<D> {
    /// The place of an index, in elements from the start of the data; `None` where it is no index
    /// of the shape.
    ///
    /// `[2,3]` with strides `[3,1]` from 0: (1,2) lies at 5, and (2,0) nowhere. The project's own.
    pub fn place<I: NdIndex<D>>(&self, index: &I) -> Option<usize>
        ensures { option_map pos result ≡ checked_place self.now (I.index_list index.now) }
    {
        let offset = index.index_checked(&self.dim, &self.strides)?;
        Some(offset_place(self.start, offset))
    }

    /// The places of all indices, in row-major order (the last axis moves fastest) or in
    /// column-major order (the first one does).
    ///
    /// Takes time and memory for each index.
    ///
    /// # Errors
    ///
    /// Out of memory; none where there is no index.
    ///
    /// `[2,3]` with strides `[-3,1]` from 3: 3 4 5 0 1 2 in row-major order, 3 0 4 1 5 2 in
    /// column-major order. The project's own.
    pub fn places(&self, alloc: Global, order: Order) -> Result<Vec<usize>, AllocError>
        ensures items { IfOk result (λ v. map pos v.items ≡ view_places order self.now) }
        ensures len { IfOk result (λ v. vec_len v ≡ size self.now.shape) }
        ensures capacity { IfOk result (λ v. vec_capacity v ≡ size self.now.shape) }
        ensures at_flat_index { IfOk result (λ v. (r : ℕ) → r < size self.now.shape →
            option_map pos (slice_get v.items r)
            ≡ Some (place_at self.now (index_of_flat_in order self.now.shape r))) }
        ensures in_bounds { IfOk result (λ v. (len : ℕ) → LiesWithin len self.now →
            All (λ place. place < len) v.items) }
        ensures memory { size self.now.shape ≡ 0 → IsOk result }
    {
        let size = product(self.dim.slice());
        let places = Vec::with_capacity(alloc, size)?;
        let (shape, strides) = (self.dim.slice(), self.strides.slice());
        Ok(push_rows(places, Rows::of_places(order, self.start, shape, strides)))
    }
}
