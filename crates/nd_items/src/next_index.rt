//! The indices that an iterator over items has still to give: the row in progress, and in it the last coordinate as a number.
ghost use Rattle.std.specs.List.{All};
ghost use Rattle.std.specs.Prelude.{◌≡◌, ◌+◌, ◌<◌, IfErr, IfOk, IsOk, MatchOption, [], ◌∷◌, length, true};
ghost use Rattle.ndarray_layout.specs.declared.Order.TheVariants.{RowMajor};
ghost use Rattle.ndarray_layout.specs.FlatIndex.{flat_index, index_of_flat};
ghost use Rattle.ndarray_layout.specs.Indices.{indices_in, is_index};
ghost use Rattle.ndarray_layout.specs.Memory.{NeedsNoMemory};
ghost use Rattle.ndarray_layout.specs.Size.{size};
ghost use Rattle.nd_items.specs.private.IndexRow.{StandsInRow, left_from, row_len, row_start, with_last};

use ndarray_layout::{Lengths, advance_row_major};
use std::alloc::{AllocError, Global};
use std::marker::Model;

/// Where an iterator stands in a row of indices: the last coordinate of the index that comes next, how long the row is, and how many
/// indices come after it.
#[derive(Clone, Copy)]
pub(crate) struct InRow {
    last: usize,
    len: usize,
    after: usize,
}

impl InRow {
    /// At an index, with which `left` are left.
    #[inline]
    fn of(shape: &[usize], index: &[usize], left: usize) -> InRow
        requires here { is_index shape.now index.now ≡ true }
        requires left { flat_index shape.now index.now + left ≡ size shape.now }
        ensures stands { StandsInRow shape.now index.now result }
        ensures left { left_from result ≡ left }
        ensures last { result.last < result.len }
    {
        let last = index.last().copied().unwrap_or(0);
        let len = shape.last().copied().unwrap_or(1);
        InRow {
            last,
            len,
            after: left - (len - last),
        }
    }
}

/// The indices of a shape that are still to come, in row-major order. A contract sees the list of them. The project's own.
#[derive(Drop)]
pub struct NextIndex<D: Lengths> {
    dim: D,
    // An index of the row in progress, whatever its last coordinate is.
    row: D,
    at: InRow,
}

impl<D: Lengths> Model for NextIndex<D> {
    ghost use Rattle.std.specs.Prelude.{ℕ, List};
    ghost use Rattle.ndarray_layout.specs.declared.Order.TheVariants.{RowMajor};
    ghost use Rattle.ndarray_layout.specs.IndicesLeft.{indices_left};
    ghost use Rattle.nd_items.specs.private.IndexRow.{StandsInRow, left_from};

    ghost Value = { List (List ℕ) };

    ghost view = { λ next. indices_left RowMajor (D.list next.dim) (left_from next.at) };

    ghost invariant = { λ next. StandsInRow (D.list next.dim) (D.list next.row) next.at };
}

/// A row's index with a last coordinate; without axes the row's one index.
/// Errors: out of memory.
#[inline(always)]
fn index_in_row<D: Lengths>(alloc: Global, row: &D, last: usize) -> Result<D, AllocError>
    ensures index { IfOk result (λ index. D.list index ≡ with_last (D.list row.now) last) }
    ensures memory { NeedsNoMemory D.NDIM (length (D.list row.now)) → IsOk result }
{
    let mut index = row.duplicate(alloc)?;
    let coordinates = index.slice_mut();
    if let Some(coordinate) = coordinates.last_mut() {
        *coordinate = last;
    }
    Ok(index)
}

/// The first index of the row after that of an index, whose rows have `len` indices. The caller ensures that there is one.
/// Errors: out of memory.
#[inline(always)]
fn row_after<D: Lengths>(alloc: Global, dim: &D, row: &D, len: usize) -> Result<D, AllocError>
    requires here { is_index (D.list dim.now) (D.list row.now) ≡ true }
    requires len { len ≡ row_len (D.list dim.now) }
    requires more { row_start (D.list dim.now) (D.list row.now) + len < size (D.list dim.now) }
    ensures next { IfOk result (λ next. D.list next ≡
        index_of_flat (D.list dim.now) (row_start (D.list dim.now) (D.list row.now) + len)) }
    ensures memory { NeedsNoMemory D.NDIM (length (D.list row.now)) → IsOk result }
{
    let mut index = index_in_row(alloc, row, len - 1)?;
    let _has_next = advance_row_major(dim.slice(), index.slice_mut());
    Ok(index)
}

impl<D: Lengths> NextIndex<D> {
    /// All indices of a shape. The caller ensures that they are `count`.
    ///
    /// # Errors
    ///
    /// Out of memory; never where the type fixes the count of axes or there are at most 4.
    #[inline]
    #[doc(hidden)]
    pub fn first(alloc: Global, dim: &D, count: usize) -> Result<Self, AllocError>
        requires { count ≡ size (D.list dim.now) }
        ensures indices { IfOk result (λ left. left ≡ indices_in RowMajor (D.list dim.now)) }
        ensures memory { NeedsNoMemory D.NDIM (length (D.list dim.now)) → IsOk result }
    {
        let dim = dim.duplicate(alloc)?;
        let row = D::zeros(alloc, dim.ndim())?;
        let at = if count == 0 {
            InRow {
                last: 0,
                len: 0,
                after: 0,
            }
        } else {
            InRow::of(dim.slice(), row.slice(), count)
        };
        Ok(NextIndex { dim, row, at })
    }

    /// The next index; `None` where none is left.
    ///
    /// # Errors
    ///
    /// Out of memory; never where the type fixes the count of axes, there are at most 4, or none is left. The indices that are left are
    /// unchanged after it.
    ///
    /// Takes time in proportion to the count of axes; where the type fixes that, only once a row.
    ///
    /// Of `[2,2]`: (0,0), then (0,1), (1,0), (1,1), and then `None`. The project's own.
    #[inline(always)]
    #[doc(hidden)]
    pub fn take(&mut self, alloc: Global) -> Result<Option<D>, AllocError>
        ensures memory { All (λ index. NeedsNoMemory D.NDIM (length index)) self.old → IsOk result }
        ensures unchanged { IfErr result (λ _. self.new ≡ self.old) }
        ensures first { IfOk result (λ next. MatchOption next
            ((self.old ≡ []) × (self.new ≡ []))
            (λ index. self.old ≡ D.list index ∷ self.new)) }
    {
        if self.at.last < self.at.len {
            let index = index_in_row(alloc, &self.row, self.at.last)?;
            self.at.last += 1;
            return Ok(Some(index));
        }
        if self.at.after == 0 {
            return Ok(None);
        }
        let index = row_after(alloc, &self.dim, &self.row, self.at.len)?;
        self.row.slice_mut().copy_from_slice(index.slice());
        self.at = InRow::of(self.dim.slice(), index.slice(), self.at.after);
        self.at.last += 1;
        Ok(Some(index))
    }
}
