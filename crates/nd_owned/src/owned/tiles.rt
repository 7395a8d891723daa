//! Many parts of one shape: a slice that is checked once, and moved along the axes.
ghost use Rattle.std.specs.List.{All, AllPairs};
ghost use Rattle.std.specs.Prelude.{◌≡◌, ◌≢◌, ◌≤◌, Some, None, IfOk, IsTrue, IsOk, OnErr, OnOk, [], ◌∷◌, length, map};
ghost use Rattle.ndarray_layout.specs.declared.ErrorKind.TheVariants.{IncompatibleLayout};
ghost use Rattle.ndarray_layout.specs.declared.Fit.TheVariants.{Strict};
ghost use Rattle.ndarray_layout.specs.declared.Order.TheVariants.{RowMajor};
ghost use Rattle.ndarray_layout.specs.Indices.{is_index};
ghost use Rattle.ndarray_layout.specs.Rows.{rows_places};
ghost use Rattle.ndarray_layout.specs.ShapeFault.{shape_fault};
ghost use Rattle.ndarray_layout.specs.Size.{size};
ghost use Rattle.ndarray_layout.specs.SlicedLayout.{sliced_shape};
ghost use Rattle.ndarray_layout.specs.SlicedView.{slice_of};
ghost use Rattle.ndarray_layout.specs.SliceFault.{argument_fault};
ghost use Rattle.ndarray_layout.specs.View.{view_places};
ghost use Rattle.nd_lent.specs.Items.{item_at_place};
ghost use Rattle.nd_lent.specs.LentRow.{places_of};
ghost use Rattle.nd_owned.specs.Moved.{move_fault, moves, ready_at, set_fault};
ghost use Rattle.nd_owned.specs.MultiSet.{IsWritten, KeepsOthers};
ghost use Rattle.nd_owned.specs.private.MovedRows.{CanMove, IsOffset, moved_rows};
ghost use Rattle.nd_owned.specs.private.OneOrMany.{items_of};
ghost use Rattle.nd_owned.specs.private.Written.{AreInBounds, HasWritten};
ghost use Rattle.std.specs.Result.{result_err};

use crate::one_or_many::OneOrMany;
use crate::owned::OwnedArray;
use crate::ready::ReadySlice;
use crate::rows::{read_moved_rows, write_moved_rows};
use ndarray_layout::{
    ErrorKind, LayoutError, Lengths, Row, ShapeError, SliceElems, Strided, from_kind,
};
use std::alloc::{AllocError, Global};
use std::slice;

impl<T: Drop, D: Lengths> OwnedArray<T, D> {
    /// A slice that is checked once on the layout of the array, for many tiles of one shape: `items_of` and `set_items_of` move it
    /// along the axes, and check no more than by how many coordinates.
    ///
    /// Takes memory for the elements and the rows of the slice where there are several, and time for each row. It lends nothing of the
    /// array, and arrays of the same layout may share it.
    ///
    /// # Errors
    ///
    /// Those of `check_slice` on the shape, then out of memory; never where the slice has at most one element, as `..2` on `[4]`.
    ///
    /// `..2,..2` on `[3,4]` can be moved by (0,0) to (1,2). The project's own, in place of ndarray's `windows`, which lends.
    pub fn ready<S: SliceElems>(
        &self,
        alloc: Global,
        slices: &S,
    ) -> Result<ReadySlice<D>, LayoutError>
        ensures fault { shape_fault result ≡
            argument_fault Strict self.now.view.shape (S.list slices.now) }
        ensures layout { IfOk result (λ ready. ready.view ≡ self.now.view) }
        ensures slice { IfOk result (λ ready. ready.elems ≡ S.list slices.now) }
        ensures memory { shape_fault result ≡ None → length (S.list slices.now) ≤ 1 → IsOk result }
    {
        ReadySlice::new(alloc, self.strided(), slices)
    }
}

/// How far a slice moves by an index on a layout, or 0 where it picks nothing. Errors: `IncompatibleLayout` where it was checked on
/// another layout, then `OutOfBounds`.
#[inline(always)]
fn offset_on<D: Lengths>(
    ready: &ReadySlice<D>,
    view: &Strided<D>,
    by: &D,
) -> Result<isize, ShapeError>
    ensures layout { (ready.now.view ≡ view.now → ⊥) → result_err result ≡ Some IncompatibleLayout }
    ensures fault { ready.now.view ≡ view.now → result_err result ≡ move_fault ready.now (D.list by.now) }
    ensures same { OnOk result (ready.now.view ≡ view.now) }
    ensures index { OnOk result (IsTrue (is_index (moves ready.now.elems ready.now.view.shape) (D.list by.now))) }
    ensures offset { IfOk result (λ offset. IsOffset ready.now (D.list by.now) offset) }
{
    if !ready.is_of(view) {
        return Err(from_kind(ErrorKind::IncompatibleLayout));
    }
    match ready.offset(by) {
        Some(offset) => Ok(offset),
        None => Err(from_kind(ErrorKind::OutOfBounds)),
    }
}

/// Copies of the items at the places of rows that lie at an offset from these, as `read_moved_rows` makes them; a single row takes no
/// loop.
#[inline(always)]
fn read_moved<T: Copy>(
    alloc: Global,
    rows: &OneOrMany<Row>,
    offset: isize,
    count: usize,
    stored: &[T],
) -> Result<Vec<T>, AllocError>
    requires starts { All (CanMove offset) (items_of rows.now) }
    requires in_bounds { All (λ row. AreInBounds (length stored.now) (places_of row))
        (moved_rows offset (items_of rows.now)) }
    requires count { count ≡ length (rows_places (moved_rows offset (items_of rows.now))) }
    ensures items { IfOk result (λ v. map Some v.items
        ≡ map (item_at_place stored.now) (rows_places (moved_rows offset (items_of rows.now)))) }
    ensures memory { count ≡ 0 → IsOk result }
{
    match rows {
        OneOrMany::One(row) => read_moved_rows(alloc, slice::from_ref(row), offset, count, stored),
        OneOrMany::Many(rows) => read_moved_rows(alloc, rows.as_slice(), offset, count, stored),
    }
}

/// Writes an item at each place of rows that lie at an offset from these, as `write_moved_rows` does; a single row takes no loop.
#[inline(always)]
fn write_moved<T: Copy>(stored: &mut [T], rows: &OneOrMany<Row>, offset: isize, items: &[T])
    requires starts { All (CanMove offset) (items_of rows.now) }
    requires in_bounds { All (λ row. AreInBounds (length stored.old) (places_of row))
        (moved_rows offset (items_of rows.now)) }
    requires count { length (rows_places (moved_rows offset (items_of rows.now))) ≡ length items.now }
    ensures { AllPairs (λ one other. one ≢ other) (rows_places (moved_rows offset (items_of rows.now))) →
        HasWritten (rows_places (moved_rows offset (items_of rows.now))) items.now stored.old stored.new }
{
    match rows {
        OneOrMany::One(row) => write_moved_rows(stored, slice::from_ref(row), offset, items),
        OneOrMany::Many(rows) => write_moved_rows(stored, rows.as_slice(), offset, items),
    }
}

impl<T: Copy, D: Lengths> OwnedArray<T, D> {
    /// Copies of the items of a slice that is moved by an index, in row-major order: those that `items` returns for the slice with
    /// the coordinates of `by` added to its bounds and indices.
    ///
    /// `ready` is a slice that was checked on the layout of this array, and `by` has a coordinate below `ready.moves()` for each axis.
    ///
    /// # Errors
    ///
    /// `IncompatibleLayout` where `ready` was checked on another layout; then `OutOfBounds` where the slice can't be moved so; then out
    /// of memory, never where it picks nothing.
    ///
    /// `..2,..2` of `[3,4]` over 0 to 11, moved by (1,2): 6 7 10 11. The project's own.
    #[inline]
    pub fn items_of(
        &self,
        alloc: Global,
        ready: &ReadySlice<D>,
        by: &D,
    ) -> Result<Vec<T>, LayoutError>
        ensures layout { (ready.now.view ≡ self.now.view → ⊥) → shape_fault result ≡ Some IncompatibleLayout }
        ensures fault { ready.now.view ≡ self.now.view → shape_fault result ≡ move_fault ready.now (D.list by.now) }
        ensures items { IfOk result (λ v. map Some v.items ≡ map (item_at_place self.now.items)
            (view_places RowMajor (slice_of Strict (ready_at ready.now (D.list by.now)) self.now.view))) }
        ensures memory { shape_fault result ≡ None
            → size (sliced_shape Strict ready.now.elems self.now.view.shape) ≡ 0 → IsOk result }
    {
        let offset = offset_on(ready, &self.view, by)?;
        let items = read_moved(
            alloc,
            ready.rows(),
            offset,
            ready.count(),
            self.items.as_slice(),
        )?;
        Ok(items)
    }

    /// Writes items at a slice that is moved by an index, in row-major order, as `multi_set` writes them at the slice with the coordinates
    /// of `by` added to its bounds and indices. All other items are unchanged, spare ones too.
    ///
    /// `ready` is a slice that was checked on the layout of this array, and `by` has a coordinate below `ready.moves()` for each axis.
    ///
    /// # Errors
    ///
    /// `IncompatibleLayout` where `ready` was checked on another layout; then `OutOfBounds` where the slice can't be moved so; then
    /// `IncompatibleShape` where there are more items or fewer than it picks. The array is unchanged after an error.
    ///
    /// Takes no memory. 5 6 7 8 at `..2,..2` of `[3,4]` over 0 to 11, moved by (1,2): 0 1 2 3 4 5 5 6 8 9 7 8. The project's own.
    #[inline]
    pub fn set_items_of(
        &mut self,
        ready: &ReadySlice<D>,
        by: &D,
        items: &[T],
    ) -> Result<(), ShapeError>
        ensures layout { (ready.now.view ≡ self.old.view → ⊥) → result_err result ≡ Some IncompatibleLayout }
        ensures fault { ready.now.view ≡ self.old.view
            → result_err result ≡ set_fault ready.now (D.list by.now) (length items.now) }
        ensures unchanged { OnErr result (self.new ≡ self.old) }
        ensures view { self.new.view ≡ self.old.view }
        ensures count { length self.new.items ≡ length self.old.items }
        ensures written { OnOk result (IsWritten self.old.view self.new.items (record {
          slice = ready_at ready.now (D.list by.now);
          items = items.now;
        })) }
        ensures others { OnOk result (KeepsOthers self.old.view (record {
          slice = ready_at ready.now (D.list by.now);
          items = items.now;
        } ∷ []) self.old.items self.new.items) }
    {
        let offset = offset_on(ready, &self.view, by)?;
        if ready.count() != items.len() {
            return Err(from_kind(ErrorKind::IncompatibleShape));
        }
        write_moved(self.items.as_mut_slice(), ready.rows(), offset, items);
        Ok(())
    }
}
